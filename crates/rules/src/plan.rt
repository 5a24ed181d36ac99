ghost use Rattle.std.specs.Prelude.{◌≤◌};

pub mod places;
mod sizes;
pub mod zones;

// The sizes of a pool and its first request number. A plan is had only through the check of `Plan::new`, so every plan is in range.
#[derive(Clone, Copy)]
pub struct Plan {
    zones: u8,
    places: u8,
    first_number: u32,
    ghost zones_range: { (2 ≤ zones) × (zones ≤ 8) },
    ghost places_range: { (1 ≤ places) × (places ≤ 32) },
    ghost first_range: { 1 ≤ first_number },
}
