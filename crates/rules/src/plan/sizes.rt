// How a plan is made and read.
ghost use Rattle.std.specs.Prelude.{◌≡◌, ◌≤◌};
ghost use Rattle.rules.specs.Plans.{zones_fit, places_fit, planned, read_plan};

use crate::plan::Plan;
use messages::refusals::Refusal;

fn zones_fit(zones: u8) -> bool
    ensures { result ≡ zones_fit zones }
{
    (2..=8).contains(&zones)
}

fn places_fit(places: u8) -> bool
    ensures { result ≡ places_fit places }
{
    (1..=32).contains(&places)
}

impl Plan {
    // Checks zones, then places, then the first number.
    pub fn new(zones: u8, places: u8, first_number: u32) -> Result<Plan, Refusal>
        ensures { read_plan result ≡ planned zones places first_number }
    {
        if !zones_fit(zones) {
            return Err(Refusal::ZonesOutOfRange);
        }
        if !places_fit(places) {
            return Err(Refusal::PlacesOutOfRange);
        }
        if first_number == 0 {
            return Err(Refusal::FirstNumberZero);
        }
        Ok(Plan {
            zones,
            places,
            first_number,
        })
    }

    pub fn zones(self) -> u8
        ensures value { result ≡ self.zones }
        ensures in_range { (2 ≤ result) × (result ≤ 8) }
    {
        self.zones
    }

    pub fn places(self) -> u8
        ensures value { result ≡ self.places }
        ensures in_range { (1 ≤ result) × (result ≤ 32) }
    {
        self.places
    }

    pub fn first_number(self) -> u32
        ensures value { result ≡ self.first_number }
        ensures in_range { 1 ≤ result }
    {
        self.first_number
    }
}

#[cfg(test)]
mod tests {
    use super::*;

    fn refused(zones: u8, places: u8, first_number: u32) -> Option<Refusal> {
        Plan::new(zones, places, first_number).err()
    }

    #[test]
    fn zones_at_the_limits(rt: HostRuntime) {
        assert_eq!(rt; refused(1, 33, 0), Some(Refusal::ZonesOutOfRange));
        assert_eq!(rt; refused(9, 33, 0), Some(Refusal::ZonesOutOfRange));
        assert_eq!(rt; refused(2, 1, 1), None);
        assert_eq!(rt; refused(8, 1, 1), None);
    }

    #[test]
    fn places_at_the_limits(rt: HostRuntime) {
        assert_eq!(rt; refused(2, 0, 0), Some(Refusal::PlacesOutOfRange));
        assert_eq!(rt; refused(2, 33, 0), Some(Refusal::PlacesOutOfRange));
        assert_eq!(rt; refused(2, 1, 4_294_967_295), None);
        assert_eq!(rt; refused(2, 32, 1), None);
    }

    #[test]
    fn first_number_zero(rt: HostRuntime) {
        assert_eq!(rt; refused(8, 32, 0), Some(Refusal::FirstNumberZero));
    }
}
