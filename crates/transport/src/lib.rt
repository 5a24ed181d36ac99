// The lanes between the zones and the directory: one interface, and the backplanes that carry the lanes.
#![tactic(auto)]

pub mod faults;
pub mod interface;
pub mod lanes;
pub mod sending;

// The rings.
mod ring;
pub mod rings;

// The belt.
pub mod belt;
mod entry;
#[cfg(test)]
mod tests;
