// Keys, which name sort groups, and the register that gives each of them a place.
#![tactic(auto)]

pub mod key;
pub mod kinds;
pub mod register;
