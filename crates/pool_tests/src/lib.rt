// Tests of the pool: every refusal of every call, what a fault tells, and the limits of numbers, lanes and belt.
#![tactic(auto)]

#[cfg(test)]
mod belt;
#[cfg(test)]
mod bench;
#[cfg(test)]
mod directory_calls;
#[cfg(test)]
mod faults;
#[cfg(test)]
mod limits;
#[cfg(test)]
mod loads;
#[cfg(test)]
mod zone_calls;
