// Calls on a pool: what they are, what they report, how they are refused; the model of a pool, the outcome of each call,
// and the law over runs, as definitions.
#![tactic(auto)]

pub mod call;
pub mod faults;
pub mod reports;
pub mod slots;
pub mod stock;
