// The directory for one place: who has a copy, who waits, whom it is serving; and its two steps.
#![tactic(auto)]

pub mod lists;
pub mod records;
pub mod rows;
