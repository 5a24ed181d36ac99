// The vocabulary of the pool: assignments, requests and answers, kinds of message, refusals, and the central pool's table.
#![tactic(auto)]

pub mod assignments;
pub mod central;
pub mod kinds;
mod printing;
pub mod refusals;
pub mod requests;
