// One zone's line for one key: what it holds or waits for, and its three steps.
#![tactic(auto)]

mod letting_go;
pub mod lines;
mod printing;
mod receiving;
mod requesting;
pub mod states;
