// The small rules that a pool rests on: the plan's sizes, the pause board with its holds, and the hit share.
#![tactic(auto)]

pub mod board;
pub mod hits;
pub mod plan;
