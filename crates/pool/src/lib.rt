// The pool over any transport and any kind of key: loading, opening, its calls and questions, and whole runs.
#![tactic(auto)]

pub mod loading;
mod naming;
pub mod opened;
mod reports;
pub mod running;
mod tables;

// The calls of a zone, and what they change.
mod deliver_down;
mod let_go;
mod line_changes;
mod line_steps;
mod start;

// The calls on the directory, and what they change.
mod deliver_up;
mod row_changes;
mod take_up;

// The calls by one name, and questions.
mod calling;
mod questions;
