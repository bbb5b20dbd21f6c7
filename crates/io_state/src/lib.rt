//! Input and output: the paths, the terminals, the pipes and the pending calls on them, as the
//! kernel keeps them.
#![tactic(auto)]

pub mod ends;
mod files;
mod processes;
pub mod requester;
pub mod state;
mod streams;
pub mod terminal_calls;
mod terminals;
mod waiting;
