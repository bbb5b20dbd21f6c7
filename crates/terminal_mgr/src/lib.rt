//! Terminals: keys that arrive, one read at a time, and writes, over a driver that may fail in any call.
#![tactic(auto)]

mod arrival;
mod driver;
pub mod term;
mod type_ahead;
mod typist;
mod unfinished;

pub use io_model::terminal::{Arrival, Progress};
