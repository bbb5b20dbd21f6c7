//! The MC6809 processor: instruction by instruction, over a bus.
#![tactic(auto)]

pub use cpu_model::stop::Stop;
pub use execution::{Ran, run, step};
pub use os9_base::memory::Bus;

mod bytes;
mod effect;
mod execution;
mod memory_effect;
mod operation;
mod place;
mod register;
mod stack;
