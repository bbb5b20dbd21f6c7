//! The command `stress`: a disk with programs that write and read files at once is made and booted;
//! and laws: each of its boot files starts a machine.
#![tactic(auto)]

pub use stress::{StressEnd, run_stress};

mod counts;
pub mod laws;
mod stress;
