//! The kernel's state of input and output with its disks, and the effect of drive calls on it.
#![tactic(auto)]

pub mod asking;
pub mod long;
pub mod machine;
pub mod state;
