//! The start of a machine: the modules of a boot file are entered, the volumes of the drives are
//! mounted, and the first process begins and gets its directories.
#![tactic(auto)]

mod boot;
mod commands;
pub mod fault;
pub mod files;
mod first;
mod modules;
mod mounting;
mod processes;

pub use processes::start;
