//! The outside of the machine: files and output streams, drives and terminals, as traits whose
//! clauses say what each call may do, and the implementations that the product and its tests use.
#![tactic(auto)]

pub mod drive;
mod failure;
pub mod host;
pub mod host_file;
pub mod mem_host;
mod names;
mod new_file;
mod output;
mod pending;
pub mod ram_drive;
pub mod real_host;
mod replace;
pub mod script_tty;
mod slot;
pub mod sure_drive;
pub mod sure_host;
pub mod sure_tty;
pub mod terminal;
