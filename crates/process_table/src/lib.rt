//! The process table: the records of the processes, their parents, users, registers and signals.
#![tactic(auto)]

pub use proc_model::record::{Life, Reap, SendFault};
pub use table::Table;

mod list;
mod places;
mod table;
