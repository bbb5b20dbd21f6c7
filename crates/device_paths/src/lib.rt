//! Path lists in the memory of a process, and the calls on paths of terminals and pipes: they open,
//! duplicate and close path numbers, and ask for the status of a path.
#![tactic(auto)]

pub mod list;
mod lists;
pub mod named;
mod names;
pub mod numbers;
pub mod open;
pub mod places;
pub mod status;
