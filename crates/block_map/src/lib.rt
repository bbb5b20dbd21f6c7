//! The map of a process: the blocks in its eight slots, and the bytes that it sees through them.
#![tactic(auto)]

pub mod map;
pub mod view;

pub use proc_model::group::Group;
