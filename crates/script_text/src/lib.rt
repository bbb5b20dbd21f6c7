//! The texts that drive a run: the list of slices, and the script of keys.
#![tactic(auto)]

pub mod fault;
pub mod script;
pub mod slices;
mod words;
pub mod worked;
