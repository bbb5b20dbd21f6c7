//! Calls that start programs: F$Fork and F$Chain.
#![tactic(auto)]

pub mod chain;
pub mod fork;
pub mod loading;
pub mod naming;
pub mod program;
pub mod reading;
pub mod starting;
