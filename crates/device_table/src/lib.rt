//! The devices of the machine by name: drives, terminals and the pipe.
#![tactic(auto)]

pub mod devices;
