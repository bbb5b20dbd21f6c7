//! Laws of what goes through pipes and of the keys of terminals, over whole runs.
#![tactic(auto)]

pub mod keys;
pub mod pipes;
