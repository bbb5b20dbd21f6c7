//! I$GetStt and I$SetStt of files and directories.
#![tactic(auto)]

mod front;
pub mod gets;
pub mod sets;
