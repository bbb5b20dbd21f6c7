//! What the events of a process leave unchanged of memory, of the other processes and of what they
//! share, what new objects hold, and whose the blocks of data areas are, from the start on.
#![tactic(auto)]

pub mod areas;
pub mod isolation;
pub mod objects;
pub mod own;
