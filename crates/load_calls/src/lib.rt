//! F$Load, and F$Fork and F$Chain of a program in a file: the file is read whole, and its modules
//! are tried by all rules before they are entered into memory as one group.
#![tactic(auto)]

pub mod chain;
pub mod entering;
pub mod fork;
mod found;
mod front;
pub mod load;
mod named;
mod namesakes;
mod program;
pub mod reading;
pub mod refusal;
pub mod trial;
pub mod trying;
