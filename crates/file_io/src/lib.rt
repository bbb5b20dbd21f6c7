//! I$Read, I$ReadLn, I$Write, I$WritLn, F$PErr and I$Seek on files and directories.
#![tactic(auto)]

mod ends;
mod loading;
mod modes;
pub mod reads;
pub mod seeks;
pub mod writes;
