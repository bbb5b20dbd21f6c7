//! Calls on the records of processes, on names, signals and sleep, and on memory and modules: F$Mem,
//! F$Link, F$UnLink, F$UnLoad and F$CRC.
#![tactic(auto)]

pub mod children;
pub mod crc;
pub mod errors;
pub mod links;
pub mod memory;
mod named;
pub mod names;
pub mod program;
pub mod records;
pub mod signals;
pub mod sleep;
pub mod telling;
pub mod unlink;
