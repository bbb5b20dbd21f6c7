//! The calls on path lists: I$Open and I$Create, of terminals and pipes too, and I$ChgDir,
//! I$MakDir, I$Delete and I$DeletX.
#![tactic(auto)]

mod begin;
pub mod chgdir;
pub mod create;
pub mod delete;
mod ends;
mod finding;
mod locating;
pub mod makdir;
mod naming;
pub mod open;
mod open_modes;
