//! Laws of an attempt of a call on paths, files and directories: what paths and directories of
//! processes are on and which drives have a volume, at the start and after it; and what it touches of
//! terminals, pipes, paths, pending calls, volumes and record locks.
#![tactic(auto)]

pub mod places;
pub mod touches;
