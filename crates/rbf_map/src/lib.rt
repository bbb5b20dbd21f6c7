//! The allocation map of an RBF volume: which clusters are free, and which one a file takes next.
#![tactic(auto)]

pub use map::RbfMap;

mod bits;
mod map;
mod runs;
