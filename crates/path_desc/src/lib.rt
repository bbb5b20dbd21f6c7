//! Paths: the descriptors of system paths, and the path numbers of each process.
#![tactic(auto)]

mod numbers;
pub mod paths;

pub use io_model::path::{Desc, PathsFull, SysPath, Target};
