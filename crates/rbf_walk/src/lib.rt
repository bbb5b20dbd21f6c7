//! Names in directories of a mounted RBF volume, over a drive that may fail: what a user may do
//! with a file, the search of a directory, and the walk along a path list.
#![tactic(auto)]

pub use directory::{Searched, search};
pub use error::DirError;
pub use path::walk;
pub use permission::{Searcher, is_open, may};

mod directory;
mod error;
mod path;
mod permission;
mod sector;
