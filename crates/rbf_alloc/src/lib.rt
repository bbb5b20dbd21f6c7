//! Clusters that a file of a mounted RBF volume gains, and those that a shorter or a deleted file
//! gives back, over a drive that may fail.
#![tactic(auto)]

pub use bits::clear_mark;
pub use cut_release::release_rest;
pub use drop_marks::free_one;
pub use dropped::{drop_fd, drop_own};
pub use growth::grow;
pub use own::{OwnSectors, Stretch};
pub use rest::CutSectors;

mod bits;
mod cut_bits;
mod cut_marks;
mod cut_release;
mod drop_marks;
mod dropped;
mod growth;
mod marks;
mod own;
mod release;
mod rest;
mod returned;
mod taken;
