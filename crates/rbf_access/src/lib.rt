//! Access to a mounted RBF volume: mounting, descriptors, and reading, over a drive that may fail.
#![tactic(auto)]

pub use faults::{FileFault, VolFault};
pub use volume::Volume;

mod faults;
mod mount;
mod read;
mod sector;
mod volume;
