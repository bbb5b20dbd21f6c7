//! Writes to files of a mounted RBF volume, changes of their sizes, and the fields of their
//! descriptors, over a drive that may fail.
#![tactic(auto)]

pub use data::{FileData, fill};
pub use descriptor::{minute, with_descriptor};
pub use laying::lay_over;
pub use loaded::{Loaded, load_file};
pub use new_bytes::NewBytes;
pub use size::set_size;
pub use write::write_at;

mod clusters;
mod data;
mod descriptor;
mod kept;
mod laying;
mod loaded;
mod new_bytes;
mod new_fields;
mod resized;
mod sector;
mod shorter;
mod size;
mod write;
