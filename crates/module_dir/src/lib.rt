//! The module directory: the entered modules, their revisions, links and groups.
#![tactic(auto)]

pub use dir::{Dir, DirFault};
pub use proc_model::group::{BlockId, Group};
pub use proc_model::module::{ModId, ModuleInfo};

mod dir;
mod entry;
mod list;
