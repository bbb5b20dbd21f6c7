//! Tools for volumes: files are put, got, deleted and listed and directories made by their paths,
//! on a mounted volume or on the image in a drive; the image of a newly formatted disk; and the repair
//! of an image, which frees its lost clusters.
#![tactic(auto)]

mod blank;
mod clear;
mod fault;
mod folder;
mod image;
pub mod laws;
mod line;
mod listing;
mod making;
mod mounted;
mod name;
mod new_file;
mod opening;
mod parts;
mod path;
mod place;
mod reading;
mod removal;
pub mod rows;
mod tool;
mod way;

pub use blank::format;
pub use fault::ToolFault;
pub use folder::mkdir;
pub use image::{Repaired, repair};
pub use listing::list;
pub use mounted::use_tool;
pub use name::name_of;
pub use new_file::{NewFile, put};
pub use parts::push_map;
pub use path::{directory_names, path_names};
pub use place::{Place, new_place_of, place_of};
pub use reading::get;
pub use removal::remove;
pub use tool::ToolUse;
