//! Entries of the directories of a mounted RBF volume, over a drive that may fail: new files and
//! directories with their places, descriptors and first sectors; deletions of files by their names;
//! and changes of entries and attributes by one sector write.
#![tactic(auto)]

mod append;
mod attributes;
mod creation;
mod deletion;
mod dirs_deletion;
mod enter;
mod entry;
mod folder;
mod folder_parts;
mod found;
mod freed;
mod listing;
mod made;
mod make;
mod parts;
mod place;
mod placed;
mod room;
mod sector;

pub use attributes::{NewAttributes, set_attr, set_fd_attr};
pub use creation::create;
pub use deletion::{Deletable, delete_name, find_deletable};
pub use dirs_deletion::delete;
pub use enter::enter_file;
pub use entry::{NewEntry, new_entry};
pub use folder::{NewFolder, create_folder};
pub use found::delete_at;
pub use freed::free_entry;
pub use made::create_fd;
pub use make::{make_dir, make_dir_at};
pub use parts::descriptor;
pub use place::{NewPlace, find_place};
pub use placed::create_at;
pub use room::check_room;
