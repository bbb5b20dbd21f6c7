//! The search of an image: its header, and the descriptors and entries found on it; and the rules of
//! well formed RBF volumes on numbers, the map and each file's sectors and size, 1 to 6: for each the
//! least sector of an image that breaks it.
#![tactic(auto)]

mod descriptors;
mod directory;
mod file;
mod header;
mod image;
mod lesser;
mod links;
mod map;
mod marks;
mod nexts;
mod numbers;
mod owners;
mod positions;
mod shares;
mod unread;
mod uses;
mod walk;

pub use descriptors::{OwnRule, least_breach};
pub use directory::{Directory, directory_of, entry_bytes, lie_within};
pub use file::{FoundFile, read_file};
pub use header::{identify, is_marked, sector};
pub use image::IdentifiedImage;
pub use lesser::least_of;
pub use links::{Link, link_entry, list_links};
pub use map::map_breach;
pub use marks::least_unmarked;
pub use numbers::least_bad_number;
pub use positions::{is_used, list_positions, position_bytes};
pub use shares::least_used_again;
pub use walk::find_files;
