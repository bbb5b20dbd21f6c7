//! The check of an image: the tree of the volume that it represents, or its fault; and the rules for
//! the names in it.
#![tactic(auto)]

pub use dots::least_without_dots;
pub use entries::least_badly_named;
pub use faults::{CheckError, CheckFault};
pub use links::least_named_again;
pub use lost::lost_list;
pub use tree::{FileBytes, Node, Nodes, Tree};
pub use verdict::check;

mod clusters;
mod contents;
mod dots;
mod entries;
mod faults;
mod keys;
mod links;
mod lost;
mod names;
mod nodes;
mod places;
mod space;
mod survey;
mod tree;
mod verdict;
