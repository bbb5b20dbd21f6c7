//! Guest memory: the blocks of the machine, the maps of all processes and the module directory, how
//! they represent objects, and what always holds of them.
#![tactic(auto)]

pub mod blocks;
mod bytes;
mod data_area;
mod entering;
mod groups;
mod lines;
mod links;
pub mod memory;
mod new;
mod reading;
mod room;
mod running;
mod start;
