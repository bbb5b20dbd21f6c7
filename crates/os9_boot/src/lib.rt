//! The top call: a command line, a host and devices in, a status out; and the commands `asm` and
//! `vol`, which makes, reads, changes or repairs the image of a disk, with laws of calls of `vol` that
//! follow one another.
#![tactic(auto)]

mod asm;
mod asm_names;
mod boot;
mod check;
pub mod commands;
mod devices;
mod drive;
mod files;
pub mod laws;
mod made;
mod output;
mod start;
mod status;
pub mod tools;
mod top;
mod verbs;
mod vol;
mod vol_names;
mod write;

pub use asm::do_asm;
pub use asm_names::asm_name;
pub use devices::add_drive;
pub use os9_words::command::read_words;
pub use start::accept_images;
pub use top::os9_main;
pub use vol::do_vol;
pub use vol_names::vol_name;
pub use write::write_back;
