//! The instructions of the MC6809 as bytes: decoding and spelling by the opcode map.
#![tactic(auto)]

pub use cpu_model::instruction::{DecodeFault, Instr, Page, Tail};
pub use reading::{Decoded, decode, decode_with_row};
pub use table::{postbyte, row};
pub use writing::{Spelling, spell};

mod base_page;
mod eleven_page;
mod postbytes;
mod reading;
mod table;
mod ten_page;
mod writing;
