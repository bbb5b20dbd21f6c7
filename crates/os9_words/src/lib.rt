//! The words of a command line, the messages on the error stream, and the lines that commands put
//! on the output stream.
#![tactic(auto)]

pub mod asm_words;
pub mod command;
pub mod counts;
pub mod debug_words;
pub mod message;
mod pieces;
pub mod stress_counts;
pub mod vol_words;
pub mod word;
pub mod worked;
