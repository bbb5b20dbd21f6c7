//! The command `debug`: the texts of its commands, the positions of a run, event by event, and the
//! commands done one after another over a run, which is shown at any of its events, forwards and back.
#![tactic(auto)]

pub mod command;
mod commands;
mod console;
pub mod course;
mod cut;
mod debug_call;
mod debugger;
mod digits;
mod files;
pub mod laws;
mod line;
mod machine;
mod memory;
mod moves;
mod names;
mod position;
mod reader;
mod session;
pub mod session_laws;
mod words;
pub mod worked;
pub mod worked_rules;

pub use command::{Command, Span};
pub use console::empty_terminals;
pub use debug_call::do_debug;
pub use debugger::debug;
pub use line::{push_address, push_end, push_instruction, push_regs, push_seen};
pub use machine::{Machine, SessionFault};
pub use names::debug_name;
pub use position::{Position, Step};
pub use reader::read_commands;
