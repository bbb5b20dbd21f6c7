//! The MC6809 as definitions: its opcode map, its addressing modes, its flags and its arithmetic.
#![tactic(auto)]

pub mod flags;
pub mod indexing;
pub mod instruction;
pub mod operand;
pub mod rows;
pub mod stop;
