//! Instructions of the MC6809 as assembler text.
#![tactic(auto)]

pub use instruction::{Text, is_word_of, print};
pub use operand::is_bare_operand;

mod digits;
mod instruction;
mod operand;
mod words;
