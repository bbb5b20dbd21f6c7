//! Assembler text read as instructions of the MC6809, with its numbers, labels and expressions.
#![tactic(auto)]

mod characters;
mod cuts;
mod entry;
mod index;
mod instruction;
mod label;
mod numbers;
mod operand;
mod passing;
mod register;
mod shape;
mod sum;
mod tail;
mod term;

pub use characters::is_same_word;
pub use instruction::read_instr;
pub use label::is_label;
pub use numbers::{lone_value, number};
pub use operand::Operand;
pub use passing::{every_term, is_constant_expression, is_expression};
pub use shape::{Shape, shape_length, shape_of};
pub use sum::value_of;
pub use tail::{filled, low_byte, low_word, tail_with};
pub use term::{Meaning, Numbers, Term, TermTest, read_term};
