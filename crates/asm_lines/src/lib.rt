//! The lines of an assembler source, read as statements; their labels and offsets, and the first line
//! that breaks a rule; the texts of instructions as a relation, and laws that exactly the texts of the
//! relation are read.
#![tactic(auto)]

mod cuts;
mod faults;
pub mod laws;
mod lengths;
mod line;
mod operands;
mod reached;
mod source;
mod table;
mod values;
mod words;

pub use faults::{SourceFault, first_fault, is_filled};
pub use lengths::{
    CRC_LENGTH, PROGRAM, action_length, constant_value, header_length, offset_behind,
};
pub use line::{Line, Statement, read_line};
pub use operands::{Action, ModuleFields, action_of, is_module_name};
pub use reached::{Reached, reached_by};
pub use source::read_lines;
pub use table::Labels;
pub use values::{Place, value_at};
