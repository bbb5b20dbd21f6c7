//! How instructions and modules of the MC6809 are written in assembler.
#![tactic(auto)]

pub mod directive;
pub mod error;
pub mod laws;
pub mod operand;
pub mod worked;
