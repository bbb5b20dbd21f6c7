//! The assembler: a source makes one module, or is refused with the first line that breaks a rule.
#![tactic(auto)]

pub use assembler::{AsmFault, assemble, error_number, size};

mod assembler;
mod emit;
mod module;
pub mod worked;
