//! Line editing: the line of a terminal's read, and what each key makes of it.
#![tactic(auto)]

pub mod copy;
pub mod edit;
pub mod edit_out;
pub mod line;

pub use io_model::edit::LineEnd;
