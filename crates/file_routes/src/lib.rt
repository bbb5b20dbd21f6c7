//! The routes of path lists to files: where they start, and the walk from there, name by name.
#![tactic(auto)]

pub mod calls;
pub mod route;
pub mod walk;
