//! Paths, terminals and pipes: lines and keys, pending calls, and what each call on them returns and
//! leaves.
#![tactic(auto)]

pub mod edit;
pub mod io_call;
pub mod keys;
pub mod limit_rows;
pub mod line_rows;
pub mod modes;
pub mod path;
pub mod path_rows;
pub mod pending;
pub mod pipe;
pub mod pipe_rows;
pub mod status;
pub mod terminal;
