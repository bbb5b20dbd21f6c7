//! The abstract machine: its states, one event of it, which is an effect on the processes and on what
//! they share, a slice, a whole run and the start, with slices worked through.
#![tactic(auto)]

pub mod boot_file;
pub mod calls;
pub mod ends;
pub mod rows;
pub mod run;
pub mod slice_rows;
pub mod start;
