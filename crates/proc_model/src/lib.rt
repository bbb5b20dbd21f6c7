//! Processes and their memory: blocks and maps, modules, the records of processes, signals and turns,
//! and what each call on processes and modules returns and leaves.
#![tactic(auto)]

pub mod group;
pub mod io_ready;
pub mod loading;
pub mod memory;
pub mod module;
pub mod own;
pub mod proc_call;
pub mod program_name;
pub mod record;
pub mod rows;
pub mod turn;
