//! Attempts of calls: the function of each call on processes and the clock, and of each call on
//! paths, files and directories by what its path is on.
#![tactic(auto)]

mod calls;
pub mod clock;
pub mod conditions;
pub mod device;
mod device_calls;
pub mod lists;
pub mod numbers;
mod packets;
pub mod path;
pub mod path_calls;
pub mod path_use;
pub mod time_calls;
mod waits;

pub use calls::attempt_on_process;
