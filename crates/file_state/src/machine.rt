//! The state that a call may change in addition to the devices.

use crate::state::FileState;
use proc_state::state::ProcState;

/// The processes and the files of the kernel: what a call may change in addition to the devices.
#[derive(Drop)]
pub struct Machine {
    pub processes: ProcState,
    pub files: FileState,
}
