//! The kernel: its start, and slices of events, each of which is an event of the abstract machine.
#![tactic(auto)]

pub use kernel::Kernel;
pub use machine_model::ends::{BootFault, EventEnd, SliceEnd};
pub use new::{Config, StartError};
pub use turn::Turn;

mod act;
mod calls;
mod event;
mod kernel;
mod load;
mod look;
mod marks;
mod new;
mod path_call;
mod process;
mod service;
mod time_call;
mod turn;
mod view;
