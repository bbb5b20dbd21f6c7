//! The scheduler: the processes in the order in which they were chosen, with their ages, and what
//! each waits for.
#![tactic(auto)]

pub use member::{Cause, Wait};
pub use sched::Sched;

mod list;
mod member;
mod sched;
