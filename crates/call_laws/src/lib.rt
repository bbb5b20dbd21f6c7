//! Laws of calls: what one call leaves of the other processes, which calls are pending and what they
//! wait for, and why a call is refused and what a refusal leaves.
#![tactic(auto)]

pub mod attempt;
pub mod call;
pub mod kept;
pub mod refusals;
pub mod refused_codes;
