//! What each call makes of an RBF volume, and what it may leave if a drive's fault ended it.
//!
//! The definitions are in `specs/`; the calls' contracts cite them. The functions here have no
//! parameters and no body: each states a law.
#![tactic(auto)]

pub mod examples;
pub mod writes;
