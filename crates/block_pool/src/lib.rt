//! The memory of the machine: one region of counted blocks of 8,192 bytes.
#![tactic(auto)]

pub mod pool;

pub use proc_model::group::BlockId;
