//! Pipes: sixteen rings of 256 bytes, by number.
#![tactic(auto)]

mod pipe;
pub mod pipes;

pub use io_model::pipe::{PipeAns, PipeId};
