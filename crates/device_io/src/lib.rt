//! What terminals and pipes take and give: reads and writes of processes, and the keys of a tick.
#![tactic(auto)]

mod ends;
pub mod keys;
mod lines;
mod moving;
mod pipe_reads;
mod pipe_writes;
mod sending;
pub mod stream_reads;
pub mod stream_writes;
mod terminals;
