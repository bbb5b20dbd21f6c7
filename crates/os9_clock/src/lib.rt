//! The time packet some seconds after another, and dates and times in texts.
#![tactic(auto)]

pub mod laws;
mod rows;
mod text;
pub mod time;

pub use text::read_time;
