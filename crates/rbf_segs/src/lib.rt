//! Segment lists: the sectors of a file, in order, as at most 48 segments.
#![tactic(auto)]

pub use segs::{MAX_SEGMENTS, Segs, SegsFull};

mod segment_list;
mod segs;
