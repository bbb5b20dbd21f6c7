//! RBF's disks: the volume that an image represents, and the result of one sector write.
#![tactic(auto)]

pub mod volume;
pub mod writes;
