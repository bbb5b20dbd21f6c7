//! Laws of the runs of the machine: there is one over every list of slices; two without faults are
//! the same, unless clusters are taken; a run whose keys are loaded while it goes on is that of its
//! script; what no run changes of an image, and what a disk holds after the first of a list of lawful
//! writes. Over devices that do not fail there is a run without a fault.
#![tactic(auto)]

pub mod faultless;
pub mod image_ends;
pub mod later;
pub mod order;
pub mod run;
pub mod session;
pub mod single;
pub mod stops;
