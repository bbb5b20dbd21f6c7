//! The time of the machine: civil dates and times and the packets for them, its clock, what F$Time
//! and F$STime return and change, and the codes of these calls.
#![tactic(auto)]

pub mod civil_laws;
pub mod civil_rows;
pub mod clock;
pub mod laws;
pub mod rows;
pub mod time_call;
