//! Record locks: locks and requests for them, when a request conflicts or closes a cycle of waits,
//! and the history of reads and writes under locks (Level Two manual, RBF record locking).
#![tactic(auto)]

pub mod history;
pub mod laws;
pub mod lines;
pub mod lock;
pub mod place;
pub mod rows;
