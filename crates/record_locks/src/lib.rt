//! Record locks: the locks of system paths on bytes of files, the requests of waiting processes, the
//! history of both (Level Two manual, RBF record locking), and its text.
#![tactic(auto)]

mod conflict;
mod cycle;
mod hex;
pub mod locks;
pub mod records;
mod text;

pub use lock_model::history::{Entry, EntryBytes};
pub use lock_model::lock::{EntryKind, Grant, Held, Range, Request};
pub use lock_model::place::FilePlace;
pub use text::history_text;
