//! Laws of record locks: what calls on files request and how requests are answered, what events and
//! runs make of locks, of their history and of what files hold, and whom an event or a tick lets go on
//! that waits in a call on a path.
#![tactic(auto)]

pub mod claims;
pub mod lock_laws;
pub mod waking;
