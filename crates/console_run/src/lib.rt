//! A machine at whose terminal a person types: keys are loaded before slices, and what was typed is
//! kept, so that the run is that of the keys and the slices that are kept, in two texts over which a
//! boot gives it again.
#![tactic(auto)]

mod asking;
mod console;
pub mod keyboard;
mod load;
pub mod part;
pub mod reader_keyboard;
mod session;
pub mod sure_keyboard;
pub mod texts;
mod turn;
mod turns;
pub mod typed;
mod typing;
mod waiting;

pub use console::Console;
pub use session::{SessionEnd, SessionOutcome, run_session};
pub use turns::Stop;
