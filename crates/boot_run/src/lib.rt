//! A run of a machine from the files of a command's words on: images are checked and moved into the
//! drives, the kernel is made, the terminals are loaded with keys, the slices are run, and images are
//! moved out and written. Also how a command ends, and the line that says why.
#![tactic(auto)]

pub mod boot_file;
mod console;
pub mod drives;
pub mod files;
pub mod imaged;
pub mod images;
pub mod input;
mod keys;
mod load;
mod machine;
pub mod names;
pub mod output;
pub mod report;
mod run;
pub mod status;
pub mod texts;
pub mod worked;
pub mod write;

pub use console::pass_on;
pub use keys::{KeysFault, drop_keys};
pub use load::load_keys;
pub use machine::{RunEnd, RunOutcome, end_of_start, run_end, run_machine};
pub use run::RunFault;
