//! The results and effects of each call on files and directories: the definitions that the bodies
//! of the calls cite, and the codes of these calls.
#![tactic(auto)]

pub mod byte_rows;
pub mod claim;
pub mod fault_rows;
pub mod laws;
pub mod load_rows;
pub mod lock_rows;
pub mod path_call;
pub mod path_rows;
pub mod places;
pub mod status;
