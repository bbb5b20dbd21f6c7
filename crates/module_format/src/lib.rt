//! The format of modules: their CRC, the rules of their headers, and the modules of a file; and the
//! maker of modules from their parts.
#![tactic(auto)]

pub use crc::{crc_step, crc24};
pub use file::next_module;
pub use header::read_module;
pub use maker::{CodeHeader, Header, module, module_with};
pub use proc_model::module::{ModuleFault, ModuleInfo, ModuleStep};

mod crc;
mod file;
mod header;
mod maker;
