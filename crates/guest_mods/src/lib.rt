//! The disk that the command `stress` boots, and its list of slices; the image of a disk with one
//! boot file; and the source of a shell. `module` is that of `module_format`.
#![tactic(auto)]

pub use image::boot_image;
pub use load::Load;
pub use module_format::module;
pub use shell::shell_source;
pub use slices::stress_slices;
pub use stress::stress_image;

mod image;
mod load;
mod programs;
mod random;
pub mod rows;
mod sectors;
mod shell;
mod slices;
mod stress;
