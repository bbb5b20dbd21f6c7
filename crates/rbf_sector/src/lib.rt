//! The sectors of an RBF volume as records: the identification sector, file descriptors and
//! directory entries.
#![tactic(auto)]

pub use entry::{Entry, read_entry, write_entry};
pub use fd::{Fd, read_fd, read_segs, read_size, write_fd, write_fields};
pub use ident::{Ident, has_map, is_header, read_ident, system_sectors};
pub use parts::{put_bytes, put_u32};
pub use run::{Run, run_at};

mod entry;
mod fd;
mod ident;
mod parts;
mod run;
