use thiserror::Error;

/// Why there is no name at an address.
#[derive(Clone, Copy, Debug, PartialEq, Eq, Error)]
pub enum NameFault {
    /// A byte that has to be read is in no named slot, or past `FFFF`: error 210.
    #[error("bad address")]
    Unreadable,
    /// The bytes are not a name.
    #[error("bad name")]
    NoName,
}
