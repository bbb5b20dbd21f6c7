use lock_model::lock::Range;

/// What a call asks for at its first attempt: its code, the count of its bytes, and their range
/// (Level Two manual, RBF record locking).
#[derive(Clone, Copy, Debug, PartialEq, Eq)]
pub struct Claim {
    pub code: u8,
    pub count: u16,
    pub range: Range,
}
