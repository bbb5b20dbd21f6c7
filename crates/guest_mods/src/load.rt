/// The greatest number of records of a pass.
pub const MOST_RECORDS: u8 = 200;

/// What the programs of the command `stress` do (this project's own): the seed of the lengths of
/// records, below 2,147,483,648; the number of Workers, from 1 to 4; the number of times that each
/// writes its file anew, from 1 to 40; and the number of records each time, from 1 to 200.
#[derive(Clone, Copy, Debug, PartialEq, Eq)]
pub struct Load {
    pub seed: u32,
    pub workers: u8,
    pub passes: u8,
    pub records: u8,
}
