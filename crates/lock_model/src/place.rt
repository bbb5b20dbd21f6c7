/// A file or a directory: the number of its drive, and the number of its descriptor (OS-9 Technical
/// Reference, Random Block File Manager, "File Descriptors").
#[derive(Clone, Copy, Debug, PartialEq, Eq)]
pub struct FilePlace {
    pub drive: u8,
    pub number: u32,
}
