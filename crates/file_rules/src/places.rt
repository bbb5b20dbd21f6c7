use lock_model::place::FilePlace;

/// The directories of a process, at which path lists without a device start (System Programmer's
/// Manual, I$ChgDir): one for data, and one for programs to execute.
#[derive(Clone, Copy, Debug, PartialEq, Eq)]
pub struct Directories {
    pub data_directory: Option<FilePlace>,
    pub execution_directory: Option<FilePlace>,
}
