/// The result of a verb of `vol`.
#[derive(Drop)]
pub struct Made {
    /// The bytes of its answer: those of a file, or the lines that it prints.
    pub answer: Vec<u8>,
    /// The image of the disk.
    pub image: Vec<u8>,
}
