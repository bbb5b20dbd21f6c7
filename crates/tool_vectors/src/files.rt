use crate::fields::{RowError, parse_image};
use crate::tree::tree_text;
use module_format::crc24;
use std::alloc::{AllocError, Global};

/// The files of a row: the image `i`, `g` of `get`, and `j` of `format`.
#[derive(Drop)]
pub(crate) struct Files {
    pub(crate) image: Option<Vec<u8>>,
    pub(crate) got: Option<Vec<u8>>,
    pub(crate) other: Option<Vec<u8>>,
}

impl Files {
    /// The files before the first command: `i`, if the row has it.
    pub(crate) fn of_image(alloc: Global, field: &str) -> Result<Files, RowError> {
        let image = match field {
            "-" => None,
            _ => Some(parse_image(alloc, field)?),
        };
        Ok(Files {
            image,
            got: None,
            other: None,
        })
    }

    /// Replaces the bytes of a file, and returns what a row says of the change: `-` if there is
    /// none.
    pub(crate) fn write(
        &mut self,
        alloc: Global,
        name: &str,
        bytes: Vec<u8>,
    ) -> Result<String, AllocError> {
        if let Some(old) = self.named(name) {
            if old.as_slice() == bytes.as_slice() {
                return String::from_str(alloc, "-");
            }
        }
        let told = told(alloc, name, &bytes)?;
        match name {
            "g" => self.got = Some(bytes),
            "j" => self.other = Some(bytes),
            _ => self.image = Some(bytes),
        }
        Ok(told)
    }

    // The bytes of the file of this name, if it is there.
    fn named(&self, name: &str) -> Option<&Vec<u8>> {
        match name {
            "g" => self.got.as_ref(),
            "j" => self.other.as_ref(),
            _ => self.image.as_ref(),
        }
    }
}

// What a row says of a changed file: its length, and its tree or the checksum of its bytes.
fn told(alloc: Global, name: &str, bytes: &[u8]) -> Result<String, AllocError> {
    let length = bytes.len();
    if name != "i" {
        return format!(in alloc; "{name} {length} {:06x}", crc24(bytes));
    }
    let sector = bytes.get(..256).unwrap_or(bytes);
    let tree = tree_text(alloc, bytes)?;
    format!(in alloc;
        "{name} {length} {} sector 0 {:06x}",
        tree.as_str(),
        crc24(sector)
    )
}
