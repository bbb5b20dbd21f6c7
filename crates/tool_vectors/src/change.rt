ghost use Rattle.std.specs.Prelude.{◌≡◌, Some, None, OnOk, OnErr};
ghost use Rattle.tool_vectors.specs.Changes.{changed_image};

use thiserror::Error;

/// Why a line does not change an image.
#[derive(Clone, Copy, Debug, PartialEq, Eq, Error)]
pub(crate) enum LineError {
    #[error("a change is bad")]
    BadChange,
    #[error("the image is shorter")]
    PastTheEnd,
}

/// A change of an image.
#[derive(Clone, Copy, Debug, PartialEq, Eq)]
pub(crate) enum Change {
    /// A byte of it is replaced.
    Byte { place: usize, value: u8 },
    /// Only its first `length` bytes are left.
    Cut { length: usize },
}

impl Change {
    /// The change of words such as `26:255`, a place in the image and the byte there, or `cut 512`.
    pub(crate) fn parse(words: &str) -> Option<Change> {
        if let Some(length) = words.strip_prefix("cut ") {
            let length = length.parse::<usize>().ok()?;
            return Some(Change::Cut { length });
        }
        let (place, value) = words.split_once(':')?;
        Some(Change::Byte {
            place: place.parse::<usize>().ok()?,
            value: value.parse::<u8>().ok()?,
        })
    }

    /// Changes an image, or leaves it if it is too short.
    pub(crate) fn make(&self, image: &mut Vec<u8>) -> Result<(), LineError>
        ensures changed { OnOk result
            (changed_image self.now image.old.items ≡ Some image.new.items) }
        ensures refused { OnErr result (changed_image self.now image.old.items ≡ None) }
        ensures kept { OnErr result (image.new.items ≡ image.old.items) }
    {
        match self {
            Change::Byte { place, value } => match image.get_mut(*place) {
                Some(byte) => {
                    *byte = *value;
                    Ok(())
                }
                None => Err(LineError::PastTheEnd),
            },
            Change::Cut { length } if *length <= image.len() => {
                image.truncate(*length);
                Ok(())
            }
            Change::Cut { .. } => Err(LineError::PastTheEnd),
        }
    }
}
