ghost use Rattle.std.specs.Prelude.{◌≡◌, ◌<◌, ◌++◌, ◌∷◌, [], length, slice_get, slice_set, IfOk, OnErr, Some};
ghost use Rattle.os9_words.specs.Command.{most_images};

use std::alloc::{AllocError, Global};
use std::marker::Model;
use std::mem;

/// The images of a boot: one to four, or fewer while they are read. A clause sees the list of their
/// bytes.
#[derive(Drop)]
pub struct Images {
    images: Vec<Vec<u8>>,
}

impl Model for Images {
    ghost use Rattle.std.specs.Prelude.{ℕ, ◌≤◌, List, length, map};
    ghost use Rattle.os9_words.specs.Command.{most_images};

    ghost Value = { List (List ℕ) };

    ghost view = { λ it. map (λ image. image.items) it.images.items };

    ghost invariant = { λ it. length it.images.items ≤ most_images };
}

impl Images {
    /// No images.
    pub fn none(alloc: Global) -> Images
        ensures { result ≡ [] }
    {
        Images {
            images: Vec::new(alloc),
        }
    }

    /// The number of images.
    pub fn len(&self) -> u8
        ensures { result ≡ length self.now }
    {
        self.images.len() as u8
    }

    /// The bytes of the image of this number.
    pub fn image(&self, number: u8) -> &[u8]
        requires { number < length self.now }
        ensures { slice_get self.now number ≡ Some result.now }
    {
        self.images[usize::from(number)].as_slice()
    }

    /// Appends an image.
    ///
    /// # Errors
    ///
    /// Out of memory. The images are then unchanged.
    pub fn push(&mut self, image: Vec<u8>) -> Result<(), AllocError>
        requires { length self.old < most_images }
        ensures pushed { IfOk result (λ _. self.new ≡ self.old ++ image.items ∷ []) }
        ensures kept { OnErr result (self.new ≡ self.old) }
    {
        self.images.push(image)?;
        Ok(())
    }

    /// Returns the image of this number, and puts another in its place.
    pub fn replace(&mut self, number: u8, image: Vec<u8>) -> Vec<u8>
        requires { number < length self.old }
        ensures handed_out { slice_get self.old number ≡ Some result.items }
        ensures replaced { self.new ≡ slice_set self.old number image.items }
    {
        mem::replace(&mut self.images[usize::from(number)], image)
    }
}
