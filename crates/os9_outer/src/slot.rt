ghost use Rattle.std.specs.Prelude.{◌≡◌, ℕ, ◌<◌, Option, Some, None, IsSome, option_map, IfErr, OnOk, OnErr, List};
ghost use Rattle.os9_outer.specs.Drive.{sector_count, sector_at, with_sector};

use std::marker::Model;

/// The place in a drive for an image in memory.
#[derive(Debug, Drop)]
pub struct Slot {
    image: Option<Vec<u8>>,
}

impl Model for Slot {
    ghost Value = { Option (List ℕ) };

    ghost view = { λ slot. option_map (λ image. image.items) slot.image };
}

impl Slot {
    pub fn empty() -> Slot
        ensures { result ≡ None }
    {
        Slot { image: None }
    }

    pub fn insert(&mut self, image: Vec<u8>) -> Result<(), Vec<u8>>
        ensures inserted { OnOk result (self.new ≡ Some image.items) }
        ensures was_empty { OnOk result (self.old ≡ None) }
        ensures was_full { OnErr result (IsSome self.old) }
        ensures handed_back { IfErr result (λ back. back.items ≡ image.items) }
        ensures kept { OnErr result (self.new ≡ self.old) }
    {
        if self.image.is_some() {
            return Err(image);
        }
        self.image = Some(image);
        Ok(())
    }

    pub fn eject(&mut self) -> Option<Vec<u8>>
        ensures handed_over { option_map (λ image. image.items) result ≡ self.old }
        ensures none_left { self.new ≡ None }
    {
        self.image.take()
    }

    pub fn sectors(&self) -> u32
        ensures { result ≡ sector_count self.now }
    {
        match &self.image {
            None => 0,
            Some(image) => (image.len() / 256).min(0xffff_ffff) as u32,
        }
    }

    pub fn read(&self, lsn: u32, into: &mut [u8; 256])
        requires { lsn < sector_count self.now }
        ensures { into.new ≡ sector_at self.now lsn }
    {
        if let Some(image) = &self.image {
            let start = lsn as usize * 256;
            into.copy_from_slice(&image[start..start + 256]);
        }
    }

    pub fn write(&mut self, lsn: u32, from: &[u8; 256])
        requires { lsn < sector_count self.old }
        ensures { self.new ≡ with_sector self.old lsn from.now }
    {
        if let Some(image) = &mut self.image {
            let start = lsn as usize * 256;
            image[start..start + 256].copy_from_slice(from);
        }
    }
}
