ghost use Rattle.std.specs.Prelude.{◌≡◌, ◌<◌, Some, slice_get, vec_len};
ghost use Rattle.os9_base.specs.Name.{parsed_name};
ghost use Rattle.device_table.specs.Names.{is_called, named_device, device_of};

use os9_base::name::{Name, parse_name, same_name};
use os9_outer::drive::BlockDriver;
use os9_outer::terminal::CharDriver;

/// A device, by its kind and its number.
#[derive(Clone, Copy, Debug, PartialEq, Eq)]
pub enum Dev {
    /// D0 and on.
    Drive(u8),
    /// TERM, T1 and on.
    Term(u8),
    Pipe,
}

/// The drivers of a machine: its drives D0 and on, and its terminals TERM, T1 and on.
#[derive(Drop)]
pub struct DeviceTable<B, C> {
    pub drives: Vec<B>,
    pub terms: Vec<C>,
}

/// The drivers of a machine, in boxes.
pub type Devices = DeviceTable<Box<dyn BlockDriver>, Box<dyn CharDriver>>;

impl Devices {
    /// The device of this name: `D0` to `D3`, `TERM`, `T1` to `T3` or `PIPE`, with the case of
    /// letters ignored. None if the name is not one of these, or if the drive or terminal does not
    /// exist.
    pub fn find(&self, name: &Name) -> Option<Dev>
        ensures { result
            ≡ device_of (vec_len self.now.drives) (vec_len self.now.terms) name.now }
    {
        let device = device_named(name)?;
        let there = match device {
            Dev::Drive(n) => usize::from(n) < self.drives.len(),
            Dev::Term(n) => usize::from(n) < self.terms.len(),
            Dev::Pipe => true,
        };
        if there { Some(device) } else { None }
    }

    /// The driver of the drive of this number. A caller lends what is in the box.
    pub fn drive(&mut self, n: u8) -> &mut Box<dyn BlockDriver>
        requires { n < vec_len self.old.drives }
        ensures { slice_get self.old.drives.items n ≡ Some result.now }
    {
        &mut self.drives[n as usize]
    }

    /// The driver of the terminal of this number; 0 is TERM. A caller lends what is in the box.
    pub fn term(&mut self, n: u8) -> &mut Box<dyn CharDriver>
        requires { n < vec_len self.old.terms }
        ensures { slice_get self.old.terms.items n ≡ Some result.now }
    {
        &mut self.terms[n as usize]
    }
}

// The device that a name names.
fn device_named(name: &Name) -> Option<Dev>
    ensures { result ≡ named_device name.now }
{
    if is_name(name, b"D0") {
        Some(Dev::Drive(0))
    } else if is_name(name, b"D1") {
        Some(Dev::Drive(1))
    } else if is_name(name, b"D2") {
        Some(Dev::Drive(2))
    } else if is_name(name, b"D3") {
        Some(Dev::Drive(3))
    } else if is_name(name, b"TERM") {
        Some(Dev::Term(0))
    } else if is_name(name, b"T1") {
        Some(Dev::Term(1))
    } else if is_name(name, b"T2") {
        Some(Dev::Term(2))
    } else if is_name(name, b"T3") {
        Some(Dev::Term(3))
    } else if is_name(name, b"PIPE") {
        Some(Dev::Pipe)
    } else {
        None
    }
}

// Is it this name, with the case of letters ignored?
fn is_name(name: &Name, word: &[u8]) -> bool
    requires { parsed_name word.now ≡ Some word.now }
    ensures { result ≡ is_called word.now name.now }
{
    match parse_name(word) {
        Ok(other) => same_name(name, &other),
        Err(_) => false,
    }
}
