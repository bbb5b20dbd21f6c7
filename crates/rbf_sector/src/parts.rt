ghost use Rattle.std.specs.Prelude.{◌≡◌, ◌+◌, ◌^◌, ◌<◌, ◌≤◌, length};
ghost use Rattle.byteorder.specs.Endian.{big_from};
ghost use Rattle.rbf_model.specs.Writes.{put_at};
ghost use Rattle.rbf_sector.specs.Parts.{PutsNumber};

use byteorder::{BigEndian, ByteOrder};

pub fn u16_at(bytes: &[u8], at: usize) -> u16
    requires { at + 2 ≤ length bytes.now }
    ensures { result ≡ big_from at 2 bytes.now }
{
    BigEndian::read_u16(&bytes[at..])
}

pub fn u24_at(bytes: &[u8], at: usize) -> u32
    requires { at + 3 ≤ length bytes.now }
    ensures value { result ≡ big_from at 3 bytes.now }
    ensures fits { result < 16777216 }
{
    BigEndian::read_u24(&bytes[at..])
}

pub fn u32_at(bytes: &[u8], at: usize) -> u32
    requires { at + 4 ≤ length bytes.now }
    ensures { result ≡ big_from at 4 bytes.now }
{
    BigEndian::read_u32(&bytes[at..])
}

pub fn put_u16(bytes: &mut [u8], at: usize, value: u16)
    requires { at + 2 ≤ length bytes.old }
    ensures { PutsNumber bytes.old bytes.new at 2 value }
{
    BigEndian::write_u16(&mut bytes[at..], value);
}

pub fn put_u24(bytes: &mut [u8], at: usize, value: u32)
    requires room { at + 3 ≤ length bytes.old }
    requires fits { value < 16777216 }
    ensures { PutsNumber bytes.old bytes.new at 3 value }
{
    BigEndian::write_u24(&mut bytes[at..], value);
}

/// Writes a number over four bytes, its highest byte first.
pub fn put_u32(bytes: &mut [u8], at: usize, value: u32)
    requires { at + 4 ≤ length bytes.old }
    ensures { PutsNumber bytes.old bytes.new at 4 value }
{
    BigEndian::write_u32(&mut bytes[at..], value);
}

/// Writes bytes over a part of others.
pub fn put_bytes(bytes: &mut [u8], at: usize, from: &[u8])
    requires { at + length from.now ≤ length bytes.old }
    ensures { bytes.new ≡ put_at bytes.old at from.now }
{
    bytes[at..at + from.len()].copy_from_slice(from);
}
