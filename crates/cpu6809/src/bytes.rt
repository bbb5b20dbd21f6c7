ghost use Rattle.std.specs.Prelude.{◌≡◌, ◌∷◌, [], true, is_some};
ghost use Rattle.std.specs.Bool.{OnTrue, OnFalse};
ghost use Rattle.cpu_model.specs.Effects.{bytes_from, word_bytes};
ghost use Rattle.cpu_model.specs.Places as model;
ghost use Rattle.cpu_model.specs.Step.{all_named, write_cells};

use os9_base::memory::Bus;

/// The word at an address, high byte first, if both addresses are named.
#[inline(always)]
pub(crate) fn word_at<B: Bus>(b: &B, at: u16) -> Option<u16>
    ensures { result ≡ model.word_at (B.cells b.now) at }
{
    match b.slice_from(at) {
        [high, low, ..] => Some(*high as u16 * 256 + *low as u16),
        _ => word_apart(b, at),
    }
}

/// The same word, byte by byte.
#[cold]
fn word_apart<B: Bus>(b: &B, at: u16) -> Option<u16>
    ensures { result ≡ model.word_at (B.cells b.now) at }
{
    let high = b.read(at)?;
    let low = b.read(at.wrapping_add(1))?;
    Some(high as u16 * 256 + low as u16)
}

fn is_named<B: Bus>(b: &B, at: u16) -> bool
    ensures { result ≡ is_some (B.cells b.now at) }
{
    b.read(at).is_some()
}

fn all_named_from<B: Bus>(b: &B, mut at: u16, bytes: &[u8]) -> bool
    ensures { result ≡ all_named (B.cells b.now) (bytes_from at bytes.now) }
{
    for _byte in bytes {
        if !is_named(b, at) {
            return false;
        }
        at = at.wrapping_add(1);
    }
    true
}

fn write_from<B: Bus>(b: &mut B, mut at: u16, bytes: &[u8])
    requires { all_named (B.cells b.old) (bytes_from at bytes.now) ≡ true }
    ensures changed { B.cells b.new ≡ write_cells (B.cells b.old) (bytes_from at bytes.now) }
    ensures beside { B.same_beside b.old b.new }
{
    for byte in bytes {
        b.put(at, *byte);
        at = at.wrapping_add(1);
    }
}

/// As [`write`], byte by byte.
#[cold]
fn write_apart<B: Bus>(b: &mut B, at: u16, bytes: &[u8]) -> bool
    ensures named { result ≡ all_named (B.cells b.old) (bytes_from at bytes.now) }
    ensures written { OnTrue result (B.cells b.new
        ≡ write_cells (B.cells b.old) (bytes_from at bytes.now)) }
    ensures left { OnFalse result (B.cells b.new ≡ B.cells b.old) }
    ensures beside { B.same_beside b.old b.new }
{
    if !all_named_from(b, at, bytes) {
        return false;
    }
    write_from(b, at, bytes);
    true
}

/// Writes bytes from an address on, which wraps around, and returns whether each address is named.
/// If one is not, nothing is written.
#[inline(always)]
pub(crate) fn write<B: Bus>(b: &mut B, at: u16, bytes: &[u8]) -> bool
    ensures named { result ≡ all_named (B.cells b.old) (bytes_from at bytes.now) }
    ensures written { OnTrue result (B.cells b.new
        ≡ write_cells (B.cells b.old) (bytes_from at bytes.now)) }
    ensures left { OnFalse result (B.cells b.new ≡ B.cells b.old) }
    ensures beside { B.same_beside b.old b.new }
{
    if b.store_slice(at, bytes) {
        return true;
    }
    write_apart(b, at, bytes)
}

/// Writes a byte, or nothing if its address is not named.
#[inline(always)]
pub(crate) fn write_byte<B: Bus>(b: &mut B, at: u16, byte: u8) -> bool
    ensures named { result ≡ all_named (B.cells b.old) (bytes_from at (byte ∷ [])) }
    ensures written { OnTrue result (B.cells b.new
        ≡ write_cells (B.cells b.old) (bytes_from at (byte ∷ []))) }
    ensures left { OnFalse result (B.cells b.new ≡ B.cells b.old) }
    ensures beside { B.same_beside b.old b.new }
{
    write(b, at, &[byte])
}

/// Writes a word, high byte first, or nothing if one of its addresses is not named.
#[inline(always)]
pub(crate) fn write_word<B: Bus>(b: &mut B, at: u16, word: u16) -> bool
    ensures named { result ≡ all_named (B.cells b.old) (bytes_from at (word_bytes word)) }
    ensures written { OnTrue result (B.cells b.new
        ≡ write_cells (B.cells b.old) (bytes_from at (word_bytes word))) }
    ensures left { OnFalse result (B.cells b.new ≡ B.cells b.old) }
    ensures beside { B.same_beside b.old b.new }
{
    write(b, at, &[(word >> 8) as u8, (word & 0xFF) as u8])
}
