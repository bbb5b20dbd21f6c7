ghost use Rattle.std.specs.Prelude.{◌≡◌, ◌++◌, ◌∷◌, ◌/◌, ◌%◌, ◌<◌, [], Some, OnOk, codes, decimal, unwrap_or};
ghost use Rattle.rbf_model.specs.Fields.{entry_name_field};
ghost use Rattle.rbf_model.specs.File.{DiskFile};
ghost use Rattle.rbf_access.specs.Reading.{IsFdOf};
ghost use Rattle.vol_tools.specs.Listing as model;
ghost use Rattle.vol_tools.specs.Listing.{file_line};

use itoa::Buffer;
use os9_base::name::{Name, header_name};
use rbf_sector::Fd;
use std::alloc::AllocError;

/// Appends the line of a file: its attributes, its size, and the name in the entry.
pub fn push_line(lines: &mut Vec<u8>, file: &Fd, entry: &[u8; 32]) -> Result<(), AllocError>
    ensures { OnOk result ((on : DiskFile) → IsFdOf on file.now → lines.new.items
        ≡ lines.old.items ++ file_line (unwrap_or (entry_name_field entry.now) []) (Some on)) }
{
    push_head(lines, file)?;
    if let Ok(name) = header_name(&entry[..29]) {
        push_name(lines, &name)?;
    }
    lines.push(b'\n')?;
    Ok(())
}

// Appends the attributes and the size, each followed by a space.
fn push_head(lines: &mut Vec<u8>, file: &Fd) -> Result<(), AllocError>
    ensures { OnOk result (lines.new.items ≡ lines.old.items
        ++ (model.hex_digit (file.now.attr / 16) ∷ model.hex_digit (file.now.attr % 16) ∷ codes " "
        ++ decimal file.now.size ++ codes " ")) }
{
    let mut size = Buffer::new();
    lines.push(hex_digit(file.attr / 16))?;
    lines.push(hex_digit(file.attr % 16))?;
    lines.push(b' ')?;
    lines.extend_from_slice(size.format(file.size).as_bytes())?;
    lines.push(b' ')?;
    Ok(())
}

// A hexadecimal digit, upper-case.
fn hex_digit(value: u8) -> u8
    requires { value < 16 }
    ensures { result ≡ model.hex_digit value }
{
    if value < 10 {
        b'0' + value
    } else {
        b'A' - 10 + value
    }
}

// Appends the characters of a name.
fn push_name(lines: &mut Vec<u8>, name: &Name) -> Result<(), AllocError>
    ensures { OnOk result (lines.new.items ≡ lines.old.items ++ name.now) }
{
    for i in 0..name.len() {
        lines.push(name.byte(i))?;
    }
    Ok(())
}
