use crate::words::{RowError, number};
use hex::{FromHexError, decode};
use std::alloc::Global;

/// The bytes of the longest image of a row: those of a volume of the greatest number of sectors.
const MOST_BYTES: usize = 134_217_728;

/// The image of a field: its length, and then for each sector that is not all zero `;`, its number,
/// `:` and its bytes in hexadecimal digits, without the zeros at its end.
pub(crate) fn parse_image(alloc: Global, field: &str) -> Result<Vec<u8>, RowError> {
    let mut parts = field.split(';');
    let length = parts.next().ok_or(RowError::Missing)?;
    let length = number(length.parse::<usize>().ok())?;
    if length > MOST_BYTES {
        return Err(RowError::BadImage);
    }
    let mut image = vec![in alloc; 0u8; length]?;
    for part in parts {
        put_sector(alloc, &mut image, part)?;
    }
    Ok(image)
}

// Puts a sector into an image. The one after the last whole sector is shorter.
fn put_sector(alloc: Global, image: &mut Vec<u8>, part: &str) -> Result<(), RowError> {
    let (lsn, digits) = part.split_once(':').ok_or(RowError::Missing)?;
    let lsn = number(lsn.parse::<u32>().ok())?;
    let bytes = match decode(alloc, digits) {
        Ok(bytes) => bytes,
        Err(FromHexError::OutOfMemory) => return Err(RowError::OutOfMemory),
        Err(_) => return Err(RowError::BadImage),
    };
    let start = 256 * lsn as usize;
    let end = start + bytes.len();
    if bytes.len() > 256 || end > image.len() {
        return Err(RowError::BadImage);
    }
    image[start..end].copy_from_slice(&bytes);
    Ok(())
}
