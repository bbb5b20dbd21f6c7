use module_format::crc24;
use rbf_sector::{Ident, is_header, read_ident, system_sectors};
use std::alloc::{AllocError, Global};
use std::fmt::Write;

/// Writes the line on the bytes of an image outside all files: its sector 0, its map with the marks
/// of all clusters cleared, and the bytes past its sectors.
pub(crate) fn write_outside(
    alloc: Global,
    image: &[u8],
    text: &mut String,
) -> Result<(), AllocError> {
    let Some((first, behind)) = image.split_first_chunk::<256>() else {
        return Ok(());
    };
    let ident = read_ident(first);
    let map = cleared_map(alloc, &ident, behind)?;
    let past = image.get(256 * ident.total as usize..).unwrap_or(&[]);
    writeln!(
        text,
        "outside {:06x} {:06x} {:06x}",
        crc24(first),
        crc24(&map),
        crc24(past)
    )
}

// The sectors of the map, at the beginning of these bytes, without the marks of the clusters.
fn cleared_map(alloc: Global, ident: &Ident, behind: &[u8]) -> Result<Vec<u8>, AllocError> {
    let length = usize::from(ident.map_bytes).div_ceil(256) * 256;
    let mut map = behind.get(..length).unwrap_or(&[]).to_vec(alloc)?;
    let mut clusters = ident.total.div_ceil(u32::from(ident.cluster.max(1)));
    for byte in map.iter_mut() {
        *byte = past_marks(*byte, clusters);
        clusters = clusters.saturating_sub(8);
    }
    Ok(map)
}

// A byte of the map without the marks of the first `clusters` clusters.
fn past_marks(byte: u8, clusters: u32) -> u8 {
    match clusters {
        0..8 => byte & (0xff >> clusters),
        _ => 0,
    }
}
