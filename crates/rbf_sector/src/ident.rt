ghost use Rattle.std.specs.Prelude.{◌≡◌, ◌+◌, ◌≤◌};
ghost use Rattle.rbf_model.specs.Decides.{Decides};
ghost use Rattle.rbf_model.specs.Fields.{total_field, map_bytes_field, cluster_field, root_field, boot_field, boot_size_field};
ghost use Rattle.rbf_model.specs.Geometry.{IsHeader, HasMap, map_sectors};
ghost use Rattle.rbf_sector.specs.Ident.{geometry_of};

use crate::parts::{u16_at, u24_at};

/// The fields of the identification sector, LSN 0 (OS-9 Technical Reference, Random Block File
/// Manager, "Identification Sector").
///
/// `cluster` is the number of sectors per cluster; `boot` and `boot_size` are the bootstrap file's
/// first sector and its size in bytes.
#[derive(Clone, Copy, Debug, PartialEq, Eq)]
pub struct Ident {
    pub total: u32,
    pub map_bytes: u16,
    pub cluster: u16,
    pub root: u32,
    pub boot: u32,
    pub boot_size: u16,
}

/// The fields of an identification sector.
pub fn read_ident(b: &[u8; 256]) -> Ident
    ensures total { result.total ≡ total_field b.now }
    ensures map_bytes { result.map_bytes ≡ map_bytes_field b.now }
    ensures cluster { result.cluster ≡ cluster_field b.now }
    ensures root { result.root ≡ root_field b.now }
    ensures boot { result.boot ≡ boot_field b.now }
    ensures boot_size { result.boot_size ≡ boot_size_field b.now }
{
    Ident {
        total: u24_at(b, 0),
        map_bytes: u16_at(b, 4),
        cluster: u16_at(b, 6),
        root: u24_at(b, 8),
        boot: u24_at(b, 21),
        boot_size: u16_at(b, 24),
    }
}

/// Whether this project accepts a volume of this size, with these clusters and this root. It has
/// from 4 to 524,280 sectors, and 1, 2, 4, 8, 16, 32 or 64 sectors per cluster.
pub fn is_header(ident: &Ident) -> bool
    ensures { Decides result (IsHeader (geometry_of ident.now)) }
{
    let size = 4 <= ident.total && ident.total <= 524_280;
    let clusters = matches!(ident.cluster, 1 | 2 | 4 | 8 | 16 | 32 | 64);
    let root = 1 <= ident.root && ident.root < ident.total;
    size && clusters && root
}

/// Whether the map has a bit for each cluster and ends within the volume.
pub fn has_map(ident: &Ident) -> bool
    ensures { Decides result (HasMap (geometry_of ident.now)) }
{
    let bits = 8 * u64::from(ident.map_bytes) * u64::from(ident.cluster);
    u64::from(ident.total) <= bits && u32::from(system_sectors(ident)) <= ident.total
}

/// The number of system sectors, from LSN 0 on: the identification sector, and those of the map.
pub fn system_sectors(ident: &Ident) -> u16
    ensures count { result ≡ 1 + map_sectors (geometry_of ident.now) }
    ensures few { result ≤ 257 }
{
    1 + ident.map_bytes.div_ceil(256)
}
