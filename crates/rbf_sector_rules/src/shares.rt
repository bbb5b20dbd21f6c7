ghost use Rattle.std.specs.Prelude.{ℕ, IfOk};
ghost use Rattle.rbf_model.specs.Geometry.{HasMap};
ghost use Rattle.rbf_model.specs.Faults.{Breaks};
ghost use Rattle.rbf_sector.specs.Ident.{geometry_of};
ghost use Rattle.rbf_sector_rules.specs.Files.{AreFiles};
ghost use Rattle.rbf_sector_rules.specs.Reading.{disk_on};
ghost use Rattle.rbf_sector_rules.specs.Least.{IsLeastBreach};

use crate::owners::list_segments;
use crate::uses::{Owner, Uses};
use crate::{FoundFile, IdentifiedImage};
use std::alloc::{AllocError, Global};

/// The least sector that breaks rule 4: one owner uses it twice, or it is the first of a cluster
/// that has two owners. None if the rule is kept. The image must keep rules 1 and 2.
///
/// # Errors
///
/// Out of memory.
pub fn least_used_again(
    alloc: Global,
    image: &IdentifiedImage<'_>,
    files: &[FoundFile],
) -> Result<Option<u32>, AllocError>
    requires files { AreFiles image.now files.now }
    requires segments { (lsn : ℕ) → ¬ Breaks (disk_on image.now) 1 lsn }
    requires map { HasMap (geometry_of image.now.ident) }
    ensures { IfOk result (IsLeastBreach (disk_on image.now) 4) }
{
    let mut uses = Uses::new(alloc, image.ident.total)?;
    let mut segments = Vec::new(alloc);
    for (place, file) in files.iter().enumerate() {
        let owner = Owner {
            place,
            descriptor: file.number,
        };
        list_segments(image, file, &mut segments)?;
        uses.note_segments(u32::from(image.ident.cluster), owner, &segments);
    }
    let least = uses.least;
    if least < image.ident.total {
        Ok(Some(least))
    } else {
        Ok(None)
    }
}
