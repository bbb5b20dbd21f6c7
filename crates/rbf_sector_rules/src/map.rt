ghost use Rattle.rbf_sector_rules.specs.Reading.{disk_on};
ghost use Rattle.rbf_sector_rules.specs.Least.{IsLeastBreach};

use crate::IdentifiedImage;
use rbf_sector::has_map;

/// The breach of rule 2, on the map, which is reported at LSN 1. None if the rule is kept.
pub fn map_breach(image: &IdentifiedImage<'_>) -> Option<u32>
    ensures { IsLeastBreach (disk_on image.now) 2 result }
{
    if has_map(&image.ident) {
        return None;
    }
    Some(1)
}
