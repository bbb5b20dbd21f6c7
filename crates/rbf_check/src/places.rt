ghost use Rattle.std.specs.Prelude.{◌≡◌, ◌<◌, All, IfOk, IfSome, None, Some};
ghost use Rattle.rbf_sector_rules.specs.Linked.{IsLinkOn, linked_entry};
ghost use Rattle.rbf_model.specs.Fields.{directory_entry, entry_name_field};
ghost use Rattle.rbf_model.specs.Geometry.{sector as sector_of};
ghost use Rattle.rbf_model.specs.File.{file_at};
ghost use Rattle.rbf_model.specs.Search.{searchable_bytes};
ghost use Rattle.rbf_model.specs.Tree.{dot, Links};
ghost use Rattle.rbf_sector.specs.Ident.{geometry_of};
ghost use Rattle.rbf_sector_rules.specs.Reading.{disk_on, listed};
ghost use Rattle.rbf_check.specs.Survey.{IsSurvey};
ghost use Rattle.rbf_check.specs.Places.{AreLinkPlaces};
ghost use Rattle.rbf_check.specs.VolumeNodes.{volume_from};
ghost use Rattle.rbf_check.specs.Tree.{IsPlaced};

use crate::survey::Survey;
use os9_base::name::{Name, header_name, parse_name};
use rbf_sector_rules::{Link, link_entry};
use std::alloc::{AllocError, Global};

/// The place of a file in the tree: its directory, and its name there.
#[derive(Clone, Copy, Debug)]
pub struct Place {
    pub parent: u32,
    pub name: Name,
}

/// A table of the link that names each descriptor.
pub fn list_places(
    alloc: Global,
    total: u32,
    links: &[Link],
) -> Result<Vec<Option<Link>>, AllocError>
    requires { All (λ link. link.descriptor < total) links.now }
    ensures { IfOk result (λ places. AreLinkPlaces links.now total places.items) }
{
    let mut places = vec![in alloc; None; total as usize]?;
    for link in links {
        places[link.descriptor as usize] = Some(*link);
    }
    Ok(places)
}

// The name of the root.
fn root_name() -> Name
    ensures { result ≡ dot }
{
    parse_name(b".").unwrap()
}

// The name in the entry of a link.
fn link_name(survey: &Survey<'_>, link: &Link) -> Name
    requires survey { IsSurvey survey.now }
    requires link { IsLinkOn (disk_on survey.now.image) link.now }
    ensures { entry_name_field (linked_entry (disk_on survey.now.image) link.now)
        ≡ Some result }
{
    let entry = link_entry(&survey.image, link);
    header_name(&entry.name).unwrap()
}

/// The place of the file of a descriptor, if it is reached.
pub fn place_of(survey: &Survey<'_>, places: &[Option<Link>], n: u32) -> Option<Place>
    requires survey { IsSurvey survey.now }
    requires places { AreLinkPlaces survey.now.links.items survey.now.image.ident.total places.now }
    requires number { n < survey.now.image.ident.total }
    ensures none { result ≡ None → (volume_from survey.now).files n ≡ None }
    ensures file { IfSome result
        (λ place. (volume_from survey.now).files n
        ≡ Some (file_at (sector_of survey.now.image.bytes.now) n)) }
    ensures place { IfSome result
        (λ place. IsPlaced (geometry_of survey.now.image.ident)
        (volume_from survey.now) n place.parent place.name) }
{
    if n == survey.image.ident.root {
        return Some(Place {
            parent: n,
            name: root_name(),
        });
    }
    let link = places[n as usize]?;
    Some(Place {
        parent: link.directory,
        name: link_name(survey, &link),
    })
}
