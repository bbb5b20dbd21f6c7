//! Modules that make others known.

ghost use Rattle.std.specs.Prelude.{◌≡◌};
ghost use Rattle.std.specs.List.{list_any};
ghost use Rattle.proc_model.specs.ModuleList.{are_namesakes as are_namesakes_model, revision_of};
ghost use Rattle.load_calls.specs.Trying.{makes_known as makes_known_model};

use os9_base::name::same_name;
use proc_model::module::ModuleInfo;

/// Does one of these modules have the module's name and type, and the module's revision or a
/// greater one (Level Two manual, "Module directory")?
pub(crate) fn is_among(tried: &[Option<ModuleInfo>], info: &ModuleInfo) -> bool
    ensures { result ≡ list_any (makes_known_model info.now) tried.now }
{
    tried.iter().any(|place| makes_known(place, info))
}

/// Does this module have the same name and type, and the module's revision or a greater one?
fn makes_known(place: &Option<ModuleInfo>, info: &ModuleInfo) -> bool
    ensures { result ≡ makes_known_model info.now place.now }
{
    match place {
        None => false,
        Some(other) => are_namesakes(info, other) && revision(info) <= revision(other),
    }
}

/// Do these two modules have the same name, case ignored, and the same type, whatever the language?
fn are_namesakes(a: &ModuleInfo, b: &ModuleInfo) -> bool
    ensures { result ≡ are_namesakes_model a.now b.now }
{
    same_name(&a.name, &b.name) && a.kind >> 4 == b.kind >> 4
}

/// A module's revision: the low half of its attributes.
fn revision(info: &ModuleInfo) -> u8
    ensures { result ≡ revision_of info.now }
{
    info.attr & 0x0F
}
