ghost use Rattle.std.specs.Prelude.{◌≡◌, ◌⊎◌, ◌+◌, ◌<◌, ◌≤◌, ℕ, All, IfOk, MatchBool, Some, None, length, slice_index_or};
ghost use Rattle.rbf_sector_rules.specs.Reading.{disk_on};
ghost use Rattle.rbf_sector_rules.specs.Linked.{AreLinks};
ghost use Rattle.rbf_sector_rules.specs.Least.{IsLeast, IsLeastBreach};
ghost use Rattle.rbf_sector_rules.specs.Given.{IsPlaceGiven};
ghost use Rattle.rbf_check.specs.Named.{AreSame, AreFirsts, IsNamedAgain};

use rbf_sector::Ident;
use rbf_sector_rules::{IdentifiedImage, Link, least_of};
use std::alloc::{AllocError, Global};

// Whether the link names the root's descriptor, or is not the first link of its descriptor.
fn is_again(root: u32, first: &Link, link: &Link) -> bool
    ensures { MatchBool result ((link.now.descriptor ≡ root) ⊎ (AreSame first.now link.now → ⊥))
        ((link.now.descriptor ≡ root → ⊥) × AreSame first.now link.now) }
{
    let same = first.directory == link.directory && first.entry == link.entry;
    link.descriptor == root || !same
}

// The first link that names the descriptor. If there is none, it is this one, which is then noted.
fn first_of(firsts: &mut Vec<Option<usize>>, n: u32, k: usize) -> usize
    requires { n < length firsts.old.items }
    ensures noted { IsPlaceGiven firsts.old.items firsts.new.items k n }
    ensures first { slice_index_or firsts.new.items n None ≡ Some result }
{
    match firsts[n as usize] {
        None => {
            firsts[n as usize] = Some(k);
            k
        }
        Some(first) => first,
    }
}

// The descriptor of the link in place `k`, if it is the root's or an earlier link names it.
fn named_again(
    links: &[Link],
    firsts: &mut Vec<Option<usize>>,
    ident: &Ident,
    k: usize,
) -> Option<u32>
    requires place { k < length links.now }
    requires numbers { All (λ link. link.descriptor < length firsts.old.items) links.now }
    requires firsts { AreFirsts links.now firsts.old.items k }
    ensures size { length firsts.new.items ≡ length firsts.old.items }
    ensures firsts { AreFirsts links.now firsts.new.items (k + 1) }
    ensures again { IsLeast (IsNamedAgain links.now ident.now.root k) result }
{
    let link = links[k];
    let first = links[first_of(firsts, link.descriptor, k)];
    if is_again(ident.root, &first, &link) {
        Some(link.descriptor)
    } else {
        None
    }
}

/// The least descriptor that breaks rule 9: two entries name it, or it is the root's and one entry
/// names it. None if the rule is kept.
///
/// # Errors
///
/// Out of memory.
pub fn least_named_again(
    alloc: Global,
    image: &IdentifiedImage<'_>,
    links: &[Link],
) -> Result<Option<u32>, AllocError>
    requires { AreLinks (disk_on image.now) links.now }
    ensures { IfOk result (IsLeastBreach (disk_on image.now) 9) }
{
    let mut firsts = vec![in alloc; None; image.ident.total as usize]?;
    let mut least = None;
    for k in 0..links.len() {
        least = least_of(least, named_again(links, &mut firsts, &image.ident, k));
    }
    Ok(least)
}
