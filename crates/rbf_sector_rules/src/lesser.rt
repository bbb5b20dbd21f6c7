ghost use Rattle.std.specs.Prelude.{◌≡◌};
ghost use Rattle.rbf_sector_rules.specs.Least.{lesser_of};

/// The lesser of two numbers, either of which may be missing.
pub fn least_of(one: Option<u32>, other: Option<u32>) -> Option<u32>
    ensures { result ≡ lesser_of one other }
{
    let Some(first) = one else {
        return other;
    };
    match other {
        None => Some(first),
        Some(second) => Some(first.min(second)),
    }
}
