ghost use Rattle.std.specs.Prelude.{◌≡◌, IfOk, OnOk, MatchBool};
ghost use Rattle.os9_base.specs.Name as model;
ghost use Rattle.rbf_check.specs.Keys.{IsNameKey, HasKey, IsKeyAdded};

use os9_base::name::Name;
use std::alloc::AllocError;
use std::collections::BTreeSet;

// A letter in lower case; any other character is unchanged.
fn lower(character: u8) -> u8
    ensures { result ≡ model.lower character }
{
    if character >= b'A' && character <= b'Z' {
        character + 32
    } else {
        character
    }
}

// The characters of a name in lower case, with zeros after them.
pub fn key_of(name: &Name) -> [u8; 29]
    ensures { IsNameKey name.now result }
{
    let mut key = [0; 29];
    for i in 0..name.len() {
        key[usize::from(i)] = lower(name.byte(i));
    }
    key
}

// Adds a key, and returns whether it is new.
pub fn add_key(keys: &mut BTreeSet<[u8; 29]>, key: [u8; 29]) -> Result<bool, AllocError>
    ensures added { OnOk result (IsKeyAdded keys.old keys.new key) }
    ensures fresh { IfOk result
        (λ fresh. MatchBool fresh (HasKey keys.old key → ⊥) (HasKey keys.old key)) }
{
    let fresh = keys.insert(key)?;
    Ok(fresh)
}
