//! Worked values of the definitions.

ghost use Rattle.std.specs.Prelude.{◌≡◌, ◌∷◌, []};
ghost use Rattle.guest_mods.specs.Random.{draws};

/// The first draws of two seeds, worked out by hand.
pub fn first_draws()
    ensures first { draws 0 32 0 2 ≡ 1 ∷ 29 ∷ [] }
    ensures other { draws 1 32 0 1 ≡ 7 ∷ [] }
{}
