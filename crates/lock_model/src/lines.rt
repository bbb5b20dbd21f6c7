//! Worked lines of a history.

ghost use Rattle.std.specs.Prelude.{◌≡◌, ◌++◌, ◌∷◌, [], None, Some, codes};
ghost use Rattle.lock_model.specs.History.{got, put};
ghost use Rattle.lock_model.specs.Lines.{history_text};
ghost use Rattle.lock_model.specs.Rows.{bytes_to, lock_on};

/// Process 2 reads four bytes of a file of eight on path 2, and writes four in their place; another
/// time it reads nine.
pub fn history_lines()
    ensures pair { history_text (got 2 (lock_on 2 (bytes_to 0 (Some 4))) (codes "abcd")
        ∷ (put 2 (lock_on 2 (bytes_to 0 (Some 4))) (codes "Abcd") ∷ []))
        ≡ codes "G 2 2 0:000009 00000000 00000004 61626364" ++ 10
        ∷ (codes "P 2 2 0:000009 00000000 00000004 41626364" ++ 10 ∷ []) }
    ensures past { history_text (got 2 (lock_on 2 (bytes_to 0 None)) (codes "abcdefgh") ∷ [])
        ≡ codes "G 2 2 0:000009 00000000 -------- 6162636465666768" ++ 10 ∷ [] }
{}
