//! Scripts with the keys that terminals get, as laws that the check computes from the definitions.

ghost use Rattle.std.specs.Prelude.{◌≡◌, [], ◌∷◌, Some, map};
ghost use Rattle.script_text.specs.Script.{key_at};
ghost use Rattle.boot_run.specs.Loaded.{keys_for, loaded};

/// Keys of two terminals, one after another.
pub fn keys_go_to_their_terminals()
    ensures first { keys_for 0 (key_at 1 0 97 ∷ key_at 1 1 98 ∷ key_at 2 0 13 ∷ [])
        ≡ record { tick = 1; byte = 97 } ∷ record { tick = 2; byte = 13 } ∷ [] }
    ensures second { keys_for 1 (key_at 1 0 97 ∷ key_at 1 1 98 ∷ key_at 2 0 13 ∷ [])
        ≡ record { tick = 1; byte = 98 } ∷ [] }
    ensures third { keys_for 2 (key_at 1 0 97 ∷ key_at 1 1 98 ∷ key_at 2 0 13 ∷ []) ≡ [] }
    ensures each { map (λ terminal. terminal.keys)
        (loaded (key_at 1 1 98 ∷ key_at 2 0 13 ∷ [])
        (record { keys = []; put = Some []; faults = 0 }
        ∷ record { keys = []; put = Some []; faults = 7 } ∷ []))
        ≡ (record { tick = 2; byte = 13 } ∷ []) ∷ (record { tick = 1; byte = 98 } ∷ []) ∷ [] }
{}
