//! Texts with the commands that they give, as laws that the check computes from the definitions.

ghost use Rattle.std.specs.Prelude.{◌≡◌, [], ◌∷◌, ◌++◌, Ok, Err, codes};
ghost use Rattle.os9_debug.specs.Commands.{commands_of};
ghost use Rattle.os9_debug.specs.declared.command.Command.TheVariants.{To, Back, Regs, Mem, Dis};

/// Commands.
pub fn commands_are_read()
    ensures positions { commands_of (codes "to 1" ++ 10 ∷ codes "back 256")
        ≡ Ok (To 1 ∷ Back 256 ∷ []) }
    ensures registers { commands_of (10 ∷ codes "regs" ++ 10 ∷ 10 ∷ []) ≡ Ok (Regs ∷ []) }
    ensures memory { commands_of (codes "mem  fFa0   001")
        ≡ Ok (Mem (record { at = 65440; count = 1 }) ∷ []) }
    ensures instructions { commands_of (codes "dis E015 1")
        ≡ Ok (Dis (record { at = 57365; count = 1 }) ∷ []) }
    ensures long_number { commands_of (codes "to 99999999999999999999")
        ≡ Ok (To 18446744073709551615 ∷ []) }
    ensures empty { commands_of [] ≡ Ok [] }
{}

/// Lines that are not commands.
pub fn lines_are_refused()
    ensures none_back { commands_of (codes "back 0") ≡ Err 1 }
    ensures far_back { commands_of (codes "regs" ++ 10 ∷ codes "back 257") ≡ Err 2 }
    ensures no_number { commands_of (codes "to") ≡ Err 1 }
    ensures short_address { commands_of (codes "mem E01 1") ≡ Err 1 }
    ensures long_address { commands_of (codes "dis 0E015 1") ≡ Err 1 }
    ensures no_count { commands_of (codes "mem E015") ≡ Err 1 }
    ensures third_word { commands_of (codes "back 1 1") ≡ Err 1 }
    ensures other_word { commands_of (codes "Regs") ≡ Err 1 }
    ensures first_line { commands_of (10 ∷ codes "regs 1" ++ 10 ∷ codes "x") ≡ Err 2 }
{}

/// Lines with a misplaced character.
pub fn characters_are_refused()
    ensures space_before { commands_of (codes " regs") ≡ Err 1 }
    ensures space_behind { commands_of (codes "regs ") ≡ Err 1 }
    ensures spaces_alone { commands_of (codes "regs" ++ 10 ∷ codes "  ") ≡ Err 2 }
    ensures tab { commands_of (codes "to" ++ 9 ∷ codes "1") ≡ Err 1 }
    ensures carriage_return { commands_of (codes "regs" ++ 13 ∷ 10 ∷ []) ≡ Err 1 }
    ensures comment { commands_of (codes "# regs") ≡ Err 1 }
{}
