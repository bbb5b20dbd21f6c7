//! Texts with what they give, as laws that the check computes from the definitions.

ghost use Rattle.std.specs.Prelude.{◌≡◌, [], ◌∷◌, ◌++◌, Ok, Err, codes};
ghost use Rattle.script_text.specs.Slices.{slices_of};
ghost use Rattle.script_text.specs.Script.{key_at, keys_of};

/// Lists of slices.
pub fn slice_texts_are_read()
    ensures three_slices { slices_of (codes "3 2*2") ≡ Ok (3 ∷ 2 ∷ 2 ∷ []) }
    ensures one_number { slices_of (codes "100") ≡ Ok (100 ∷ []) }
    ensures with_line_end { slices_of (codes "100" ++ 10 ∷ []) ≡ Ok (100 ∷ []) }
    ensures zeros_and_spaces { slices_of (codes "0001000000   7") ≡ Ok (1000000 ∷ 7 ∷ []) }
    ensures lines { slices_of (10 ∷ codes "1*2" ++ 10 ∷ 10 ∷ codes "3") ≡ Ok (1 ∷ 1 ∷ 3 ∷ []) }
    ensures empty { slices_of [] ≡ Ok [] }
{}

/// Slice texts with a number that is too small or too large, or too many instructions in all.
pub fn slice_numbers_are_refused()
    ensures no_times { slices_of (codes "5*0") ≡ Err 1 }
    ensures no_instructions { slices_of (codes "0") ≡ Err 1 }
    ensures long_slice { slices_of (codes "1" ++ 10 ∷ codes "1000001") ≡ Err 2 }
    ensures many_instructions { slices_of (codes "1000000*10" ++ 10 ∷ codes "1") ≡ Err 2 }
{}

/// A refused slice text names its first line that breaks a rule, counted from 1 with empty lines.
pub fn slice_texts_are_refused_by_line()
    ensures skipped_lines_count { slices_of (10 ∷ 10 ∷ codes "x") ≡ Err 3 }
    ensures first_line { slices_of (codes "x" ++ 10 ∷ codes "y") ≡ Err 1 }
    ensures spaces_alone { slices_of (codes "7" ++ 10 ∷ codes "  ") ≡ Err 2 }
{}

/// Slice texts with a character in a wrong place.
pub fn slice_texts_are_refused()
    ensures space_before { slices_of (codes " 7") ≡ Err 1 }
    ensures space_behind { slices_of (codes "7 ") ≡ Err 1 }
    ensures tab { slices_of (codes "7" ++ 9 ∷ codes "8") ≡ Err 1 }
    ensures carriage_return { slices_of (codes "7" ++ 13 ∷ 10 ∷ []) ≡ Err 1 }
    ensures two_asterisks { slices_of (codes "1*2*3") ≡ Err 1 }
    ensures nothing_behind { slices_of (codes "1*") ≡ Err 1 }
    ensures nothing_before { slices_of (codes "*1") ≡ Err 1 }
    ensures sign { slices_of (codes "+1") ≡ Err 1 }
    ensures number_sign { slices_of (codes "# 1") ≡ Err 1 }
{}

/// Scripts.
pub fn scripts_are_read()
    ensures one_key { keys_of 4 (codes "4 T1 41") ≡ Ok (key_at 4 1 65 ∷ []) }
    ensures keys { keys_of 1 (codes "2 TERM 61 0D" ++ 10 ∷ codes "2 TERM 7f")
        ≡ Ok (key_at 2 0 97 ∷ key_at 2 0 13 ∷ key_at 2 0 127 ∷ []) }
    ensures terminals { keys_of 4 (codes "0 T2 00" ++ 10 ∷ codes "1000000   T3  aF" ++ 10 ∷ [])
        ≡ Ok (key_at 0 2 0 ∷ key_at 1000000 3 175 ∷ []) }
    ensures skipped { keys_of 4 (codes "# first" ++ 10 ∷ 10 ∷ codes "1 TERM 0a" ++ 10 ∷ codes "#")
        ≡ Ok (key_at 1 0 10 ∷ []) }
    ensures empty { keys_of 4 [] ≡ Ok [] }
{}

/// Scripts with a wrong tick or terminal.
pub fn script_ticks_are_refused()
    ensures falling_ticks { keys_of 4 (codes "2 TERM 61 0D" ++ 10 ∷ codes "1 TERM 62") ≡ Err 2 }
    ensures late_tick { keys_of 4 (codes "1000001 TERM 61") ≡ Err 1 }
    ensures no_tick { keys_of 4 (codes "TERM 61") ≡ Err 1 }
    ensures other_terminal { keys_of 4 (codes "1 T4 61") ≡ Err 1 }
    ensures lower_case_terminal { keys_of 4 (codes "1 term 61") ≡ Err 1 }
    ensures absent_terminal { keys_of 2 (codes "1 T1 61" ++ 10 ∷ codes "1 T2 61") ≡ Err 2 }
{}

/// Scripts with a line without a byte, or a word that is not a byte.
pub fn script_bytes_are_refused()
    ensures no_byte { keys_of 4 (codes "1 TERM") ≡ Err 1 }
    ensures tick_alone { keys_of 4 (codes "1") ≡ Err 1 }
    ensures one_digit { keys_of 4 (codes "1 TERM 6") ≡ Err 1 }
    ensures three_digits { keys_of 4 (codes "1 TERM 061") ≡ Err 1 }
    ensures no_digit { keys_of 4 (codes "1 TERM 6G") ≡ Err 1 }
    ensures bad_byte_last { keys_of 4 (codes "1 TERM 61 6x") ≡ Err 1 }
{}

/// Scripts with a character in a wrong place.
pub fn scripts_are_refused()
    ensures space_before { keys_of 4 (codes " 1 TERM 61") ≡ Err 1 }
    ensures space_behind { keys_of 4 (codes "1 TERM 61 ") ≡ Err 1 }
    ensures space_before_sign { keys_of 4 (codes "# 1" ++ 10 ∷ codes " #") ≡ Err 2 }
    ensures spaces_alone { keys_of 4 (codes "  ") ≡ Err 1 }
    ensures tab { keys_of 4 (codes "1 TERM" ++ 9 ∷ codes "61") ≡ Err 1 }
    ensures carriage_return { keys_of 4 (codes "1 TERM 61" ++ 13 ∷ 10 ∷ []) ≡ Err 1 }
{}
