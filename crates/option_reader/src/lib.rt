//! The definition of the options and arguments that the words after a command give, and their
//! reading by `clap`.
#![tactic(auto)]

ghost use Rattle.std.specs.Prelude.{◌≡◌, [], ◌∷◌, Some, None, codes};
ghost use Rattle.option_reader.specs.Given.{one_option, words_give};

pub use given::{GivenWords, read_given};
/// Options in both forms, before and after an argument.
pub fn options_are_read()
    ensures two_words { words_give (codes "slices" ∷ [])
        (codes "h" ∷ codes "--slices" ∷ codes "s" ∷ [])
        ≡ Some (one_option (codes "slices") (codes "s") (codes "h" ∷ [])) }
    ensures one_word { words_give (codes "slices" ∷ []) (codes "--slices=s" ∷ codes "h" ∷ [])
        ≡ Some (one_option (codes "slices") (codes "s") (codes "h" ∷ [])) }
    ensures dashed_value { words_give (codes "slices" ∷ []) (codes "--slices=-" ∷ [])
        ≡ Some (one_option (codes "slices") (codes "-") []) }
{}
/// Arguments without an option.
pub fn arguments_are_read()
    ensures behind_dashes { words_give (codes "slices" ∷ [])
        (codes "-" ∷ codes "--" ∷ codes "--slices" ∷ [])
        ≡ Some (record { options = []; arguments = codes "-" ∷ codes "--slices" ∷ [] }) }
    ensures empty_argument { words_give [] ([] ∷ [])
        ≡ Some (record { options = []; arguments = [] ∷ [] }) }
{}
/// Words that are refused.
pub fn words_are_refused()
    ensures twice { words_give (codes "slices" ∷ [])
        (codes "--slices" ∷ codes "s" ∷ codes "--slices=s" ∷ []) ≡ None }
    ensures no_value { words_give (codes "slices" ∷ []) (codes "--slices" ∷ []) ≡ None }
    ensures empty_value { words_give (codes "slices" ∷ []) (codes "--slices=" ∷ []) ≡ None }
    ensures empty_word { words_give (codes "slices" ∷ []) (codes "--slices" ∷ [] ∷ []) ≡ None }
    ensures dash { words_give (codes "slices" ∷ []) (codes "--slices" ∷ codes "-" ∷ []) ≡ None }
    ensures unknown { words_give (codes "slices" ∷ []) (codes "--slice=s" ∷ []) ≡ None }
    ensures one_dash { words_give (codes "slices" ∷ []) (codes "-slices=s" ∷ []) ≡ None }
{}

mod command;
mod dash;
mod given;
