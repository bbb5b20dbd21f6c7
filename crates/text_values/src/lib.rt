//! Numbers and hexadecimal digits in texts, and lines cut at their spaces.
#![tactic(auto)]

ghost use Rattle.std.specs.Prelude.{◌≡◌, ◌≤◌, length};
ghost use Rattle.std.specs.List.{position_or_len};
ghost use Rattle.text_values.specs.Cuts as model;
ghost use Rattle.text_values.specs.Cuts.{is_space};

pub use number::{hex_digit, read_number};
/// The line without its leading spaces.
pub fn without_spaces(line: &[u8]) -> &[u8]
    ensures { result.now ≡ model.without_spaces line.now }
{
    let spaces = line
        .iter()
        .position(|byte| *byte != b' ')
        .unwrap_or(line.len());
    &line[spaces..]
}
/// The place of the first space, or the end if there is none.
pub fn first_space(line: &[u8]) -> usize
    ensures place { result ≡ position_or_len is_space line.now }
    ensures within { result ≤ length line.now }
{
    line.iter()
        .position(|byte| *byte == b' ')
        .unwrap_or(line.len())
}
/// The line up to its first space, the whole line if it has none.
pub fn first_word(line: &[u8]) -> &[u8]
    ensures { result.now ≡ model.first_word line.now }
{
    &line[..first_space(line)]
}
/// The line from its first space on.
pub fn behind_word(line: &[u8]) -> &[u8]
    ensures { result.now ≡ model.behind_word line.now }
{
    &line[first_space(line)..]
}

mod number;
