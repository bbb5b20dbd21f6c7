ghost use Rattle.std.specs.Prelude.{◌≡◌, option_map};
ghost use Rattle.std.specs.List.{list_all};
ghost use Rattle.asm_model.specs.Characters.{is_line_byte as is_line_byte_model};
ghost use Rattle.asm_model.specs.Statements.{is_skipped as is_skipped_model, after_label as after_label_model, labelled as labelled_model, line_read, statement as statement_model};
ghost use Rattle.asm_lines.specs.Lines.{action_said, line_said};

use crate::operands::{Action, action_of};
use asm_text::is_label;
use text_values::{behind_word, first_word, without_spaces};

/// A label, if there is one, and an action.
#[derive(Clone, Copy, Debug)]
pub struct Statement<'a> {
    pub name: Option<&'a [u8]>,
    pub action: Action<'a>,
}

/// What is read from a line.
#[derive(Clone, Copy, Debug)]
pub enum Line<'a> {
    /// Empty, or a comment.
    Skipped,
    /// Not of the language; with its label, if it has one.
    Broken(Option<&'a [u8]>),
    /// A statement.
    Stated(Statement<'a>),
}

// Is the byte allowed in a line: from a space to `~`?
fn is_line_byte(c: u8) -> bool
    ensures { result ≡ is_line_byte_model c }
{
    matches!(c, b' '..=b'~')
}

fn are_line_bytes(line: &[u8]) -> bool
    ensures { result ≡ list_all is_line_byte_model line.now }
{
    line.iter().all(|c| is_line_byte(*c))
}

// Is the line skipped? It is empty, or begins with `*`.
fn is_skipped(line: &[u8]) -> bool
    ensures { result ≡ is_skipped_model line.now }
{
    match line {
        [] => true,
        [c, ..] => *c == b'*',
    }
}

// The statement of a label and an action, if they make one: `equ` needs a label.
fn stated<'a>(name: Option<&'a [u8]>, action: Option<Action<'a>>) -> Line<'a>
    ensures { line_said result
        ≡ statement_model (option_map (λ n. n.now) name.entry)
        (option_map action_said action.entry) }
{
    let Some(action) = action else {
        return Line::Broken(name);
    };
    if name.is_none() && matches!(action, Action::Equals(_)) {
        return Line::Broken(None);
    }
    Line::Stated(Statement { name, action })
}

// What is read from the rest of a line, after its label or its leading spaces.
fn after_label<'a>(name: Option<&'a [u8]>, rest: &'a [u8]) -> Line<'a>
    ensures { line_said result ≡ after_label_model (option_map (λ n. n.now) name.entry) rest.now }
{
    if !rest.is_empty() {
        let operand = without_spaces(behind_word(rest));
        return stated(name, action_of(first_word(rest), operand));
    }
    if name.is_none() {
        return Line::Broken(None);
    }
    Line::Stated(Statement {
        name,
        action: Action::LabelAlone,
    })
}

// What is read from a line of a first column and the rest after it.
fn labelled<'a>(name: &'a [u8], rest: &'a [u8]) -> Line<'a>
    ensures { line_said result ≡ labelled_model name.now rest.now }
{
    if name.is_empty() {
        after_label(None, rest)
    } else if is_label(name) {
        after_label(Some(name), rest)
    } else {
        Line::Broken(None)
    }
}

/// Reads a line without its line feed: an optional label in the first column, spaces, a word, and
/// an operand if the word takes one (this project's own, in the manner of the usual assemblers of
/// the 6809).
#[tactic(auto, unfolding(asm_model::specs::Statements::line_read))]
pub fn read_line(line: &[u8]) -> Line<'_>
    ensures { line_said result ≡ line_read line.now }
{
    if !are_line_bytes(line) {
        return Line::Broken(None);
    }
    if is_skipped(line) {
        return Line::Skipped;
    }
    labelled(first_word(line), without_spaces(behind_word(line)))
}
