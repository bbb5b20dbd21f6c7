ghost use Rattle.std.specs.Prelude.{◌≡◌, ℕ, List, option_map};
ghost use Rattle.std.specs.List.{slice_split, list_all};
ghost use Rattle.os9_base.specs.Name.{is_name_character as is_name_character_model};
ghost use Rattle.asm_model.specs.Characters.{is_comma};
ghost use Rattle.asm_model.specs.Statements.{is_module_name as is_module_name_model, module_fields as module_fields_model, expression_list as expression_list_model, if_expression, directive_action as directive_action_model, action_of as action_of_model, Action as ActionOf};
ghost use Rattle.asm_lines.specs.Lines.{action_said, fields_said, list_said, are_right as are_right_model};

use crate::cuts::{cut_at_comma, quoted};
use crate::words::directive_of;
use asm_model::directive::Directive;
use asm_text::{Shape, is_constant_expression, is_expression, shape_of};
use text_values::first_word;

/// The operands of `mod`, as texts.
#[derive(Clone, Copy, Debug)]
pub struct ModuleFields<'a> {
    pub name: &'a [u8],
    pub kind: &'a [u8],
    pub attributes: &'a [u8],
    pub storage: &'a [u8],
}

/// The action of a statement. Expressions are texts.
#[derive(Clone, Copy, Debug)]
pub enum Action<'a> {
    /// None: there is only a label.
    LabelAlone,
    /// An instruction.
    Instruction(Shape<'a>),
    /// The header and the name of the module.
    ModuleStart(ModuleFields<'a>),
    /// Its CRC.
    ModuleEnd,
    /// The value of the label.
    Equals(&'a [u8]),
    /// Bytes: expressions separated by commas.
    ByteList(&'a [u8]),
    /// Words: expressions separated by commas.
    WordList(&'a [u8]),
    /// Characters.
    Characters(&'a [u8]),
    /// Characters, the last with bit 7.
    MarkedCharacters(&'a [u8]),
    /// A call of OS-9.
    SystemCall(&'a [u8]),
}

/// The greatest number of characters of a module's name.
const LONGEST_NAME: usize = 29;

fn is_name_character(c: u8) -> bool
    ensures { result ≡ is_name_character_model c }
{
    matches!(c, b'a'..=b'z' | b'A'..=b'Z' | b'0'..=b'9' | b'_' | b'.')
}

fn are_name_characters(name: &[u8]) -> bool
    ensures { result ≡ list_all is_name_character_model name.now }
{
    name.iter().all(|c| is_name_character(*c))
}

// Is it a name of 1 to 29 characters that F$PrsNam accepts?
pub fn is_module_name(name: &[u8]) -> bool
    ensures { result ≡ is_module_name_model name.now }
{
    !name.is_empty() && name.len() <= LONGEST_NAME && are_name_characters(name)
}

// The four operands of `mod`, if they are valid.
fn module_fields(text: &[u8]) -> Option<Action<'_>>
    ensures { option_map action_said result ≡ module_fields_model (slice_split is_comma text.now) }
{
    let name = cut_at_comma(text)?;
    let kind = cut_at_comma(name.behind)?;
    let attributes = cut_at_comma(kind.behind)?;
    if cut_at_comma(attributes.behind).is_some() {
        return None;
    }
    let fields = ModuleFields {
        name: name.before,
        kind: kind.before,
        attributes: attributes.before,
        storage: attributes.behind,
    };
    if are_right(fields) {
        Some(Action::ModuleStart(fields))
    } else {
        None
    }
}

// Are the operands of `mod` valid?
fn are_right(fields: ModuleFields) -> bool
    ensures { result ≡ are_right_model (fields_said fields.entry) }
{
    is_module_name(fields.name)
        && is_constant_expression(fields.kind)
        && is_expression(fields.attributes)
        && is_expression(fields.storage)
}

// The expressions, separated by commas, if each part is one.
fn expression_list(text: &[u8]) -> Option<&[u8]>
    ensures { option_map (λ t. list_said t.now) result ≡ expression_list_model text.now }
{
    if text.split(|c| *c == b',').all(|part| is_expression(part)) {
        Some(text)
    } else {
        None
    }
}

// The expression, if the text is one.
fn expression(text: &[u8]) -> Option<&[u8]>
    ensures { (action : List ℕ → ActionOf) → option_map (λ e. action e.now) result
        ≡ if_expression action text.now }
{
    if is_expression(text) {
        Some(text)
    } else {
        None
    }
}

// The action of a directive with this rest of its line, if its operand is valid.
fn directive_action(directive: Directive, rest: &[u8]) -> Option<Action<'_>>
    ensures { option_map action_said result ≡ directive_action_model directive rest.now }
{
    let operand = first_word(rest);
    match directive {
        Directive::Mod => module_fields(operand),
        Directive::Emod => Some(Action::ModuleEnd),
        Directive::Equ => Some(Action::Equals(expression(operand)?)),
        Directive::Fcb => Some(Action::ByteList(expression_list(operand)?)),
        Directive::Fdb => Some(Action::WordList(expression_list(operand)?)),
        Directive::Fcc => Some(Action::Characters(quoted(rest)?)),
        Directive::Fcs => Some(Action::MarkedCharacters(quoted(rest)?)),
        Directive::Os9 => Some(Action::SystemCall(expression(operand)?)),
    }
}

/// The action of a word with this rest of its line, if they are valid.
pub fn action_of<'a>(word: &[u8], rest: &'a [u8]) -> Option<Action<'a>>
    ensures { option_map action_said result ≡ action_of_model word.now rest.now }
{
    match directive_of(word) {
        Some(directive) => directive_action(directive, rest),
        None => Some(Action::Instruction(shape_of(word, first_word(rest))?)),
    }
}
