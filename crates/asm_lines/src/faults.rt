ghost use Rattle.std.specs.Prelude.{◌≡◌, ◌+◌, ◌<◌, ◌||◌, map, unwrap_or, option_map, IfOk};
ghost use Rattle.std.specs.List.{list_all, list_any, slice_split};
ghost use Rattle.asm_model.specs.Characters.{is_comma};
ghost use Rattle.asm_model.specs.Placement.{Reached as ReachedOf, action_length as action_length_model, start as start_model, fault_from, line_fault as line_fault_model, names_fit, is_twice as is_twice_model, is_out as is_out_model, is_too_long as is_too_long_model, is_bad_kind as is_bad_kind_model, has_bad_value as has_bad_value_model};
ghost use Rattle.asm_model.specs.Statements.{stated};
ghost use Rattle.asm_lines.specs.Labels.{IsReached, all_names_in, expression_in, fault_said, is_equals as is_equals_model, is_filled_in, is_text_filled_in, name_is_in, names_in, value_out_in};
ghost use Rattle.asm_lines.specs.Lines.{action_said, line_said, statement_said};

use crate::lengths::{CRC_LENGTH, action_length, constant_value};
use crate::reached::{Reached, add_line, is_end, is_start, nothing};
use crate::table::Labels;
use crate::values::{Place, are_names_known, value_at};
use crate::{Action, Line, Statement};
use asm_model::error::AsmError;
use asm_model::operand::{Field, Wanted};
use asm_text::filled;
use os9_base::call::OutOfMemory;
use os9_base::limits::MOST_GROUP_BYTES;
use std::alloc::Global;

/// A line, by its number from 1, and the rule that it breaks.
#[derive(Clone, Copy, Debug, PartialEq, Eq)]
pub struct SourceFault {
    pub line: u64,
    pub error: AsmError,
}

/// The least type and language of a module.
const LEAST_KIND: i128 = 0x10;

/// The greatest type and language of a module.
const MOST_KIND: i128 = 0xff;

// Are all labels of a list of expressions among these?
fn are_list_names_known(labels: &Labels, text: &[u8]) -> bool
    ensures { result ≡ list_all (names_in labels.now) (slice_split is_comma text.now) }
{
    text.split(|c| *c == b',')
        .all(|part| are_names_known(labels, part))
}

// Are all labels that a statement names among these?
fn names_are_among(labels: &Labels, action: &Action) -> bool
    ensures { result ≡ all_names_in labels.now (action_said action.now) }
{
    match action {
        Action::Instruction(shape) => match shape.operand.wanted {
            Wanted::Value(_) => are_names_known(labels, shape.operand.expression),
            _ => true,
        },
        Action::ModuleStart(fields) => {
            are_names_known(labels, fields.attributes) && are_names_known(labels, fields.storage)
        }
        Action::Equals(text) | Action::SystemCall(text) => are_names_known(labels, text),
        Action::ByteList(text) => are_list_names_known(labels, text),
        Action::WordList(text) => are_list_names_known(labels, text),
        _ => true,
    }
}

// Is it `equ`?
fn is_equals(action: &Action) -> bool
    ensures { result ≡ is_equals_model (action_said action.now) }
{
    matches!(action, Action::Equals(_))
}

// Does a statement name known labels: for `equ` those above, otherwise those of all lines?
fn are_names_fit(all: &Reached, above: &Reached, action: &Action) -> bool
    ensures { (m a : ReachedOf) → IsReached all.now m → IsReached above.now a
        → result ≡ names_fit m a (action_said action.now) }
{
    if is_equals(action) {
        names_are_among(&above.labels, action)
    } else {
        names_are_among(&all.labels, action)
    }
}

// Does a line above already have the label, or is this a second `mod` or `emod`?
fn is_twice(above: &Reached, statement: &Statement) -> bool
    ensures { (a : ReachedOf) → IsReached above.now a
        → result ≡ is_twice_model a (statement_said statement.now) }
{
    has_known_name(&above.labels, statement.name)
        || (above.has_start && is_start(&statement.action))
        || (above.has_end && is_end(&statement.action))
}

// Is there a label, and is it among these?
fn has_known_name(labels: &Labels, name: Option<&[u8]>) -> bool
    ensures { result ≡ name_is_in labels.now (option_map (λ n. n.now) name.entry) }
{
    match name {
        Some(name) => labels.get(name).is_some(),
        None => false,
    }
}

// Is a value known, and out of the range of its field?
fn is_out(field: Field, next: u128, value: Option<i128>) -> bool
    ensures { result ≡ is_out_model field next value }
{
    match value {
        Some(value) => filled(field, next, value).is_none(),
        None => false,
    }
}

// Is the value of an expression known, and out of the range of its field?
fn is_text_out(place: Place, next: u128, field: Field, text: &[u8]) -> bool
    ensures { result ≡ is_out_model field next
        (expression_in place.entry.labels.now place.entry.offset text.now) }
{
    is_out(field, next, value_at(place, text))
}

// Is the value of an expression of a list known, and out of the range of its field?
fn is_list_out(place: Place, next: u128, field: Field, text: &[u8]) -> bool
    ensures { result ≡ list_any
        (λ t. is_out_model field next (expression_in place.entry.labels.now place.entry.offset t))
        (slice_split is_comma text.now) }
{
    text.split(|c| *c == b',')
        .any(|part| is_text_out(place, next, field, part))
}

// The offset after a statement at a place, or its length if the offset of the place is not known.
fn next_of(place: Place, action: &Action) -> u128
    ensures { result ≡ unwrap_or place.entry.offset 0 + action_length_model
        (action_said action.now) }
{
    u128::from(place.offset.unwrap_or(0)) + action_length(action)
}

// Does a statement have a value that is known and out of range?
fn has_value_out(place: Place, action: &Action) -> bool
    ensures { result ≡ value_out_in place.entry.labels.now place.entry.offset
        (action_said action.now) }
{
    let next = next_of(place, action);
    match action {
        Action::Instruction(shape) => match shape.operand.wanted {
            Wanted::Value(field) => is_text_out(place, next, field, shape.operand.expression),
            _ => false,
        },
        Action::ModuleStart(fields) => {
            is_text_out(place, next, Field::Byte, fields.attributes)
                || is_text_out(place, next, Field::Word, fields.storage)
        }
        Action::Equals(text) => is_text_out(place, next, Field::Word, text),
        Action::ByteList(text) => is_list_out(place, next, Field::Byte, text),
        Action::WordList(text) => is_list_out(place, next, Field::Word, text),
        Action::SystemCall(text) => is_text_out(place, next, Field::Byte, text),
        _ => false,
    }
}

// Is the value of an expression known, and in the range of its field?
fn is_text_filled(place: Place, next: u128, field: Field, text: &[u8]) -> bool
    ensures { result ≡ is_text_filled_in place.entry.labels.now place.entry.offset next field
        text.now }
{
    match value_at(place, text) {
        Some(value) => filled(field, next, value).is_some(),
        None => false,
    }
}

// Are the values of the expressions of a list known, and in the range of their field?
fn is_list_filled(place: Place, next: u128, field: Field, text: &[u8]) -> bool
    ensures { result ≡ list_all (is_text_filled_in place.entry.labels.now place.entry.offset next
        field) (slice_split is_comma text.now) }
{
    text.split(|c| *c == b',')
        .all(|part| is_text_filled(place, next, field, part))
}

/// Are the values of a statement at a place known and in range?
pub fn is_filled(place: Place, action: &Action) -> bool
    ensures { result ≡ is_filled_in place.entry.labels.now place.entry.offset
        (action_said action.now) }
{
    let next = next_of(place, action);
    match action {
        Action::Instruction(shape) => match shape.operand.wanted {
            Wanted::Value(field) => is_text_filled(place, next, field, shape.operand.expression),
            _ => true,
        },
        Action::ModuleStart(fields) => {
            is_text_filled(place, next, Field::Byte, fields.attributes)
                && is_text_filled(place, next, Field::Word, fields.storage)
        }
        Action::Equals(text) => is_text_filled(place, next, Field::Word, text),
        Action::ByteList(text) => is_list_filled(place, next, Field::Byte, text),
        Action::WordList(text) => is_list_filled(place, next, Field::Word, text),
        Action::SystemCall(text) => is_text_filled(place, next, Field::Byte, text),
        _ => true,
    }
}

// Is the module longer than the greatest length of a module?
fn is_too_long(offset: Option<u64>, action: &Action) -> bool
    ensures { result ≡ is_too_long_model offset (action_said action.now) }
{
    match (offset, action) {
        (Some(n), Action::ModuleEnd) => n > u64::from(MOST_GROUP_BYTES - CRC_LENGTH),
        _ => false,
    }
}

// Is it a `mod` with a type and language that is out of range?
fn is_bad_kind(action: &Action) -> bool
    ensures { result ≡ is_bad_kind_model (action_said action.now) }
{
    match action {
        Action::ModuleStart(fields) => {
            let kind = constant_value(fields.kind);
            kind < LEAST_KIND || MOST_KIND < kind
        }
        _ => false,
    }
}

// Is it a `mod` or an `emod` with a value out of its range?
fn is_module_out(offset: Option<u64>, action: &Action) -> bool
    ensures { result ≡ (is_too_long_model offset (action_said action.now)
        || is_bad_kind_model (action_said action.now)) }
{
    is_too_long(offset, action) || is_bad_kind(action)
}

// Does a statement have a value out of its range?
fn has_bad_value(all: &Reached, above: &Reached, action: &Action) -> bool
    ensures { (m a : ReachedOf) → IsReached all.now m → IsReached above.now a
        → result ≡ has_bad_value_model m a (action_said action.now) }
{
    let place = Place {
        labels: &all.labels,
        offset: above.offset,
    };
    has_value_out(place, action) || is_module_out(above.offset, action)
}

// The least rule that a statement breaks, if it breaks one.
fn statement_fault(all: &Reached, above: &Reached, statement: &Statement) -> Option<AsmError>
    ensures { (m a : ReachedOf) → IsReached all.now m → IsReached above.now a
        → result ≡ line_fault_model m a (stated (statement_said statement.now)) }
{
    if !are_names_fit(all, above, &statement.action) {
        Some(AsmError::UnknownName)
    } else if is_twice(above, statement) {
        Some(AsmError::Twice)
    } else if has_bad_value(all, above, &statement.action) {
        Some(AsmError::Range)
    } else {
        None
    }
}

// The least rule that a line breaks, if it breaks one.
fn line_fault(all: &Reached, above: &Reached, line: &Line) -> Option<AsmError>
    ensures { (m a : ReachedOf) → IsReached all.now m → IsReached above.now a
        → result ≡ line_fault_model m a (line_said line.now) }
{
    match line {
        Line::Skipped => None,
        Line::Broken(_) => Some(AsmError::Syntax),
        Line::Stated(statement) => statement_fault(all, above, statement),
    }
}

/// The first line that breaks a rule, and the least rule that it breaks; `all` is what all lines
/// reach.
///
/// # Errors
///
/// `OutOfMemory` alone: for the labels above a line, or for an offset that does not fit 64 bits.
pub fn first_fault<'a>(
    alloc: Global,
    lines: &[Line<'a>],
    all: &Reached<'a>,
) -> Result<Option<SourceFault>, OutOfMemory>
    ensures { IfOk result (λ fault. (m : ReachedOf) → IsReached all.now m
        → option_map fault_said fault ≡ fault_from m start_model 1 (map line_said lines.now)) }
{
    let mut above = nothing(alloc);
    let mut number = 0;
    for line in lines {
        number += 1;
        if let Some(error) = line_fault(all, &above, line) {
            return Ok(Some(SourceFault {
                line: number,
                error,
            }));
        }
        add_line(&mut above, *line)?;
    }
    Ok(None)
}
