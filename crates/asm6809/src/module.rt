ghost use Rattle.std.specs.Prelude.{◌≡◌, ◌+◌, ◌<◌, nat_le, map, option_map, Some, None, IfOk, IfSome, length, if◌then◌else◌};
ghost use Rattle.os9_base.specs.declared.limits.TheConstants.{MOST_GROUP_BYTES};
ghost use Rattle.module_format.specs.GuestModule.{code_offset, guest_size, is_program_kind};
ghost use Rattle.asm_model.specs.Placement.{Reached as ReachedOf};
ghost use Rattle.asm_model.specs.Statements.{is_module_name as is_module_name_model};
ghost use Rattle.asm_lines.specs.Labels.{IsReached};
ghost use Rattle.asm_lines.specs.Lines.{action_said, fields_said, line_said};
ghost use Rattle.asm6809.specs.Stages.{stage_after as stage_after_model, stage_behind as stage_behind_model};
ghost use Rattle.asm6809.specs.Assembled.{actions_of, entry_below, first_start as first_start_model, is_framed as is_framed_model, kind_of as kind_of_model, module_of as module_of_model, module_with as module_with_model, start_of as start_of_model};

use crate::emit::{byte_at, code_of, word_at};
use asm_lines::{
    Action, CRC_LENGTH, Line, ModuleFields, PROGRAM, Place, Reached, constant_value, header_length,
    is_module_name,
};
use asm_text::low_byte;
use module_format::{Header, module_with};
use os9_base::call::OutOfMemory;
use os9_base::limits::MOST_GROUP_BYTES;
use os9_base::name::{Name, parse_name};
use std::alloc::Global;

/// The label at which a program begins.
const START: &[u8] = b"start";

// The operands of a `mod`.
fn start_of<'a>(action: &Action<'a>) -> Option<ModuleFields<'a>>
    ensures { option_map fields_said result ≡ start_of_model (action_said action.now) }
{
    match action {
        Action::ModuleStart(fields) => Some(*fields),
        _ => None,
    }
}

// The operands of `mod`, if it is the first statement.
fn first_start<'a>(lines: &[Line<'a>]) -> Option<ModuleFields<'a>>
    ensures { option_map fields_said result
        ≡ first_start_model (actions_of (map line_said lines.now)) }
{
    for line in lines {
        if let Line::Stated(statement) = line {
            return start_of(&statement.action);
        }
    }
    None
}

// The part of a source in which a statement is read.
#[derive(Clone, Copy)]
enum Stage {
    /// Before `mod`.
    Before,
    /// Between `mod` and `emod`.
    Within,
    /// After `emod`.
    Behind,
}

// The stage after a statement, if the statement is allowed there.
fn stage_behind(stage: Stage, action: &Action) -> Option<Stage>
    ensures { result ≡ stage_behind_model stage (action_said action.now) }
{
    match (stage, action) {
        (Stage::Before, Action::ModuleStart(_)) => Some(Stage::Within),
        (Stage::Within, Action::ModuleStart(_)) => None,
        (Stage::Within, Action::ModuleEnd) => Some(Stage::Behind),
        (Stage::Within, _) => Some(Stage::Within),
        _ => None,
    }
}

// The stage after a line, if its statement is allowed there.
fn stage_after(stage: Stage, line: &Line) -> Option<Stage>
    ensures { result ≡ stage_after_model stage (line_said line.now) }
{
    match line {
        Line::Stated(statement) => stage_behind(stage, &statement.action),
        _ => Some(stage),
    }
}

// Is `mod` the first statement and `emod` the last, each once?
fn is_framed(lines: &[Line]) -> bool
    ensures { result ≡ is_framed_model (actions_of (map line_said lines.now)) }
{
    let mut stage = Stage::Before;
    for line in lines {
        let Some(next) = stage_after(stage, line) else {
            return false;
        };
        stage = next;
    }
    matches!(stage, Stage::Behind)
}

// The name, if it is valid for a module.
fn module_name(text: &[u8]) -> Option<Name>
    ensures { result ≡ (if is_module_name_model text.now then Some text.now else None) }
{
    if is_module_name(text) {
        parse_name(text).ok()
    } else {
        None
    }
}

// The type and the language that `mod` gives.
fn kind_of(fields: ModuleFields) -> u8
    ensures { result ≡ kind_of_model (fields_said fields.entry) }
{
    low_byte(constant_value(fields.kind))
}

// The entry of a module that ends at this offset: for a program the label `start`, otherwise 0.
fn entry_of(all: &Reached, kind: u8, end: u16) -> Option<u16>
    requires { 0 < end }
    ensures entry { (m : ReachedOf) → IsReached all.now m → result ≡ entry_below m kind end }
    ensures within { IfSome result (λ entry.
        (if is_program_kind kind then entry else 0) < end) }
{
    if kind >> 4 != PROGRAM {
        return Some(0);
    }
    let start = all.labels.get(START)??;
    if 0 <= start && start < i64::from(end) {
        Some(start as u16)
    } else {
        None
    }
}

// The offset of the CRC, if the module is not too long.
fn crc_offset(name: &Name, kind: u8, code: &[u8]) -> Option<u16>
    ensures offset { result ≡ (if nat_le (guest_size name.now kind code.now) MOST_GROUP_BYTES
        then Some (code_offset name.now kind + length code.now) else None) }
    ensures some { IfSome result (λ end. 0 < end) }
{
    let front = u16::from(header_length(kind)) + u16::from(name.len());
    if code.len() <= usize::from(MOST_GROUP_BYTES - CRC_LENGTH - front) {
        Some(front + code.len() as u16)
    } else {
        None
    }
}

// The module with this code, if there is one.
fn make(
    alloc: Global,
    all: &Reached,
    fields: ModuleFields,
    code: &[u8],
) -> Result<Option<Vec<u8>>, OutOfMemory>
    ensures { IfOk result (λ made. (m : ReachedOf) → IsReached all.now m
        → option_map (λ bytes. bytes.items) made
        ≡ module_with_model m (fields_said fields.entry) code.now) }
{
    let Some(name) = module_name(fields.name) else {
        return Ok(None);
    };
    let kind = kind_of(fields);
    let Some(end) = crc_offset(&name, kind, code) else {
        return Ok(None);
    };
    let Some(entry) = entry_of(all, kind, end) else {
        return Ok(None);
    };
    let place = Place {
        labels: &all.labels,
        offset: Some(0),
    };
    let header = Header {
        kind,
        attr: byte_at(place, fields.attributes),
        entry,
        storage: word_at(place, fields.storage),
    };
    Ok(Some(module_with(alloc, &name, header, code)?))
}

/// The module of the statements of lines, if `mod` is the first of them and `emod` the last, each
/// once, their values are known and in range, and a program begins within it; `all` is what all
/// lines reach.
///
/// # Errors
///
/// `OutOfMemory` alone. Without `mod` and `emod` in their places it takes no memory.
pub(crate) fn module_of(
    alloc: Global,
    lines: &[Line],
    all: &Reached,
) -> Result<Option<Vec<u8>>, OutOfMemory>
    ensures { IfOk result (λ made. (m : ReachedOf) → IsReached all.now m
        → option_map (λ bytes. bytes.items) made
        ≡ module_of_model m (map line_said lines.now)) }
{
    if !is_framed(lines) {
        return Ok(None);
    }
    let Some(fields) = first_start(lines) else {
        return Ok(None);
    };
    match code_of(alloc, lines, all)? {
        Some(code) => make(alloc, all, fields, &code),
        None => Ok(None),
    }
}
