ghost use Rattle.std.specs.Prelude.{◌≡◌, map, option_map, List, Option, Some, None, IfOk};
ghost use Rattle.asm_model.specs.Placement as model;
ghost use Rattle.asm_model.specs.Placement.{LabelValue as MeaningOf, Reached as ReachedOf, after, reached_from, with_label};
ghost use Rattle.asm_lines.specs.Labels.{HoldsLabels, IsReached};
ghost use Rattle.asm_lines.specs.Lines.{action_said, line_said, statement_said};
ghost use Rattle.asm_model.specs.Statements.{stated};

use crate::lengths::offset_behind;
use crate::table::Labels;
use crate::values::{Place, held_at, offset_value};
use crate::{Action, Line, Statement};
use os9_base::call::OutOfMemory;
use std::alloc::Global;

/// What lines reach: their labels, the offset after them, if no line is broken, and whether `mod`
/// and `emod` are among them.
#[derive(Drop)]
pub struct Reached<'a> {
    pub labels: Labels<'a>,
    pub offset: Option<u64>,
    pub has_start: bool,
    pub has_end: bool,
}

// What is reached before the first line.
pub(crate) fn nothing<'a>(alloc: Global) -> Reached<'a>
    ensures { IsReached result model.start }
{
    Reached {
        labels: Labels::new(alloc),
        offset: Some(0),
        has_start: false,
        has_end: false,
    }
}

// Is it `mod`?
pub(crate) fn is_start(action: &Action) -> bool
    ensures { result ≡ model.is_start (action_said action.now) }
{
    matches!(action, Action::ModuleStart(_))
}

// Is it `emod`?
pub(crate) fn is_end(action: &Action) -> bool
    ensures { result ≡ model.is_end (action_said action.now) }
{
    matches!(action, Action::ModuleEnd)
}

// The value of a statement's label, if it is known.
fn label_value(above: &Reached, action: &Action) -> Option<i64>
    ensures { (m : ReachedOf) → IsReached above.now m
        → result ≡ model.label_value m (action_said action.now) }
{
    match action {
        Action::Equals(text) => {
            let place = Place {
                labels: &above.labels,
                offset: above.offset,
            };
            held_at(place, text)
        }
        _ => offset_value(above.offset),
    }
}

// Adds a label, if there is one.
fn add_label<'a>(
    labels: &mut Labels<'a>,
    name: Option<&'a [u8]>,
    value: Option<i64>,
) -> Result<(), OutOfMemory>
    ensures { IfOk result (λ _. (known : List MeaningOf) → HoldsLabels labels.old known
        → HoldsLabels labels.new (with_label known (option_map (λ n. n.now) name.entry) value)) }
{
    match name {
        Some(name) => labels.add(name, value),
        None => Ok(()),
    }
}

// Adds a statement to what is reached.
fn add_statement<'a>(reached: &mut Reached<'a>, statement: Statement<'a>) -> Result<(), OutOfMemory>
    ensures { IfOk result (λ _. (m : ReachedOf) → IsReached reached.old m
        → IsReached reached.new (after m (stated (statement_said statement.entry)))) }
{
    let value = label_value(reached, &statement.action);
    let offset = offset_behind(reached.offset, &statement.action)?;
    add_label(&mut reached.labels, statement.name, value)?;
    reached.offset = offset;
    reached.has_start = reached.has_start || is_start(&statement.action);
    reached.has_end = reached.has_end || is_end(&statement.action);
    Ok(())
}

// Adds a line to what is reached.
pub(crate) fn add_line<'a>(reached: &mut Reached<'a>, line: Line<'a>) -> Result<(), OutOfMemory>
    ensures { IfOk result (λ _. (m : ReachedOf) → IsReached reached.old m
        → IsReached reached.new (after m (line_said line.entry))) }
{
    match line {
        Line::Skipped => Ok(()),
        Line::Broken(name) => {
            add_label(&mut reached.labels, name, None)?;
            reached.offset = None;
            Ok(())
        }
        Line::Stated(statement) => add_statement(reached, statement),
    }
}

/// What the lines of a source reach.
///
/// # Errors
///
/// `OutOfMemory` alone: for the labels, or for an offset that does not fit 64 bits.
pub fn reached_by<'a>(alloc: Global, lines: &[Line<'a>]) -> Result<Reached<'a>, OutOfMemory>
    ensures { IfOk result (λ reached. IsReached reached
        (reached_from model.start (map line_said lines.now))) }
{
    let mut reached = nothing(alloc);
    for line in lines {
        add_line(&mut reached, *line)?;
    }
    Ok(reached)
}
