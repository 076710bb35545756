//! The reader of plans.

ghost use Rattle.std.specs.Prelude.{◌≡◌, ◌≢◌, [], false, IfOk, IfErr, IsOkUnless};
ghost use Rattle.fleet_model.specs.Answer.{IsDueUnless};
ghost use Rattle.fleet_text.specs.Text.{lines, starts_blank};
ghost use Rattle.fleet_plan.specs.Plan.{Plan as PlanValue};
ghost use Rattle.fleet_plan.specs.PlanText.{IsPlanText, IsFirstTextFault};
ghost use Rattle.fleet_plan.specs.PlanReading.{too_long, path_at, paths_at};

use crate::cells::{begins_with_word, cell_front};
use crate::plan::{Path, Plan};
use crate::text_fault::TextFault;
use fleet_model::{Cell, MAX_AGENTS, MAX_HORIZON};
use fleet_text::Cursor;
use std::alloc::Global;

/// A path has a cell for each time from 0 to the horizon.
const MAX_CELLS: usize = MAX_HORIZON as usize + 1;

/// The fault of a line whose first words spell too many cells: `Form` if a word after them spells none, and otherwise
/// `Length`.
fn too_long(number: u64, text: &[u8]) -> TextFault
    requires { starts_blank text.now ≡ false }
    ensures { result ≡ too_long number text.now }
{
    let mut rest = text;
    while !rest.is_empty() {
        let Some((_cell, after)) = cell_front(rest) else {
            return TextFault::Form { line: number };
        };
        rest = after;
    }
    TextFault::Length { line: number }
}

/// How many bytes of a line a cell mostly takes, with the blank before the next one.
const USUAL_CELL_LEN: usize = 6;

/// No cell, and room for as many as a line of this length mostly has.
fn room_for(alloc: Global, line: &[u8]) -> Result<Vec<Cell>, TextFault>
    ensures none { IfOk result (λ cells. cells.items ≡ []) }
    ensures memory { IsOkUnless result TextFault.OutOfMemory }
{
    match Vec::with_capacity(alloc, (line.len() / USUAL_CELL_LEN + 1).min(MAX_CELLS)) {
        Ok(cells) => Ok(cells),
        Err(_) => Err(TextFault::OutOfMemory),
    }
}

/// The path of a line.
#[inline(never)]
fn path_of(alloc: Global, number: u64, line: &[u8]) -> Result<Path, TextFault>
    ensures { IsDueUnless (λ p. p) result (path_at number line.now) TextFault.OutOfMemory }
{
    if !begins_with_word(line) {
        return Err(TextFault::Form { line: number });
    }
    let mut cells = room_for(alloc, line)?;
    let mut rest = line;
    while !rest.is_empty() {
        let Some((cell, after)) = cell_front(rest) else {
            return Err(TextFault::Form { line: number });
        };
        let is_full = cells.len() >= MAX_CELLS;
        if is_full {
            return Err(too_long(number, after));
        }
        cells.push(cell)?;
        rest = after;
    }
    Ok(Path::new(cells))
}

/// The paths of all lines.
fn paths_of(alloc: Global, lines: &mut Cursor) -> Result<Vec<Path>, TextFault>
    ensures { IsDueUnless (λ v. v.items) result (paths_at [] lines.old) TextFault.OutOfMemory }
{
    let mut paths = Vec::new(alloc);
    while let Some(line) = lines.next_line() {
        let is_full = paths.len() >= MAX_AGENTS;
        if is_full {
            return Err(TextFault::AgentCount);
        }
        let path = path_of(alloc, paths.len() as u64 + 1, line)?;
        paths.push(path)?;
    }
    if paths.is_empty() {
        return Err(TextFault::AgentCount);
    }
    Ok(paths)
}

/// The plan that a text of this project's plan format stands for: a line for each agent, with the cells `x,y` of its
/// path between blanks. The text is read once, from the front.
///
/// Errors: `Form`, `Length` or `AgentCount`, whichever is the first fault of the text; `OutOfMemory` if a growth was
/// refused.
pub fn read_plan(alloc: Global, bytes: &[u8]) -> Result<Plan, TextFault>
    // The text stands for what is read.
    ensures found { IfOk result (λ plan. IsPlanText bytes.now plan) }
    // What stands for a plan is read, unless memory runs out.
    ensures read { (plan : PlanValue) → IsPlanText bytes.now plan
        → IsOkUnless result TextFault.OutOfMemory }
    // Which fault it is.
    ensures fault { IfErr result (λ f. f ≢ TextFault.OutOfMemory → IsFirstTextFault bytes.now f) }
{
    let mut lines = Cursor::new(bytes);
    let paths = paths_of(alloc, &mut lines)?;
    Ok(Plan::new(paths))
}
