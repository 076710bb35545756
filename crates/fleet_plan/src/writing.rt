//! The writer of plans.

ghost use Rattle.std.specs.Prelude.{◌≡◌, ◌++◌, ◌∷◌, [], IfOk, OnOk};
ghost use Rattle.fleet_plan.specs.PlanText.{cell_text, path_text, plan_text};

use crate::plan::{Path, Plan};
use fleet_model::{Cell, OutOfMemory};
use fleet_text::{write_byte, write_small_number};
use std::alloc::{AllocError, Global};

/// How many bytes the longest cell has, with the byte after it.
const CELL: usize = 12;

/// Adds a cell and the byte after it.
fn put_cell(text: &mut Vec<u8>, cell: Cell, after: u8) -> Result<(), AllocError>
    ensures { OnOk result (text.new.items ≡ text.old.items ++ cell_text cell ++ after ∷ []) }
{
    let mut row = [0; CELL];
    let at = write_byte(after, &mut row, CELL);
    let at = write_small_number(cell.y, &mut row, at);
    let at = write_byte(b',', &mut row, at);
    let at = write_small_number(cell.x, &mut row, at);
    text.extend_from_slice(&row[at..])?;
    Ok(())
}

/// Adds the line of a path.
fn put_path(text: &mut Vec<u8>, path: &Path) -> Result<(), AllocError>
    ensures { OnOk result (text.new.items ≡ text.old.items ++ path_text path.now ++ 10 ∷ []) }
{
    let Some((last, others)) = path.cells().split_last() else {
        return Ok(());
    };
    for cell in others {
        put_cell(text, *cell, b' ')?;
    }
    put_cell(text, *last, b'\n')?;
    Ok(())
}

/// The written form of a plan: a line for each agent, with the cells `x,y` of its path and one space between. It fails
/// only if memory is refused.
pub fn write_plan(alloc: Global, plan: &Plan) -> Result<Vec<u8>, OutOfMemory>
    ensures { IfOk result (λ text. text.items ≡ plan_text plan.now) }
{
    let mut text = Vec::new(alloc);
    for i in 0..plan.agents() {
        put_path(&mut text, plan.path(i))?;
    }
    Ok(text)
}
