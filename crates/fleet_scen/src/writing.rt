//! The writer of scenarios.

ghost use Rattle.std.specs.Prelude.{◌≡◌, ◌++◌, ◌∷◌, [], IfOk, OnOk};
ghost use Rattle.fleet_scen.specs.ScenWriting.{pair_text, task_line, scen_text};

use fleet_model::{OutOfMemory, Task};
use fleet_text::{write_byte, write_small_number};
use std::alloc::{AllocError, Global};

/// How many bytes the longest two numbers have, each with a tab after it.
const PAIR: usize = 12;

/// Adds two numbers, each with a tab after it.
fn put_pair(text: &mut Vec<u8>, first: u16, second: u16) -> Result<(), AllocError>
    ensures { OnOk result (text.new.items ≡ text.old.items ++ pair_text first second) }
{
    let mut row = [0; PAIR];
    let at = write_byte(b'\t', &mut row, PAIR);
    let at = write_small_number(second, &mut row, at);
    let at = write_byte(b'\t', &mut row, at);
    let at = write_small_number(first, &mut row, at);
    text.extend_from_slice(&row[at..])?;
    Ok(())
}

/// Adds the line of a task.
#[tactic(auto, using(crate::proofs::Written::pieces_joined))]
fn put_task(text: &mut Vec<u8>, width: u16, height: u16, task: Task) -> Result<(), AllocError>
    ensures { OnOk result (text.new.items
        ≡ text.old.items ++ task_line width height task ++ 10 ∷ []) }
{
    text.extend_from_slice(b"0\tmap\t")?;
    put_pair(text, width, height)?;
    put_pair(text, task.start.x, task.start.y)?;
    put_pair(text, task.goal.x, task.goal.y)?;
    text.extend_from_slice(b"0\n")?;
    Ok(())
}

/// The written form of tasks on a map of these sizes, in the scenario format of the MovingAI benchmark (Sturtevant
/// 2012): a version line, and a line for each task, with tabs between its nine words. The map has no name but `map`,
/// and the distances are 0, since `read_scen` reads neither. It fails only if memory is refused.
pub fn write_scen(
    alloc: Global,
    width: u16,
    height: u16,
    tasks: &[Task],
) -> Result<Vec<u8>, OutOfMemory>
    ensures { IfOk result (λ text. text.items ≡ scen_text width height tasks.now) }
{
    let mut text = Vec::new(alloc);
    text.extend_from_slice(b"version 1\n")?;
    for task in tasks {
        put_task(&mut text, width, height, *task)?;
    }
    Ok(text)
}
