//! The writer of texts of holds.

ghost use Rattle.std.specs.Prelude.{◌≡◌, ◌<◌, ◌++◌, ◌∷◌, [], ℕ, map, All, IfOk, OnOk};
ghost use Rattle.std.specs.Fmt.{decimal};
ghost use Rattle.std.specs.List.Sorted.{IsStrictlyIncreasing};
ghost use Rattle.fleet_run.specs.Source.{list_source};
ghost use Rattle.fleet_run.specs.HoldText.{tick_line, text_source, holds_text};

use fleet_model::OutOfMemory;
use fleet_text::{write_byte, write_small_number};
use std::alloc::{AllocError, Global};

/// How many bytes the longest number of an agent has, with the byte after it.
const NUMBER: usize = 6;

/// Adds the number of an agent and the byte after it.
fn put_agent(text: &mut Vec<u8>, agent: u16, after: u8) -> Result<(), AllocError>
    ensures { OnOk result (text.new.items ≡ text.old.items ++ decimal agent ++ after ∷ []) }
{
    let mut row = [0; NUMBER];
    let at = write_byte(after, &mut row, NUMBER);
    let at = write_small_number(agent, &mut row, at);
    text.extend_from_slice(&row[at..])
}

/// Adds the line of the tick that holds these agents.
fn put_tick(text: &mut Vec<u8>, held: &[u16]) -> Result<(), AllocError>
    ensures { OnOk result (text.new.items ≡ text.old.items ++ tick_line held.now ++ 10 ∷ []) }
{
    let Some((last, others)) = held.split_last() else {
        return text.extend_from_slice(b"-\n");
    };
    for agent in others {
        put_agent(text, *agent, b' ')?;
    }
    put_agent(text, *last, b'\n')
}

/// The written form of lists of held agents, each in strictly rising order: a line for each tick, `-` for nobody, or
/// the numbers of the agents with one space between two. A `HoldText` of it, for more agents than each number in it,
/// gives the same lists, and then ends. Only memory can fail.
pub fn write_holds(alloc: Global, holds: &[Vec<u16>]) -> Result<Vec<u8>, OutOfMemory>
    requires rising { All (λ row. IsStrictlyIncreasing row.items) holds.now }
    ensures text { IfOk result
        (λ text. text.items ≡ holds_text (map (λ row. row.items) holds.now)) }
    ensures read { IfOk result (λ text. (n : ℕ) → n < 65536
        → All (λ row. All (λ i. i < n) row.items) holds.now
        → text_source n text.items ≡ list_source (map (λ row. row.items) holds.now)) }
{
    let mut text = Vec::new(alloc);
    for held in holds {
        put_tick(&mut text, held)?;
    }
    Ok(text)
}
