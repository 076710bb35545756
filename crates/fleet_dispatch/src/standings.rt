//! Where agents are that have not arrived, as text.

ghost use Rattle.std.specs.Prelude.{◌≡◌, ◌+◌, ◌≤◌, ◌++◌, [], length, drop, take};
ghost use Rattle.std.specs.Option.{option_map_or};
ghost use Rattle.fleet_dispatch.specs.Standings.{await_text, standing_text};

use crate::log_text::WORD;
use crate::orders::add_text;
use fleet_model::{Await, Place};
use fleet_text::{PLACE, write_byte, write_bytes, write_count, write_place};

/// How many bytes the longest await has for which an agent waits, after a word.
const WAITS: usize = 7 + WORD;

/// How many bytes the longest line has: a place, three numbers and an await, between words.
pub const STANDING: usize = PLACE + 44 + WAITS;

/// Where an agent stands, how many of its actions it has carried out, of how many, and an await for which it waits.
#[derive(Clone, Copy)]
pub struct Whereabouts {
    pub agent: u16,
    pub place: Place,
    pub done: u32,
    pub moves: u32,
    pub waits: Option<Await>,
}

/// Writes for what an agent waits, if it does, so that it ends before `end`, and answers where it begins.
fn write_waits(waits: Option<Await>, row: &mut [u8], end: usize) -> usize
    requires room { WAITS ≤ end }
    requires within { end ≤ length row.old }
    ensures low { end ≤ result + WAITS }
    ensures high { result ≤ end }
    ensures written { drop result row.new ≡ option_map_or await_text waits [] ++ drop end row.old }
{
    let Some(awaited) = waits else {
        return end;
    };
    let at = write_count(awaited.count, row, end);
    let at = write_byte(b':', row, at);
    let at = write_count(awaited.agent as u32, row, at);
    write_bytes(b" waits ", row, at)
}

/// Writes the line of an agent so that it ends with the row, and answers where it begins.
fn write_standing(whereabouts: Whereabouts, row: &mut [u8]) -> usize
    requires room { length row.old ≡ STANDING }
    ensures high { result ≤ STANDING }
    ensures written { drop result row.new ≡ standing_text
        whereabouts.agent whereabouts.place whereabouts.done whereabouts.moves whereabouts.waits }
{
    let at = write_byte(b'\n', row, STANDING);
    let at = write_waits(whereabouts.waits, row, at);
    let at = write_count(whereabouts.moves, row, at);
    let at = write_bytes(b" of ", row, at);
    let at = write_count(whereabouts.done, row, at);
    let at = write_bytes(b" done ", row, at);
    let at = write_place(whereabouts.place, row, at);
    let at = write_count(whereabouts.agent as u32, row, at);
    write_bytes(b"at ", row, at)
}

/// Writes the line of an agent behind those that end at `at`, and answers where it ends.
pub fn add_standing(whereabouts: Whereabouts, row: &mut [u8], at: usize) -> usize
    requires room { at + STANDING ≤ length row.old }
    ensures high { result ≤ at + STANDING }
    ensures written { take result row.new ≡ take at row.old ++ standing_text
        whereabouts.agent whereabouts.place whereabouts.done whereabouts.moves whereabouts.waits }
{
    let mut text = [0; STANDING];
    let begin = write_standing(whereabouts, &mut text);
    add_text(&text[begin..], row, at)
}
