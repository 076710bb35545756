//! Texts and program bytes that differ in one byte from those of the pair: how many are read, and how many are refused
//! with each number. The counts were made by plain readers in another language, written from the formats alone.

use crate::code_calls::load_number;
use crate::due::due_numbers;
use crate::fleets::{PAIR_BYTES, PAIR_HEX, PAIR_MAP, PAIR_PLAN, PAIR_SCEN, STAYING_BYTES};
use fleet_code::{HexFault, read_hex, view};
use fleet_grid::{MapFault, read_map};
use fleet_plan::{TextFault, read_plan};
use fleet_run::{HoldSource, HoldText};
use fleet_scen::{ScenFault, read_scen};
use std::alloc::{AllocError, Global};
use std::process::Abort;
use std::test::Fail;

#[derive(Clone, Copy)]
enum Reader {
    Map,
    Scen,
    Plan,
    Program,
    Hex,
    Holds,
}

fn map_number(alloc: Global, text: &[u8]) -> usize {
    match read_map(alloc, text) {
        Ok(_) => 0,
        Err(MapFault::OutOfMemory) => 1,
        Err(MapFault::Header { .. }) => 2,
        Err(MapFault::Size) => 3,
        Err(MapFault::RowCount) => 4,
        Err(MapFault::RowLength { .. }) => 5,
        Err(MapFault::Glyph { .. }) => 6,
        Err(MapFault::Trailing) => 7,
    }
}

/// For the pair's map.
fn scen_number(alloc: Global, text: &[u8]) -> usize {
    let Ok(grid) = read_map(alloc, PAIR_MAP) else {
        return 1;
    };
    match read_scen(alloc, text, &grid, None) {
        Ok(_) => 0,
        Err(ScenFault::OutOfMemory) => 1,
        Err(ScenFault::Version) => 2,
        Err(ScenFault::Fields { .. }) => 3,
        Err(ScenFault::Number { .. }) => 4,
        Err(ScenFault::OtherMap { .. }) => 5,
        Err(ScenFault::Blocked { .. }) => 6,
        Err(ScenFault::SharedStart { .. }) => 7,
        Err(ScenFault::SharedGoal { .. }) => 8,
        Err(ScenFault::NoAgents) => 9,
        Err(ScenFault::TooMany) => 10,
        Err(ScenFault::Fewer) => 11,
    }
}

fn plan_number(alloc: Global, text: &[u8]) -> usize {
    match read_plan(alloc, text) {
        Ok(_) => 0,
        Err(TextFault::OutOfMemory) => 1,
        Err(TextFault::Form { .. }) => 2,
        Err(TextFault::Length { .. }) => 3,
        Err(TextFault::AgentCount) => 4,
    }
}

fn program_number(alloc: Global, bytes: &[u8]) -> usize {
    match view(alloc, bytes) {
        Ok(_) => 0,
        Err(fault) => usize::from(load_number(fault).0),
    }
}

fn hex_number(alloc: Global, text: &[u8]) -> usize {
    match read_hex(alloc, text) {
        Ok(_) => 0,
        Err(HexFault::OutOfMemory) => 1,
        Err(HexFault::Digit { .. }) => 2,
        Err(HexFault::Odd) => 3,
    }
}

/// Of holds of twelve agents: twice the ticks up to the end or to a line that is no tick's, and one more if there is
/// such a line.
fn holds_number(text: &[u8]) -> usize {
    let mut source = HoldText::new(text, 12);
    let mut flags = [false; 12];
    let mut number = 0usize;
    for _ in 0..9 {
        if source.failed().is_some() || source.next(&mut flags) != Ok(true) {
            break;
        }
        number = number.saturating_add(2);
    }
    number.saturating_add(usize::from(source.failed().is_some()))
}

/// The number of the text's refusal, and 0 if it is read.
fn number_of(alloc: Global, reader: Reader, text: &[u8]) -> usize {
    match reader {
        Reader::Map => map_number(alloc, text),
        Reader::Scen => scen_number(alloc, text),
        Reader::Plan => plan_number(alloc, text),
        Reader::Program => program_number(alloc, text),
        Reader::Hex => hex_number(alloc, text),
        Reader::Holds => holds_number(text),
    }
}

/// Counts the texts that differ from this one in the byte at this place, by their numbers. The text stays as it is.
fn count_at(alloc: Global, reader: Reader, text: &mut [u8], at: usize, counts: &mut [u32; 12]) {
    for turn in 1..=256u16 {
        if let Some(byte) = text.get_mut(at) {
            *byte = byte.wrapping_add(1);
        }
        if turn < 256 {
            if let Some(count) = counts.get_mut(number_of(alloc, reader, text)) {
                *count = count.saturating_add(1);
            }
        }
    }
}

/// How many texts that differ from this one in one byte have each number.
fn counts_of(alloc: Global, reader: Reader, text: &[u8]) -> Result<[u32; 12], AllocError> {
    let mut counts = [0; 12];
    let mut text = text.to_vec(alloc)?;
    for at in 0..text.len() {
        count_at(alloc, reader, &mut text, at, &mut counts);
    }
    Ok(counts)
}

/// Holds of agent 0, of nobody, and of agents 0 and 1.
const SOME_HOLDS: &[u8] = b"0\n-\n0 1\n";

/// A text, its reader, and the counts that are due.
type Changed<'a> = (Reader, &'a [u8], [u32; 12]);

fn due_counts(rt: &impl Abort, alloc: Global, row: &Changed<'_>) -> Result<(), Fail> {
    let (reader, text, due) = *row;
    due_numbers(rt, &counts_of(alloc, reader, text)?, &due);
    Ok(())
}

const TEXTS: [Changed<'static>; 5] = [
    (
        Reader::Map,
        PAIR_MAP,
        [1544, 0, 6878, 2, 8, 267, 991, 0, 0, 0, 0, 0],
    ),
    (
        Reader::Scen,
        PAIR_SCEN,
        [9874, 0, 2549, 4451, 2916, 36, 60, 2, 2, 0, 0, 0],
    ),
    (
        Reader::Plan,
        PAIR_PLAN,
        [131, 0, 5989, 0, 0, 0, 0, 0, 0, 0, 0, 0],
    ),
    (
        Reader::Holds,
        SOME_HOLDS,
        [0, 500, 0, 500, 0, 1008, 31, 0, 1, 0, 0, 0],
    ),
    (
        Reader::Hex,
        PAIR_HEX,
        [1758, 0, 24380, 892, 0, 0, 0, 0, 0, 0, 0, 0],
    ),
];

#[test]
fn texts_are_changed_in_a_byte(rt: HostRuntime) -> Result<(), Fail> {
    for row in &TEXTS {
        due_counts(&rt, rt.alloc(), row)?;
    }
    Ok(())
}

/// The pair in version 1, and with stays in version 2.
const PROGRAMS: [Changed<'static>; 2] = [
    (
        Reader::Program,
        PAIR_BYTES,
        [5110, 0, 1019, 770, 253, 0, 1506, 1522, 0, 2, 18, 0],
    ),
    (
        Reader::Program,
        STAYING_BYTES,
        [6150, 0, 1019, 784, 253, 996, 2500, 1535, 0, 2, 21, 0],
    ),
];

#[test]
fn programs_are_changed_in_a_byte(rt: HostRuntime) -> Result<(), Fail> {
    for row in &PROGRAMS {
        due_counts(&rt, rt.alloc(), row)?;
    }
    Ok(())
}
