//! The last visit of each cell so far, in squares of cells: most moves stay in the square that was looked at last.

ghost use Rattle.std.specs.Prelude.{◌≡◌, ◌≢◌, ◌≤◌, ◌<◌, ◌^◌, ◌↔◌, ℕ, get_or, Some, None, IfOk, IsOk, IsTrue, OnOk};
ghost use Rattle.fleet_model.specs.declared.geometry.Cell.{Cell};
ghost use Rattle.fleet_model.specs.declared.limits.TheConstants.{MAX_AGENTS, MAX_MOVES};
ghost use Rattle.fleet_model.specs.Program.{IsCell};
ghost use Rattle.fleet_verify.specs.declared.last_visits.TheConstants.{CELLS, MOST_ROOM, NO_SQUARE, NO_VISIT};
ghost use Rattle.fleet_verify.specs.Squares.{room_for, square_of, place_in_square, place_of_hint, visit_kept, last_in, IsNoted, IsSquareAt, IsWritten, IsKeptAfter};

use fleet_model::{Cell, MAX_AGENTS, MAX_COORDINATE, OutOfMemory, Visit};
use indexmap::IndexMap;
use std::alloc::{AllocError, Global};

/// How many cells a square is wide, and high.
const SIDE: u32 = 8;

/// How many cells a square has.
const CELLS: usize = 64;

/// Of how many squares, side by side and one below the other, each has a hint of its own at most.
const HINTS_ACROSS: u32 = 64;

/// How many hints there are where there are many squares.
const HINTS: usize = (HINTS_ACROSS * HINTS_ACROSS) as usize;

/// How many hints there are at first: so few are zeroed faster.
const FEW_HINTS: usize = 512;

/// From how many squares on there are many.
const MANY_SQUARES: usize = 256;

/// For how many squares there is room at most before the first of them.
const MOST_ROOM: u32 = 4_096;

/// No square has this number.
const NO_SQUARE: u32 = u32::MAX;

/// What is kept where there was no visit.
const NO_VISIT: u32 = u32::MAX;

/// The last visit of each cell so far. A visit takes four bytes: its position times the most agents, and its agent.
#[derive(Drop)]
pub struct LastVisits {
    /// By the number of a square what is kept of its cells, row by row from the place of its first cell on, and round.
    squares: IndexMap<u32, [u32; CELLS]>,
    /// The number of the square of the last visit of all, and where it stands among them.
    recent: u32,
    slot: usize,
    /// Where squares may stand that were looked for before; nothing is taken from a hint without a look. Empty before
    /// the first of them.
    hints: Vec<u32>,
    ghost there: { recent ≢ NO_SQUARE → IsSquareAt squares recent slot },
}

impl LastVisits {
    ghost use Rattle.indexmap.specs.IndexMap.{spare};
    ghost use Rattle.fleet_verify.specs.LastVisits.{kept_at};

    /// No visits, and no room for squares yet. Takes no memory.
    pub fn new(alloc: Global) -> LastVisits
        ensures { (c : Cell) → kept_at result c ≡ None }
    {
        LastVisits {
            squares: IndexMap::new(alloc),
            recent: NO_SQUARE,
            slot: 0,
            hints: Vec::new(alloc),
        }
    }

    /// No visits, and room for the squares that so many visits are likely to be in on a map of these sizes.
    pub fn with_room(
        alloc: Global,
        width: u16,
        height: u16,
        visits: u32,
    ) -> Result<LastVisits, OutOfMemory>
        ensures none { IfOk result (λ made. (c : Cell) → kept_at made c ≡ None) }
        ensures room { IfOk result (λ made. room_for width height visits ≤ spare made.squares) }
    {
        Ok(LastVisits {
            squares: IndexMap::with_capacity(alloc, room_for(width, height, visits))?,
            recent: NO_SQUARE,
            slot: 0,
            hints: Vec::new(alloc),
        })
    }

    /// Gives the memory back, all but that of one square before the rest ends, as `let_go` does.
    pub fn let_go(self) {
        let LastVisits { squares, .. } = self;
        let mut squares = squares;
        squares.truncate(1);
        squares.shrink_to_fit();
    }

    /// Keeps the visit as the last one of the cell, and answers the one before.
    #[inline(always)]
    pub fn replace(&mut self, cell: Cell, visit: Visit) -> Result<Option<Visit>, OutOfMemory>
        requires agent { visit.agent < MAX_AGENTS }
        requires position { visit.position ≤ MAX_MOVES }
        ensures kept { IfOk result
            (IsKeptAfter (kept_at self.old) (kept_at self.new) cell visit) }
        ensures cell { IsCell cell }
    {
        let number = number_of_square(cell);
        if number != self.recent {
            self.recent = NO_SQUARE;
            self.slot = find_square(&mut self.squares, &mut self.hints, number)?;
            self.recent = number;
        }
        Ok(replace_in(&mut self.squares, self.slot, cell, visit))
    }
}

/// For how many squares there is room before the first of them: all of the map, unless so many visits are likely to be
/// in fewer, but not many, since room grows later without a copy.
fn room_for(width: u16, height: u16, visits: u32) -> usize
    ensures most { result ≤ MOST_ROOM }
    ensures room { result ≡ room_for width height visits }
{
    let across = u32::from(width).div_ceil(SIDE);
    let down = u32::from(height).div_ceil(SIDE);
    let squares = across.saturating_mul(down);
    squares.min(visits / SIDE).min(MOST_ROOM) as usize
}

/// The number of the square that the cell is in: that of its first cell.
#[inline(always)]
fn number_of_square(cell: Cell) -> u32
    ensures number { result ≡ square_of cell }
    ensures cell { IsCell cell }
{
    let Cell { x, y } = cell;
    u32::from(y) / SIDE * SIDE * (MAX_COORDINATE + 1) + u32::from(x) / SIDE * SIDE
}

/// The cell's place in its square. Its first cell has some multiple of 8, and the others go on from there, row by row.
#[inline(always)]
fn place_of_cell(cell: Cell) -> usize
    ensures place { result ≡ place_in_square cell }
    ensures within { result < CELLS }
{
    let Cell { x, y } = cell;
    (u32::from(y) * SIDE + u32::from(x)) as usize % CELLS
}

/// The number that the visit is kept as.
#[inline(always)]
fn number_of_visit(visit: Visit) -> u32
    requires agent { visit.agent < MAX_AGENTS }
    requires position { visit.position ≤ MAX_MOVES }
    ensures { visit_kept result ≡ Some visit }
{
    visit.position * MAX_AGENTS as u32 + u32::from(visit.agent)
}

/// The visit that is kept as this number.
#[inline(always)]
fn visit_of_number(number: u32) -> Option<Visit>
    ensures { result ≡ visit_kept number }
{
    if number == NO_VISIT {
        return None;
    }
    Some(Visit {
        agent: (number % MAX_AGENTS as u32) as u16,
        position: number / MAX_AGENTS as u32,
    })
}

/// Keeps the visit as the last one of the cell in its square, which stands there, and answers the one before.
#[inline(always)]
fn replace_in(
    squares: &mut IndexMap<u32, [u32; CELLS]>,
    slot: usize,
    cell: Cell,
    visit: Visit,
) -> Option<Visit>
    requires at { IsSquareAt squares.old (square_of cell) slot }
    requires agent { visit.agent < MAX_AGENTS }
    requires position { visit.position ≤ MAX_MOVES }
    ensures kept { IsKeptAfter (last_in squares.old) (last_in squares.new) cell visit result }
    ensures stays { IsSquareAt squares.new (square_of cell) slot }
    ensures cell { IsCell cell }
{
    let (_, square) = squares.pair_mut(slot);
    let before = exchange(square, place_of_cell(cell), number_of_visit(visit));
    visit_of_number(before)
}

/// Writes the number at a place of the square, and answers the one before.
#[inline(always)]
fn exchange(square: &mut [u32; CELLS], place: usize, number: u32) -> u32
    requires { place < CELLS }
    ensures before { result ≡ get_or square.old place NO_VISIT }
    ensures written { IsWritten square.old square.new place number }
{
    let before = square[place];
    square[place] = number;
    before
}

/// The place of the hint for this square among so many hints, a power of two. Among few, rows of squares that are eight
/// apart share places, which are so far apart in them that those of a map 16 squares wide and 32 high differ.
#[inline(always)]
fn hint_place(number: u32, hints: usize) -> usize
    requires { 1 ≤ hints }
    ensures place { result ≡ place_of_hint number hints }
    ensures within { result < hints }
{
    let row = number / (MAX_COORDINATE + 1) / SIDE;
    let column = number / SIDE % HINTS_ACROSS;
    let place = (row * HINTS_ACROSS + column) ^ (row / 8 * 16);
    place as usize & (hints - 1)
}

/// Whether the square with this number stands there.
#[inline(always)]
#[tactic(auto, using(crate::proofs::LastVisits::shown_at))]
fn stands_at(squares: &IndexMap<u32, [u32; CELLS]>, number: u32, slot: usize) -> bool
    ensures { IsTrue result ↔ IsSquareAt squares.now number slot }
{
    match squares.get_index(slot) {
        Some((found, _)) => *found == number,
        None => false,
    }
}

/// Where the square with this number stands. If there was none, it has no visits.
#[inline(never)]
fn find_square(
    squares: &mut IndexMap<u32, [u32; CELLS]>,
    hints: &mut Vec<u32>,
    number: u32,
) -> Result<usize, OutOfMemory>
    ensures at { IfOk result (IsSquareAt squares.new number) }
    ensures same { OnOk result ((c : Cell) → last_in squares.new c ≡ last_in squares.old c) }
    ensures noted { IfOk result (IsNoted hints.new.items number) }
    ensures known { (slot : ℕ) → IsNoted hints.old.items number slot → slot < 2 ^ 32
        → IsSquareAt squares.old number slot → IsOk result }
{
    if !hints.is_empty() {
        let slot = hints[hint_place(number, hints.len())] as usize;
        if stands_at(squares, number, slot) {
            return Ok(slot);
        }
    }
    find_anew(squares, hints, number)
}

/// The same, if no hint says it. One is noted.
#[inline(never)]
fn find_anew(
    squares: &mut IndexMap<u32, [u32; CELLS]>,
    hints: &mut Vec<u32>,
    number: u32,
) -> Result<usize, OutOfMemory>
    ensures at { IfOk result (IsSquareAt squares.new number) }
    ensures same { OnOk result ((c : Cell) → last_in squares.new c ≡ last_in squares.old c) }
    ensures noted { IfOk result (IsNoted hints.new.items number) }
{
    let slot = look_up_square(squares, number)?;
    note_hint(hints, number, slot)?;
    Ok(slot)
}

/// Notes where the square with this number stands.
fn note_hint(hints: &mut Vec<u32>, number: u32, slot: usize) -> Result<(), AllocError>
    ensures { OnOk result (IsNoted hints.new.items number slot) }
{
    let most = if slot < MANY_SQUARES {
        FEW_HINTS
    } else {
        HINTS
    };
    if hints.len() < most {
        hints.resize(most, 0)?;
    }
    let Ok(slot) = u32::try_from(slot) else {
        return Ok(());
    };
    let place = hint_place(number, hints.len());
    hints[place] = slot;
    Ok(())
}

/// Where the square with this number stands, without a hint. If there was none, it has no visits.
#[inline(never)]
fn look_up_square(
    squares: &mut IndexMap<u32, [u32; CELLS]>,
    number: u32,
) -> Result<usize, OutOfMemory>
    ensures at { IfOk result (IsSquareAt squares.new number) }
    ensures same { OnOk result ((c : Cell) → last_in squares.new c ≡ last_in squares.old c) }
{
    if let Some(slot) = squares.get_index_of(&number) {
        return Ok(slot);
    }
    let (slot, _) = squares.insert_full(number, [NO_VISIT; CELLS])?;
    Ok(slot)
}
