//! Paths that are reserved, and earliest ones past them.

use fleet_grid::{Grid, read_map};
use fleet_model::Cell;
use fleet_plan::read_plan;
use fleet_search::{Reservations, SearchFault, earliest};
use std::alloc::Global;
use std::test::Fail;

/// Two rows of three cells, and a row whose middle is blocked.
const ROOM: &[u8] = b"type octile\nheight 2\nwidth 3\nmap\n...\n...\n";

const WALL: &[u8] = b"type octile\nheight 1\nwidth 3\nmap\n.@.\n";

/// The paths that the text names, reserved one after another, no path if it is empty; none of that if one does not fit
/// those before it.
fn reserved_of(alloc: Global, text: &[u8]) -> Result<Option<Reservations>, Fail> {
    let mut reserved = Reservations::new(alloc);
    if text.is_empty() {
        return Ok(Some(reserved));
    }
    let plan = read_plan(alloc, text)?;
    for i in 0..plan.agents() {
        let path = plan.path(i);
        if !reserved.fits(path) {
            return Ok(None);
        }
        reserved.reserve(path)?;
    }
    Ok(Some(reserved))
}

/// How many steps the earliest path has, if there is one.
fn steps_of(
    alloc: Global,
    map: &[u8],
    reserved: &[u8],
    ends: (Cell, Cell),
    horizon: u16,
) -> Result<Option<u32>, Fail> {
    let grid = read_map(alloc, map)?;
    let Some(reserved) = reserved_of(alloc, reserved)? else {
        return Err(Fail::from("conflict"));
    };
    steps_past(alloc, &grid, &reserved, ends, horizon)
}

/// .. past these.
fn steps_past(
    alloc: Global,
    grid: &Grid,
    reserved: &Reservations,
    (start, goal): (Cell, Cell),
    horizon: u16,
) -> Result<Option<u32>, Fail> {
    match earliest(alloc, grid, reserved, start, goal, horizon) {
        Ok(path) => Ok(Some(path.steps())),
        Err(SearchFault::NoPath) => Ok(None),
        Err(SearchFault::OutOfMemory) => Err(Fail::from("memory")),
    }
}

/// A map, the paths that are reserved on it, start and goal, the horizon, and how many steps the earliest path has, if
/// there is one.
type Row = (&'static [u8], &'static [u8], Cell, Cell, u16, Option<u32>);

const WEST: Cell = Cell { x: 0, y: 0 };

const MIDDLE: Cell = Cell { x: 1, y: 0 };

const EAST: Cell = Cell { x: 2, y: 0 };

const SOUTH: Cell = Cell { x: 1, y: 1 };

/// Cells beside and below the row.
const BESIDE: Cell = Cell { x: 3, y: 0 };

const BELOW: Cell = Cell { x: 0, y: 1 };

const ROWS: [Row; 9] = [
    (ROOM, b"0,0 0,0 1,0 2,0", SOUTH, MIDDLE, 3, Some(3)),
    (ROOM, b"0,0 0,0 1,0 2,0", SOUTH, MIDDLE, 2, None),
    (ROOM, b"1,0 2,0", MIDDLE, WEST, 1024, None),
    (ROOM, b"1,0 2,0", WEST, MIDDLE, 1024, Some(1)),
    (
        ROOM,
        b"2,0 2,0 2,1\n2,1 2,1 1,1 0,1\n1,1 1,1 1,0 1,0 1,1",
        WEST,
        EAST,
        1024,
        Some(5),
    ),
    (WALL, b"", MIDDLE, MIDDLE, 1024, None),
    (WALL, b"", BESIDE, BESIDE, 1024, None),
    (WALL, b"", BELOW, BELOW, 1024, None),
    (WALL, b"", EAST, EAST, 1024, Some(0)),
];

#[test]
fn earliest_paths_are_found(rt: HostRuntime) -> Result<(), Fail> {
    for row in &ROWS {
        let (map, reserved, start, goal, horizon, due) = *row;
        let found = steps_of(rt.alloc(), map, reserved, (start, goal), horizon)?;
        assert!(rt; found == due, "{found:?}, due {due:?}");
    }
    // Two paths that change places do not both fit.
    assert!(rt; reserved_of(rt.alloc(), b"0,0 1,0\n1,0 0,0")?.is_none());
    Ok(())
}
