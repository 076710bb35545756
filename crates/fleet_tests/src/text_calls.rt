//! Maps, scenarios and plans that are read and written, and what they say.

use crate::due::due_bytes;
use crate::fleets::{
    PAIR_BYTES, PAIR_MAP, PAIR_PLAN, PAIR_SCEN, SQUARE_MAP, SQUARE_SCEN, checked_of, problem,
};
use fleet_adg::tasks_of;
use fleet_code::view;
use fleet_grid::{Grid, MapFault, read_map, write_map};
use fleet_model::{Cell, Dir};
use fleet_plan::{
    Checked, Conflict, Path, Plan, PlanFault, PlanRefusal, TextFault, check, read_plan, write_plan,
};
use fleet_scen::{Instance, ScenFault, read_scen, write_scen};
use std::alloc::Global;
use std::process::Abort;
use std::test::Fail;

/// One row with each glyph, in lines that end in CR LF, the last one in nothing.
const GLYPHS: &[u8] = b"type octile\r\nheight 1\r\nwidth 7\r\nmap\r\n.G@OTSW";

/// The row's cells, and those beyond it: ground is at 0, 1 and 5. The second cell has a neighbour in the west alone.
fn due_cells(rt: &impl Abort, grid: &Grid) {
    assert!(*rt; grid.width() == 7 && grid.height() == 1 && grid.ground() == 3);
    for x in 0..9 {
        let is_due = x == 0 || x == 1 || x == 5;
        let is_ground = grid.passable(Cell { x, y: 0 });
        assert!(*rt;
            is_ground == is_due && !grid.passable(Cell { x, y: 1 }),
            "{x}"
        );
    }
    let second = Cell { x: 1, y: 0 };
    assert!(*rt; matches!(grid.neighbour(second, Dir::West), Some(Cell { x: 0, y: 0 })));
    for dir in [Dir::North, Dir::East, Dir::South] {
        assert!(*rt; grid.neighbour(second, dir).is_none());
    }
}

#[test]
fn maps_are_read(rt: HostRuntime) -> Result<(), Fail> {
    let fault = read_map(rt.alloc(), b"type t\nheight 2\nwidth 3\nmap\n...\n.x.\n").err();
    assert!(rt; matches!(fault, Some(MapFault::Glyph { row: 1, column: 1 })));
    let grid: Grid = read_map(rt.alloc(), GLYPHS)?;
    due_cells(&rt, &grid);
    Ok(())
}

/// Whether the agent goes from one column to another, in the row of the map.
fn goes(instance: &Instance, agent: u16, from: u16, to: u16) -> bool {
    agent < instance.agents()
        && instance.start(agent) == Cell { x: from, y: 0 }
        && instance.goal(agent) == Cell { x: to, y: 0 }
}

/// The pair's agents, three of them, one or all.
fn due_scenarios(rt: &impl Abort, alloc: Global, grid: &Grid) -> Result<(), Fail> {
    let fault = read_scen(alloc, PAIR_SCEN, grid, Some(3)).err();
    assert!(*rt; matches!(fault, Some(ScenFault::Fewer)));
    assert!(*rt; read_scen(alloc, PAIR_SCEN, grid, Some(1))?.agents() == 1);
    let pair: Instance = read_scen(alloc, PAIR_SCEN, grid, None)?;
    assert!(*rt; pair.agents() == 2 && goes(&pair, 0, 1, 3) && goes(&pair, 1, 0, 2));
    Ok(())
}

#[test]
fn scenarios_are_read(rt: HostRuntime) -> Result<(), Fail> {
    let grid = read_map(rt.alloc(), PAIR_MAP)?;
    due_scenarios(&rt, rt.alloc(), &grid)
}

/// The row without its second cell.
const WITHOUT: &[u8] = b"type octile\nheight 1\nwidth 7\nmap\n.@@@@.@\n";

/// The tasks of the pair.
const TASKS: &[u8] = b"version 1\n0\tmap\t4\t1\t1\t0\t3\t0\t0\n0\tmap\t4\t1\t0\t0\t2\t0\t0\n";

#[test]
fn maps_and_scenarios_are_written(rt: HostRuntime) -> Result<(), Fail> {
    let alloc = rt.alloc();
    let grid = read_map(alloc, GLYPHS)?;
    due_bytes(
        &rt,
        &write_map(alloc, &grid, &[Cell { x: 1, y: 0 }])?,
        WITHOUT,
    );
    drop(grid);
    let tasks = tasks_of(alloc, &view(alloc, PAIR_BYTES)?)?;
    due_bytes(&rt, &write_scen(alloc, 4, 1, &tasks)?, TASKS);
    Ok(())
}

/// Two agents, of which one goes two steps east, and the other waits and then goes one step east.
fn plan_by_hand(alloc: Global) -> Result<Plan, Fail> {
    let (west, middle, east) = (
        Cell { x: 0, y: 0 },
        Cell { x: 1, y: 0 },
        Cell { x: 2, y: 0 },
    );
    let one = Path::new(vec![in alloc; middle, east, Cell { x: 3, y: 0 }]?);
    let other = Path::new(vec![in alloc; west, west, middle]?);
    Ok(Plan::new(vec![in alloc; one, other]?))
}

#[test]
fn plans_are_made_and_written(rt: HostRuntime) -> Result<(), Fail> {
    let alloc = rt.alloc();
    let plan = plan_by_hand(alloc)?;
    assert!(rt; plan.agents() == 2 && plan.steps() == 2);
    let text = write_plan(alloc, &plan)?;
    due_bytes(&rt, &text, b"1,0 2,0 3,0\n0,0 0,0 1,0\n");
    Ok(())
}

/// An agent of a plan, how many steps its path has, and the columns in which it stands at times 0, 1 and 2.
type Goes = (u16, u32, [u16; 3]);

/// Whether it does, in row 0.
fn is_due_path(plan: &Plan, row: &Goes) -> bool {
    let (agent, steps, columns) = *row;
    if agent >= plan.agents() || plan.path(agent).steps() != steps {
        return false;
    }
    for (t, x) in (0..3).zip(columns) {
        let due = Cell { x, y: 0 };
        let of_path = plan.path(agent).cell(t);
        if of_path != due || plan.cell(agent, t) != due {
            return false;
        }
    }
    true
}

#[test]
fn plans_are_read(rt: HostRuntime) -> Result<(), Fail> {
    let fault = read_plan(rt.alloc(), b"1,0 2,0 3,0\n\n").err();
    assert!(rt; matches!(fault, Some(TextFault::Form { line: 2 })));
    let plan = read_plan(rt.alloc(), b"2,0 1,0\n0,0")?;
    assert!(rt; is_due_path(&plan, &(0, 1, [2, 1, 1])) && is_due_path(&plan, &(1, 0, [0; 3])));
    Ok(())
}

/// What is kept of the pair's plan.
fn due_checked(rt: &impl Abort, alloc: Global, checked: &Checked<'_>) -> Result<(), Fail> {
    assert!(*rt; checked.grid().ground() == 4 && checked.instance().agents() == 2);
    due_bytes(rt, &write_plan(alloc, checked.plan())?, PAIR_PLAN);
    Ok(())
}

#[test]
fn plans_are_checked(rt: HostRuntime) -> Result<(), Fail> {
    let (grid, instance) = problem(rt.alloc(), PAIR_MAP, PAIR_SCEN)?;
    let checked = checked_of(rt.alloc(), PAIR_PLAN, &grid, &instance)?;
    due_checked(&rt, rt.alloc(), &checked)
}

/// Why a plan is refused. The plan is handed back.
fn refusal_of(
    alloc: Global,
    text: &[u8],
    grid: &Grid,
    instance: &Instance,
) -> Result<PlanRefusal, Fail> {
    match check(alloc, read_plan(alloc, text)?, grid, instance) {
        Ok(_) => Err(Fail::from("not refused")),
        Err(refusal) => Ok(refusal),
    }
}

/// The first conflict of four agents of which each goes to where the next one stands.
#[test]
fn plans_are_refused(rt: HostRuntime) -> Result<(), Fail> {
    let alloc = rt.alloc();
    let (grid, instance) = problem(alloc, SQUARE_MAP, SQUARE_SCEN)?;
    let ring = b"0,0 1,0\n1,0 1,1\n1,1 0,1\n0,1 0,0\n";
    let PlanRefusal { fault, plan } = refusal_of(alloc, ring, &grid, &instance)?;
    assert!(rt;
        matches!(
            fault,
            PlanFault::Conflict(Conflict::Cycle { time: 0, least: 0 })
        )
    );
    due_bytes(&rt, &write_plan(alloc, &plan)?, ring);
    Ok(())
}
