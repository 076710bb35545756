//! The judgements that go agent by agent: of the fleet, starts, paths, each by one walk along it, and ends.

ghost use Rattle.std.specs.Prelude.{◌≡◌, ◌≢◌, ◌<◌, ◌↔◌, length, IsTrue, IfOk, OnOk, IfErr, Bool, option_map, ◌≤◌, ◌+◌, ◌<ℤ◌, false, pos, IfSome, IfNone};
ghost use Rattle.std.specs.Option.{option_or};
ghost use Rattle.fleet_model.specs.Program.{moves, path, IsWellFormed};
ghost use Rattle.fleet_model.specs.declared.geometry.Place.{Place};
ghost use Rattle.fleet_model.specs.Machine.{IsReached};
ghost use Rattle.fleet_grid.specs.Ground.{is_passable};
ghost use Rattle.fleet_machine.specs.Machine.{Runs};
ghost use Rattle.fleet_verify.specs.declared.fault.VerifyFault.TheVariants.{OutOfMemory};
ghost use Rattle.fleet_verify.specs.Faults.{HasStarts, HasEnds, HasRanges, EndsRight, StandsRight, AwaitsRight, IsFault};
ghost use Rattle.fleet_verify.specs.Path.{AnswersFirstAction, AnswersFirst, IsPosition, IsPathJudged};
ghost use Rattle.fleet_verify.specs.Walk.{HasArrived};
ghost use Rattle.fleet_model.specs.Geometry.{place_of, stepped};
ghost use Rattle.fleet_model.specs.declared.geometry.Cell.{Cell};
ghost use Rattle.fleet_verify.specs.Order.{numbered_cell};

use crate::fault::VerifyFault;
use fleet_grid::Grid;
use fleet_machine::Machine;
use fleet_model::{ActionId, Cell, MAX_COORDINATE, Place, ProgramView, Step};
use fleet_scen::Instance;

/// Whether there are as many agents as tasks, and each starts where its task says.
pub fn check_starts<P: ProgramView>(program: &P, instance: &Instance) -> Result<(), VerifyFault>
    ensures ok { OnOk result (HasStarts instance.now (P.program program.now)) }
    ensures err { IfErr result (λ f. (passable : Place → Bool)
        → IsFault passable instance.now (P.program program.now) f) }
    ensures memory { IfErr result (λ f. f ≢ OutOfMemory) }
    ensures formed { IsWellFormed (P.program program.now) }
{
    let agents = program.agents();
    if agents != instance.agents() {
        return Err(VerifyFault::OtherFleet);
    }
    for agent in 0..agents {
        if program.start(agent) != instance.start(agent) {
            return Err(VerifyFault::Start { agent });
        }
    }
    Ok(())
}

/// Whether goals, steps and awaits are right, by one walk along each path.
pub fn check_paths<P: ProgramView>(
    program: &P,
    grid: &Grid,
    instance: &Instance,
) -> Result<(), VerifyFault>
    requires { HasStarts instance.now (P.program program.now) }
    ensures ok { OnOk result (HasRanges (is_passable grid.now) instance.now
        (P.program program.now)) }
    ensures err { IfErr result (λ f. IsFault (is_passable grid.now) instance.now
        (P.program program.now) f) }
    ensures memory { IfErr result (λ f. f ≢ OutOfMemory) }
{
    let faults = judge_paths(program, grid, instance)?;
    if let Some(ActionId { agent, number }) = faults.off_ground {
        return Err(VerifyFault::Step {
            agent,
            action: number,
        });
    }
    if let Some(ActionId { agent, number }) = faults.out_of_range {
        return Err(VerifyFault::AwaitRange {
            agent,
            action: number,
        });
    }
    Ok(())
}

/// What is wrong with the paths of all agents but their ends.
#[derive(Clone, Copy)]
struct PathFaults {
    /// The first action that leads off passable ground.
    off_ground: Option<ActionId>,
    /// The first action that awaits more actions than there are.
    out_of_range: Option<ActionId>,
}

/// What is wrong with the steps and awaits, if the goals are right.
fn judge_paths<P: ProgramView>(
    program: &P,
    grid: &Grid,
    instance: &Instance,
) -> Result<PathFaults, VerifyFault>
    requires { HasStarts instance.now (P.program program.now) }
    ensures ends { OnOk result (HasEnds instance.now (P.program program.now)) }
    ensures off_ground { IfOk result (λ found. AnswersFirstAction (P.program program.now)
        (StandsRight (is_passable grid.now) (P.program program.now))
        (length (P.program program.now)) found.off_ground) }
    ensures out_of_range { IfOk result (λ found. AnswersFirstAction (P.program program.now)
        (AwaitsRight (P.program program.now)) (length (P.program program.now)) found.out_of_range) }
    ensures err { IfErr result (λ f. IsFault (is_passable grid.now) instance.now
        (P.program program.now) f) }
    ensures memory { IfErr result (λ f. f ≢ OutOfMemory) }
{
    let mut off_ground = None;
    let mut out_of_range = None;
    for agent in 0..program.agents() {
        let path = judge_path(program, grid, agent);
        if !ends_right(program, instance, agent, path.end) {
            return Err(VerifyFault::Goal { agent });
        }
        off_ground = or_action(off_ground, agent, path.off_ground);
        out_of_range = or_action(out_of_range, agent, path.out_of_range);
    }
    Ok(PathFaults {
        off_ground,
        out_of_range,
    })
}

/// Whether the goal of an agent is its task's, and this end of its path lies on it.
pub fn ends_right<P: ProgramView>(program: &P, instance: &Instance, agent: u16, end: Place) -> bool
    requires before { HasStarts instance.now (P.program program.now) }
    requires agent { agent < length (P.program program.now) }
    requires end { end ≡ path (P.program program.now) agent (moves (P.program program.now) agent) }
    ensures { IsTrue result ↔ EndsRight instance.now (P.program program.now) agent }
{
    let goal = program.goal(agent);
    goal == instance.goal(agent) && end == Place::from(goal)
}

/// Whether all actions are finished and each agent has the goal of its task and stands on it.
pub fn has_arrived<P: ProgramView>(program: &P, instance: &Instance, machine: &Machine) -> bool
    requires before { HasStarts instance.now (P.program program.now) }
    requires runs { Runs (P.program program.now) machine.now }
    requires reached { IsReached (P.program program.now) machine.now.configuration }
    ensures { IsTrue result ↔ HasArrived instance.now
        (P.program program.now) machine.now.configuration }
{
    if !machine.is_finished(program) {
        return false;
    }
    for agent in 0..program.agents() {
        if !ends_right(program, instance, agent, machine.agent(agent).place) {
            return false;
        }
    }
    true
}

/// The action that was found before, or else this one of the agent.
fn or_action(found: Option<ActionId>, agent: u16, number: Option<u32>) -> Option<ActionId>
    ensures { result ≡ option_or found
        (option_map (λ n. record { agent = agent; number = n }) number) }
{
    match (found, number) {
        (None, Some(number)) => Some(ActionId { agent, number }),
        _ => found,
    }
}

// The judgement of an agent's path, by one walk along it.

/// The judgement of an agent's path.
#[derive(Clone, Copy)]
struct PathJudged {
    /// The place at which it ends, which may be off the map.
    end: Place,
    /// The first action that leads off passable ground, or 0 if the start is off it.
    off_ground: Option<u32>,
    /// The first action that awaits more actions than there are.
    out_of_range: Option<u32>,
}

/// The position of a walk along a path: a cell, if the walk was on passable ground alone, or else any place, with the
/// first action that led off passable ground.
#[derive(Clone, Copy)]
enum Position {
    OnGround(Cell),
    OffGround { place: Place, action: u32 },
}

/// Walks along the path of an agent once, from its start to its end.
fn judge_path<P: ProgramView>(program: &P, grid: &Grid, agent: u16) -> PathJudged
    requires agent { agent < length (P.program program.now) }
    requires well_formed { IsWellFormed (P.program program.now) }
    ensures { IsPathJudged (is_passable grid.now) (P.program program.now) agent result }
{
    let mut position = start_position(program, grid, agent);
    let mut out_of_range = None;
    for finished in 0..program.moves(agent) {
        position = position_after(program, grid, agent, finished, position);
        out_of_range = out_of_range_after(program, agent, finished, out_of_range);
    }
    let (end, off_ground) = match position {
        Position::OnGround(cell) => (Place::from(cell), None),
        Position::OffGround { place, action } => (place, Some(action)),
    };
    PathJudged {
        end,
        off_ground,
        out_of_range,
    }
}

/// The start of an agent.
fn start_position<P: ProgramView>(program: &P, grid: &Grid, agent: u16) -> Position
    requires { agent < length (P.program program.now) }
    ensures { IsPosition (is_passable grid.now) (P.program program.now) agent 0 result }
{
    let start = program.start(agent);
    if grid.passable(start) {
        Position::OnGround(start)
    } else {
        Position::OffGround {
            place: Place::from(start),
            action: 0,
        }
    }
}

/// The position after the next action of an agent.
fn position_after<P: ProgramView>(
    program: &P,
    grid: &Grid,
    agent: u16,
    finished: u32,
    position: Position,
) -> Position
    requires agent { agent < length (P.program program.now) }
    requires left { finished < moves (P.program program.now) agent }
    requires well_formed { IsWellFormed (P.program program.now) }
    requires before { IsPosition (is_passable grid.now)
        (P.program program.now) agent finished position }
    ensures { IsPosition (is_passable grid.now) (P.program program.now) agent
        (finished + 1) result }
{
    let step = program.step(agent, finished + 1);
    match position {
        Position::OnGround(cell) => match cell_after(grid, cell, step) {
            Some(next) => Position::OnGround(next),
            None => Position::OffGround {
                place: Place::from(cell).after(step),
                action: finished + 1,
            },
        },
        Position::OffGround { place, action } => Position::OffGround {
            place: place.after(step),
            action,
        },
    }
}

/// The cell after a step, if it is on the map and passable.
#[inline(always)]
pub fn cell_after(grid: &Grid, cell: Cell, step: Step) -> Option<Cell>
    ensures some { IfSome result (λ next. (place_of next ≡ stepped (place_of cell) step)
        × IsTrue (is_passable grid.now (place_of next))) }
    ensures none { IfNone result (is_passable grid.now (stepped (place_of cell) step) ≡ false) }
{
    let place = Place::from(cell).after(step);
    let next = map_cell(grid, place)?;
    if grid.passable(next) {
        Some(next)
    } else {
        None
    }
}

/// How far apart the numbers of two cells are, one right below the other.
const ROW: u32 = MAX_COORDINATE + 1;

/// What a move adds to the number of a cell, by how many quarter turns from the north: the number wraps.
static LEADS: [u32; 4] = [u32::MAX - (ROW - 1), 1, ROW, u32::MAX];

/// The cell with this number, of which `number_of` answers it.
#[inline(always)]
pub fn numbered_cell(number: u32) -> Cell
    ensures { result ≡ numbered_cell number }
{
    Cell {
        x: (number % ROW) as u16,
        y: (number / ROW) as u16,
    }
}

/// The number of the cell after a step. West of the first column it is one of column 65,535, and north of the first row
/// one of row 65,535, which no map has.
#[inline(always)]
pub fn next_number(number: u32, step: Step) -> u32
    requires column { (numbered_cell number).x < u16.MAX }
    requires row { (numbered_cell number).y < u16.MAX }
    ensures place { (numbered_cell result).x < u16.MAX → (numbered_cell result).y < u16.MAX
        → place_of (numbered_cell result) ≡ stepped (place_of (numbered_cell number)) step }
    ensures cell { (c : Cell) → place_of c ≡ stepped (place_of (numbered_cell number)) step
        → numbered_cell result ≡ c }
    ensures west { (stepped (place_of (numbered_cell number)) step).x <ℤ pos 0
        → (numbered_cell result).x ≡ u16.MAX }
    ensures north { (stepped (place_of (numbered_cell number)) step).y <ℤ pos 0
        → (numbered_cell result).y ≡ u16.MAX }
{
    match step {
        Step::Go(dir) => number.wrapping_add(LEADS[dir as usize]),
        Step::Dwell => number,
    }
}

/// The cell at a place, if it is on the map.
#[inline(always)]
pub fn map_cell(grid: &Grid, place: Place) -> Option<Cell>
    ensures some { IfSome result (λ cell. place_of cell ≡ place) }
    ensures on_map { IfSome result (λ cell. (cell.x < grid.now.width) × (cell.y < grid.now.height)) }
    ensures none { IfNone result (is_passable grid.now place ≡ false) }
{
    let width = i32::from(grid.width());
    let height = i32::from(grid.height());
    let Place { x, y } = place;
    let is_left = x < 0;
    let is_right = x >= width;
    let is_above = y < 0;
    let is_below = y >= height;
    if is_left || is_right || is_above || is_below {
        return None;
    }
    Some(Cell {
        x: x as u16,
        y: y as u16,
    })
}

/// The first action that awaits more actions than there are, after one action more of an agent.
fn out_of_range_after<P: ProgramView>(
    program: &P,
    agent: u16,
    finished: u32,
    found: Option<u32>,
) -> Option<u32>
    requires agent { agent < length (P.program program.now) }
    requires left { finished < moves (P.program program.now) agent }
    requires well_formed { IsWellFormed (P.program program.now) }
    requires before { AnswersFirst finished (AwaitsRight (P.program program.now) agent) found }
    ensures { AnswersFirst (finished + 1) (AwaitsRight (P.program program.now) agent) result }
{
    let action = finished + 1;
    match found {
        Some(_) => found,
        None if are_in_range(program, agent, action) => None,
        None => Some(action),
    }
}

/// Whether each await of the action can be met.
fn are_in_range<P: ProgramView>(program: &P, agent: u16, action: u32) -> bool
    requires agent { agent < length (P.program program.now) }
    requires first { 1 ≤ action }
    requires last { action ≤ moves (P.program program.now) agent }
    requires well_formed { IsWellFormed (P.program program.now) }
    ensures { IsTrue result ↔ AwaitsRight (P.program program.now) agent action }
{
    for k in 0..program.await_count(agent, action) {
        let awaited = program.await_at(agent, action, k);
        let is_beyond = awaited.count > program.moves(awaited.agent);
        if is_beyond {
            return false;
        }
    }
    true
}
