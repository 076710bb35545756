//! A verifier without ticks: each agent runs on as far as its awaits allow. It only says yes, or what was answered.

ghost use Rattle.std.specs.Prelude.{◌≡◌, ◌<◌, ◌≤◌, ◌+◌, ◌↔◌, ◌⊎◌, All, get_or, ℕ, Some, None, IsTrue, length, max, IfOk, IfErr, IfNone, IfSome, OnOk, List, [], ◌∷◌, ◌++◌};
ghost use Rattle.fleet_model.specs.declared.geometry.Cell.{Cell};
ghost use Rattle.fleet_model.specs.declared.program.Visit.{Visit};
ghost use Rattle.fleet_model.specs.Geometry.{place_of};
ghost use Rattle.fleet_verify.specs.Order.{AreAddedBy, numbered_cell, IsOpenNext, IsVisitKept};
ghost use Rattle.fleet_model.specs.Program.{Program, start_of, moves, awaits_of, IsCell};
ghost use Rattle.fleet_model.specs.Visit.{IsVisit, ComesAfterByAwait, leaving};
ghost use Rattle.fleet_grid.specs.Ground.{is_passable};
ghost use Rattle.fleet_model.specs.Chain.{awaited};
ghost use Rattle.fleet_model.specs.declared.limits.TheConstants.{MAX_MOVES_IN_ALL};
ghost use Rattle.fleet_verify.specs.Ahead.{IsRanked, IsAhead, IsNext, IsRunner, AreNeeds, AreDone, IsAwaitOrOwn, IsKeptBack, HaveFinished, count_in, level_in, climbed_in, AreKeptBefore, HasCome, AreNextNeeds, HasRunOut, HasStopped, IsEntry, HasGoneOn, HasRaised, AreStill, ComesOnto, HasRunBare};
ghost use Rattle.fleet_verify.specs.Rising.{climbed, last_level};
ghost use Rattle.fleet_verify.specs.Faults.{HasStarts};
ghost use Rattle.fleet_verify.specs.LastVisits.{kept_at};
ghost use Rattle.fleet_verify.specs.Walk.{IsStop, IsStopAt};
ghost use Rattle.fleet_verify.specs.OpenPairs.{IsChained};
ghost use Rattle.fleet_verify.specs.Outlook.{IsFound, IsFoundUnless, IsOutlook};

use crate::agents::{ends_right, next_number, numbered_cell};
use crate::chained::{Answers, are_near, unless_chained};
use crate::last_visits::LastVisits;
use crate::level_row::{AllLevels, LevelRow, Levels, row_of};
use crate::order::{OpenPair, PlacedVisit, add_visit, is_left_by, number_of, open_unless_after};
use crate::still::run_ahead;
use crate::unheld_run::Stop;
use fleet_grid::Grid;
use fleet_model::{
    Await, Cell, Instruction, MAX_MOVES_IN_ALL, OutOfMemory, Place, ProgramView, Step, Visit,
    total_moves,
};
use fleet_scen::Instance;
use std::alloc::Global;

/// Agents that have run ahead: for each agent the levels of its finished actions, and the cell that it is on; of the
/// visits that have begun the last one of each cell, and the open pairs.
#[derive(Drop)]
pub struct Ahead {
    pub rows: Vec<LevelRow>,
    cells: Vec<Cell>,
    last: LastVisits,
    pairs: Vec<OpenPair>,
}

/// The greater of a level and of that of an awaited action, if that has one.
#[inline(always)]
fn greater_level(rows: &Vec<LevelRow>, least: u64, w: Await) -> Option<u64>
    requires agent { w.agent < length rows.now.items }
    requires count { 1 ≤ w.count }
    ensures met { IfSome result (λ _. IsRanked rows.now.items (awaited w)) }
    ensures greater { IfSome result (λ l. l ≡ max least (level_in rows.now.items (awaited w))) }
    ensures none { IfNone result (count_in rows.now.items w.agent < w.count) }
{
    let level = row_of(rows, w.agent).level(w.count)?;
    Some(least.max(level))
}

/// How far an agent that runs on has come.
#[derive(Clone, Copy)]
pub struct Runner {
    /// How many actions it has finished.
    finished: u32,
    /// Where its next instruction stands.
    at: usize,
    /// The level of its last action, or 0.
    level: u32,
    /// The number of the cell that it is on. A step is one sum so.
    number: u32,
}

/// What an action says whose awaits are all met.
#[derive(Clone, Copy)]
pub struct Needs {
    /// The level of the action.
    level: u32,
    /// The last of its awaits, or one of the agent itself if it has none.
    latest: Await,
    step: Step,
    /// Where the first instruction of the next action stands.
    after: usize,
}

/// An await of the agent itself, as none has.
#[inline(always)]
fn no_await(agent: u16) -> Await
    ensures agent { result.agent ≡ agent }
    ensures count { result.count ≡ 0 }
{
    Await { agent, count: 0 }
}

/// No action has a greater level: there are no more actions.
const MOST_LEVEL: u64 = MAX_MOVES_IN_ALL as u64;

/// What the agent's next action says; or an await of it that is not met, or one of the agent itself if the action's
/// level would be above all levels.
#[inline(always)]
pub fn needs_of<P: ProgramView>(
    program: &P,
    rows: &Vec<LevelRow>,
    agent: u16,
    runner: Runner,
) -> Result<Needs, Await>
    requires rows { length rows.now.items ≡ length (P.program program.now) }
    requires next { IsNext (P.program program.now) (P.offset program.now) rows.now.items agent
        runner }
    ensures says { IfOk result (AreNextNeeds (P.program program.now) (P.offset program.now)
        rows.now.items agent runner) }
    ensures agent { IfErr result (λ w. w.agent < length (P.program program.now)) }
    ensures level { IfOk result (λ n. n.level ≤ MAX_MOVES_IN_ALL) }
    ensures waits { IfErr result (IsKeptBack (P.program program.now)
        (climbed_in rows.now.items agent runner.finished) agent (runner.finished + 1)) }
{
    let _agents = program.agents();
    let Runner {
        finished,
        at,
        level,
        ..
    } = runner;
    let mut least = u64::from(level);
    let mut latest = no_await(agent);
    let mut at = at;
    let mut k = 0;
    'instructions: loop {
        let reading = program.read(agent, finished, k, at);
        match reading.instruction {
            Instruction::Await(awaited) => match greater_level(rows, least, awaited) {
                Some(level) => {
                    least = level;
                    latest = awaited;
                    at = reading.after;
                    k += 1;
                }
                None => return Err(awaited),
            },
            Instruction::Step(step) => {
                if least >= MOST_LEVEL {
                    return Err(Await {
                        agent,
                        count: finished + 1,
                    });
                }
                return Ok(Needs {
                    level: least as u32 + 1,
                    latest,
                    step,
                    after: reading.after,
                });
            }
        }
    }
}

/// Finishes the agent's next action, whose awaits are met, if it leads to passable ground; how far it has come then.
#[inline(always)]
fn finish_next<P: ProgramView>(
    program: &P,
    grid: &Grid,
    ahead: &mut Ahead,
    agent: u16,
    runner: Runner,
    needs: Needs,
) -> Result<Runner, Stop>
    requires runner { IsRunner (is_passable grid.now) (P.program program.now) (P.offset program.now)
        ahead.old agent runner }
    requires left { runner.finished < moves (P.program program.now) agent }
    requires needs { AreNeeds (P.program program.now) (P.offset program.now)
        (climbed_in ahead.old.rows.items agent runner.finished) agent runner.finished needs }
    ensures gone { IfOk result (HasGoneOn (is_passable grid.now) (P.program program.now)
        (P.offset program.now) ahead.old ahead.new agent needs.level runner) }
    ensures stop { IfErr result (IsStop (is_passable grid.now) (P.program program.now)) }
{
    let _agents = program.agents();
    let number = arrive(program, grid, ahead, agent, runner, needs)?;
    let finished = runner.finished + 1;
    raise(&mut ahead.rows, agent, runner, needs.level)?;
    Ok(Runner {
        finished,
        at: needs.after,
        level: needs.level,
        number,
    })
}

/// The agent's next action has this level, which its row notes only if it is not one above the level before it.
#[inline(always)]
fn raise(
    rows: &mut Vec<LevelRow>,
    agent: u16,
    runner: Runner,
    level: u32,
) -> Result<(), OutOfMemory>
    requires agent { agent < length rows.old.items }
    requires begun { count_in rows.old.items agent ≤ runner.finished }
    requires level { runner.level
        ≡ last_level (climbed (get_or rows.old.items agent []) runner.finished) }
    requires few { runner.finished < u32.MAX }
    requires some { 1 ≤ level }
    ensures { OnOk result (HasRaised rows.old.items rows.new.items agent runner.finished level) }
{
    let climbs = level - 1 == runner.level;
    if climbs {
        return Ok(());
    }
    let row = &mut rows[usize::from(agent)];
    jump(row, runner.finished, runner.level, level)?;
    Ok(())
}

/// The row climbs to so many levels, with this one as the last, and then has another one.
#[inline(never)]
fn jump(row: &mut LevelRow, finished: u32, last: u32, level: u32) -> Result<(), OutOfMemory>
    requires begun { length row.old ≤ finished }
    requires last { last ≡ last_level (climbed row.old finished) }
    requires few { finished < u32.MAX }
    ensures { OnOk result (row.new ≡ climbed row.old finished ++ level ∷ []) }
{
    row.climb(finished, last);
    row.push(level)?;
    Ok(())
}

/// The number of the cell to which the agent comes by its next action, if that is passable ground. If it moves, the
/// visit is kept.
#[inline(always)]
fn arrive<P: ProgramView>(
    program: &P,
    grid: &Grid,
    ahead: &mut Ahead,
    agent: u16,
    runner: Runner,
    needs: Needs,
) -> Result<u32, Stop>
    requires runner { IsRunner (is_passable grid.now) (P.program program.now) (P.offset program.now)
        ahead.old agent runner }
    requires left { runner.finished < moves (P.program program.now) agent }
    requires needs { AreNeeds (P.program program.now) (P.offset program.now)
        (climbed_in ahead.old.rows.items agent runner.finished) agent runner.finished needs }
    ensures comes { IfOk result (ComesOnto (is_passable grid.now) (P.program program.now)
        ahead.old ahead.new agent (runner.finished + 1)) }
    ensures stop { IfErr result (IsStop (is_passable grid.now) (P.program program.now)) }
{
    // What these calls ensure is known: a well-formed program, and a map that ends before the numbers of a cell do.
    let _agents = program.agents();
    let _width = grid.width();
    let Runner {
        finished,
        number,
        ..
    } = runner;
    let next = next_number(number, needs.step);
    match needs.step {
        Step::Go(_) => {
            let visit = Visit {
                agent,
                position: finished + 1,
            };
            let cell = numbered_cell(next);
            let placed = PlacedVisit { visit, cell };
            enter(
                program,
                grid,
                &mut ahead.last,
                &mut ahead.pairs,
                placed,
                needs.latest,
            )?;
            Ok(next)
        }
        Step::Dwell => Ok(number),
    }
}

/// Keeps the visit as the last one of its cell, if that is passable ground: where there was a visit before, it is.
#[inline(always)]
fn enter<P: ProgramView>(
    program: &P,
    grid: &Grid,
    last: &mut LastVisits,
    pairs: &mut Vec<OpenPair>,
    placed: PlacedVisit,
    latest: Await,
) -> Result<(), Stop>
    requires entry { IsEntry (P.program program.now) placed.visit latest }
    requires before { AreKeptBefore (is_passable grid.now) (kept_at last.old) placed.visit }
    ensures ground { OnOk result (IsTrue (is_passable grid.now (place_of placed.cell))) }
    ensures kept { OnOk result (IsVisitKept (ComesAfterByAwait (P.program program.now)) placed
        (kept_at last.old) (kept_at last.new) pairs.old.items pairs.new.items) }
    ensures cell { IsCell placed.cell }
    ensures stop { IfErr result (IsStopAt (is_passable grid.now) (place_of placed.cell)) }
{
    let _agents = program.agents();
    match last.replace(placed.cell, placed.visit)? {
        Some(first) => {
            open_unless_follows(program, first, placed, latest, pairs)?;
            Ok(())
        }
        None => {
            let is_ground = grid.passable(placed.cell);
            if is_ground {
                Ok(())
            } else {
                Err(Stop::OffGround)
            }
        }
    }
}

/// Whether the visit is by the agent of the one before, or the await is met only if that is left.
#[inline(always)]
fn follows<P: ProgramView>(program: &P, first: Visit, second: Visit, latest: Await) -> bool
    requires latest { IsAwaitOrOwn (P.program program.now) second.agent second.position latest }
    requires earlier { first.agent ≡ second.agent → first.position < second.position }
    ensures after { IsTrue result → ComesAfterByAwait (P.program program.now) first second }
    ensures follows { IsTrue result ↔ (first.agent ≡ second.agent) ⊎ ((latest.agent ≡ first.agent)
        × ((leaving (P.program program.now) first).number ≤ latest.count)) }
{
    let _agents = program.agents();
    if first.agent == second.agent {
        return true;
    }
    if latest.agent == second.agent {
        return false;
    }
    is_left_if_met(program, first, latest)
}

/// Whether the await is met only if the visit is left.
#[inline(always)]
fn is_left_if_met<P: ProgramView>(program: &P, visit: Visit, awaited: Await) -> bool
    requires { awaited.agent < length (P.program program.now) }
    ensures { IsTrue result ↔ (awaited.agent ≡ visit.agent)
        × ((leaving (P.program program.now) visit).number ≤ awaited.count) }
{
    awaited.agent == visit.agent && is_left_by(program, visit, awaited.count)
}

/// Adds the visit and the one before it at the cell as an open pair, unless it comes after that one. Mostly it is by
/// the same agent, or one await of the action that enters it shows that it does.
#[inline(always)]
fn open_unless_follows<P: ProgramView>(
    program: &P,
    first: Visit,
    placed: PlacedVisit,
    latest: Await,
    pairs: &mut Vec<OpenPair>,
) -> Result<(), OutOfMemory>
    requires entry { IsEntry (P.program program.now) placed.visit latest }
    requires earlier { first.agent ≡ placed.visit.agent
        → first.position < placed.visit.position }
    ensures { OnOk result (IsOpenNext (ComesAfterByAwait (P.program program.now)) (Some first)
        placed pairs.old.items pairs.new.items) }
{
    if follows(program, first, placed.visit, latest) {
        return Ok(());
    }
    open_at(program, first, placed.visit, placed.cell, pairs)
}

/// The same of a visit of the cell, where it is not known that it comes after the one before.
#[inline(never)]
fn open_at<P: ProgramView>(
    program: &P,
    first: Visit,
    visit: Visit,
    cell: Cell,
    pairs: &mut Vec<OpenPair>,
) -> Result<(), OutOfMemory>
    requires { IsVisit (P.program program.now) visit }
    ensures { OnOk result (IsOpenNext (ComesAfterByAwait (P.program program.now)) (Some first)
        (record { visit = visit; cell = cell }) pairs.old.items pairs.new.items) }
{
    open_unless_after(program, first, PlacedVisit { visit, cell }, pairs)
}

/// All agents on their starts, if these are passable.
fn begin<P: ProgramView>(alloc: Global, program: &P, grid: &Grid) -> Result<Ahead, Stop>
    ensures ahead { IfOk result (IsAhead (is_passable grid.now) (P.program program.now)) }
    ensures stop { IfErr result (IsStop (is_passable grid.now) (P.program program.now)) }
{
    let agents = program.agents();
    let visits = total_moves(program) + u32::from(agents);
    let last = LastVisits::with_room(alloc, grid.width(), grid.height(), visits)?;
    let mut ahead = empty(alloc, last);
    for agent in 0..agents {
        let cell = program.start(agent);
        if !grid.passable(cell) {
            return Err(Stop::OffGround);
        }
        begin_agent(alloc, program, agent, cell, &mut ahead)?;
    }
    Ok(ahead)
}

/// No agents.
fn empty(alloc: Global, last: LastVisits) -> Ahead
    requires { (c : Cell) → kept_at last c ≡ None }
    ensures rows { result.rows.items ≡ [] }
    ensures cells { result.cells.items ≡ [] }
    ensures added { (p : Program) → AreAddedBy p [] (kept_at result.last)
        result.pairs.items }
{
    Ahead {
        rows: Vec::new(alloc),
        cells: Vec::new(alloc),
        last,
        pairs: Vec::new(alloc),
    }
}

/// One more agent, on its start.
fn begin_agent<P: ProgramView>(
    alloc: Global,
    program: &P,
    agent: u16,
    cell: Cell,
    ahead: &mut Ahead,
) -> Result<(), OutOfMemory>
    requires agent { agent < length (P.program program.now) }
    requires start { cell ≡ start_of (P.program program.now) agent }
    ensures rows { OnOk result (ahead.new.rows.items ≡ ahead.old.rows.items ++ [] ∷ []) }
    ensures cells { OnOk result (ahead.new.cells.items ≡ ahead.old.cells.items ++ cell ∷ []) }
    ensures added { OnOk result ((visits : List Visit)
        → AreAddedBy (P.program program.now) visits (kept_at ahead.old.last)
        ahead.old.pairs.items
        → AreAddedBy (P.program program.now) (visits ++ record { agent = agent; position = 0 } ∷ [])
        (kept_at ahead.new.last) ahead.new.pairs.items) }
{
    let _agents = program.agents();
    let row = LevelRow::new(alloc);
    ahead.rows.push(row)?;
    ahead.cells.push(cell)?;
    let visit = Visit { agent, position: 0 };
    let placed = PlacedVisit { visit, cell };
    add_visit(program, &mut ahead.last, &mut ahead.pairs, placed)
}

/// What the agent's next action says, if it awaits nothing.
#[inline(always)]
fn bare_needs<P: ProgramView>(
    program: &P,
    rows: &Vec<LevelRow>,
    agent: u16,
    runner: Runner,
) -> Option<Needs>
    requires rows { length rows.now.items ≡ length (P.program program.now) }
    requires next { IsNext (P.program program.now) (P.offset program.now) rows.now.items agent
        runner }
    requires fits { runner.level < u32.MAX }
    ensures says { IfSome result (AreNextNeeds (P.program program.now) (P.offset program.now)
        rows.now.items agent runner) }
    ensures level { IfSome result (λ n. n.level ≡ runner.level + 1) }
    ensures none { IfNone result
        (1 ≤ length (awaits_of (P.program program.now) agent (runner.finished + 1))) }
{
    // Clauses alone speak of the rows.
    let _ = rows;
    let reading = program.read(agent, runner.finished, 0, runner.at);
    match reading.instruction {
        Instruction::Await(_) => None,
        Instruction::Step(step) => Some(Needs {
            level: runner.level + 1,
            latest: no_await(agent),
            step,
            after: reading.after,
        }),
    }
}

/// The same runner once more: that which is handed on stands in memory, and this one stays in registers.
#[inline(always)]
fn copy_of(runner: Runner) -> Runner
    ensures { result ≡ runner }
{
    let Runner {
        finished,
        at,
        level,
        number,
    } = runner;
    Runner {
        finished,
        at,
        level,
        number,
    }
}

/// Lets the agent run on along actions that await nothing.
#[inline(never)]
fn run_bare<P: ProgramView>(
    program: &P,
    grid: &Grid,
    ahead: &mut Ahead,
    agent: u16,
    runner: Runner,
) -> Result<Runner, Stop>
    requires runner { IsRunner (is_passable grid.now) (P.program program.now) (P.offset program.now)
        ahead.old agent runner }
    ensures ran { IfOk result (HasRunBare (is_passable grid.now) (P.program program.now)
        (P.offset program.now) ahead.old ahead.new agent runner) }
    ensures stop { IfErr result (IsStop (is_passable grid.now) (P.program program.now)) }
{
    let moves = program.moves(agent);
    let may_be_high = u64::from(runner.level) + u64::from(moves) > u64::from(u32::MAX);
    if may_be_high {
        return Ok(runner);
    }
    let mut runner = runner;
    while runner.finished < moves {
        let Some(needs) = bare_needs(program, &ahead.rows, agent, runner) else {
            return Ok(runner);
        };
        runner = finish_next(program, grid, ahead, agent, runner, needs)?;
    }
    Ok(runner)
}

/// Lets an agent run on as far as its awaits allow, and answers the await that it then waits for, if any.
#[inline(never)]
pub fn run_agent<P: ProgramView>(
    program: &P,
    grid: &Grid,
    ahead: &mut Ahead,
    agent: u16,
) -> Result<Option<Await>, Stop>
    requires ahead { IsAhead (is_passable grid.now) (P.program program.now) ahead.old }
    requires agent { agent < length (P.program program.now) }
    ensures ran { IfOk result (HasRunOut (is_passable grid.now) (P.program program.now)
        ahead.old ahead.new agent) }
    ensures stop { IfErr result (IsStop (is_passable grid.now) (P.program program.now)) }
{
    let _agents = program.agents();
    let moves = program.moves(agent);
    let mut runner = runner_of(program, ahead, agent);
    while runner.finished < moves {
        match needs_of(program, &ahead.rows, agent, runner) {
            Ok(needs) => {
                runner = finish_next(program, grid, ahead, agent, runner, needs)?;
                let is_bare = needs.latest.count == 0;
                if is_bare {
                    runner = run_bare(program, grid, ahead, agent, copy_of(runner))?;
                }
            }
            Err(awaited) => {
                stop_at(ahead, agent, runner);
                return Ok(Some(awaited));
            }
        }
    }
    stop_at(ahead, agent, runner);
    Ok(None)
}

/// How far the agent has come.
pub fn runner_of<P: ProgramView>(program: &P, ahead: &Ahead, agent: u16) -> Runner
    requires rows { length ahead.now.rows.items ≡ length (P.program program.now) }
    requires cells { length ahead.now.cells.items ≡ length (P.program program.now) }
    requires agent { agent < length (P.program program.now) }
    requires within { count_in ahead.now.rows.items agent
        ≤ moves (P.program program.now) agent }
    ensures { HasCome (P.offset program.now) ahead.now agent result }
{
    let row = row_of(&ahead.rows, agent);
    let finished = row.count();
    Runner {
        finished,
        at: program.offset(agent, finished, 0),
        level: row.last(),
        number: number_of(ahead.cells[usize::from(agent)]),
    }
}

/// The agent stops there.
fn stop_at(ahead: &mut Ahead, agent: u16, runner: Runner)
    requires rows { agent < length ahead.old.rows.items }
    requires cells { agent < length ahead.old.cells.items }
    requires begun { count_in ahead.old.rows.items agent ≤ runner.finished }
    requires level { runner.level
        ≡ last_level (climbed (get_or ahead.old.rows.items agent []) runner.finished) }
    ensures { HasStopped ahead.old ahead.new agent runner }
{
    let Runner {
        finished,
        level,
        number,
        ..
    } = runner;
    ahead.cells[usize::from(agent)] = numbered_cell(number);
    ahead.rows[usize::from(agent)].climb(finished, level);
}

/// Whether the agent has finished all its actions.
pub fn has_finished<P: ProgramView>(program: &P, ahead: &Ahead, agent: u16) -> bool
    requires rows { length ahead.now.rows.items ≡ length (P.program program.now) }
    requires agent { agent < length (P.program program.now) }
    ensures { IsTrue result
        ↔ (count_in ahead.now.rows.items agent ≡ moves (P.program program.now) agent) }
{
    row_of(&ahead.rows, agent).count() == program.moves(agent)
}

/// The number of actions of the longest chain, if all agents have finished and stand where they are to end.
fn finished_chain<P: ProgramView>(
    program: &P,
    grid: &Grid,
    instance: &Instance,
    ahead: &Ahead,
) -> Option<u32>
    requires starts { HasStarts instance.now (P.program program.now) }
    requires ahead { IsAhead (is_passable grid.now) (P.program program.now) ahead.now }
    ensures done { IfSome result (λ chain. (n : ℕ) × (length (P.program program.now) ≤ n)
        × AreDone instance.now (P.program program.now) ahead.now.rows.items n chain) }
    ensures none { IfNone result
        (¬ HaveFinished instance.now (P.program program.now) ahead.now.rows.items) }
{
    // Clauses alone speak of the map.
    let _ = grid;
    let mut chain: u32 = 0;
    for agent in 0..program.agents() {
        if !has_finished(program, ahead, agent) {
            return None;
        }
        let end = Place::from(ahead.cells[usize::from(agent)]);
        if !ends_right(program, instance, agent, end) {
            return None;
        }
        chain = chain.max(row_of(&ahead.rows, agent).last());
    }
    Some(chain)
}

/// What is found of a program by agents that ran ahead.
pub enum Outlook {
    /// It is accepted, its longest chain has so many actions, and these are their levels, unless they were let go.
    Accepted(u32, Option<Levels>),
    /// It may be accepted or not, and this was answered.
    Unknown(Answers),
}

/// Whether all has been found right. Chains are asked for at open pairs alone, once the memory of all else is given
/// back. If there are none, or awaits of awaited actions order all of them, the levels are handed on.
fn judge_ahead<P: ProgramView>(
    alloc: Global,
    program: &P,
    grid: &Grid,
    instance: &Instance,
    ahead: Ahead,
) -> Result<Outlook, OutOfMemory>
    requires starts { HasStarts instance.now (P.program program.now) }
    requires ahead { IsAhead (is_passable grid.now) (P.program program.now) ahead }
    ensures outlook { IfOk result (IsOutlook grid.now instance.now (P.program program.now)) }
    ensures found { HaveFinished instance.now (P.program program.now) ahead.rows.items
        → All (IsChained (P.program program.now)) ahead.pairs.items → IfOk result IsFound }
{
    let _agents = program.agents();
    let Some(chain) = finished_chain(program, grid, instance, &ahead) else {
        return Ok(Outlook::Unknown(Answers::none(alloc)));
    };
    let Ahead {
        rows,
        cells,
        last,
        pairs,
    } = ahead;
    drop(cells);
    last.let_go();
    if are_near(program, &pairs) {
        return Ok(Outlook::Accepted(chain, Some(Levels::of(rows))));
    }
    let levels = AllLevels { rows, most: chain };
    match unless_chained(alloc, program, levels, pairs)? {
        None => Ok(Outlook::Accepted(chain, None)),
        Some(known) => Ok(Outlook::Unknown(known)),
    }
}

/// All agents, run on as far as their awaits allow.
fn run_all<P: ProgramView>(alloc: Global, program: &P, grid: &Grid) -> Result<Ahead, Stop>
    ensures still { IfOk result (AreStill (is_passable grid.now) (P.program program.now)) }
    ensures stop { IfErr result (IsStop (is_passable grid.now) (P.program program.now)) }
{
    let mut ahead = begin(alloc, program, grid)?;
    run_ahead(alloc, program, grid, &mut ahead)?;
    Ok(ahead)
}

/// Whether the program is found to be accepted. If not, nothing is said of it but what was answered.
pub fn look_ahead<P: ProgramView>(
    alloc: Global,
    program: &P,
    grid: &Grid,
    instance: &Instance,
) -> Result<Outlook, OutOfMemory>
    requires { HasStarts instance.now (P.program program.now) }
    ensures outlook { IfOk result (IsOutlook grid.now instance.now (P.program program.now)) }
    ensures unknown { IfOk result (IsFoundUnless (is_passable grid.now) instance.now
        (P.program program.now)) }
{
    match run_all(alloc, program, grid) {
        Ok(ahead) => judge_ahead(alloc, program, grid, instance, ahead),
        Err(Stop::OffGround) => Ok(Outlook::Unknown(Answers::none(alloc))),
        Err(Stop::OutOfMemory) => Err(OutOfMemory),
    }
}
