//! One sweep over the steps of a plan: in each step all leavings of cells, and then all enterings.

ghost use Rattle.std.specs.Prelude.{◌≡◌, ◌≤◌, ◌<◌, ◌+◌, not, is_some, IfSome, OnOk, IfOk, All, filter, length, replicate, [], ◌≢◌, ℕ, List, ◌∷◌, ◌++◌, ◌==◌, option_map, option_to_list, nat_le};
ghost use Rattle.fleet_model.specs.Geometry.{is_same_cell};
ghost use Rattle.fleet_plan.specs.Plan.{cell_of, steps};
ghost use Rattle.fleet_plan.specs.UnderWay.{is_under_way};
ghost use Rattle.fleet_model.specs.declared.limits.TheConstants.{MAX_HORIZON};
ghost use Rattle.fleet_adg.specs.Compiled.{direction, changes_in, moves_by};
ghost use Rattle.fleet_adg.specs.Leavings.{kind_of, AreLeavingsAt, await_for, row_of, leavings_after, with_leaving};
ghost use Rattle.fleet_code.specs.Written.{written};
ghost use Rattle.fleet_adg.specs.Sweep.{under_way, moves_in, all_bytes_by, AreSweptTo, IsOnMap};
ghost use Rattle.fleet_model.specs.declared.geometry.Step.TheVariants.{Go};
ghost use Rattle.fleet_model.specs.declared.program.Action.{Action};
ghost use Rattle.fleet_code.specs.Spelling.{most_count};
ghost use Rattle.fleet_grid.specs.Lists.{list_at, key_of_number};
ghost use Rattle.std.specs.List.{position};

use fleet_code::{ActionBytes, Version};
use fleet_grid::{Grid, Key, Lists, Table, cells_have_places_of_their_own};
use fleet_model::{Await, Cell, Deps, Dir, OutOfMemory, Step, agent_numbers};
use fleet_plan::{Checked, Plan};
use std::alloc::{AllocError, Global};

/// A change of cell by an agent in one step.
#[derive(Clone, Copy)]
struct Move {
    agent: u16,
    from: Cell,
    to: Cell,
}

/// A step of a plan on a map: the one after `time`. Its actions are written in the version.
#[derive(Clone, Copy)]
struct PlanStep<'a> {
    plan: &'a Plan,
    grid: &'a Grid,
    version: Version,
    time: u32,
}

/// The actions of each agent, in the version. An agent whose path has ended is not looked at again.
pub(crate) fn actions_of(
    alloc: Global,
    checked: &Checked<'_>,
    version: Version,
    deps: Deps,
) -> Result<Vec<ActionBytes>, OutOfMemory>
    ensures { IfOk result (λ actions. actions.items
        ≡ all_bytes_by checked.now.plan deps version (steps checked.now.plan)) }
{
    let plan = checked.plan();
    let grid = checked.grid();
    cells_are_on_map(checked);
    let mut leavings = Leavings::none(alloc, deps);
    let mut actions = empty_lists(alloc, plan, version, deps)?;
    sweep(alloc, plan, grid, version, &mut leavings, &mut actions)?;
    Ok(actions)
}

/// Sweeps over all steps of the plan, and adds the actions of each agent.
fn sweep(
    alloc: Global,
    plan: &Plan,
    grid: &Grid,
    version: Version,
    leavings: &mut Leavings,
    actions: &mut [ActionBytes],
) -> Result<(), OutOfMemory>
    requires on_map { IsOnMap grid.now plan.now }
    requires leavings { AreLeavingsAt grid.now plan.now (kind_of leavings.old) 0 leavings.old }
    requires actions { actions.old ≡ all_bytes_by plan.now (kind_of leavings.old) version 0 }
    ensures { OnOk result (actions.new
        ≡ all_bytes_by plan.now (kind_of leavings.old) version (steps plan.now)) }
{
    let mut agents = agent_numbers(alloc, plan.agents())?;
    let mut moves = Vec::with_capacity(alloc, agents.len())?;
    for time in 0..plan.steps() {
        drop_arrived(plan, &mut agents, time);
        list_moves(plan, time, &agents, &mut moves)?;
        let at = PlanStep {
            plan,
            grid,
            version,
            time,
        };
        make_moves(&at, &moves, leavings, actions)?;
    }
    Ok(())
}

/// Every how many steps agents that have arrived are dropped.
const DROPPED_EACH: u32 = 8;

/// Drops the agents whose paths end by `time`, in the first step and in each eighth one: one that is still looked at
/// makes no move.
#[tactic(auto, using(crate::proofs::SweepSteps::under_way_again, crate::proofs::SweepSteps::below_kept))]
fn drop_arrived(plan: &Plan, agents: &mut Vec<u16>, time: u32)
    requires { All (λ i. i < length plan.now) agents.old.items }
    ensures below { All (λ i. i < length plan.now) agents.new.items }
    ensures same { filter (is_under_way plan.now time) agents.new.items
        ≡ filter (is_under_way plan.now time) agents.old.items }
{
    let is_due = time % DROPPED_EACH == 0;
    if is_due {
        plan.keep_under_way(agents, time);
    }
}

/// Notes the leavings of cells in a step, and then adds its moves, with what they await.
fn make_moves(
    at: &PlanStep<'_>,
    moves: &[Move],
    leavings: &mut Leavings,
    actions: &mut [ActionBytes],
) -> Result<(), OutOfMemory>
    requires on_map { IsOnMap at.now.grid.now at.now.plan.now }
    requires time { at.now.time < MAX_HORIZON }
    requires moves { moves.now ≡ moves_in at.now.plan.now at.now.time }
    requires swept { AreSweptTo at.now.grid.now at.now.plan.now (kind_of leavings.old) at.now.version
        at.now.time leavings.old actions.old }
    ensures { OnOk result (AreSweptTo at.now.grid.now at.now.plan.now (kind_of leavings.old)
        at.now.version (at.now.time + 1) leavings.new actions.new) }
{
    note_leavings(at, moves, actions, leavings)?;
    add_actions(at, moves, leavings, actions)
}

/// Every cell of a plan lies on the map that it was checked for. It does nothing.
fn cells_are_on_map(checked: &Checked<'_>)
    ensures { IsOnMap checked.now.grid checked.now.plan }
{
    // The plan that is read is free of conflict, so its cells are passable.
    let _plan = checked.plan();
    // The contract of this call says the sizes of the map.
    let _width = checked.grid().width();
}

/// For each agent no action, and room for a move in each step of its path, and for their awaits if each has at most
/// one.
fn empty_lists(
    alloc: Global,
    plan: &Plan,
    version: Version,
    deps: Deps,
) -> Result<Vec<ActionBytes>, OutOfMemory>
    ensures { IfOk result (λ actions. actions.items
        ≡ replicate (length plan.now) (written version [])) }
{
    let mut lists = Vec::with_capacity(alloc, usize::from(plan.agents()))?;
    for i in 0..plan.agents() {
        let moves = plan.path(i).steps() as usize;
        let awaits = match deps {
            Deps::All => 0,
            Deps::Last => moves,
        };
        lists.push(ActionBytes::new(alloc, version, moves, awaits)?)?;
    }
    Ok(lists)
}

/// How many moves agent `i` makes.
pub(crate) fn moves_of(plan: &Plan, i: u16) -> u32
    requires { i < length plan.now }
    ensures value { result ≡ moves_by plan.now i (steps plan.now) }
    ensures few { result ≤ MAX_HORIZON }
{
    let mut moves = 0;
    for time in 0..plan.path(i).steps() {
        if move_in(plan, i, time).is_some() {
            moves += 1;
        }
    }
    moves
}

/// Whether these are two cells.
#[inline(always)]
fn differ(from: Cell, to: Cell) -> bool
    ensures { result ≡ not (is_same_cell from to) }
{
    from != to
}

/// The cells that agent `i` leaves and enters in the step after `time`, if it changes its cell.
#[tactic(auto, unfolding(crate::specs::Compiled::changes_in))]
fn move_in(plan: &Plan, i: u16, time: u32) -> Option<(Cell, Cell)>
    requires agent { i < length plan.now }
    requires time { time ≤ MAX_HORIZON }
    ensures moves { is_some result ≡ changes_in plan.now i time }
    ensures cells { IfSome result (λ cells. (cells.0 ≡ cell_of plan.now i time)
        × (cells.1 ≡ cell_of plan.now i (time + 1))) }
{
    let from = plan.cell(i, time);
    let to = plan.cell(i, time + 1);
    let is_move = differ(from, to);
    if is_move { Some((from, to)) } else { None }
}

/// Lists the moves in the step after `time`, in order of agent.
fn list_moves(
    plan: &Plan,
    time: u32,
    agents: &[u16],
    moves: &mut Vec<Move>,
) -> Result<(), AllocError>
    requires time { time ≤ MAX_HORIZON }
    requires below { All (λ i. i < length plan.now) agents.now }
    requires agents { filter (is_under_way plan.now time) agents.now ≡ under_way plan.now time }
    ensures { OnOk result (moves.new.items ≡ moves_in plan.now time) }
{
    moves.clear();
    for &i in agents {
        if let Some((from, to)) = move_in(plan, i, time) {
            moves.push(Move { agent: i, from, to })?;
        }
    }
    Ok(())
}

/// Notes the leavings of cells in a step. Out of line the loop keeps its numbers in registers, and so does the next.
#[inline(never)]
fn note_leavings(
    at: &PlanStep<'_>,
    moves: &[Move],
    actions: &[ActionBytes],
    leavings: &mut Leavings,
) -> Result<(), OutOfMemory>
    requires on_map { IsOnMap at.now.grid.now at.now.plan.now }
    requires time { at.now.time < MAX_HORIZON }
    requires moves { moves.now ≡ moves_in at.now.plan.now at.now.time }
    requires actions { actions.now
        ≡ all_bytes_by at.now.plan.now (kind_of leavings.old) at.now.version at.now.time }
    requires leavings { AreLeavingsAt at.now.grid.now at.now.plan.now (kind_of leavings.old)
        at.now.time leavings.old }
    ensures { OnOk result (AreLeavingsAt at.now.grid.now at.now.plan.now (kind_of leavings.old)
        (at.now.time + 1) leavings.new) }
{
    // Two cells have two places in the table.
    cells_have_places_of_their_own();
    for one in moves {
        let agent = one.agent;
        let number = actions[usize::from(agent)].count() as u16 + 1;
        leavings.note(at.grid.cell_index(one.from), Leaving { agent, number })?;
    }
    Ok(())
}

/// Adds the moves of a step, with what they await.
#[inline(never)]
fn add_actions(
    at: &PlanStep<'_>,
    moves: &[Move],
    leavings: &Leavings,
    actions: &mut [ActionBytes],
) -> Result<(), OutOfMemory>
    requires on_map { IsOnMap at.now.grid.now at.now.plan.now }
    requires time { at.now.time < MAX_HORIZON }
    requires moves { moves.now ≡ moves_in at.now.plan.now at.now.time }
    requires leavings { AreLeavingsAt at.now.grid.now at.now.plan.now (kind_of leavings.now)
        (at.now.time + 1) leavings.now }
    requires actions { actions.old
        ≡ all_bytes_by at.now.plan.now (kind_of leavings.now) at.now.version at.now.time }
    ensures { OnOk result (actions.new
        ≡ all_bytes_by at.now.plan.now (kind_of leavings.now) at.now.version (at.now.time + 1)) }
{
    for one in moves {
        let entry = Entry {
            place: at.grid.cell_index(one.to),
            agent: one.agent,
            dir: direction(one.from, one.to),
        };
        let own = &mut actions[usize::from(one.agent)];
        leavings.add_action(entry, at.version, own)?;
    }
    Ok(())
}

/// The direction from a cell to one of its neighbours.
#[tactic(auto, unfolding(crate::specs::Compiled::direction))]
fn direction(from: Cell, to: Cell) -> Dir
    ensures { result ≡ direction from to }
{
    if to.y < from.y {
        Dir::North
    } else if from.x < to.x {
        Dir::East
    } else if from.y < to.y {
        Dir::South
    } else {
        Dir::West
    }
}

// The leavings of the cells of a map so far.

/// A move by which a cell was left: `number` of `agent`, from 1 on. There may be one for each cell of a map, so it is
/// small.
#[derive(Clone, Copy)]
struct Leaving {
    agent: u16,
    number: u16,
}

impl Leaving {
    /// To wait for this move.
    fn as_await(self) -> Await
        ensures { result ≡ await_for self }
    {
        Await {
            agent: self.agent,
            count: u32::from(self.number),
        }
    }
}

/// The entering of the cell at a place by an agent, in this direction.
#[derive(Clone, Copy)]
struct Entry {
    place: usize,
    agent: u16,
    dir: Dir,
}

/// For each place of a map the leavings that an action that enters it would await. It takes memory for the parts of the
/// map alone in which a cell was left.
#[derive(Drop)]
enum Leavings {
    /// The last leaving by each agent that has left the cell.
    All(Lists<Await>),
    /// The last leaving by whichever agent.
    Last(Table<Option<Leaving>>),
}

impl Leavings {
    /// No cell has been left.
    fn none(alloc: Global, deps: Deps) -> Leavings
        ensures kind { kind_of result ≡ deps }
        ensures rows { (place : ℕ) → row_of result place ≡ [] }
    {
        match deps {
            Deps::All => Leavings::All(Lists::new(alloc)),
            Deps::Last => Leavings::Last(Table::new(alloc, None)),
        }
    }

    /// Notes a leaving of the cell at `place`.
    fn note(&mut self, place: usize, leaving: Leaving) -> Result<(), OutOfMemory>
        ensures kind { OnOk result (kind_of self.new ≡ kind_of self.old) }
        ensures here { OnOk result (row_of self.new place
            ≡ leavings_after (kind_of self.old) (row_of self.old place) (await_for leaving)) }
        ensures others { OnOk result ((k : ℕ) → k ≢ place → row_of self.new k ≡ row_of self.old k) }
    {
        match self {
            Leavings::All(rows) => note_in(rows, place, leaving.as_await()),
            Leavings::Last(last) => {
                last.set(place, Some(leaving))?;
                Ok(())
            }
        }
    }

    /// Adds the action by which an agent enters a cell, with what it awaits, to its actions.
    fn add_action(
        &self,
        entry: Entry,
        version: Version,
        actions: &mut ActionBytes,
    ) -> Result<(), OutOfMemory>
        requires { All (λ w. w.count ≤ most_count version)
            (filter (λ w. not (w.agent == entry.agent)) (row_of self.now entry.place)) }
        ensures { OnOk result ((before : List Action) → actions.old ≡ written version before
            → actions.new ≡ written version (before ++ record {
              step = Go entry.dir;
              awaits = filter (λ w. not (w.agent == entry.agent)) (row_of self.now entry.place);
            } ∷ [])) }
    {
        let Entry { place, agent, dir } = entry;
        let step = Step::Go(dir);
        match self {
            Leavings::All(rows) => {
                let row = rows.list(Key::of_number(place));
                actions.push_awaiting_others(version, row, agent, step)?;
            }
            Leavings::Last(last) => match by_another(last.get(place), agent) {
                Some(leaving) => actions.push_awaiting(version, leaving.as_await(), step)?,
                None => actions.push_free(step)?,
            },
        }
        Ok(())
    }
}

/// Notes a leaving of the cell at `place` in the row of that.
#[inline(never)]
fn note_in(rows: &mut Lists<Await>, place: usize, leaving: Await) -> Result<(), OutOfMemory>
    ensures here { OnOk result (list_at rows.new (key_of_number place)
        ≡ with_leaving (list_at rows.old (key_of_number place)) leaving) }
    ensures others { OnOk result ((k : ℕ) → k ≢ place
        → list_at rows.new (key_of_number k) ≡ list_at rows.old (key_of_number k)) }
{
    rows.change(Key::of_number(place), |row| note(row, leaving))??;
    Ok(())
}

/// The leaving, unless it is by agent `own`.
fn by_another(leaving: Option<Leaving>, own: u16) -> Option<Leaving>
    ensures { option_to_list (option_map await_for result)
        ≡ filter (λ w. not (w.agent == own)) (option_to_list (option_map await_for leaving)) }
{
    match leaving {
        Some(last) if last.agent != own => leaving,
        _ => None,
    }
}

// The leavings of one cell of the map: the last one by each agent that has left it, in rising order of agent.

/// Notes a leaving in the row, in place of an earlier one by the same agent.
fn note(row: &mut Vec<Await>, leaving: Await) -> Result<(), AllocError>
    ensures { OnOk result (row.new.items ≡ with_leaving row.old.items leaving) }
{
    let place = position_from(row, leaving.agent).unwrap_or(row.len());
    let is_within = place < row.len();
    if is_within && row[place].agent == leaving.agent {
        row[place] = leaving;
    } else {
        row.insert(place, leaving)?;
    }
    Ok(())
}

/// The place of the first leaving by this agent or a later one.
fn position_from(row: &[Await], agent: u16) -> Option<usize>
    ensures { result ≡ position (λ w. nat_le agent w.agent) row.now }
{
    row.iter().position(|leaving| leaving.agent >= agent)
}
