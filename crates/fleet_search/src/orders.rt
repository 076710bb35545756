//! Plans made agent by agent, in the order of their numbers, or in several orders: an agent that is left without a path
//! comes first in the next one.

ghost use Rattle.std.specs.Prelude.{◌≡◌, ◌+◌, ◌<◌, ◌≤◌, ◌↔◌, ◌⊎◌, ◌++◌, ◌∷◌, ℕ, [], true, false, length, get_or, max, IfOk, IfErr, OnOk, IsTrue};
ghost use Rattle.fleet_plan.specs.Plan.{IsConflictFree};
ghost use Rattle.fleet_grid.specs.Ground.{is_passable};
ghost use Rattle.fleet_search.specs.Way.{Fits};
ghost use Rattle.fleet_search.specs.Orders.{to_front, IsMadeInOrder, IsStuckInOrder, IsMadeInTries, IsMadeInTry, IsStuckInTries};
ghost use Rattle.fleet_search.specs.Attempts.{AreTables, ArePathsKept, HasAddedPath, IsMadeBefore, IsOrderOf, IsTurn, IsTurnOf, IsFirstTurn, IsNextTurn, AreByNumber, IsFor, AreReservedInOrder, IsAttempt, IsOldPath};
ghost use Rattle.fleet_search.specs.InTurn.{IsPrioritisedPlan, HasNoPathFor};

use crate::distances::Distances;
use crate::earliest_path::earliest_over;
use crate::fault::{PlanStop, SearchFault};
use crate::frontier::Frontier;
use crate::reservations::Reservations;
use fleet_grid::Grid;
use fleet_model::{Cell, OutOfMemory, agent_numbers};
use fleet_plan::{Checked, Path, Plan, PlanFault, check};
use fleet_scen::Instance;
use std::alloc::Global;

/// The problem: a path for each agent of the instance on the map, which arrives by the horizon, a time in steps.
#[derive(Drop)]
pub(crate) struct Problem<'a> {
    pub alloc: Global,
    pub grid: &'a Grid,
    pub instance: &'a Instance,
    pub horizon: u16,
}

/// The tables of a search, which one search after another uses.
#[derive(Drop)]
pub(crate) struct Tables<'g> {
    pub distances: Distances<'g>,
    pub frontier: Frontier,
}

/// The order that is tried next, and paths of its agents after the first, each the earliest past those before it
/// without the first.
#[derive(Drop)]
pub(crate) struct Turn {
    pub order: Vec<u16>,
    pub kept: Vec<Path>,
}

impl<'g> Tables<'g> {
    /// Tables for the map of the problem, before any search.
    pub(crate) fn new(problem: &Problem<'g>) -> Result<Tables<'g>, OutOfMemory>
        ensures { IfOk result (AreTables problem.now) }
    {
        Ok(Tables {
            distances: Distances::new(problem.alloc, problem.grid)?,
            frontier: Frontier::new(problem.alloc),
        })
    }
}

/// A plan that is free of conflict, and how many orders were tried for it.
#[derive(Drop)]
pub struct Found<'g> {
    pub checked: Checked<'g>,
    pub tried: u32,
}

/// The outcome of an order: a path for each agent, as they stand in the order; or, if an agent is left without one, the
/// paths of those before it.
#[derive(Drop)]
pub(crate) enum Attempt {
    Made(Vec<Path>),
    Stuck(Vec<Path>),
}

/// Reserves the earliest path of the agent past the reserved ones, if one arrives by the horizon. Answers whether one
/// does.
fn add_path(
    problem: &Problem<'_>,
    agent: u16,
    horizon: u16,
    reserved: &mut Reservations,
    tables: &mut Tables<'_>,
) -> Result<bool, OutOfMemory>
    requires agent { agent < length problem.now.instance.now }
    requires tables { AreTables problem.now tables.old }
    ensures { IfOk result
        (HasAddedPath problem.now agent horizon reserved.old reserved.new tables.new) }
{
    match earliest_over(
        reserved,
        &mut tables.distances,
        &mut tables.frontier,
        problem.instance.start(agent),
        problem.instance.goal(agent),
        horizon,
    ) {
        Ok(path) => reserve_found(reserved, path),
        Err(SearchFault::NoPath) => Ok(false),
        Err(SearchFault::OutOfMemory) => Err(OutOfMemory),
    }
}

/// Reserves a path that was found.
fn reserve_found(reserved: &mut Reservations, path: Path) -> Result<bool, OutOfMemory>
    requires { Fits reserved.old path }
    ensures { IfOk result (λ found. (found ≡ true) × (reserved.new ≡ reserved.old ++ path ∷ [])) }
{
    reserved.reserve(&path)?;
    Ok(true)
}

/// Reserves the agent's earliest path past the reserved ones: `old`, which was the earliest past others and fits,
/// unless another arrives sooner. Only such a path is searched for.
fn renew_path(
    problem: &Problem<'_>,
    agent: u16,
    old: &Path,
    reserved: &mut Reservations,
    tables: &mut Tables<'_>,
) -> Result<(), OutOfMemory>
    requires agent { agent < length problem.now.instance.now }
    requires old { IsOldPath problem.now agent old.now }
    requires fits { Fits reserved.old old.now }
    requires tables { AreTables problem.now tables.old }
    ensures { OnOk result (HasAddedPath problem.now agent problem.now.horizon
        reserved.old reserved.new tables.new true) }
{
    let steps = old.steps();
    let has_steps = steps > 0;
    if has_steps {
        if add_path(problem, agent, (steps - 1) as u16, reserved, tables)? {
            return Ok(());
        }
    }
    reserved.reserve(old)
}

/// The same as `add_path`, for an agent that may have had a path past others: the one at this place of `olds`.
fn add_path_again(
    problem: &Problem<'_>,
    agent: u16,
    olds: &[Path],
    number: usize,
    reserved: &mut Reservations,
    tables: &mut Tables<'_>,
) -> Result<bool, OutOfMemory>
    requires agent { agent < length problem.now.instance.now }
    requires old { number < length olds.now
        → IsOldPath problem.now agent (get_or olds.now number []) }
    requires tables { AreTables problem.now tables.old }
    ensures { IfOk result (HasAddedPath problem.now agent problem.now.horizon
        reserved.old reserved.new tables.new) }
{
    if number < olds.len() {
        let old = &olds[number];
        if reserved.fits(old) {
            renew_path(problem, agent, old, reserved, tables)?;
            return Ok(true);
        }
    }
    add_path(problem, agent, problem.horizon, reserved, tables)
}

/// Reserves the paths one after another, up to the first that does not fit, and answers how many.
fn keep_paths(reserved: &mut Reservations, paths: &[Path]) -> Result<usize, OutOfMemory>
    ensures { IfOk result (ArePathsKept reserved.old reserved.new paths.now) }
{
    for (kept, path) in paths.iter().enumerate() {
        if !reserved.fits(path) {
            return Ok(kept);
        }
        reserved.reserve(path)?;
    }
    Ok(paths.len())
}

/// Plans in the order of the turn, each path the earliest past those of the agents before. The paths that are kept were
/// made without the first agent: up to the first that does not fit beside its path they are still the earliest. Of the
/// others, one that fits gives way only to a path that arrives sooner.
pub(crate) fn plan_in_order(
    problem: &Problem<'_>,
    turn: &Turn,
    tables: &mut Tables<'_>,
) -> Result<Attempt, OutOfMemory>
    requires turn { IsTurn problem.now turn.now }
    requires tables { AreTables problem.now tables.old }
    ensures tables { OnOk result (AreTables problem.now tables.new) }
    ensures attempt { IfOk result (IsAttempt problem.now turn.now.order.items) }
{
    let mut reserved = Reservations::new(problem.alloc);
    let all = reserve_in_order(problem, &turn.order, &turn.kept, &mut reserved, tables)?;
    let paths = reserved.into_paths();
    Ok(if all {
        Attempt::Made(paths)
    } else {
        Attempt::Stuck(paths)
    })
}

/// Reserves these paths, if none is reserved yet: all, or those before the first agent that is left without one.
/// Answers whether each agent has a path.
fn reserve_in_order(
    problem: &Problem<'_>,
    order: &[u16],
    kept: &[Path],
    reserved: &mut Reservations,
    tables: &mut Tables<'_>,
) -> Result<bool, OutOfMemory>
    requires turn { IsTurnOf problem.now order.now kept.now }
    requires none { reserved.old ≡ [] }
    requires tables { AreTables problem.now tables.old }
    ensures tables { OnOk result (AreTables problem.now tables.new) }
    ensures attempt { IfOk result (AreReservedInOrder problem.now order.now reserved.new) }
{
    if !add_path(problem, order[0], problem.horizon, reserved, tables)? {
        return Ok(false);
    }
    let first = keep_paths(reserved, kept)? + 1;
    for place in first..order.len() {
        let number = order[place];
        if !add_path_again(problem, number, kept, place - 1, reserved, tables)? {
            return Ok(false);
        }
    }
    Ok(true)
}

/// The first turn: the agents in the order of their numbers, and no paths.
pub(crate) fn first_turn(problem: &Problem<'_>) -> Result<Turn, OutOfMemory>
    ensures { IfOk result (IsFirstTurn problem.now) }
{
    let order = agent_numbers(problem.alloc, problem.instance.agents())?;
    let kept = Vec::new(problem.alloc);
    Ok(Turn { order, kept })
}

/// Moves the agent at the place to the front; the others follow as they did.
fn raise(order: &mut Vec<u16>, place: usize) -> Result<(), OutOfMemory>
    requires { place < length order.old.items }
    ensures { OnOk result (order.new.items ≡ to_front order.old.items place) }
{
    let agent = order.remove(place);
    order.insert(0, agent)?;
    Ok(())
}

/// It is the turn of the order in which the agent at this place comes first; the paths are those of the agents before
/// it.
pub(crate) fn advance(
    problem: &Problem<'_>,
    turn: &mut Turn,
    place: usize,
    kept: Vec<Path>,
) -> Result<(), OutOfMemory>
    requires turn { IsTurn problem.now turn.old }
    requires place { place < length turn.old.order.items }
    requires made { IsMadeBefore problem.now turn.old.order.items place kept.items }
    ensures { OnOk result (IsNextTurn problem.now turn.old place kept turn.new) }
{
    raise(&mut turn.order, place)?;
    turn.kept = kept;
    Ok(())
}

/// The next order is that in which the agent comes first that these paths, of the agents before it, leave none.
pub(crate) fn note_stuck(
    problem: &Problem<'_>,
    turn: &mut Turn,
    paths: Vec<Path>,
) -> Result<usize, OutOfMemory>
    requires turn { IsTurn problem.now turn.old }
    requires paths { AreReservedInOrder problem.now turn.old.order.items paths.items false }
    ensures stuck { IfOk result (λ place. IsStuckInOrder (is_passable problem.now.grid.now)
        problem.now.instance.now problem.now.horizon turn.old.order.items place) }
    ensures turn { IfOk result (λ place.
        IsNextTurn problem.now turn.old place paths turn.new) }
{
    let place = paths.len();
    advance(problem, turn, place, paths)?;
    Ok(place)
}

/// A path of one cell for each agent.
fn starts(problem: &Problem<'_>) -> Result<Vec<Path>, OutOfMemory>
    ensures { IfOk result (λ paths. length paths.items ≡ length problem.now.instance.now) }
{
    let mut paths = Vec::new(problem.alloc);
    for agent in 0..problem.instance.agents() {
        paths.push(one_cell(problem.alloc, problem.instance.start(agent))?)?;
    }
    Ok(paths)
}

/// A path of this cell alone.
fn one_cell(alloc: Global, cell: Cell) -> Result<Path, OutOfMemory> {
    let mut cells = Vec::new(alloc);
    cells.push(cell)?;
    Ok(Path::new(cells))
}

/// The paths of an order, as they stand in the order, by the agents' numbers.
fn by_number(
    problem: &Problem<'_>,
    order: &[u16],
    paths: Vec<Path>,
) -> Result<Vec<Path>, OutOfMemory>
    requires order { IsOrderOf problem.now order.now }
    requires paths { length paths.items ≡ length order.now }
    ensures { IfOk result
        (λ plan. AreByNumber problem.now order.now paths.items plan.items) }
{
    let mut plan = starts(problem)?;
    let mut left = paths;
    while let Some(path) = left.pop() {
        plan[usize::from(order[left.len()])] = path;
    }
    Ok(plan)
}

/// The first plan of the first orders, from the first turn on.
fn plan_from<'g>(
    problem: &Problem<'g>,
    tries: u32,
    turn: &mut Turn,
    tables: &mut Tables<'_>,
) -> Result<Found<'g>, PlanStop>
    requires first { IsFirstTurn problem.now turn.old }
    requires tables { AreTables problem.now tables.old }
    ensures made { IfOk result (λ f. IsMadeInTry (is_passable problem.now.grid.now)
        problem.now.instance.now problem.now.horizon tries f.tried f.checked.plan) }
    ensures right { IfOk result (λ f. IsFor problem.now f.checked) }
    ensures no_path { IfErr result (λ e. (agent : ℕ) → e ≡ PlanStop.NoPath agent
        → IsStuckInTries (is_passable problem.now.grid.now) problem.now.instance.now
        problem.now.horizon tries agent) }
{
    for failed in 0..tries.max(1) {
        match plan_in_order(problem, turn, tables)? {
            Attempt::Made(paths) => {
                let checked = checked_of(problem, turn.order.as_slice(), paths)?;
                let tried = failed + 1;
                return Ok(Found { checked, tried });
            }
            Attempt::Stuck(paths) => {
                let place = note_stuck(problem, turn, paths)?;
                if is_last_try(place, failed, tries) {
                    let agent = turn.order[0];
                    return Err(PlanStop::NoPath { agent });
                }
            }
        }
    }
    unreachable!()
}

/// Whether no try follows the one after so many failed ones, which left the agent at the place without a path: an agent
/// that is first already finds no path in any later try.
pub(crate) fn is_last_try(place: usize, failed: u32, tries: u32) -> bool
    requires { failed < max tries 1 }
    ensures { IsTrue result ↔ ((place ≡ 0) ⊎ (tries ≤ failed + 1)) }
{
    place == 0 || failed + 1 >= tries
}

/// The plan of the paths of an order.
fn plan_by_number(
    problem: &Problem<'_>,
    order: &[u16],
    paths: Vec<Path>,
) -> Result<Plan, OutOfMemory>
    requires order { IsOrderOf problem.now order.now }
    requires paths { length paths.items ≡ length order.now }
    ensures { IfOk result (AreByNumber problem.now order.now paths.items) }
{
    // An instance has 1 to 1,024 agents.
    let _agents = problem.instance.agents();
    Ok(Plan::new(by_number(problem, order, paths)?))
}

/// A plan that is free of conflict, as checked.
fn checked<'g>(problem: &Problem<'g>, plan: Plan) -> Result<Checked<'g>, OutOfMemory>
    requires { IsConflictFree (is_passable problem.now.grid.now) problem.now.instance.now plan }
    ensures plan { IfOk result (λ checked. checked.plan ≡ plan) }
    ensures right { IfOk result (IsFor problem.now) }
{
    match check(problem.alloc, plan, problem.grid, problem.instance) {
        Ok(checked) => Ok(checked),
        Err(refusal) => match refusal.fault {
            PlanFault::OutOfMemory => Err(OutOfMemory),
            // The plan is right and free of conflict.
            _ => unreachable!(),
        },
    }
}

/// The plan of the paths of an order, each the earliest past those before it: it is free of conflict.
pub(crate) fn checked_of<'g>(
    problem: &Problem<'g>,
    order: &[u16],
    paths: Vec<Path>,
) -> Result<Checked<'g>, OutOfMemory>
    requires order { IsOrderOf problem.now order.now }
    requires paths { AreReservedInOrder problem.now order.now paths.items true }
    ensures agents { IfOk result (λ checked.
        length checked.plan ≡ length problem.now.instance.now) }
    ensures made { IfOk result (λ checked. IsMadeInOrder (is_passable problem.now.grid.now)
        problem.now.instance.now problem.now.horizon order.now checked.plan) }
    ensures right { IfOk result (IsFor problem.now) }
{
    let plan = plan_by_number(problem, order, paths)?;
    checked(problem, plan)
}

/// Plans agent by agent in up to `tries` orders, and answers the first plan that is found and how many orders were
/// tried for it (each order as Silver 2005). The first order is that of the agents' numbers; after an order in which an
/// agent is left without a path that agent is planned first, and the others after it as before. In the order that made
/// the plan each path is earliest past those of the agents before it, and arrives by the horizon, a time in steps; the
/// plan has the agents by their numbers. One order is tried in any case.
///
/// Errors: `NoPath` with the first agent that is left without a path in the last of these orders; `OutOfMemory`.
pub fn first_in_orders<'g>(
    alloc: Global,
    grid: &'g Grid,
    instance: &'g Instance,
    horizon: u16,
    tries: u32,
) -> Result<Found<'g>, PlanStop>
    ensures made { IfOk result (λ f. IsMadeInTry (is_passable grid.now) instance.now horizon
        tries f.tried f.checked.plan) }
    ensures free { IfOk result (λ f.
        IsConflictFree (is_passable grid.now) instance.now f.checked.plan) }
    ensures grid { IfOk result (λ f. f.checked.grid ≡ grid.now) }
    ensures instance { IfOk result (λ f. f.checked.instance ≡ instance.now) }
    ensures no_path { IfErr result (λ e. (agent : ℕ) → e ≡ PlanStop.NoPath agent
        → IsStuckInTries (is_passable grid.now) instance.now horizon tries agent) }
{
    let problem = Problem {
        alloc,
        grid,
        instance,
        horizon,
    };
    let mut turn = first_turn(&problem)?;
    let mut tables = Tables::new(&problem)?;
    plan_from(&problem, tries, &mut turn, &mut tables)
}

/// Plans in up to `tries` orders as `first_in_orders` does, and answers the plan alone.
///
/// Errors: those of `first_in_orders`.
pub fn plan_in_orders<'g>(
    alloc: Global,
    grid: &'g Grid,
    instance: &'g Instance,
    horizon: u16,
    tries: u32,
) -> Result<Checked<'g>, PlanStop>
    ensures made { IfOk result (λ checked.
        IsMadeInTries (is_passable grid.now) instance.now horizon tries checked.plan) }
    ensures free { IfOk result (λ checked.
        IsConflictFree (is_passable grid.now) instance.now checked.plan) }
    ensures grid { IfOk result (λ checked. checked.grid ≡ grid.now) }
    ensures instance { IfOk result (λ checked. checked.instance ≡ instance.now) }
    ensures no_path { IfErr result (λ e. (agent : ℕ) → e ≡ PlanStop.NoPath agent
        → IsStuckInTries (is_passable grid.now) instance.now horizon tries agent) }
{
    let found = first_in_orders(alloc, grid, instance, horizon, tries)?;
    Ok(found.checked)
}

/// Plans the agents in the order of their numbers: each goes by a path that is earliest past those of the agents before
/// it (Silver 2005). The starts of later agents are not kept free for them, and another order of agents may find a plan
/// where this one finds none.
///
/// Errors: `NoPath` with the first agent that is left without a path that arrives by the horizon, a time in steps;
/// `OutOfMemory`.
pub fn plan<'g>(
    alloc: Global,
    grid: &'g Grid,
    instance: &'g Instance,
    horizon: u16,
) -> Result<Checked<'g>, PlanStop>
    ensures made { IfOk result (λ checked. IsPrioritisedPlan (is_passable grid.now) instance.now
        horizon (length instance.now) checked.plan) }
    ensures free { IfOk result (λ checked.
        IsConflictFree (is_passable grid.now) instance.now checked.plan) }
    ensures grid { IfOk result (λ checked. checked.grid ≡ grid.now) }
    ensures instance { IfOk result (λ checked. checked.instance ≡ instance.now) }
    ensures no_path { IfErr result (λ e. (agent : ℕ) → e ≡ PlanStop.NoPath agent
        → HasNoPathFor (is_passable grid.now) instance.now horizon agent) }
{
    plan_in_orders(alloc, grid, instance, horizon, 1)
}
