//! By what plans are compared, and the best of the plans of many orders.

ghost use Rattle.std.specs.Prelude.{◌≡◌, ◌-◌, ◌<◌, ◌≤◌, ℕ, true, length, IfOk, IfErr, OnOk, IfSome, IfNone};
ghost use Rattle.fleet_plan.specs.Plan.{IsConflictFree};
ghost use Rattle.fleet_grid.specs.Ground.{is_passable};
ghost use Rattle.fleet_search.specs.Orders.{IsStuckInTries};
ghost use Rattle.fleet_search.specs.Attempts.{AreTables, AreReservedInOrder, IsMadeBefore, IsTurn, IsFirstTurn, IsFor};
ghost use Rattle.fleet_search.specs.Best.{IsBestInTries};
ghost use Rattle.fleet_search.specs.Trying.{IsTriedInTurn};
ghost use Rattle.fleet_plan.specs.Numbers.{sum_of_costs};

use crate::fault::PlanStop;
use crate::orders::{
    Attempt, Problem, Tables, Turn, advance, checked_of, first_turn, is_last_try, note_stuck,
    plan_in_order,
};
use crate::reservations::copy_path;
use fleet_grid::Grid;
use fleet_model::OutOfMemory;
use fleet_plan::{Checked, Path};
use fleet_scen::Instance;
use std::alloc::Global;

/// A plan that is free of conflict, and its measure.
#[derive(Drop)]
pub struct Measured<'g> {
    pub checked: Checked<'g>,
    pub measure: u32,
}

/// What came of an order: a plan with its measure, or the place of the agent that was left without a path.
#[derive(Drop)]
enum Tried<'g> {
    Planned(Measured<'g>),
    NoPathAt(usize),
}

/// The same paths.
fn copy_paths(alloc: Global, paths: &[Path]) -> Result<Vec<Path>, OutOfMemory>
    ensures { IfOk result (λ copy. copy.items ≡ paths.now) }
{
    let mut copy = Vec::new(alloc);
    for path in paths {
        copy.push(copy_path(alloc, path)?)?;
    }
    Ok(copy)
}

/// All paths of an order but the last.
fn all_but_last(
    problem: &Problem<'_>,
    order: &[u16],
    paths: &[Path],
) -> Result<Vec<Path>, OutOfMemory>
    requires some { 1 ≤ length order.now }
    requires paths { AreReservedInOrder problem.now order.now paths.now true }
    ensures { IfOk result
        (λ kept. IsMadeBefore problem.now order.now (length order.now - 1) kept.items) }
{
    copy_paths(problem.alloc, &paths[..paths.len() - 1])
}

/// Measures the plan of the paths of the turn's order; the next order is that in which the last agent comes first.
fn note_made<'g, M: Measure>(
    problem: &Problem<'g>,
    measure: &M,
    turn: &mut Turn,
    paths: Vec<Path>,
) -> Result<Measured<'g>, OutOfMemory>
    requires turn { IsTurn problem.now turn.old }
    requires paths { AreReservedInOrder problem.now turn.old.order.items paths.items true }
    ensures tried { IfOk result (λ m. IsTriedInTurn problem.now (M.is_measure measure.now)
        turn.old turn.new (Tried.Planned m)) }
    ensures kept { OnOk result
        (length turn.new.kept.items ≡ length turn.old.order.items - 1) }
{
    let last = turn.order.len() - 1;
    let kept = all_but_last(problem, turn.order.as_slice(), paths.as_slice())?;
    let checked = checked_of(problem, turn.order.as_slice(), paths)?;
    advance(problem, turn, last, kept)?;
    let measure = measure.measure(&checked)?;
    Ok(Measured { checked, measure })
}

/// Plans in the order of the turn. Then it is the next order's turn.
fn try_order<'g, M: Measure>(
    problem: &Problem<'g>,
    measure: &M,
    turn: &mut Turn,
    tables: &mut Tables<'_>,
) -> Result<Tried<'g>, OutOfMemory>
    requires turn { IsTurn problem.now turn.old }
    requires tables { AreTables problem.now tables.old }
    ensures tables { OnOk result (AreTables problem.now tables.new) }
    ensures tried { IfOk result
        (IsTriedInTurn problem.now (M.is_measure measure.now) turn.old turn.new) }
{
    match plan_in_order(problem, turn, tables)? {
        Attempt::Made(paths) => {
            let measured = note_made(problem, measure, turn, paths)?;
            Ok(Tried::Planned(measured))
        }
        Attempt::Stuck(paths) => {
            let place = note_stuck(problem, turn, paths)?;
            Ok(Tried::NoPathAt(place))
        }
    }
}

/// The plan with the lesser measure, and of two that have the same the earlier one.
fn lesser<'g>(earlier: Option<Measured<'g>>, later: Measured<'g>) -> Measured<'g>
    ensures none { IfNone earlier.entry (result ≡ later.entry) }
    ensures earlier { IfSome earlier.entry
        (λ e. e.measure ≤ later.entry.measure → result ≡ e) }
    ensures later { IfSome earlier.entry
        (λ e. later.entry.measure < e.measure → result ≡ later.entry) }
{
    match earlier {
        Some(best) if best.measure <= later.measure => best,
        _ => later,
    }
}

/// The best plan of the first orders, from the first turn on.
#[tactic(auto, using(crate::proofs::BestLaws::so_far_none))]
fn best_from<'g, M: Measure>(
    problem: &Problem<'g>,
    tries: u32,
    measure: &M,
    turn: &mut Turn,
    tables: &mut Tables<'_>,
) -> Result<Measured<'g>, PlanStop>
    requires first { IsFirstTurn problem.now turn.old }
    requires tables { AreTables problem.now tables.old }
    ensures best { IfOk result (λ m. IsBestInTries (is_passable problem.now.grid.now)
        problem.now.instance.now problem.now.horizon (M.is_measure measure.now) tries
        m.checked.plan m.measure) }
    ensures right { IfOk result (λ m. IsFor problem.now m.checked) }
    ensures no_path { IfErr result (λ e. (agent : ℕ) → e ≡ PlanStop.NoPath agent
        → IsStuckInTries (is_passable problem.now.grid.now) problem.now.instance.now
        problem.now.horizon tries agent) }
{
    let mut best = None;
    for tried in 0..tries.max(1) {
        match try_order(problem, measure, turn, tables)? {
            Tried::Planned(measured) => best = Some(lesser(best, measured)),
            Tried::NoPathAt(place) => {
                if best.is_none() && is_last_try(place, tried, tries) {
                    let agent = turn.order[0];
                    return Err(PlanStop::NoPath { agent });
                }
            }
        }
    }
    match best {
        Some(measured) => Ok(measured),
        None => unreachable!(),
    }
}

/// Plans agent by agent in `tries` orders, all of which are tried, and answers the plan with the least measure, the
/// first of those that have it (each order as Silver 2005; several orders as Bennewitz et al. 2002). The first order is
/// that of the agents' numbers; after an order in which an agent is left without a path that agent is planned first,
/// after one that makes a plan the agent that was planned last, and the others after it as before. One order is tried
/// in any case.
///
/// Errors: `NoPath` if no order makes a plan, with the first agent that is left without a path in the last of them;
/// `OutOfMemory`.
pub fn best_in_orders<'g, M: Measure>(
    alloc: Global,
    grid: &'g Grid,
    instance: &'g Instance,
    horizon: u16,
    tries: u32,
    measure: &M,
) -> Result<Measured<'g>, PlanStop>
    ensures best { IfOk result (λ m. IsBestInTries (is_passable grid.now) instance.now horizon
        (M.is_measure measure.now) tries m.checked.plan m.measure) }
    ensures free { IfOk result (λ m.
        IsConflictFree (is_passable grid.now) instance.now m.checked.plan) }
    ensures grid { IfOk result (λ m. m.checked.grid ≡ grid.now) }
    ensures instance { IfOk result (λ m. m.checked.instance ≡ instance.now) }
    ensures no_path { IfErr result (λ e. (agent : ℕ) → e ≡ PlanStop.NoPath agent
        → IsStuckInTries (is_passable grid.now) instance.now horizon tries agent) }
{
    let problem = Problem {
        alloc,
        grid,
        instance,
        horizon,
    };
    let mut turn = first_turn(&problem)?;
    let mut tables = Tables::new(&problem)?;
    best_from(&problem, tries, measure, &mut turn, &mut tables)
}

/// A number of a plan, by which the best of several is chosen: the less the better.
pub trait Measure {
    ghost use Rattle.std.specs.Prelude.{ℕ, List, IfOk};
    ghost use Rattle.fleet_model.specs.declared.geometry.Cell.{Cell};

    /// The number is the measure of the plan.
    ghost is_measure: { Self → List (List Cell) → ℕ → Type 0 };

    /// The measure of a plan.
    fn measure(&self, checked: &Checked<'_>) -> Result<u32, OutOfMemory>
        ensures { IfOk result (is_measure self.now checked.now.plan) };
}

/// The sum of costs of a plan (Stern et al. 2019), in steps.
#[derive(Clone, Copy, Debug)]
pub struct SumOfCosts;

impl Measure for SumOfCosts {
    ghost is_measure = { λ _ plan n. n ≡ sum_of_costs plan };

    fn measure(&self, checked: &Checked<'_>) -> Result<u32, OutOfMemory> {
        Ok(checked.plan().sum_of_costs())
    }
}
