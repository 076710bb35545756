//! Plans that were judged: those free of conflict, whether agents follow one another in them, and the first fault of
//! the others.

ghost use Rattle.std.specs.Prelude.{◌≡◌, ◌≢◌, ◌↔◌, IsTrue, IfOk, IfErr, IfSome, IfNone, length, EachIndex};
ghost use Rattle.fleet_grid.specs.Ground.{is_passable};
ghost use Rattle.fleet_plan.specs.Plan.{IsConflictFree};
ghost use Rattle.fleet_plan.specs.FirstFault.{IsFirstPlanFault, StartsOnStart, EndsOnGoal, IsFirstFaultyAgent};
ghost use Rattle.fleet_plan.specs.Checked.{IsCheckedFor};
ghost use Rattle.fleet_plan.specs.Apart.{IsApart};

use crate::plan::{Plan, first_wrong_step};
use crate::plan_fault::{PlanFault, PlanRefusal};
use crate::sweep::{first_conflict, nobody_follows};
use fleet_grid::Grid;
use fleet_model::OutOfMemory;
use fleet_scen::Instance;
use std::alloc::Global;
use std::marker::Model;

/// Judges a plan for a map and an instance. A plan that is free of conflict (Stern et al. 2019) becomes a `Checked`;
/// each other one is refused with its first fault, and handed back. `OutOfMemory` may stand in place of any answer.
///
/// It takes time in proportion to the cells of the plan, and memory for the agents and for the parts of the map on
/// which they stand.
pub fn check<'g>(
    alloc: Global,
    plan: Plan,
    grid: &'g Grid,
    instance: &'g Instance,
) -> Result<Checked<'g>, PlanRefusal>
    ensures checked { IfOk result (λ checked. checked
        ≡ record { plan = plan; grid = grid.now; instance = instance.now }) }
    ensures right { IfOk result (λ checked. IsConflictFree
        (is_passable grid.now) instance.now plan) }
    ensures fault { IfErr result (λ refusal. refusal.fault ≢ PlanFault.OutOfMemory
        → IsFirstPlanFault (is_passable grid.now) instance.now plan refusal.fault) }
    ensures wrong { IfErr result (λ refusal. refusal.fault ≢ PlanFault.OutOfMemory
        → IsConflictFree (is_passable grid.now) instance.now plan → ⊥) }
    ensures handed_back { IfErr result (λ refusal. refusal.plan ≡ plan) }
{
    match first_fault(alloc, &plan, grid, instance) {
        Ok(()) => Ok(Checked::new(plan, grid, instance)),
        Err(fault) => Err(PlanRefusal { fault, plan }),
    }
}

/// Whether a plan is apart: no agent follows another (Stern et al. 2019), so none enters a cell in the step in which
/// another leaves it.
///
/// It takes time and memory as `check` does, and fails only if memory is refused.
pub fn is_apart(alloc: Global, checked: &Checked<'_>) -> Result<bool, OutOfMemory>
    ensures { IfOk result (λ apart. IsTrue apart ↔ IsApart checked.now.plan) }
{
    let (plan, grid) = (checked.plan(), checked.grid());
    // What is asked of a map gives its sizes.
    let _width = grid.width();
    let apart = nobody_follows(alloc, plan, grid)?;
    Ok(apart)
}

/// The first fault of a plan.
fn first_fault(
    alloc: Global,
    plan: &Plan,
    grid: &Grid,
    instance: &Instance,
) -> Result<(), PlanFault>
    ensures right { IfOk result (λ _. IsConflictFree (is_passable grid.now) instance.now plan.now) }
    ensures fault { IfErr result (λ fault. fault ≢ PlanFault.OutOfMemory
        → IsFirstPlanFault (is_passable grid.now) instance.now plan.now fault) }
{
    let is_other_fleet = plan.agents() != instance.agents();
    if is_other_fleet {
        return Err(PlanFault::Agents);
    }
    if let Some(agent) = first_wrong_start(plan, instance) {
        return Err(PlanFault::Start { agent });
    }
    if let Some(agent) = first_wrong_goal(plan, instance) {
        return Err(PlanFault::Goal { agent });
    }
    if let Some((agent, time)) = first_wrong_step(plan, grid) {
        return Err(PlanFault::Step { agent, time });
    }
    match first_conflict(alloc, plan, grid)? {
        Some(conflict) => Err(PlanFault::Conflict(conflict)),
        None => Ok(()),
    }
}

/// A plan that is free of conflict (Stern et al. 2019) for a map and an instance: each agent goes from its start to its
/// goal over passable cells, and there is no vertex, swapping or cycle conflict. Only `check` makes one.
///
/// No method takes memory.
#[derive(Drop)]
pub struct Checked<'g> {
    plan: Plan,
    grid: &'g Grid,
    instance: &'g Instance,
}

impl<'g> Model for Checked<'g> {
    ghost use Rattle.fleet_plan.specs.Checked.{CheckedParts, IsCheckedFor};

    ghost Value = { CheckedParts };

    ghost view = { λ c. record { plan = c.plan; grid = c.grid.now; instance = c.instance.now } };

    ghost invariant = { λ c. IsCheckedFor c.grid.now c.instance.now c.plan };
}

impl<'g> Checked<'g> {
    /// The plan, which is free of conflict for the map and the instance.
    fn new(plan: Plan, grid: &'g Grid, instance: &'g Instance) -> Self
        requires { IsCheckedFor grid.now instance.now plan }
        ensures plan { result.plan ≡ plan }
        ensures grid { result.grid ≡ grid.now }
        ensures instance { result.instance ≡ instance.now }
    {
        Checked {
            plan,
            grid,
            instance,
        }
    }

    /// The plan.
    pub fn plan(&self) -> &Plan
        ensures value { result.now ≡ self.now.plan }
        ensures checked { IsCheckedFor self.now.grid self.now.instance self.now.plan }
    {
        &self.plan
    }

    /// The map that the plan was checked for.
    pub fn grid(&self) -> &'g Grid
        ensures { result.now ≡ self.now.grid }
    {
        self.grid
    }

    /// The instance that the plan was checked for.
    pub fn instance(&self) -> &'g Instance
        ensures { result.now ≡ self.now.instance }
    {
        self.instance
    }
}

/// The least agent that does not begin on its start.
fn first_wrong_start(plan: &Plan, instance: &Instance) -> Option<u16>
    requires { length plan.now ≡ length instance.now }
    ensures some { IfSome result (IsFirstFaultyAgent plan.now
        (StartsOnStart instance.now plan.now)) }
    ensures none { IfNone result (EachIndex plan.now (StartsOnStart instance.now plan.now)) }
{
    for i in 0..plan.agents() {
        if plan.cell(i, 0) != instance.start(i) {
            return Some(i);
        }
    }
    None
}

/// The least agent that does not end on its goal.
fn first_wrong_goal(plan: &Plan, instance: &Instance) -> Option<u16>
    requires { length plan.now ≡ length instance.now }
    ensures some { IfSome result (IsFirstFaultyAgent plan.now (EndsOnGoal instance.now plan.now)) }
    ensures none { IfNone result (EachIndex plan.now (EndsOnGoal instance.now plan.now)) }
{
    for i in 0..plan.agents() {
        if plan.last_cell(i) != instance.goal(i) {
            return Some(i);
        }
    }
    None
}
