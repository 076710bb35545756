//! How far the goals of the agents are, for each agent alone on the map.

ghost use Rattle.std.specs.Prelude.{◌≡◌, ◌≤◌, [], IfOk, IfErr};
ghost use Rattle.fleet_model.specs.declared.limits.TheConstants.{MAX_HORIZON};
ghost use Rattle.fleet_grid.specs.Ground.{is_passable};
ghost use Rattle.fleet_search.specs.Earliest.{IsInfeasible};
ghost use Rattle.fleet_search.specs.Bound.{IsDistance, IsBound};

use crate::distances::Distances;
use crate::earliest_path::earliest_over;
use crate::fault::SearchFault;
use crate::frontier::Frontier;
use crate::reservations::Reservations;
use fleet_model::{Cell, MAX_HORIZON, OutOfMemory};
use fleet_plan::Checked;
use std::alloc::Global;

/// The tables of searches of agents that are alone on the map.
#[derive(Drop)]
struct Alone<'g> {
    nobody: Reservations,
    distances: Distances<'g>,
    frontier: Frontier,
}

/// The distance from the start to the goal, if it is not beyond the greatest horizon.
#[tactic(auto, using(crate::proofs::AloneLaws::distance_is))]
fn distance(tables: &mut Alone<'_>, start: Cell, goal: Cell) -> Result<u32, SearchFault>
    requires nobody { tables.old.nobody ≡ [] }
    ensures nobody { tables.new.nobody ≡ [] }
    ensures grid { tables.new.distances.grid ≡ tables.old.distances.grid }
    ensures ok { IfOk result (IsDistance (is_passable tables.old.distances.grid) start goal) }
    ensures limit { IfOk result (λ n. n ≤ MAX_HORIZON) }
    ensures no_path { IfErr result (λ e. e ≡ SearchFault.NoPath
        → IsInfeasible (is_passable tables.old.distances.grid) [] start goal MAX_HORIZON) }
{
    let path = earliest_over(
        &tables.nobody,
        &mut tables.distances,
        &mut tables.frontier,
        start,
        goal,
        MAX_HORIZON as u16,
    )?;
    Ok(path.steps())
}

/// The sum of the distances from the agents' starts to their goals. The tables are those of agents alone on the map.
#[tactic(auto, using(crate::proofs::AloneLaws::bound_none))]
fn sum_of_distances(tables: &mut Alone<'_>, checked: &Checked<'_>) -> Result<u32, OutOfMemory>
    requires nobody { tables.old.nobody ≡ [] }
    requires grid { tables.old.distances.grid ≡ checked.now.grid }
    ensures { IfOk result (IsBound (is_passable checked.now.grid) checked.now.instance) }
{
    let instance = checked.instance();
    // The plan that is read shows that its paths are not too long.
    let _plan = checked.plan();
    let mut sum = 0;
    for agent in 0..instance.agents() {
        match distance(tables, instance.start(agent), instance.goal(agent)) {
            Ok(moves) => sum += moves,
            Err(SearchFault::OutOfMemory) => return Err(OutOfMemory),
            // The path of the plan leads there.
            Err(SearchFault::NoPath) => unreachable!(),
        }
    }
    Ok(sum)
}

/// The sum of the distances from the agents' starts to their goals, each alone on the map, in steps. It takes the time
/// of a search for each agent, and fails only if memory is refused.
pub fn bound(alloc: Global, checked: &Checked<'_>) -> Result<u32, OutOfMemory>
    ensures { IfOk result (IsBound (is_passable checked.now.grid) checked.now.instance) }
{
    let distances = Distances::new(alloc, checked.grid())?;
    let mut tables = Alone {
        nobody: Reservations::new(alloc),
        distances,
        frontier: Frontier::new(alloc),
    };
    sum_of_distances(&mut tables, checked)
}
