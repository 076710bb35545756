//! Laws of paths past reserved ones, and of plans made of earliest paths. These functions do nothing: their contracts
//! are the laws.

ghost use Rattle.std.specs.Prelude.{◌↔◌, ℕ, Bool, List, length};
ghost use Rattle.fleet_model.specs.declared.geometry.Cell.{Cell};
ghost use Rattle.fleet_model.specs.declared.geometry.Place.{Place};
ghost use Rattle.fleet_model.specs.declared.task.Task.{Task};
ghost use Rattle.fleet_plan.specs.Plan.{Plan, IsConflictFree};
ghost use Rattle.fleet_search.specs.InTurn.{IsPrioritisedPlan, HasNoPathFor};
ghost use Rattle.fleet_search.specs.Orders.{IsMadeInTries, IsStuckInTries};
ghost use Rattle.fleet_search.specs.Way.{Fits, FitTogether, AreConflictFree, EachStepFits};

/// A path fits the reserved ones exactly if nobody stands on its first cell at time 0, and each of its steps fits.
pub fn fits_by_steps()
    ensures { (reserved : Plan) (path : List Cell)
        → Fits reserved path ↔ EachStepFits reserved path }
{}

/// Paths that each fit those before them are free of conflict.
pub fn paths_that_fit_are_conflict_free()
    ensures { (plan : Plan) → FitTogether plan → AreConflictFree plan }
{}

/// A plan that is made agent by agent is free of conflict.
pub fn prioritised_plans_are_conflict_free()
    ensures { (passable : Place → Bool) (tasks : List Task) (horizon : ℕ) (plan : Plan)
        → IsPrioritisedPlan passable tasks horizon (length tasks) plan
        → IsConflictFree passable tasks plan }
{}

/// If one order alone is tried, it is that of the agents' numbers.
pub fn one_try_takes_the_first_order()
    ensures made { (passable : Place → Bool) (tasks : List Task) (horizon : ℕ) (plan : Plan)
        → IsMadeInTries passable tasks horizon 1 plan
        → IsPrioritisedPlan passable tasks horizon (length tasks) plan }
    ensures stuck { (passable : Place → Bool) (tasks : List Task) (horizon agent : ℕ)
        → IsStuckInTries passable tasks horizon 1 agent
        → HasNoPathFor passable tasks horizon agent }
{}
