//! What it means that a plan is free of conflict, or that a fault is its first.

ghost use Rattle.std.specs.Prelude.{◌≡◌, Bool, List, ◌⊎◌};
ghost use Rattle.fleet_model.specs.declared.geometry.Place.{Place};
ghost use Rattle.fleet_model.specs.declared.task.Task.{Task};
ghost use Rattle.fleet_plan.specs.declared.plan_fault.PlanFault.{PlanFault};
ghost use Rattle.fleet_plan.specs.Plan.{Plan, IsWithinLimits, IsConflictFree};
ghost use Rattle.fleet_plan.specs.FirstFault.{IsFirstPlanFault};

use fleet_grid::cells_have_places_of_their_own;

/// A plan is free of conflict or has a first fault, never both, and it has one first fault at most.
pub fn a_plan_is_free_or_has_a_first_fault()
    ensures either { (passable : Place → Bool) (tasks : List Task) (plan : Plan)
        → IsWithinLimits plan
        → IsConflictFree passable tasks plan
        ⊎ ((f : PlanFault) × IsFirstPlanFault passable tasks plan f) }
    ensures not_both { (passable : Place → Bool) (tasks : List Task) (plan : Plan) (f : PlanFault)
        → IsFirstPlanFault passable tasks plan f → IsConflictFree passable tasks plan → ⊥ }
    ensures one { (passable : Place → Bool) (tasks : List Task) (plan : Plan) (e f : PlanFault)
        → IsFirstPlanFault passable tasks plan e → IsFirstPlanFault passable tasks plan f
        → e ≡ f }
{
    // A law of the map, by which the proof numbers cells.
    cells_have_places_of_their_own();
}
