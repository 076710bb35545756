//! Small plans, worked out by hand. This function does nothing: its contract is the law.

ghost use Rattle.std.specs.Prelude.{true};
ghost use Rattle.fleet_plan.specs.Plan.{IsConflictFree};
ghost use Rattle.fleet_plan.specs.FirstFault.{IsFirstPlanFault};
ghost use Rattle.fleet_example.specs.Programs.{pair_tasks};
ghost use Rattle.fleet_example.specs.Plans.{base_plan, swap_plan, swap_tasks, swap_fault, ring_plan, ring_tasks, ring_fault};

/// A plan that is free of conflict, an exchange, whose first fault is that swap, and a ring, whose first fault is that
/// cycle.
#[tactic(auto, using(crate::proofs::FreePlans::base_is_free, crate::proofs::PlanFaults::swap_is_first, crate::proofs::PlanFaults::ring_is_first))]
pub fn worked_plans_are_judged()
    ensures base { IsConflictFree (λ q. true) pair_tasks base_plan }
    ensures swap { IsFirstPlanFault (λ q. true) swap_tasks swap_plan swap_fault }
    ensures ring { IsFirstPlanFault (λ q. true) ring_tasks ring_plan ring_fault }
{}
