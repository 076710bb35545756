//! What it means that a text stands for a plan, or that a fault is its first.

ghost use Rattle.std.specs.Prelude.{◌≡◌, ℕ, List};
ghost use Rattle.fleet_text.specs.Verdict.{HasOneVerdict};
ghost use Rattle.fleet_plan.specs.Plan.{Plan, IsWithinLimits};
ghost use Rattle.fleet_plan.specs.PlanText.{IsPlanText, IsFirstTextFault, plan_text};

/// A text stands for one plan at most, and that plan is within the limits.
pub fn a_plan_text_is_one_plan()
    ensures one { (text : List ℕ) (p q : Plan) → IsPlanText text p → IsPlanText text q → p ≡ q }
    ensures limits { (text : List ℕ) (p : Plan) → IsPlanText text p → IsWithinLimits p }
{}

/// The written form of a plan stands for that plan and for no other. So what `write_plan` gives is read by `read_plan`
/// as the plan that was written.
pub fn a_written_plan_is_read()
    ensures read { (p : Plan) → IsWithinLimits p → IsPlanText (plan_text p) p }
    ensures no_other { (p q : Plan) → IsWithinLimits p → IsPlanText (plan_text p) q → q ≡ p }
    ensures one_text { (p q : Plan) → IsWithinLimits p → IsWithinLimits q
        → plan_text p ≡ plan_text q → p ≡ q }
{}

/// A text either stands for a plan or has a first fault, never both, and it has one first fault at most.
pub fn a_text_is_a_plan_or_has_a_first_fault()
    ensures { (text : List ℕ) → HasOneVerdict (IsPlanText text) (IsFirstTextFault text) }
{}
