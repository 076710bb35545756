//! Laws of plans in which no agent follows another, or some do, and of runs as plans. These functions do nothing: their
//! contracts are the laws.

ghost use Rattle.std.specs.Prelude.{◌≡◌, ◌≤◌, ◌<◌, ◌+◌, ◌-◌, ◌*◌, ℕ, Bool, IsTrue, List, [], length, sum_by};
ghost use Rattle.fleet_model.specs.declared.geometry.Place.{Place};
ghost use Rattle.fleet_model.specs.declared.deps.Deps.{Deps};
ghost use Rattle.fleet_model.specs.declared.program.ActionId.{ActionId};
ghost use Rattle.fleet_model.specs.declared.task.Task.{Task};
ghost use Rattle.fleet_model.specs.declared.limits.TheConstants.{MAX_HORIZON};
ghost use Rattle.fleet_model.specs.Geometry.{place_of};
ghost use Rattle.fleet_model.specs.Program.{Program, IsWellFormed};
ghost use Rattle.fleet_model.specs.Machine.{Holds, run, place_at, count_at, held_ticks, indices, IsFinish};
ghost use Rattle.fleet_model.specs.Chain.{IsAction, DirectlyNeeds, IsLevel, IsLongestChain};
ghost use Rattle.fleet_model.specs.Conflict.{HasFollowingConflict};
ghost use Rattle.fleet_model.specs.Schedule.{Schedule, HasEndedBy, EndInTime, NeedsNoStalled};
ghost use Rattle.fleet_model.specs.RunSchedule.{IsFinishedIn};
ghost use Rattle.fleet_model.specs.Accepted.{IsAccepted};
ghost use Rattle.fleet_model.specs.Run.{motion};
ghost use Rattle.fleet_grid.specs.Ground.{Ground, is_passable, IsGround};
ghost use Rattle.fleet_plan.specs.Plan.{Plan, cell_of, last_cell, steps, motion_of, IsConflictFree};
ghost use Rattle.fleet_plan.specs.Checked.{IsCheckedFor};
ghost use Rattle.fleet_adg.specs.Compiled.{changes_in, moves_by, compiled};
ghost use Rattle.fleet_plan.specs.Apart.{IsApart};
ghost use Rattle.fleet_adg.specs.AsWritten.{AreTrainsWithin, changing, plan_of_run};

/// A plan in which nobody follows runs as it is written. Each action of a plan's program is a change of cell in a step.
/// It directly needs only changes of earlier steps if nobody follows; who follows directly needs one of the same step.
/// So the level of an action is at most the time at which its step ends, and no chain has more actions than the plan has
/// steps. Whatever is held, an action is finished later than in the plan by no more than the ticks before in which some
/// ready agent was held; at any time each agent has made all moves that it has made in the plan, if nobody was held, and
/// else those that it has made so many ticks earlier. So each agent is on its goal by the time from which on the plan has
/// it there, or later by no more than those ticks. If actions take any time up to some cost, each that needs none that
/// stalls ends by the end of its step at this cost a step.
pub fn plans_that_are_apart_run_as_written()
    ensures each { (plan : Plan) (deps : Deps) (a : ActionId) → IsAction (compiled plan deps) a
        → (x : ℕ) × (x < steps plan) × IsTrue (changes_in plan a.agent x) × (a ≡ changing plan a.agent x) }
    ensures earlier { (plan : Plan) (deps : Deps) → IsApart plan → (i j x y : ℕ) → i < length plan
        → j < length plan → IsTrue (changes_in plan i x) → IsTrue (changes_in plan j y)
        → DirectlyNeeds (compiled plan deps) (changing plan i x) (changing plan j y) → y < x }
    ensures following { (passable : Place → Bool) (tasks : List Task) (plan : Plan) (deps : Deps)
        → IsConflictFree passable tasks plan → (x i j : ℕ) → i < length plan → j < length plan
        → HasFollowingConflict (motion_of plan) x i j → IsTrue (changes_in plan i x) × IsTrue (changes_in plan j x)
        × DirectlyNeeds (compiled plan deps) (changing plan i x) (changing plan j x) }
    ensures level { (plan : Plan) (deps : Deps) → IsApart plan → (i x n : ℕ)
        → IsTrue (changes_in plan i x) → IsLevel (compiled plan deps) (changing plan i x) n → n ≤ x + 1 }
    ensures chain { (plan : Plan) (deps : Deps) → IsApart plan → (l : ℕ)
        → IsLongestChain (compiled plan deps) l → l ≤ steps plan }
    ensures in_time { (passable : Place → Bool) (tasks : List Task) (plan : Plan) (deps : Deps)
        → IsConflictFree passable tasks plan → IsApart plan → (holds : Holds) (i x t : ℕ)
        → IsTrue (changes_in plan i x) → IsFinishedIn (compiled plan deps) holds t (changing plan i x)
        → t ≤ x + held_ticks (compiled plan deps) holds t }
    ensures finish { (passable : Place → Bool) (tasks : List Task) (plan : Plan) (deps : Deps)
        → IsConflictFree passable tasks plan → IsApart plan → (holds : Holds) (f : ℕ)
        → IsFinish (compiled plan deps) holds f → f ≤ steps plan + held_ticks (compiled plan deps) holds f }
    ensures made { (passable : Place → Bool) (tasks : List Task) (plan : Plan) (deps : Deps)
        → IsConflictFree passable tasks plan → IsApart plan → (holds : Holds) (i t : ℕ) → i < length plan
        → moves_by plan i (t - held_ticks (compiled plan deps) holds t)
        ≤ count_at (run (compiled plan deps) holds t) i }
    ensures as_written { (passable : Place → Bool) (tasks : List Task) (plan : Plan) (deps : Deps)
        → IsConflictFree passable tasks plan → IsApart plan → (i t : ℕ) → i < length plan
        → moves_by plan i t ≤ count_at (run (compiled plan deps) [] t) i }
    ensures on_goal { (passable : Place → Bool) (tasks : List Task) (plan : Plan) (deps : Deps)
        → IsConflictFree passable tasks plan → IsApart plan → (holds : Holds) (i x t : ℕ) → i < length plan
        → ((y : ℕ) → x ≤ y → cell_of plan i y ≡ last_cell plan i)
        → x + held_ticks (compiled plan deps) holds t ≤ t
        → place_at (run (compiled plan deps) holds t) i ≡ place_of (last_cell plan i) }
    ensures ended { (passable : Place → Bool) (tasks : List Task) (plan : Plan) (deps : Deps)
        → IsConflictFree passable tasks plan → IsApart plan → (s : Schedule) (stalls : ActionId → Bool)
        (cost : ActionId → ℕ) (most : ℕ) → ((a : ActionId) → IsAction (compiled plan deps) a → cost a ≤ most)
        → EndInTime (compiled plan deps) s stalls cost → (i x : ℕ) → i < length plan
        → IsTrue (changes_in plan i x) → NeedsNoStalled (compiled plan deps) stalls (changing plan i x)
        → HasEndedBy s ((x + 1) * most) (changing plan i x) }
{}

/// Where agents follow one another in rows a run takes longer than its plan by no more than the rows are long: if in no
/// step x a row has more than `most x` agents, the level of an action is at most the sum of these numbers up to its
/// step, no chain has more actions than their sum, and the run takes no more ticks, but for those in which some ready
/// agent is held. A row is one agent if nobody follows, and never more than all of them; where nobody changes its cell
/// there is none.
pub fn trains_delay_runs()
    ensures apart { (plan : Plan) → IsApart plan → AreTrainsWithin plan (λ x. 1) }
    ensures all { (passable : Place → Bool) (tasks : List Task) (plan : Plan)
        → IsConflictFree passable tasks plan → AreTrainsWithin plan (λ x. length plan) }
    ensures level { (plan : Plan) (deps : Deps) (most : ℕ → ℕ) → AreTrainsWithin plan most
        → (i x n : ℕ) → IsTrue (changes_in plan i x) → IsLevel (compiled plan deps) (changing plan i x) n
        → n ≤ sum_by most (indices (x + 1)) }
    ensures chain { (plan : Plan) (deps : Deps) (most : ℕ → ℕ) → AreTrainsWithin plan most → (l : ℕ)
        → IsLongestChain (compiled plan deps) l → l ≤ sum_by most (indices (steps plan)) }
    ensures finish { (passable : Place → Bool) (tasks : List Task) (plan : Plan) (deps : Deps) (most : ℕ → ℕ)
        → IsConflictFree passable tasks plan → AreTrainsWithin plan most → (holds : Holds) (f : ℕ)
        → IsFinish (compiled plan deps) holds f
        → f ≤ sum_by most (indices (steps plan)) + held_ticks (compiled plan deps) holds f }
{}

/// A run of an accepted program is a plan: the cells of its agents after 0, 1, .. ticks up to its finish, whatever is
/// held, are a plan that is free of conflict for the map and the tasks, and in which nobody follows; it has a step for
/// each tick, and is within the limits if it is short enough. At all times each agent is in the plan where it is in the
/// run. The plan's own program takes no more ticks than the run did, but for those in which some ready agent is held.
pub fn runs_are_plans()
    ensures free { (g : Ground) (tasks : List Task) (p : Program) → IsAccepted (is_passable g) tasks p
        → (holds : Holds) (f : ℕ) → IsFinish p holds f
        → IsConflictFree (is_passable g) tasks (plan_of_run p holds f) }
    ensures apart { (g : Ground) (tasks : List Task) (p : Program) → IsAccepted (is_passable g) tasks p
        → (holds : Holds) (f : ℕ) → IsFinish p holds f → IsApart (plan_of_run p holds f) }
    ensures checked { (g : Ground) (tasks : List Task) (p : Program) → IsAccepted (is_passable g) tasks p
        → IsGround g → IsWellFormed p → (holds : Holds) (f : ℕ) → IsFinish p holds f → f ≤ MAX_HORIZON
        → IsCheckedFor g tasks (plan_of_run p holds f) }
    ensures same { (g : Ground) (tasks : List Task) (p : Program) → IsAccepted (is_passable g) tasks p
        → (holds : Holds) (f : ℕ) → IsFinish p holds f → (x i : ℕ) → i < length p
        → motion_of (plan_of_run p holds f) x i ≡ motion p holds x i }
    ensures steps { (p : Program) (holds : Holds) (f : ℕ) → 1 ≤ length p → steps (plan_of_run p holds f) ≡ f }
    ensures again { (g : Ground) (tasks : List Task) (p : Program) → IsAccepted (is_passable g) tasks p
        → (holds : Holds) (f : ℕ) → IsFinish p holds f → (deps : Deps) (then : Holds) (e : ℕ)
        → IsFinish (compiled (plan_of_run p holds f) deps) then e
        → e ≤ f + held_ticks (compiled (plan_of_run p holds f) deps) then e }
{}
