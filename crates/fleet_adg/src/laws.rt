//! Laws of the programs of conflict-free plans. These functions do nothing: their contracts are the laws.

ghost use Rattle.std.specs.Prelude.{◌≡◌, ◌≢◌, ◌≤◌, ◌<◌, ◌+◌, ◌↔◌, ℕ, Bool, IsTrue, List, [], ◌∷◌, length, Contains};
ghost use Rattle.fleet_model.specs.declared.geometry.Place.{Place};
ghost use Rattle.fleet_model.specs.declared.deps.Deps.{Deps};
ghost use Rattle.fleet_model.specs.declared.program.Await.{Await};
ghost use Rattle.fleet_model.specs.declared.limits.TheConstants.{MAX_MOVES_IN_ALL};
ghost use Rattle.fleet_model.specs.Program.{IsWellFormed};
ghost use Rattle.fleet_model.specs.Visit.{ComesAfterByAwait};
ghost use Rattle.fleet_model.specs.Accepted.{IsAcceptedBy};
ghost use Rattle.fleet_model.specs.declared.task.Task.{Task};
ghost use Rattle.fleet_plan.specs.Plan.{Plan, cell_of, IsConflictFree, IsWithinLimits};
ghost use Rattle.fleet_adg.specs.Compiled.{changes_in, entry_awaits, await_of, IsLatestVisit, IsLastLeaving, compiled, moves_in_all};
ghost use Rattle.fleet_verify.specs.Reduced.{HaveSameChains, RunEqually};

/// Within the limits the program of a plan is well formed.
pub fn compiled_plans_are_well_formed()
    ensures { (plan : Plan) (deps : Deps) → IsWithinLimits plan
        → moves_in_all plan ≤ MAX_MOVES_IN_ALL → IsWellFormed (compiled plan deps) }
{}

/// The awaits of the action of agent `i` in step `x`, by visits and by leavings.
pub fn awaits_are_as_defined()
    ensures last_by_other { (passable : Place → Bool) (tasks : List Task) (plan : Plan)
        (i x s j : ℕ) → IsConflictFree passable tasks plan → i < length plan
        → IsTrue (changes_in plan i x) → IsLatestVisit plan (cell_of plan i (x + 1)) (x + 1) j s
        → j ≢ i → entry_awaits plan Deps.Last i x ≡ await_of plan s j ∷ [] }
    ensures last_its_own { (passable : Place → Bool) (tasks : List Task) (plan : Plan) (i x s : ℕ)
        → IsConflictFree passable tasks plan → i < length plan → IsTrue (changes_in plan i x)
        → IsLatestVisit plan (cell_of plan i (x + 1)) (x + 1) i s
        → entry_awaits plan Deps.Last i x ≡ [] }
    ensures last_none { (plan : Plan) (i x : ℕ)
        → ((u k : ℕ) → u < x + 1 → k < length plan → cell_of plan k u ≢ cell_of plan i (x + 1))
        → entry_awaits plan Deps.Last i x ≡ [] }
    ensures all { (plan : Plan) (i x : ℕ) (w : Await) → Contains (entry_awaits plan Deps.All i x) w
        ↔ (w.agent ≢ i) × IsLastLeaving plan (cell_of plan i (x + 1)) (x + 1) w }
{}

/// The program of a plan that is free of conflict is accepted, with either kind of awaits.
pub fn compiled_plans_are_accepted()
    ensures { (passable : Place → Bool) (tasks : List Task) (plan : Plan) (deps : Deps)
        → IsConflictFree passable tasks plan
        → IsAcceptedBy ComesAfterByAwait passable tasks (compiled plan deps) }
{}

/// The programs of one plan that is free of conflict have the same chains and run equally, whichever leavings are
/// awaited.
pub fn compiled_plans_run_equally()
    ensures chains { (passable : Place → Bool) (tasks : List Task) (plan : Plan) (d e : Deps)
        → IsConflictFree passable tasks plan → HaveSameChains (compiled plan d) (compiled plan e) }
    ensures equally { (passable : Place → Bool) (tasks : List Task) (plan : Plan) (d e : Deps)
        → IsConflictFree passable tasks plan → RunEqually (compiled plan d) (compiled plan e) }
{}
