//! Laws of schedules: runs of accepted programs whose actions take any time. These functions do nothing: their
//! contracts are the laws.

ghost use Rattle.std.specs.Prelude.{◌≡◌, ◌≢◌, ◌⊎◌, ◌↔◌, ℕ, ◌+◌, ◌<◌, ◌≤◌, Bool, false, IsTrue, List, [], length};
ghost use Rattle.fleet_model.specs.declared.geometry.Place.{Place};
ghost use Rattle.fleet_model.specs.declared.program.ActionId.{ActionId};
ghost use Rattle.fleet_model.specs.declared.task.Task.{Task};
ghost use Rattle.fleet_model.specs.Program.{Program, goal_of, moves, path, AreInRange, IsWellFormed};
ghost use Rattle.fleet_model.specs.Geometry.{place_of};
ghost use Rattle.fleet_model.specs.Machine.{Holds, run, place_at, held_ticks, IsFinish};
ghost use Rattle.fleet_model.specs.Chain.{IsAction, DirectlyNeeds, Reaches, IsCriticalCost, IsLevel};
ghost use Rattle.fleet_model.specs.Visit.{ComesAfterByChain};
ghost use Rattle.fleet_model.specs.Accepted.{HasTasks, IsAcceptedBy};
ghost use Rattle.fleet_model.specs.Claims.{MayBeOn};
ghost use Rattle.fleet_model.specs.Schedule.{Schedule, HasBegunBy, HasEndedBy, IsSchedule, MayBeOnAt, IsSafeSchedule, EndInTime, TakeAtLeast};
ghost use Rattle.fleet_model.specs.RunSchedule.{IsScheduleOf, BeginsWhenDue, TakesOneTick, ticks_taken, IsFinishedIn};
ghost use Rattle.fleet_model.specs.Dispatch.{Dispatch, OrdersAwait, IsCarriedOut, IsPrompt};
ghost use Rattle.fleet_model.specs.Run.{RunsRight};

/// Whatever time each action of an accepted program takes, and whenever it begins once what it directly needs has
/// ended, no two agents are ever on one place, not even in part, and all that an agent is on is passable. At any time
/// an agent is on one place of its path, or has begun to move and is on this and the next.
pub fn schedules_are_safe()
    ensures apart { (passable : Place → Bool) (tasks : List Task) (p : Program)
        → IsAcceptedBy ComesAfterByChain passable tasks p → (s : Schedule) → IsSchedule p s
        → (x i j : ℕ) (q : Place) → i < length p → j < length p → i ≢ j
        → MayBeOnAt p s x i q → MayBeOnAt p s x j q → ⊥ }
    ensures on_ground { (passable : Place → Bool) (tasks : List Task) (p : Program)
        → IsAcceptedBy ComesAfterByChain passable tasks p → (s : Schedule)
        → (x i : ℕ) (q : Place) → i < length p → MayBeOnAt p s x i q → IsTrue (passable q) }
    ensures places { (p : Program) (s : Schedule) → IsSchedule p s → (x i : ℕ) → i < length p
        → (n : ℕ) × (n ≤ moves p i) × ((q : Place) → MayBeOnAt p s x i q
        ↔ ((q ≡ path p i n) ⊎ ((n < moves p i)
        × HasBegunBy s x (record { agent = i; number = n + 1 }) × (q ≡ path p i (n + 1))))) }
{}

/// Each action has a critical path. If the actions that do not stall end in time, each action that needs none that
/// stalls, however indirectly, ends by the cost of its critical path; if all take at least their cost, none ends
/// sooner, and there is a schedule of both. What needs an action that never ends never begins. Once all actions of an
/// agent have ended it is on its goal.
pub fn schedules_end_in_time()
    ensures critical { (passable : Place → Bool) (tasks : List Task) (p : Program)
        → IsAcceptedBy ComesAfterByChain passable tasks p → (cost : ActionId → ℕ)
        → (b : ActionId) → IsAction p b → (m : ℕ) × IsCriticalCost p cost b m }
    ensures soonest { (passable : Place → Bool) (tasks : List Task) (p : Program)
        → IsAcceptedBy ComesAfterByChain passable tasks p → (cost : ActionId → ℕ)
        → (s : Schedule) × IsSchedule p s × EndInTime p s (λ _. false) cost × TakeAtLeast p s cost }
    ensures in_time { (passable : Place → Bool) (tasks : List Task) (p : Program)
        → IsAcceptedBy ComesAfterByChain passable tasks p → (s : Schedule)
        → (stalls : ActionId → Bool) (cost : ActionId → ℕ) → EndInTime p s stalls cost
        → (b : ActionId) (m : ℕ) → IsAction p b
        → ((a : ActionId) → IsTrue (stalls a) → Reaches p a b → ⊥)
        → IsCriticalCost p cost b m → HasEndedBy s m b }
    ensures no_sooner { (p : Program) (s : Schedule) → IsSchedule p s
        → (cost : ActionId → ℕ) → TakeAtLeast p s cost
        → (b : ActionId) (m u : ℕ) → IsCriticalCost p cost b m → HasEndedBy s u b → m ≤ u }
    ensures stopped { (p : Program) (s : Schedule) → IsSchedule p s → (a b : ActionId)
        → Reaches p a b → a ≢ b → ((t : ℕ) → HasEndedBy s t a → ⊥)
        → (t : ℕ) → HasBegunBy s t b → ⊥ }
    ensures on_goal { (passable : Place → Bool) (tasks : List Task) (p : Program)
        → IsAcceptedBy ComesAfterByChain passable tasks p → (s : Schedule) → IsSchedule p s
        → (x i : ℕ) (q : Place) → i < length p
        → ((a : ActionId) → IsAction p a → a.agent ≡ i → HasEndedBy s x a)
        → MayBeOnAt p s x i q → q ≡ place_of (goal_of p i) }
{}

/// There is no deadlock: at any time, of an action that has not ended and all that it needs, however indirectly, some
/// action has not ended and directly needs nothing that has not, so nothing keeps its agent from it.
pub fn schedules_are_never_stuck()
    ensures { (passable : Place → Bool) (tasks : List Task) (p : Program)
        → IsAcceptedBy ComesAfterByChain passable tasks p → (s : Schedule) (x : ℕ)
        → (b : ActionId) → IsAction p b → (HasEndedBy s x b → ⊥)
        → (a : ActionId) × IsAction p a × (HasEndedBy s x a → ⊥)
        × ((d : ActionId) → DirectlyNeeds p a d → HasEndedBy s x d) × Reaches p a b }
{}

/// Runs in ticks are schedules, whether an action is thought to take the tick that finishes it or all ticks since it
/// was due. Where an agent stands, and where the next tick brings it, it may be on by each such schedule, and by the
/// longest also where an order sends it.
pub fn runs_are_schedules()
    ensures each { (p : Program) → AreInRange p → (holds : Holds) (s : Schedule)
        → IsScheduleOf p holds s → IsSchedule p s }
    ensures shortest { (p : Program) (holds : Holds)
        → (s : Schedule) × IsScheduleOf p holds s × TakesOneTick p s }
    ensures longest { (p : Program) (holds : Holds)
        → (s : Schedule) × IsScheduleOf p holds s × BeginsWhenDue p holds s }
    ensures here { (p : Program) (holds : Holds) (s : Schedule) → IsScheduleOf p holds s
        → (t i : ℕ) → i < length p → MayBeOnAt p s t i (place_at (run p holds t) i) }
    ensures next { (p : Program) (holds : Holds) (s : Schedule) → IsScheduleOf p holds s
        → (t i : ℕ) → i < length p → MayBeOnAt p s t i (place_at (run p holds (t + 1)) i) }
    ensures claimed { (p : Program) (holds : Holds) (s : Schedule) → IsScheduleOf p holds s
        → BeginsWhenDue p holds s → (t i : ℕ) (q : Place) → i < length p
        → MayBeOn p holds t i q → MayBeOnAt p s t i q }
{}

/// When each action of a run is finished: after as many ticks as the chain that ends with it has actions and ticks in
/// which one of these is held up, of the chain for which that is most. So a hold delays only what needs the action that
/// it holds up.
pub fn runs_follow_critical_paths()
    ensures { (passable : Place → Bool) (tasks : List Task) (p : Program)
        → IsAcceptedBy ComesAfterByChain passable tasks p → (holds : Holds) (a : ActionId) (t : ℕ)
        → IsAction p a → IsFinishedIn p holds t a
        → IsCriticalCost p (ticks_taken p holds) a (t + 1) }
{}

/// Acceptance asks no more than schedules do: a well-formed program for the tasks of an instance, whose run without
/// holds finishes with each agent on its goal, and whose schedules lead all agents over passable places and no two onto
/// one, is accepted.
pub fn schedules_need_acceptance()
    ensures { (passable : Place → Bool) (tasks : List Task) (p : Program) → IsWellFormed p
        → HasTasks tasks p → (f : ℕ) → IsFinish p [] f
        → ((i : ℕ) → i < length p → place_at (run p [] f) i ≡ place_of (goal_of p i))
        → ((s : Schedule) → IsSchedule p s → IsSafeSchedule passable p s)
        → IsAcceptedBy ComesAfterByChain passable tasks p }
{}

/// Orders may be given ahead: if each action is ordered once all that it awaits is reported, even while its agent is
/// busy with earlier ones, and agents carry out their orders in turn, that is a schedule. If all are prompt, each
/// action ends within the two lags and its own time after all that it directly needs.
pub fn orders_may_be_given_ahead()
    ensures schedule { (p : Program) → AreInRange p → (d : Dispatch) (s : Schedule)
        → OrdersAwait p d → IsCarriedOut p d s → IsSchedule p s }
    ensures in_time { (p : Program) → AreInRange p → (d : Dispatch) (s : Schedule)
        → (stalls : ActionId → Bool) (report_lag order_lag : ℕ) (takes : ActionId → ℕ)
        → IsPrompt p d s stalls report_lag order_lag takes
        → EndInTime p s stalls (λ a. report_lag + order_lag + takes a) }
{}

/// A well-formed program for the tasks of an instance is accepted exactly if under every list of holds its run stays on
/// passable cells, has no conflict, and finishes with each agent on its goal.
pub fn acceptance_is_exact_for_tasks()
    ensures { (passable : Place → Bool) (tasks : List Task) (p : Program) → IsWellFormed p
        → HasTasks tasks p
        → IsAcceptedBy ComesAfterByChain passable tasks p ↔ RunsRight passable p }
{}

/// Each action has its own bound: some tick finishes it, not before that of its level, and at most so much later as
/// ready agents were held before.
pub fn actions_are_finished_in_time()
    ensures finished { (passable : Place → Bool) (tasks : List Task) (p : Program)
        → IsAcceptedBy ComesAfterByChain passable tasks p → (holds : Holds) (a : ActionId)
        → IsAction p a → (t : ℕ) × IsFinishedIn p holds t a }
    ensures in_time { (p : Program) → AreInRange p → (holds : Holds) (a : ActionId) (n t : ℕ)
        → IsLevel p a n → IsFinishedIn p holds t a
        → (n ≤ t + 1) × (t + 1 ≤ n + held_ticks p holds t) }
{}
