//! Laws of the runs of accepted programs, whatever is held. These functions do nothing: their contracts are the laws.

ghost use Rattle.std.specs.Prelude.{◌≡◌, ◌≢◌, ℕ, ◌+◌, ◌<◌, ◌≤◌, Bool, IsTrue, IsFalse, List, [], length, get_or, not, if◌then◌else◌};
ghost use Rattle.fleet_model.specs.declared.geometry.Place.{Place};
ghost use Rattle.fleet_model.specs.declared.program.ActionId.{ActionId};
ghost use Rattle.fleet_model.specs.declared.program.Visit.{Visit};
ghost use Rattle.fleet_model.specs.declared.task.Task.{Task};
ghost use Rattle.fleet_model.specs.Program.{Program, total_moves};
ghost use Rattle.fleet_model.specs.Machine.{Configuration, opening, tick, Holds, run, is_among, is_held, is_ready, count_at, is_over, is_stuck, IsFinish, IsLeast, IsDone, IsDue, IsReached};
ghost use Rattle.fleet_model.specs.Chain.{IsAction, Reaches, IsLevel, IsLongestChain};
ghost use Rattle.fleet_model.specs.Visit.{ListsVisits, Adjacent, ComesAfterByChain};
ghost use Rattle.fleet_model.specs.Accepted.{IsAcceptedBy};
ghost use Rattle.fleet_model.specs.Run.{IsSafe, IsOwnedInTurn, Arrives, IsSafeStep};
ghost use Rattle.fleet_model.specs.Claims.{AreApart, KeepsOrder, MayBeOn, orders_given, holds_of};

/// Whatever is held, a run of an accepted program stays on passable cells and has no conflict.
pub fn runs_are_safe()
    ensures { (passable : Place → Bool) (tasks : List Task) (p : Program)
        → IsAcceptedBy ComesAfterByChain passable tasks p → (holds : Holds)
        → IsSafe passable p holds }
{}

/// Whatever is held, the visits of each place come in the order of its listing, each after the one before it has been
/// left.
pub fn visits_come_in_turn()
    ensures { (p : Program) (q : Place) (listing : List Visit) → ListsVisits p q listing
        → Adjacent (ComesAfterByChain p) listing → (holds : Holds) (t : ℕ)
        → IsOwnedInTurn p listing (run p holds t) }
{}

/// An accepted program has a longest chain. Whatever is held, a run of it comes to an end, and arrives.
pub fn runs_arrive()
    ensures chain { (passable : Place → Bool) (tasks : List Task) (p : Program)
        → IsAcceptedBy ComesAfterByChain passable tasks p → (l : ℕ) × IsLongestChain p l }
    ensures one_chain { (p : Program) (l m : ℕ) → IsLongestChain p l → IsLongestChain p m → l ≡ m }
    ensures finish { (passable : Place → Bool) (tasks : List Task) (p : Program)
        → IsAcceptedBy ComesAfterByChain passable tasks p → (holds : Holds)
        → (f : ℕ) × IsFinish p holds f }
    ensures one_finish { (p : Program) (holds : Holds) (f g : ℕ) → IsFinish p holds f
        → IsFinish p holds g → f ≡ g }
    ensures arrive { (passable : Place → Bool) (tasks : List Task) (p : Program)
        → IsAcceptedBy ComesAfterByChain passable tasks p → (holds : Holds) (l f : ℕ)
        → IsLongestChain p l → IsFinish p holds f → Arrives p holds l f }
{}

/// Every run is finished or stuck at some time, and a run of an accepted program is never stuck.
pub fn runs_end()
    ensures over { (p : Program) (holds : Holds)
        → (t : ℕ) × IsLeast (λ t. is_over p (run p holds t)) t
        × (t ≤ length holds + total_moves p) }
    ensures not_stuck { (passable : Place → Bool) (tasks : List Task) (p : Program)
        → IsAcceptedBy ComesAfterByChain passable tasks p → (holds : Holds) (t : ℕ)
        → IsFalse (is_stuck p (run p holds t)) }
    ensures short { (passable : Place → Bool) (tasks : List Task) (p : Program)
        → IsAcceptedBy ComesAfterByChain passable tasks p → (l : ℕ) → IsLongestChain p l
        → l ≤ total_moves p }
{}

/// A tick of a configuration that some list of holds reaches leads to another such, and for an accepted program it is
/// safe.
pub fn ticks_are_safe()
    ensures start { (p : Program) → IsReached p (opening p) }
    ensures reached { (p : Program) (c : Configuration) (held : ℕ → Bool) → IsReached p c
        → IsReached p (tick p held c) }
    ensures safe { (passable : Place → Bool) (tasks : List Task) (p : Program)
        → IsAcceptedBy ComesAfterByChain passable tasks p → (c : Configuration) (held : ℕ → Bool)
        → IsReached p c → IsSafeStep passable (length p) c (tick p held c) }
{}

/// Moves may take any time and overlap. In each configuration that some list of holds reaches from an accepted program,
/// the places on which agents stand and those that ready agents are about to enter are passable and all differ, and an
/// agent that is ready stays so, with the same next move, until it has finished that. So at any time of a run, two
/// agents of which each stands, or is anywhere on a move that it has been ready for and has not finished, are on no
/// common place.
pub fn ready_moves_are_apart()
    ensures apart { (passable : Place → Bool) (tasks : List Task) (p : Program)
        → IsAcceptedBy ComesAfterByChain passable tasks p → (c : Configuration) → IsReached p c
        → AreApart passable p c }
    ensures kept { (p : Program) (c : Configuration) (held : ℕ → Bool) (i : ℕ) → IsReached p c
        → i < length p → IsTrue (held i) → KeepsOrder p c (tick p held c) i }
    ensures on_ground { (passable : Place → Bool) (tasks : List Task) (p : Program)
        → IsAcceptedBy ComesAfterByChain passable tasks p → (holds : Holds) (t i : ℕ) (q : Place)
        → i < length p → MayBeOn p holds t i q → IsTrue (passable q) }
    ensures no_contact { (passable : Place → Bool) (tasks : List Task) (p : Program)
        → IsAcceptedBy ComesAfterByChain passable tasks p → (holds : Holds) (t i j : ℕ) (q : Place)
        → i < length p → j < length p → i ≢ j → MayBeOn p holds t i q → MayBeOn p holds t j q → ⊥ }
{}

/// The order for each action is given once, before it is carried out: in any run an agent has been given as many orders
/// as it has finished actions, and one more if it is ready.
pub fn orders_are_given_once()
    ensures { (p : Program) (holds : Holds) (t i : ℕ) → i < length p
        → orders_given p holds t i
        ≡ count_at (run p holds t) i + (if is_ready p (run p holds t) i then 1 else 0) }
{}

/// Reports that name the agents that have carried out their orders make the run in whose ticks all others are held.
pub fn reports_make_a_run()
    ensures { (p : Program) (reports : List (List ℕ)) (t : ℕ) → t < length reports
        → run p (holds_of (length p) reports) (t + 1)
        ≡ tick p (λ i. not (is_among (get_or reports t []) i))
        (run p (holds_of (length p) reports) t) }
{}

/// Why runs arrive: the unfinished actions of the least level are due, a tick finishes each action that is due and
/// whose agent is not held, and no tick finishes two actions of one chain.
pub fn levels_rise()
    ensures levels { (passable : Place → Bool) (tasks : List Task) (p : Program)
        → IsAcceptedBy ComesAfterByChain passable tasks p → (a : ActionId) → IsAction p a
        → (n : ℕ) × IsLevel p a n }
    ensures least_are_due { (passable : Place → Bool) (tasks : List Task) (p : Program)
        → IsAcceptedBy ComesAfterByChain passable tasks p
        → (holds : Holds) (t : ℕ) (a : ActionId) (n : ℕ) → IsAction p a
        → (IsDone (run p holds t) a → ⊥) → IsLevel p a n
        → ((b : ActionId) (m : ℕ) → IsAction p b → (IsDone (run p holds t) b → ⊥)
        → IsLevel p b m → n ≤ m)
        → IsDue p (run p holds t) a }
    ensures due_are_done { (p : Program) (holds : Holds) (t : ℕ) (a : ActionId) → IsAction p a
        → IsDue p (run p holds t) a → IsFalse (is_held holds t a.agent)
        → IsDone (run p holds (t + 1)) a }
    ensures one_of_a_chain { (p : Program) (holds : Holds) (t : ℕ) (a b : ActionId) → Reaches p a b
        → a ≢ b → (IsDone (run p holds t) b → ⊥) → IsDone (run p holds (t + 1)) b
        → IsDone (run p holds t) a }
{}
