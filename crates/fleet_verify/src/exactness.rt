//! Programs that are accepted run well, and those that are refused for their order do not. These functions do nothing:
//! their contracts are the laws.

ghost use Rattle.std.specs.Prelude.{◌≡◌, ℕ, ◌+◌, ◌<◌, ◌≤◌, ◌↔◌, Bool, List, length, slice_get, Some};
ghost use Rattle.fleet_model.specs.declared.geometry.Place.{Place};
ghost use Rattle.fleet_model.specs.declared.program.ActionId.{ActionId};
ghost use Rattle.fleet_model.specs.declared.program.Visit.{Visit};
ghost use Rattle.fleet_model.specs.Program.{Program, moves, AreInRange};
ghost use Rattle.fleet_model.specs.Machine.{Configuration, Holds, run, count_at};
ghost use Rattle.fleet_model.specs.Chain.{IsNumbering, Reaches};
ghost use Rattle.fleet_model.specs.Visit.{ListsVisits, Adjacent, ComesAfterByChain, IsOrderly, entering, leaving};
ghost use Rattle.fleet_model.specs.declared.task.Task.{Task};
ghost use Rattle.fleet_model.specs.Accepted.{IsRight, IsAcceptedBy};
ghost use Rattle.fleet_model.specs.Run.{HasBegun};
ghost use Rattle.fleet_model.specs.Visit.{AreUnordered};
ghost use Rattle.fleet_model.specs.Breaking.{IsHeldBack, IsPrepared, AreBreakingHolds, MeetOn};
ghost use Rattle.fleet_verify.specs.Faults.{IsUnordered};
ghost use Rattle.fleet_verify.specs.Listing.{AreLevels, IsSortedListing};
ghost use Rattle.fleet_model.specs.Run.{RunsWell};
ghost use Rattle.fleet_verify.specs.Rows.{IsRow};

/// After the breaking holds of two visits of a place without an order, both agents stand on that place.
pub fn breaking_holds_end_in_a_conflict()
    ensures { (p : Program) (number : ActionId → ℕ) (q : Place) (v w : Visit) (holds : Holds) →
        IsNumbering p number → AreUnordered p q v w → AreBreakingHolds p v w holds →
        MeetOn p q v w holds }
{}

/// The agents of two visits of a place without an order are brought onto it by holds: by those that hold back all that
/// is not needed.
pub fn unordered_visits_meet()
    ensures { (p : Program) (number : ActionId → ℕ) (q : Place) (v w : Visit) →
        IsNumbering p number → AreInRange p → AreUnordered p q v w →
        (holds : Holds) × AreBreakingHolds p v w holds × MeetOn p q v w holds }
{}

/// Two visits have breaking holds, and only one list of them.
pub fn breaking_holds_are_one_list()
    ensures there_are { (p : Program) (number : ActionId → ℕ) (q : Place) (v w : Visit) →
        IsNumbering p number → AreInRange p → AreUnordered p q v w →
        (holds : Holds) × AreBreakingHolds p v w holds }
    ensures only { (p : Program) (v w : Visit) (holds other : Holds) →
        AreBreakingHolds p v w holds → AreBreakingHolds p v w other → holds ≡ other }
    ensures short { (p : Program) (level : ActionId → ℕ) (v w : Visit) (holds : Holds) (n : ℕ) →
        AreLevels p level → AreInRange p → AreBreakingHolds p v w holds →
        level (entering v) ≤ n → level (entering w) ≤ n → length holds ≤ n }
{}

/// The agents that the breaking holds hold, and the end of these holds, can be read off the rows of the two entering
/// actions.
pub fn breaking_holds_by_rows()
    ensures held { (p : Program) (v w : Visit) (first second : ℕ → ℕ) (c : Configuration) (i : ℕ) →
        IsRow p (entering v) first → IsRow p (entering w) second →
        IsHeldBack p v w c i
        ↔ ((count_at c i < moves p i) × (first i ≤ count_at c i) × (second i ≤ count_at c i)) }
    ensures prepared { (p : Program) (q : Place) (v w : Visit) (holds : Holds) (t : ℕ) →
        AreUnordered p q v w →
        IsPrepared p v w (run p holds t)
        ↔ (HasBegun (run p holds t) v × HasBegun (run p holds t) w) }
{}

/// Of two visits in an orderly listing, the leaving of the earlier begins a chain that ends with the entering of the
/// later.
pub fn listed_visits_are_chained()
    ensures { (p : Program) (q : Place) (listing : List Visit) (i j : ℕ) (v w : Visit) →
        ListsVisits p q listing → Adjacent (ComesAfterByChain p) listing →
        i < j → slice_get listing i ≡ Some v → slice_get listing j ≡ Some w →
        Reaches p (leaving p v) (entering w) }
{}

/// Neighbours in the sorted listing of which the second may not come after the first have no order either way, and if
/// two visits of a place have none, the program is not orderly.
pub fn unordered_visits_are_found()
    ensures neighbours { (p : Program) (level : ActionId → ℕ) (q : Place) (sorted : List Visit)
        (k : ℕ) (v w : Visit) →
        AreLevels p level → IsSortedListing p level q sorted →
        slice_get sorted k ≡ Some v → slice_get sorted (k + 1) ≡ Some w →
        (ComesAfterByChain p v w → ⊥) → AreUnordered p q v w }
    ensures told { (p : Program) (q : Place) (v w : Visit) →
        IsUnordered ComesAfterByChain p q v w → AreUnordered p q v w }
    ensures refused { (p : Program) (q : Place) (v w : Visit) →
        AreUnordered p q v w → IsOrderly ComesAfterByChain p → ⊥ }
{}

/// A program with right agents, ends, steps and ranges is accepted exactly if it runs well under every list of holds.
pub fn acceptance_is_exact()
    ensures { (p : Program) (passable : Place → Bool) (tasks : List Task) →
        IsRight passable tasks p →
        IsAcceptedBy ComesAfterByChain passable tasks p ↔ RunsWell p }
{}
