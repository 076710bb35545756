//! Laws that decide whether a program has a numbering and is orderly. These functions do nothing: their contracts are
//! the laws.

ghost use Rattle.std.specs.Prelude.{Contains, ℕ, ◌<◌, ◌↔◌, Bool, List};
ghost use Rattle.fleet_model.specs.declared.geometry.Place.{Place};
ghost use Rattle.fleet_model.specs.declared.program.ActionId.{ActionId};
ghost use Rattle.fleet_model.specs.declared.program.Visit.{Visit};
ghost use Rattle.fleet_model.specs.declared.task.Task.{Task};
ghost use Rattle.fleet_model.specs.Program.{Program, AreInRange};
ghost use Rattle.fleet_model.specs.Machine.{Holds, run, count_at};
ghost use Rattle.fleet_model.specs.Chain.{IsNumbering};
ghost use Rattle.fleet_model.specs.Visit.{ListsVisits, Adjacent, ComesAfterByAwait, ComesAfterByChain};
ghost use Rattle.fleet_model.specs.Accepted.{IsAcceptedBy};
ghost use Rattle.fleet_verify.specs.Ring.{IsRing};
ghost use Rattle.fleet_verify.specs.Listing.{AreLevels, entry_level, IsSortedListing};

/// A program that is accepted by awaits is accepted by chains.
pub fn awaits_are_chains()
    ensures { (passable : Place → Bool) (tasks : List Task) (p : Program)
        → IsAcceptedBy ComesAfterByAwait passable tasks p
        → IsAcceptedBy ComesAfterByChain passable tasks p }
{}

/// In an orderly listing the levels of the entering actions rise.
pub fn orderly_listings_rise()
    ensures by_chain { (p : Program) (level : ActionId → ℕ) (q : Place) (listing : List Visit) →
        AreLevels p level → ListsVisits p q listing → Adjacent (ComesAfterByChain p) listing →
        Adjacent (λ (v : Visit) (w : Visit). entry_level level v < entry_level level w) listing }
    ensures by_await { (p : Program) (level : ActionId → ℕ) (q : Place) (listing : List Visit) →
        AreLevels p level → AreInRange p → ListsVisits p q listing
        → Adjacent (ComesAfterByAwait p) listing →
        Adjacent (λ (v : Visit) (w : Visit). entry_level level v < entry_level level w) listing }
{}

/// A place has an orderly listing exactly if its visits, sorted by level, agent and position, are one.
pub fn sorted_listings_decide()
    ensures by_chain { (p : Program) (level : ActionId → ℕ) (q : Place) (sorted : List Visit) →
        AreLevels p level → IsSortedListing p level q sorted →
        ((listing : List Visit) × ListsVisits p q listing × Adjacent (ComesAfterByChain p) listing)
        ↔ Adjacent (ComesAfterByChain p) sorted }
    ensures by_await { (p : Program) (level : ActionId → ℕ) (q : Place) (sorted : List Visit) →
        AreLevels p level → AreInRange p → IsSortedListing p level q sorted →
        ((listing : List Visit) × ListsVisits p q listing × Adjacent (ComesAfterByAwait p) listing)
        ↔ Adjacent (ComesAfterByAwait p) sorted }
{}

/// No list of holds ever finishes an action of a ring of needs, so a program that has one has no numbering.
pub fn rings_are_never_finished()
    ensures never { (p : Program) (ring : List ActionId) (holds : Holds) (t : ℕ) (a : ActionId) →
        IsRing p ring → Contains ring a → count_at (run p holds t) a.agent < a.number }
    ensures not_numbered { (p : Program) (ring : List ActionId) (a : ActionId)
        (number : ActionId → ℕ) →
        IsRing p ring → Contains ring a → IsNumbering p number → ⊥ }
{}
