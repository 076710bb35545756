//! What a verifier stands on that finishes actions in any order that respects needs. These functions do nothing: their
//! contracts are the laws.

ghost use Rattle.std.specs.Prelude.{◌≡◌, ℕ, ◌+◌, ◌<◌, Bool, List, Option, length, []};
ghost use Rattle.fleet_model.specs.declared.geometry.Place.{Place};
ghost use Rattle.fleet_model.specs.Visit.{ComesAfter, IsOrderly};
ghost use Rattle.fleet_verify.specs.declared.order.OpenPair.{OpenPair};
ghost use Rattle.fleet_model.specs.declared.geometry.Cell.{Cell};
ghost use Rattle.fleet_model.specs.declared.program.Visit.{Visit};
ghost use Rattle.fleet_model.specs.declared.program.ActionId.{ActionId};
ghost use Rattle.fleet_model.specs.Program.{Program, moves, AreInRange};
ghost use Rattle.fleet_model.specs.Chain.{IsLongestChain, IsNumbering};
ghost use Rattle.fleet_verify.specs.Ahead.{AreCountedUp, IsTop, AreBegun};
ghost use Rattle.fleet_verify.specs.Listing.{AreLevels};

/// Numbers of actions, each the least above those of all that it directly needs, are a numbering, and the levels. The
/// greatest is the number of actions of the longest chain.
pub fn counted_levels_are_levels()
    ensures numbering { (p : Program) (level : ActionId → ℕ) → AreCountedUp p level
        → IsNumbering p level }
    ensures levels { (p : Program) (level : ActionId → ℕ) → AreCountedUp p level
        → AreLevels p level }
    ensures longest { (p : Program) (level : ActionId → ℕ) → AreCountedUp p level
        → (n : ℕ) → IsTop p level n → IsLongestChain p n }
{}

/// If all visits are added in any order, each once, and no neighbours at a cell are left open, the program is orderly.
pub fn begun_visits_are_orderly()
    ensures { (passable : Place → Bool) (p : Program) (begun : ℕ → ℕ)
        → (last : Cell → Option Visit) (pairs : List OpenPair)
        → AreBegun passable p begun last pairs
        → ((i : ℕ) → i < length p → begun i ≡ moves p i + 1)
        → AreInRange p → pairs ≡ [] → IsOrderly ComesAfter p }
{}
