//! Programs without the awaits that others imply. These functions do nothing: their contracts are the laws.

ghost use Rattle.std.specs.Prelude.{ℕ, ◌↔◌, Bool, List};
ghost use Rattle.fleet_model.specs.declared.geometry.Place.{Place};
ghost use Rattle.fleet_model.specs.declared.program.ActionId.{ActionId};
ghost use Rattle.fleet_model.specs.Program.{Program, AreInRange};
ghost use Rattle.fleet_model.specs.Chain.{IsNumbering, IsLevel, IsLongestChain};
ghost use Rattle.fleet_model.specs.Visit.{ComesAfterByChain};
ghost use Rattle.fleet_model.specs.declared.task.Task.{Task};
ghost use Rattle.fleet_model.specs.Accepted.{IsAcceptedBy};
ghost use Rattle.fleet_verify.specs.Reduced.{IsThinned, IsReduced, HaveSameChains, HasLeastAwaits, RunEqually};

/// Without its implied awaits a program has the same chains, and none of its awaits is implied. A program also keeps
/// its chains without awaits of actions that it still needs through a chain.
pub fn thinning_keeps_chains()
    ensures thinned { (p q : Program) (number : ActionId → ℕ) →
        IsNumbering p number → IsThinned p q → HaveSameChains p q }
    ensures again { (p q : Program) (number : ActionId → ℕ) →
        IsNumbering p number → IsThinned p q → IsThinned q q }
    ensures reduced { (p q : Program) → IsReduced p q → HaveSameChains p q }
    ensures in_range { (p q : Program) → AreInRange p → IsReduced p q → AreInRange q }
    ensures thinned_in_range { (p q : Program) → AreInRange p → IsThinned p q → AreInRange q }
{}

/// Without its implied awaits a program is the least of those with its chains: whichever of them is taken, what an
/// action still awaits it awaits there too.
pub fn thinning_is_least()
    ensures { (p q : Program) (number : ActionId → ℕ) →
        IsNumbering p number → AreInRange p → IsThinned p q → HasLeastAwaits p q }
{}

/// Programs with the same chains have the same levels and the same longest chain, are accepted alike and run equally.
pub fn same_chains_run_equally()
    ensures equally { (p q : Program) →
        AreInRange p → AreInRange q → HaveSameChains p q → RunEqually p q }
    ensures levels { (p q : Program) (a : ActionId) (n : ℕ) →
        AreInRange p → AreInRange q → HaveSameChains p q → IsLevel p a n ↔ IsLevel q a n }
    ensures longest { (p q : Program) (n : ℕ) →
        AreInRange p → AreInRange q → HaveSameChains p q →
        IsLongestChain p n ↔ IsLongestChain q n }
    ensures numberings { (p q : Program) (number : ActionId → ℕ) →
        AreInRange q → HaveSameChains p q → IsNumbering p number → IsNumbering q number }
    ensures accepted { (p q : Program) (passable : Place → Bool) (tasks : List Task) →
        AreInRange q → HaveSameChains p q → IsAcceptedBy ComesAfterByChain passable tasks p →
        IsAcceptedBy ComesAfterByChain passable tasks q }
{}

/// An accepted program without its implied awaits is accepted, has the same longest chain and runs equally.
pub fn thinned_programs_run_equally()
    ensures { (p q : Program) (passable : Place → Bool) (tasks : List Task) →
        IsAcceptedBy ComesAfterByChain passable tasks p → IsThinned p q →
        IsAcceptedBy ComesAfterByChain passable tasks q
        × RunEqually p q
        × ((n : ℕ) → IsLongestChain p n ↔ IsLongestChain q n) }
{}
