//! Laws of the rest of a program: what its agents have left to do. These functions do nothing: their contracts are the
//! laws.

ghost use Rattle.std.specs.Prelude.{◌≡◌, ℕ, ◌+◌, ◌<◌, Bool, List, length, drop};
ghost use Rattle.fleet_model.specs.declared.geometry.Cell.{Cell};
ghost use Rattle.fleet_model.specs.declared.geometry.Place.{Place};
ghost use Rattle.fleet_model.specs.declared.task.Task.{Task};
ghost use Rattle.fleet_model.specs.Program.{Program, start_of, AreInRange, IsCell, IsWellFormed};
ghost use Rattle.fleet_model.specs.Machine.{Configuration, Holds, opening, run, place_at, count_at, IsReached};
ghost use Rattle.fleet_model.specs.Visit.{ComesAfterByChain};
ghost use Rattle.fleet_model.specs.Accepted.{IsAcceptedBy};
ghost use Rattle.fleet_verify.specs.Rest.{StandOn, rest, rest_tasks};

/// The rest of a run is the run of the rest: the agents are on the same places, and have finished as many actions more.
pub fn rests_run_on()
    ensures { (p : Program) (holds : Holds) (x : ℕ) (cells : ℕ → Cell)
        → StandOn p (run p holds x) cells → (t i : ℕ) → i < length p
        → (place_at (run p holds (x + t)) i
        ≡ place_at (run (rest cells p (run p holds x)) (drop x holds) t) i)
        × (count_at (run p holds (x + t)) i ≡ count_at (run p holds x) i
        + count_at (run (rest cells p (run p holds x)) (drop x holds) t) i) }
{}

/// The rest of an accepted program is accepted from where its agents stand, in each configuration that a run reaches.
pub fn rests_are_accepted()
    ensures { (passable : Place → Bool) (tasks : List Task) (p : Program)
        → IsAcceptedBy ComesAfterByChain passable tasks p
        → (c : Configuration) → IsReached p c → (cells : ℕ → Cell) → StandOn p c cells
        → IsAcceptedBy ComesAfterByChain passable (rest_tasks cells p) (rest cells p c) }
{}

/// The rest of a well-formed program is well-formed, if the cells on which its agents stand are within the limits.
pub fn rests_are_well_formed()
    ensures { (p : Program) → IsWellFormed p → (c : Configuration) (cells : ℕ → Cell)
        → ((i : ℕ) → i < length p → IsCell (cells i)) → IsWellFormed (rest cells p c) }
{}

/// Before anything is done, the rest is the whole program.
pub fn rests_begin_whole()
    ensures { (p : Program) → AreInRange p → rest (start_of p) p (opening p) ≡ p }
{}
