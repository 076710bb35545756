//! What the promises of the verifier come to. These functions do nothing: their contracts are the laws.

ghost use Rattle.std.specs.Prelude.{◌≢◌, ℕ, Bool, List};
ghost use Rattle.fleet_model.specs.declared.geometry.Place.{Place};
ghost use Rattle.fleet_model.specs.declared.program.Visit.{Visit};
ghost use Rattle.fleet_model.specs.declared.task.Task.{Task};
ghost use Rattle.fleet_model.specs.Program.{Program};
ghost use Rattle.fleet_model.specs.Machine.{Holds, run, IsFinish};
ghost use Rattle.fleet_model.specs.Visit.{ListsVisits, Adjacent, ComesAfter};
ghost use Rattle.fleet_model.specs.Accepted.{IsRight, IsAccepted};
ghost use Rattle.fleet_model.specs.Run.{IsSafe, IsOwnedInTurn, Arrives, RunsWell};
ghost use Rattle.fleet_verify.specs.declared.fault.VerifyFault.{VerifyFault};
ghost use Rattle.fleet_verify.specs.declared.fault.VerifyFault.TheVariants.{OutOfMemory};
ghost use Rattle.fleet_verify.specs.Broken.{IsBrokenBy};
ghost use Rattle.fleet_verify.specs.Faults.{HasRanges, IsFault, IsOfOrder};
ghost use Rattle.fleet_verify.specs.Promises.{Promises, IsRefusedRightly};

/// What is promised of an accepted program: whatever agents are held for however long, its run stays on passable cells
/// without a conflict, the visits of each place come in turn, and the run arrives in time. So it runs well.
pub fn promises_are_kept()
    ensures safe { (passable : Place → Bool) (p : Program) (chain : ℕ) → Promises passable p chain
        → (holds : Holds) → IsSafe passable p holds }
    ensures owned { (passable : Place → Bool) (p : Program) (chain : ℕ) → Promises passable p chain
        → (q : Place) → (listing : List Visit) × ListsVisits p q listing
        × Adjacent (ComesAfter p) listing
        × ((holds : Holds) (t : ℕ) → IsOwnedInTurn p listing (run p holds t)) }
    ensures arrives { (passable : Place → Bool) (p : Program) (chain : ℕ)
        → Promises passable p chain → (holds : Holds)
        → (f : ℕ) × IsFinish p holds f × Arrives p holds chain f }
    ensures well { (passable : Place → Bool) (p : Program) (chain : ℕ) → Promises passable p chain
        → RunsWell p }
{}

/// What a refusal says: its fault is the first one; lack of memory aside, the program is not accepted, and runs badly
/// if it is right but for its order; and a fault of its order shows how, and is the only kind if all else is right.
pub fn refusals_are_right()
    ensures fault { (passable : Place → Bool) (tasks : List Task) (p : Program) (f : VerifyFault)
        → IsRefusedRightly passable tasks p f → IsFault passable tasks p f }
    ensures refused { (passable : Place → Bool) (tasks : List Task) (p : Program) (f : VerifyFault)
        → IsRefusedRightly passable tasks p f → f ≢ OutOfMemory
        → IsAccepted passable tasks p → ⊥ }
    ensures badly { (passable : Place → Bool) (tasks : List Task) (p : Program) (f : VerifyFault)
        → IsRefusedRightly passable tasks p f → f ≢ OutOfMemory
        → IsRight passable tasks p → RunsWell p → ⊥ }
    ensures broken { (passable : Place → Bool) (tasks : List Task) (p : Program) (f : VerifyFault)
        → IsRefusedRightly passable tasks p f → IsBrokenBy p f }
    ensures of_order { (passable : Place → Bool) (tasks : List Task) (p : Program) (f : VerifyFault)
        → IsRefusedRightly passable tasks p f → HasRanges passable tasks p → IsOfOrder p f }
{}
