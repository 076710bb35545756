//! Rows of counts. This function does nothing: its contract is the law.

ghost use Rattle.std.specs.Prelude.{ℕ};
ghost use Rattle.fleet_model.specs.declared.program.ActionId.{ActionId};
ghost use Rattle.fleet_model.specs.Program.{Program};
ghost use Rattle.fleet_model.specs.Chain.{IsAction, DirectlyNeeds};
ghost use Rattle.fleet_verify.specs.Rows.{IsRow, IsRowOfNeeds};

/// The row of an action is made of the rows of the actions that it directly needs.
pub fn rows_are_joined()
    ensures { (p : Program) (a : ActionId) (rows : ActionId → ℕ → ℕ) (row : ℕ → ℕ) →
        IsAction p a →
        ((b : ActionId) → IsAction p b → DirectlyNeeds p a b → IsRow p b (rows b)) →
        IsRowOfNeeds p a rows row → IsRow p a row }
{}
