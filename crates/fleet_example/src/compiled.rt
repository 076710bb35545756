//! The programs of small plans. This function does nothing: its contract is the law.

ghost use Rattle.std.specs.Prelude.{◌≡◌, [], ◌∷◌};
ghost use Rattle.fleet_model.specs.declared.deps.Deps.{Deps};
ghost use Rattle.fleet_adg.specs.Compiled.{compiled};
ghost use Rattle.fleet_example.specs.Programs.{await_on, pair};
ghost use Rattle.fleet_example.specs.Plans.{base_plan, corridor, there_and_back_plan, pass_plan};
ghost use Rattle.fleet_example.specs.Compiled.{corridor_program, there_and_back_program, pass_program};

/// The programs of small plans, with either kind of awaits.
#[tactic(auto, using(crate::proofs::CompiledPlans::base, crate::proofs::CompiledPlans::corridor_all, crate::proofs::CompiledPlans::corridor_last, crate::proofs::CompiledPlans::there_and_back, crate::proofs::CompiledPlans::pass))]
pub fn worked_plans_compile()
    ensures base { (deps : Deps) → compiled base_plan deps ≡ pair }
    ensures corridor_all { compiled corridor Deps.All
        ≡ corridor_program (await_on 0 1 ∷ await_on 1 2 ∷ []) }
    ensures corridor_last { compiled corridor Deps.Last ≡ corridor_program (await_on 1 2 ∷ []) }
    ensures there_and_back { (deps : Deps) → compiled there_and_back_plan deps
        ≡ there_and_back_program }
    ensures pass { (deps : Deps) → compiled pass_plan deps ≡ pass_program }
{}
