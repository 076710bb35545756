//! Programs of the plans of texts, as bytes.

ghost use Rattle.std.specs.Prelude.{◌≡◌, IfOk, IfErr};
ghost use Rattle.fleet_model.specs.Program.{Program};
ghost use Rattle.fleet_code.specs.Spelling.{SpellsShortest};
ghost use Rattle.fleet_c.specs.Compile.{deps_of, IsProgramOf, CompilesTexts, IsProgramStop, IsCompileStop};

use crate::check::checked_plan;
use crate::fault::CallFault;
use crate::problem::{Problem, read_problem};
use fleet_adg::compile_bytes;
use fleet_model::Deps;
use std::alloc::Global;

/// What is asked of a program: for how many of the scenario's agents, what its actions await, and for how many actions
/// each agent stays at the end.
#[derive(Clone, Copy)]
pub struct Wish {
    pub agents: u16,
    pub deps: u8,
    pub dwell: u32,
}

/// Which leavings actions await: that of the latest visit alone where the number is 0, and else the last one of each
/// agent.
fn deps_of(number: u8) -> Deps
    ensures { result ≡ deps_of number }
{
    if number == 0 { Deps::Last } else { Deps::All }
}

/// The bytes of the program of the plan for which the text stands.
fn bytes_of(
    alloc: Global,
    problem: &Problem,
    plan: &[u8],
    wish: &Wish,
) -> Result<Vec<u8>, CallFault>
    ensures compiled { IfOk result (λ bytes. (program : Program)
        × IsProgramOf problem.now.grid problem.now.instance plan.now (deps_of wish.now.deps) wish.now.dwell program
        × SpellsShortest bytes.items program) }
    ensures stop { IfErr result (IsProgramStop problem.now.grid problem.now.instance plan.now
        (deps_of wish.now.deps) wish.now.dwell) }
{
    let checked = checked_plan(alloc, problem, plan)?;
    match compile_bytes(alloc, &checked, deps_of(wish.deps), wish.dwell) {
        Ok(compiled) => Ok(compiled.bytes),
        Err(fault) => Err(CallFault::Compile(fault)),
    }
}

/// The bytes of the program of the plan for which the texts stand.
pub fn compile_texts(
    alloc: Global,
    map: &[u8],
    scen: &[u8],
    plan: &[u8],
    wish: &Wish,
) -> Result<Vec<u8>, CallFault>
    ensures compiled { IfOk result (λ bytes. CompilesTexts map.now scen.now wish.now.agents plan.now
        (deps_of wish.now.deps) wish.now.dwell bytes.items) }
    ensures stop { IfErr result (IsCompileStop map.now scen.now wish.now.agents plan.now
        (deps_of wish.now.deps) wish.now.dwell) }
{
    let problem = read_problem(alloc, map, scen, wish.agents)?;
    bytes_of(alloc, &problem, plan, wish)
}
