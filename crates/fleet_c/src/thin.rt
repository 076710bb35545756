//! Accepted programs without their implied awaits.

ghost use Rattle.std.specs.Prelude.{IfOk, IfErr};
ghost use Rattle.fleet_model.specs.Program.{Program};
ghost use Rattle.fleet_code.specs.Spelling.{SpellsShortest};
ghost use Rattle.fleet_c.specs.Thin.{IsThinProgram, ThinsTexts};
ghost use Rattle.fleet_c.specs.Verify.{IsAcceptStop, IsVerifyStop};

use crate::fault::CallFault;
use crate::problem::{Problem, read_problem};
use crate::verify::accept;
use fleet_adg::{ThinFault, thin_bytes};
use std::alloc::Global;

/// The bytes of the program that the bytes spell, without its implied awaits.
fn bytes_of(alloc: Global, problem: &Problem, bytes: &[u8]) -> Result<Vec<u8>, CallFault>
    ensures thinned { IfOk result (λ thinned. (program : Program)
        × IsThinProgram problem.now.grid problem.now.instance bytes.now program
        × SpellsShortest thinned.items program) }
    ensures stop { IfErr result (IsAcceptStop problem.now.grid problem.now.instance bytes.now) }
{
    let accepted = accept(alloc, problem, bytes)?;
    match thin_bytes(alloc, &accepted) {
        Ok(thinned) => Ok(thinned.bytes),
        Err(ThinFault::OutOfMemory) => Err(CallFault::OutOfMemory),
    }
}

/// The bytes of the program that the bytes spell without its implied awaits, if it is accepted for the map and the
/// instance of the texts.
pub fn thin_texts(
    alloc: Global,
    map: &[u8],
    scen: &[u8],
    agents: u16,
    bytes: &[u8],
) -> Result<Vec<u8>, CallFault>
    ensures thinned { IfOk result (λ thinned. ThinsTexts map.now scen.now agents bytes.now
        thinned.items) }
    ensures stop { IfErr result (IsVerifyStop map.now scen.now agents bytes.now) }
{
    let problem = read_problem(alloc, map, scen, agents)?;
    bytes_of(alloc, &problem, bytes)
}
