//! Programs of bytes, which are accepted for a map and an instance of texts.

ghost use Rattle.std.specs.Prelude.{◌≡◌, IfOk, IfErr};
ghost use Rattle.fleet_c.specs.Verify.{Accepts, IsAcceptStop, VerifiesTexts, IsVerifyStop};

use crate::fault::CallFault;
use crate::problem::{Problem, read_problem};
use fleet_code::{CodeView, view};
use fleet_model::{ProgramView, total_awaits, total_moves};
use fleet_verify::{Accepted, verify};
use std::alloc::Global;

/// The numbers of a program that is accepted: its agents, its moves, its awaits, and the actions of its longest chain.
#[repr(C)]
#[derive(Clone, Copy)]
pub struct FleetAccepted {
    pub agents: u32,
    pub moves: u32,
    pub awaits: u32,
    pub chain: u32,
}

/// The program that the bytes spell, read in place and accepted for the map and the instance.
pub fn accept<'g>(
    alloc: Global,
    problem: &'g Problem,
    bytes: &'g [u8],
) -> Result<Accepted<'g, CodeView<'g>>, CallFault>
    ensures accepted { IfOk result (λ a. Accepts problem.now.grid problem.now.instance bytes.now
        a.program.program a.chain) }
    ensures grid { IfOk result (λ a. a.grid ≡ problem.now.grid) }
    ensures instance { IfOk result (λ a. a.instance ≡ problem.now.instance) }
    ensures stop { IfErr result (IsAcceptStop problem.now.grid problem.now.instance bytes.now) }
{
    let program = match view(alloc, bytes) {
        Ok(program) => program,
        Err(fault) => return Err(CallFault::Load(fault)),
    };
    match verify(alloc, program, &problem.grid, &problem.instance) {
        Ok(accepted) => Ok(accepted),
        Err(refused) => Err(CallFault::Verify(refused.fault)),
    }
}

/// The numbers of the program that the bytes spell, if it is accepted for the map and the instance of the texts.
pub fn verify_texts(
    alloc: Global,
    map: &[u8],
    scen: &[u8],
    agents: u16,
    bytes: &[u8],
) -> Result<FleetAccepted, CallFault>
    ensures accepted { IfOk result (VerifiesTexts map.now scen.now agents bytes.now) }
    ensures stop { IfErr result (IsVerifyStop map.now scen.now agents bytes.now) }
{
    let problem = read_problem(alloc, map, scen, agents)?;
    let accepted = accept(alloc, &problem, bytes)?;
    let program = accepted.program();
    Ok(FleetAccepted {
        agents: u32::from(program.agents()),
        moves: total_moves(program),
        awaits: total_awaits(program),
        chain: accepted.chain(),
    })
}
