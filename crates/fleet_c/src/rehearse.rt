//! Rehearsals of programs of bytes, as text.

ghost use Rattle.std.specs.Prelude.{◌≡◌, IfOk, IfErr};
ghost use Rattle.fleet_c.specs.Rehearse.{end_status, stop_of, RehearsesBytes, IsRehearseStop};

use crate::answer::{DONE, STUCK};
use crate::fault::CallFault;
use fleet_code::view;
use fleet_model::ProgramView;
use fleet_run::{End, HoldText, RunFault, VecOut, rehearse};
use std::alloc::Global;

/// The text of a rehearsal, and how it ended.
#[derive(Drop)]
pub struct Rehearsed {
    pub text: VecOut,
    pub end: End,
}

/// The status of a rehearsal that ended so.
pub fn end_status(end: End) -> u32
    ensures { result ≡ end_status end }
{
    match end {
        End::Finished => DONE,
        End::Stuck => STUCK,
    }
}

/// The refusal of a rehearsal that stopped so. Its text is kept in memory, so a write that failed is a growth that was
/// refused.
fn stop_of(fault: RunFault) -> CallFault
    ensures { result ≡ stop_of fault }
{
    match fault {
        RunFault::Write => CallFault::OutOfMemory,
        fault => CallFault::Run(fault),
    }
}

/// Rehearses the program that the bytes spell, under the holds for which the bytes `holds` stand.
pub fn rehearse_bytes(alloc: Global, bytes: &[u8], holds: &[u8]) -> Result<Rehearsed, CallFault>
    ensures rehearsed { IfOk result (λ r. RehearsesBytes bytes.now holds.now r.text.bytes r.end) }
    ensures stop { IfErr result (IsRehearseStop bytes.now holds.now) }
{
    let program = match view(alloc, bytes) {
        Ok(program) => program,
        Err(fault) => return Err(CallFault::Load(fault)),
    };
    let mut source = HoldText::new(holds, program.agents());
    let mut text = VecOut::new(alloc);
    match rehearse(alloc, &program, &mut source, &mut text) {
        Ok(rehearsal) => Ok(Rehearsed {
            text,
            end: rehearsal.end,
        }),
        Err(fault) => Err(stop_of(fault)),
    }
}
