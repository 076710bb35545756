//! What a call tells its caller: a status, and beside it numbers, bytes in the caller's buffer, or a refusal.

ghost use Rattle.std.specs.Prelude.{◌≡◌};
ghost use Rattle.fleet_c.specs.Answer.{HandsOver, status_of};
ghost use Rattle.fleet_c.specs.Plain.{plain_of};

use crate::fault::CallFault;
use crate::plain::{FleetFault, MEMORY};

/// The call answered.
pub const DONE: u32 = 0;
/// Something is wrong with what was given.
pub const REFUSED: u32 = 1;
/// The buffer is too small for the answer.
pub const TOO_SMALL: u32 = 2;
/// Memory ran out.
pub const FAILED: u32 = 3;
/// The call answered: a rehearsal, which came to an end with agents that wait for ever.
pub const STUCK: u32 = 4;

/// Reports the refusal of a call, and answers its status.
pub fn refuse(stop: &CallFault, fault: &mut FleetFault) -> u32
    ensures fault { fault.new ≡ plain_of stop.now }
    ensures status { result ≡ status_of stop.now }
{
    *fault = stop.plain();
    let lacks_memory = fault.part == MEMORY;
    if lacks_memory { FAILED } else { REFUSED }
}

/// Puts the bytes at the front of the buffer, if it has room for them, and answers `done` then. Tells how many they are
/// in any case.
pub fn hand_over(bytes: &[u8], done: u32, out: &mut [u8], length: &mut usize) -> u32
    ensures { HandsOver bytes.now done out.old out.new length.new result }
{
    *length = bytes.len();
    if out.len() < bytes.len() {
        return TOO_SMALL;
    }
    out[..bytes.len()].copy_from_slice(bytes);
    done
}

/// The same of bytes that were made, with the status of a call that answers.
pub fn hand_made(bytes: &Vec<u8>, out: &mut [u8], length: &mut usize) -> u32
    ensures { HandsOver bytes.now.items DONE out.old out.new length.new result }
{
    hand_over(bytes, DONE, out, length)
}
