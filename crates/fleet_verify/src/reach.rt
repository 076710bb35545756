//! The actions at which chains of needs begin: for each action and each agent the greatest action of that agent from
//! which the action is reached.

ghost use Rattle.std.specs.Prelude.{◌<◌, length, IfOk};
ghost use Rattle.fleet_model.specs.Program.{Program};
ghost use Rattle.fleet_model.specs.Chain.{IsAction};
ghost use Rattle.fleet_verify.specs.Reach.{IsReachOf, IsGreatest};

use crate::verifier::Accepted;
use fleet_model::{ActionId, OutOfMemory, ProgramView};
use fleet_needs::Pieces;
use std::alloc::Global;

/// For each action and each agent of one program the greatest action of the agent that begins a chain of needs which
/// ends with the action. Kept as pieces for each two agents, on which the count stays or rises by one with each action.
#[derive(Drop)]
pub struct Reach {
    pieces: Pieces,
}

impl Reach {
    /// The reach of an accepted program. It fails only if memory is refused.
    pub fn of<P: ProgramView>(
        alloc: Global,
        accepted: &Accepted<'_, P>,
    ) -> Result<Reach, OutOfMemory>
        ensures { IfOk result (IsReachOf (P.program accepted.now.program)) }
    {
        let pieces = Pieces::of(alloc, accepted.program(), accepted.chain())?;
        Ok(Reach { pieces })
    }

    /// The greatest number of an action of the agent that begins a chain which ends with this action, or 0 if there is
    /// none. Both are in the program whose reach this is. Takes no memory.
    pub fn greatest(&self, to: ActionId, agent: u16) -> u32
        ensures { (p : Program) → IsReachOf p self.now → IsAction p to → agent < length p
            → IsGreatest p to agent result }
    {
        self.pieces.greatest(to, agent)
    }
}
