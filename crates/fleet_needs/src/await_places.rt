//! Where awaits and the rows that stand for actions are found in lists of all of a program, which go agent by agent,
//! action by action. Places count from 0.

ghost use Rattle.std.specs.Prelude.{◌≡◌, ◌+◌, ◌<◌, ◌≤◌, length, slice_get, Some, IfOk};
ghost use Rattle.fleet_model.specs.{Program.AreInRange, Program.awaits_of, Program.moves, Program.total_awaits, Chain.IsAction};
ghost use Rattle.fleet_needs.specs.{Implied.AreAwaitPlaces, Implied.first_await, Places.row_place};

use fleet_model::{ActionId, OutOfMemory, ProgramView, agent_awaits};
use std::alloc::Global;
use std::marker::Model;

/// Where the awaits of each agent begin among all, which stand agent by agent, action by action.
#[derive(Drop)]
pub struct AwaitPlaces {
    firsts: Vec<u32>,
}

impl Model for AwaitPlaces {
    ghost use Rattle.std.specs.Prelude.{List, ℕ};

    ghost Value = { List ℕ };

    ghost view = { λ m. m.firsts.items };
}

impl AwaitPlaces {
    /// The places of the awaits of a program.
    pub fn of<P: ProgramView>(alloc: Global, program: &P) -> Result<AwaitPlaces, OutOfMemory>
        ensures { IfOk result (AreAwaitPlaces (P.program program.now)) }
    {
        let agents = program.agents();
        let mut firsts = vec![in alloc; 0; usize::from(agents)]?;
        let mut total = 0;
        for i in 0..agents {
            firsts[usize::from(i)] = total;
            total += agent_awaits(program, i);
        }
        Ok(AwaitPlaces { firsts })
    }

    /// The place of the first await of an action. Places count from 0.
    pub fn first<P: ProgramView>(&self, program: &P, action: ActionId) -> usize
        requires places { AreAwaitPlaces (P.program program.now) self.now }
        requires action { IsAction (P.program program.now) action }
        ensures place { result ≡ first_await (P.program program.now) action }
        ensures within { result
            + length (awaits_of (P.program program.now) action.agent action.number)
            ≤ total_awaits (P.program program.now) }
    {
        let before = program.awaits_before(action.agent, action.number - 1);
        self.firsts[usize::from(action.agent)] as usize + before as usize
    }

    /// The place of the row that stands for an action, or, with the number 0, for none of its agent. Actions of an
    /// agent share a place if those from the one to the other await nothing.
    pub(crate) fn row_place<P: ProgramView>(&self, program: &P, action: ActionId) -> usize
        requires places { AreAwaitPlaces (P.program program.now) self.now }
        requires agent { action.agent < length (P.program program.now) }
        requires last { action.number ≤ moves (P.program program.now) action.agent }
        ensures place { result ≡ row_place (P.program program.now) action }
        ensures within { result
            < total_awaits (P.program program.now) + length (P.program program.now) }
    {
        let before = program.awaits_before(action.agent, action.number);
        let agent = usize::from(action.agent);
        self.firsts[agent] as usize + agent + before as usize
    }
}

/// The awaited action of await `k` of an action.
pub(crate) fn awaited_at<P: ProgramView>(program: &P, action: ActionId, k: u16) -> ActionId
    requires range { AreInRange (P.program program.now) }
    requires action { IsAction (P.program program.now) action }
    requires place { k < length (awaits_of (P.program program.now) action.agent action.number) }
    ensures awaited { slice_get (awaits_of (P.program program.now) action.agent action.number) k
        ≡ Some (record { agent = result.agent; count = result.number }) }
    ensures action { IsAction (P.program program.now) result }
{
    let awaited = program.await_at(action.agent, action.number, k);
    ActionId {
        agent: awaited.agent,
        number: awaited.count,
    }
}
