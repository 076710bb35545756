//! How far each agent of an accepted program still comes if some robots break down.

ghost use Rattle.std.specs.Prelude.{◌≡◌, length, IfOk};
ghost use Rattle.fleet_verify.specs.Times.{AreReached, StopsOthers, stopped_agents};

use crate::schedules::schedules_end_in_time;
use crate::times::Times;
use crate::verifier::Accepted;
use fleet_model::{ActionId, OutOfMemory, ProgramView};
use fleet_needs::ActionCosts;
use std::alloc::Global;

/// The actions that are never ended.
#[derive(Drop)]
struct Breaks<'a> {
    /// For each agent the number of one of its actions, or 0.
    numbers: &'a [u32],
}

impl<'a> ActionCosts for Breaks<'a> {
    ghost use Rattle.fleet_verify.specs.Times.{broken_cost};

    ghost cost = { λ b. broken_cost b.numbers.now };

    fn cost(&self, action: ActionId) -> u32 {
        let broken = match self.numbers.get(usize::from(action.agent)) {
            Some(number) => action.number == *number,
            None => action.number == 0,
        };
        u32::from(broken)
    }
}

/// How many agents do not finish all of their actions, by these counts of each. Takes no memory.
pub fn stopped_agents<P: ProgramView>(program: &P, counts: &[u32]) -> u16
    requires { length counts.now ≡ length (P.program program.now) }
    ensures { result ≡ stopped_agents (P.program program.now) counts.now }
{
    let mut stopped = 0;
    for i in 0..program.agents() {
        let misses = counts[usize::from(i)] < program.moves(i);
        stopped += u16::from(misses);
    }
    stopped
}

/// How many actions of each agent still end if some are never ended: those that no broken one begins a chain of needs
/// to. `breaks` has for each agent the number of the action in which it breaks down, or 0. By `schedules_end_in_time`
/// the counted ones end in time, whatever becomes of the others, and no other one ever ends.
///
/// It goes once over the program, and fails only if memory is refused.
pub fn reached_counts<P: ProgramView>(
    alloc: Global,
    accepted: &Accepted<'_, P>,
    breaks: &[u32],
) -> Result<Vec<u32>, OutOfMemory>
    ensures reached { IfOk result (λ counts. AreReached
        (P.program accepted.now.program) breaks.now counts.items) }
    ensures stops { IfOk result (λ counts. StopsOthers
        (P.program accepted.now.program) breaks.now counts.items) }
{
    schedules_end_in_time();
    let costs = Breaks { numbers: breaks };
    // By the contract of this call what is accepted is in range and numbered.
    let _ = accepted.chain();
    let times = Times::of(alloc, accepted, &costs)?;
    times.free_counts(alloc)
}
