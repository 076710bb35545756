//! Agents that go on as far as their awaits allow; while one waits, the one that it waits for goes on. Of each action
//! that is finished the sum of its own cost and of the greatest that is noted of what it needs is noted.

ghost use Rattle.std.specs.Prelude.{◌≤◌, ℕ, IfOk, OnOk, IfNone, IfSome};
ghost use Rattle.fleet_model.specs.Chain.{IsAction, awaited};
ghost use Rattle.fleet_needs.specs.{Critical.noted_in, CostWalk.IsCostWalk, CostWalk.HasGoneOn, CostWalk.IsUnmet, CostWalk.after};

use crate::critical::{ActionCosts, CriticalCosts, Stage};
use fleet_model::{ActionId, Await, Instruction, MAX_AGENTS, OutOfMemory, ProgramView};
use std::alloc::Global;

/// An action has an instruction for each await, of which there are fewer than agents, and one for its step.
const MOST_INSTRUCTIONS: u16 = MAX_AGENTS as u16;

/// The agent goes on past all awaits of its next action, finishes it and notes its cost; or to an await that is unmet.
fn advance<P: ProgramView, C: ActionCosts>(
    program: &P,
    costs: &C,
    walk: &mut CriticalCosts,
    agent: u16,
) -> Result<Option<Await>, OutOfMemory>
    requires walk { IsCostWalk (P.program program.now) (C.cost costs.now) (P.offset program.now)
        walk.old }
    requires next { IsAction (P.program program.now) (after agent (noted_in walk.old agent)) }
    ensures walk { OnOk result (IsCostWalk (P.program program.now) (C.cost costs.now)
        (P.offset program.now) walk.new) }
    ensures noted { IfOk result (λ unmet. IfNone unmet (HasGoneOn walk.old walk.new agent 1)) }
    ensures unmet { IfOk result (λ unmet. IfSome unmet
        (IsUnmet (P.program program.now) walk.old agent)) }
    ensures same { IfOk result (λ unmet. IfSome unmet (λ _. HasGoneOn walk.old walk.new agent 0)) }
{
    let _ = program.agents();
    let finished = walk.finished(agent) as u32;
    let stage = walk.stage(agent);
    let mut at = stage.at;
    let mut greatest = stage.greatest;
    for met in stage.met..MOST_INSTRUCTIONS {
        let reading = program.read(agent, finished, met, at);
        match reading.instruction {
            Instruction::Await(awaited) => {
                let Some(cost) = walk.noted(awaited) else {
                    walk.stop(agent, Stage { met, at, greatest });
                    return Ok(Some(awaited));
                };
                at = reading.after;
                greatest = greatest.max(cost);
            }
            Instruction::Step(_) => {
                let number = finished + 1;
                let own = costs.cost(ActionId { agent, number });
                walk.finish(agent, greatest + u64::from(own), reading.after)?;
                return Ok(None);
            }
        }
    }
    unreachable!()
}

/// Lets agents go on until the action that the goal names is finished: its agent, and while that waits, the agent for
/// which it waits, which may wait in turn.
pub(crate) fn reach<P: ProgramView, C: ActionCosts>(
    alloc: Global,
    program: &P,
    costs: &C,
    walk: &mut CriticalCosts,
    goal: Await,
) -> Result<(), OutOfMemory>
    requires walk { IsCostWalk (P.program program.now) (C.cost costs.now) (P.offset program.now)
        walk.old }
    requires goal { IsAction (P.program program.now) (awaited goal) }
    ensures walk { OnOk result (IsCostWalk (P.program program.now) (C.cost costs.now)
        (P.offset program.now) walk.new) }
    ensures grown { OnOk result ((i : ℕ) → noted_in walk.old i ≤ noted_in walk.new i) }
    ensures reached { OnOk result (goal.count ≤ noted_in walk.new goal.agent) }
{
    let mut goals = Vec::new(alloc);
    let mut last = goal;
    loop {
        match walk.noted(last) {
            None => {
                if let Some(awaited) = advance(program, costs, walk, last.agent)? {
                    goals.push(last)?;
                    last = awaited;
                }
            }
            Some(_) => match goals.pop() {
                Some(before) => last = before,
                None => return Ok(()),
            },
        }
    }
}
