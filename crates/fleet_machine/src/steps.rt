//! How far agents have read their programs, where they start, where a step takes them, and how many a tick looks at.

ghost use Rattle.std.specs.Prelude.{◌≡◌, ◌+◌, ◌-◌, ◌<◌, ◌≤◌, IfOk};
ghost use Rattle.fleet_model.specs.Geometry.{place_of, stepped};
ghost use Rattle.fleet_model.specs.Machine.{opening};
ghost use Rattle.fleet_machine.specs.Near.{IsNear, AreNear};
ghost use Rattle.fleet_machine.specs.Machine.{unread};

use fleet_model::{Cell, MAX_AGENTS, MAX_MOVES, Place, ProgramView, Standing, Step};
use std::alloc::{AllocError, Global};

/// How many awaits stand before an agent's next action, and how many of that action's own are known to be met, from the
/// first one on. Who has read all of them has read the step too.
#[derive(Clone, Copy)]
pub struct Mark {
    pub before: u32,
    pub met: u16,
    pub step: Step,
}

impl Mark {
    /// Nothing is read yet.
    pub fn unread() -> Mark
        ensures { result ≡ unread }
    {
        Mark {
            before: 0,
            met: 0,
            step: Step::Dwell,
        }
    }
}

/// An agent at its start.
fn at_start(cell: Cell) -> Standing
    ensures place { result ≡ record { place = place_of cell; count = 0 } }
    ensures near { IsNear result }
{
    Standing {
        place: Place::from(cell),
        count: 0,
    }
}

/// Where an agent stands after a step, and how many actions it has finished then.
#[tactic(auto, using(crate::proofs::Ready::near_place, crate::proofs::Ready::near_moved))]
pub fn after_step(standing: Standing, step: Step) -> Standing
    requires few { standing.count < MAX_MOVES }
    requires near { IsNear standing }
    ensures place { result.place ≡ stepped standing.place step }
    ensures count { result.count ≡ standing.count + 1 }
    ensures near { IsNear result }
{
    let Standing { place, count } = standing;
    Standing {
        place: place.after(step),
        count: count + 1,
    }
}

/// The agents on their starts.
pub fn starts<P: ProgramView>(alloc: Global, program: &P) -> Result<Vec<Standing>, AllocError>
    ensures opening { IfOk result (λ agents. agents.items ≡ opening (P.program program.now)) }
    ensures near { IfOk result (λ agents. AreNear agents.items) }
{
    let count = program.agents();
    let mut agents = Vec::with_capacity(alloc, count as usize)?;
    for i in 0..count {
        agents.push(at_start(program.start(i)))?;
    }
    Ok(agents)
}

/// How many agents a tick looked at: those that were ready, and of those that it judged those that did not move.
pub fn look_count(ready: u16, moved: u16, judged: u16) -> u16
    requires ready { ready ≤ MAX_AGENTS }
    requires judged { judged ≤ MAX_AGENTS }
    requires moved { moved ≤ judged }
    ensures { result ≡ ready + (judged - moved) }
{
    let woken = judged - moved;
    ready + woken
}
