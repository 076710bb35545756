//! Why a plan is not right for a map and an instance, or not free of conflict.

ghost use Rattle.fleet_text.specs.Sink.{IsWorking, TakesAll};
ghost use Rattle.fleet_text.specs.Words.{line_text};
ghost use Rattle.fleet_plan.specs.RefusalWords.{pair_words, cycle_words, conflict_words};

use crate::plan::Plan;
use fleet_text::{
    OutFault, Refusal, TraceOut, Word, put_line, put_memory, put_named, put_named_at, put_named_by,
};
use std::alloc::AllocError;
use thiserror::Error;

/// A conflict between agents of a plan (Stern et al. 2019). Step `time` leads from `time` to `time + 1`.
#[derive(Clone, Copy, Debug, Error)]
pub enum Conflict {
    /// Agents `i` and `j` stand on one cell at `time`; `i` is below `j`.
    #[error("agents {i} and {j} are on one cell at time {time}")]
    Vertex { time: u32, i: u16, j: u16 },
    /// Agents `i` and `j` change places in step `time`; `i` is below `j`.
    #[error("agents {i} and {j} change places after time {time}")]
    Swapping { time: u32, i: u16, j: u16 },
    /// Three or more agents, of which `least` is the least, each go in step `time` to the cell of the next one.
    #[error("agent {least} and others go round in a ring after time {time}")]
    Cycle { time: u32, least: u16 },
}

/// The first fault of a plan, in the order of the variants.
#[derive(Clone, Copy, Debug, Error)]
pub enum PlanFault {
    #[error("out of memory")]
    OutOfMemory,
    /// The plan has another number of agents than the instance.
    #[error("the plan has another number of agents than the instance")]
    Agents,
    /// The first cell of an agent is not its start; it is the least such agent.
    #[error("agent {agent} does not begin on its start")]
    Start { agent: u16 },
    /// The last cell of an agent is not its goal; it is the least such agent.
    #[error("agent {agent} does not end on its goal")]
    Goal { agent: u16 },
    /// The cell of an agent is not passable, or is neither the cell before nor one of its four neighbours. It is the
    /// least such agent, and its least such time.
    #[error("agent {agent} goes wrong at time {time}")]
    Step { agent: u16, time: u32 },
    /// The first conflict by time, then by kind in the order of `Conflict`, then by agents.
    #[error(transparent)]
    Conflict(Conflict),
}

impl From<AllocError> for PlanFault {
    ghost use Rattle.std.specs.Prelude.{◌≡◌};
    ghost use Rattle.fleet_plan.specs.declared.plan_fault.PlanFault.TheVariants.{OutOfMemory};

    ghost from_gives = { λ _ e. e ≡ OutOfMemory };

    fn from(_e: AllocError) -> PlanFault {
        PlanFault::OutOfMemory
    }
}

/// Why a plan was refused, with the plan.
#[derive(Drop)]
pub struct PlanRefusal {
    pub fault: PlanFault,
    pub plan: Plan,
}

impl Refusal for PlanFault {
    ghost use Rattle.fleet_plan.specs.RefusalWords.{check_words, is_check_failure};

    ghost words = { check_words };

    ghost is_failure = { is_check_failure };

    fn put<O: TraceOut>(&self, out: &mut O) -> Result<(), OutFault> {
        match *self {
            PlanFault::OutOfMemory => put_memory(out),
            PlanFault::Agents => put_named(out, "check", 2, "Agents"),
            PlanFault::Start { agent } => put_named_at(
                out,
                "check",
                3,
                "Start",
                "agent",
                agent as u64,
            ),
            PlanFault::Goal { agent } => put_named_at(
                out,
                "check",
                4,
                "Goal",
                "agent",
                agent as u64,
            ),
            PlanFault::Step { agent, time } => put_named_by(
                out,
                "check",
                5,
                "Step",
                ("agent", agent as u64),
                ("time", time as u64),
            ),
            PlanFault::Conflict(conflict) => put_conflict(out, conflict),
        }
    }

    fn is_failure(&self) -> bool {
        matches!(self, PlanFault::OutOfMemory)
    }
}

/// Writes the line of a conflict in a plan.
fn put_conflict<O: TraceOut>(out: &mut O, conflict: Conflict) -> Result<(), OutFault>
    requires { IsWorking (O.state out.old) }
    ensures { TakesAll (O.state out.old) (O.state out.new) result
        (line_text (conflict_words conflict)) }
{
    match conflict {
        Conflict::Vertex { time, i, j } => put_pair(out, "Vertex", time, i, j),
        Conflict::Swapping { time, i, j } => put_pair(out, "Swapping", time, i, j),
        Conflict::Cycle { time, least } => put_cycle(out, time, least),
    }
}

/// Writes the line of a conflict of two agents in a plan.
fn put_pair<O: TraceOut>(
    out: &mut O,
    kind: &'static str,
    time: u32,
    i: u16,
    j: u16,
) -> Result<(), OutFault>
    requires { IsWorking (O.state out.old) }
    ensures { TakesAll (O.state out.old) (O.state out.new) result
        (line_text (pair_words kind.now time i j)) }
{
    put_line(
        out,
        &[
            Word::Text("check"),
            Word::Number(6),
            Word::Text("Conflict"),
            Word::Text(kind),
            Word::Text("time"),
            Word::Number(time as u64),
            Word::Text("i"),
            Word::Number(i as u64),
            Word::Text("j"),
            Word::Number(j as u64),
        ],
    )
}

/// Writes the line of a cycle in a plan.
fn put_cycle<O: TraceOut>(out: &mut O, time: u32, least: u16) -> Result<(), OutFault>
    requires { IsWorking (O.state out.old) }
    ensures { TakesAll (O.state out.old) (O.state out.new) result
        (line_text (cycle_words time least)) }
{
    put_line(
        out,
        &[
            Word::Text("check"),
            Word::Number(6),
            Word::Text("Conflict"),
            Word::Text("Cycle"),
            Word::Text("time"),
            Word::Number(time as u64),
            Word::Text("least"),
            Word::Number(least as u64),
        ],
    )
}
