//! Why a program is not accepted.

ghost use Rattle.std.specs.Prelude.{◌∷◌, codes, decimal, map};
ghost use Rattle.fleet_text.specs.Sink.{IsWorking, TakesAll};
ghost use Rattle.fleet_text.specs.Row.{Gathers};
ghost use Rattle.fleet_text.specs.Refusals.{named_at, named_by};
ghost use Rattle.fleet_text.specs.Words.{line_text, next_words, with_spaces};
ghost use Rattle.fleet_verify.specs.RefusalWords.{action_text, unordered_words};

use fleet_model::{ActionId, Cell, OutOfMemory, Visit};
use fleet_text::{
    OutFault, Refusal, Row, TraceOut, Word, put_line, put_memory, put_named, put_named_at,
    put_named_by, put_words,
};
use thiserror::Error;

/// The first fault of a program for a map and an instance, in the order of the variants; of the agents the least is
/// reported, and then the least of its actions.
#[derive(Debug, Drop, Error)]
pub enum VerifyFault {
    #[error("out of memory")]
    OutOfMemory,
    /// The program has another number of agents than the instance.
    #[error("the program and the instance have different numbers of agents")]
    OtherFleet,
    /// An agent begins elsewhere.
    #[error("agent {agent} does not begin on its start")]
    Start {
        agent: u16,
    },
    /// An agent has another goal, or its path does not end on it.
    #[error("agent {agent} does not end on its goal")]
    Goal {
        agent: u16,
    },
    /// An action leads off the passable cells. Action 0 is the start, which is passable on the map that the instance
    /// was read for.
    #[error("action {action} of agent {agent} leads off the passable cells")]
    Step {
        agent: u16,
        action: u32,
    },
    /// An action awaits more actions than the awaited agent has.
    #[error("action {action} of agent {agent} awaits more actions than there are")]
    AwaitRange {
        agent: u16,
        action: u32,
    },
    /// A ring of needs: each action directly needs the one before, and the first, which is the least, needs the last.
    #[error("some actions need each other")]
    Cyclic(Vec<ActionId>),
    /// The visits of a cell have no order: the second may not come directly after the first. The cells are judged as
    /// they first occur in the visits by agent and position, and the visits of a cell by the level of the entering
    /// action, 0 for a start, then by agent and position.
    #[error("a visit of a cell does not wait for the one before to be left")]
    Unordered {
        cell: Cell,
        first: Visit,
        second: Visit,
    },
}

impl From<OutOfMemory> for VerifyFault {
    ghost use Rattle.std.specs.Prelude.{◌≡◌};
    ghost use Rattle.fleet_verify.specs.declared.fault.VerifyFault.TheVariants.{OutOfMemory};

    ghost from_gives = { λ _ e. e ≡ OutOfMemory };

    fn from(_e: OutOfMemory) -> VerifyFault {
        VerifyFault::OutOfMemory
    }
}

impl Refusal for VerifyFault {
    ghost use Rattle.fleet_verify.specs.RefusalWords.{verify_words, is_verify_failure};

    ghost words = { verify_words };

    ghost is_failure = { is_verify_failure };

    fn put<O: TraceOut>(&self, out: &mut O) -> Result<(), OutFault> {
        match self {
            VerifyFault::OutOfMemory => put_memory(out),
            VerifyFault::OtherFleet => put_named(out, "verify", 2, "OtherFleet"),
            VerifyFault::Start { agent } => put_agent(out, 3, "Start", *agent),
            VerifyFault::Goal { agent } => put_agent(out, 4, "Goal", *agent),
            VerifyFault::Step { agent, action } => put_action(out, 5, "Step", *agent, *action),
            VerifyFault::AwaitRange { agent, action } => {
                put_action(out, 6, "AwaitRange", *agent, *action)
            }
            VerifyFault::Cyclic(ring) => put_ring(out, ring.as_slice()),
            VerifyFault::Unordered {
                cell,
                first,
                second,
            } => put_unordered(out, *cell, *first, *second),
        }
    }

    fn is_failure(&self) -> bool {
        matches!(self, VerifyFault::OutOfMemory)
    }
}

/// Writes the line of a fault of an agent.
fn put_agent<O: TraceOut>(
    out: &mut O,
    number: u64,
    name: &'static str,
    agent: u16,
) -> Result<(), OutFault>
    requires { IsWorking (O.state out.old) }
    ensures { TakesAll (O.state out.old) (O.state out.new) result
        (line_text (named_at (codes "verify") number name.now (codes "agent") agent)) }
{
    put_named_at(out, "verify", number, name, "agent", agent as u64)
}

/// Writes the line of a fault of an action.
fn put_action<O: TraceOut>(
    out: &mut O,
    number: u64,
    name: &'static str,
    agent: u16,
    action: u32,
) -> Result<(), OutFault>
    requires { IsWorking (O.state out.old) }
    ensures { TakesAll (O.state out.old) (O.state out.new) result
        (line_text (named_by (codes "verify") number name.now (codes "agent") agent
        (codes "action") action)) }
{
    put_named_by(
        out,
        "verify",
        number,
        name,
        ("agent", agent as u64),
        ("action", action as u64),
    )
}

/// Adds a space and a word `i:n` for each action to the row.
fn put_actions<O: TraceOut>(
    row: &mut Row,
    out: &mut O,
    actions: &[ActionId],
) -> Result<(), OutFault>
    requires { IsWorking (O.state out.old) }
    ensures { Gathers (O.state out.old) (O.state out.new) result row.old row.new
        (next_words (map action_text actions.now)) }
{
    for action in actions {
        row.add_next_two(out, action.agent, b':', action.number)?;
    }
    Ok(())
}

/// Adds the words of a ring to the row.
fn put_ring_words<O: TraceOut>(
    row: &mut Row,
    out: &mut O,
    ring: &[ActionId],
) -> Result<(), OutFault>
    requires { IsWorking (O.state out.old) }
    ensures { Gathers (O.state out.old) (O.state out.new) result row.old row.new
        (with_spaces (codes "verify" ∷ decimal 7 ∷ codes "Cyclic" ∷ map action_text ring.now)) }
{
    put_words(
        row,
        out,
        &[Word::Text("verify"), Word::Number(7), Word::Text("Cyclic")],
    )?;
    put_actions(row, out, ring)
}

/// Writes the line of a ring, in pieces as large as a row.
fn put_ring<O: TraceOut>(out: &mut O, ring: &[ActionId]) -> Result<(), OutFault>
    requires { IsWorking (O.state out.old) }
    ensures { TakesAll (O.state out.old) (O.state out.new) result
        (line_text (codes "verify" ∷ decimal 7 ∷ codes "Cyclic" ∷ map action_text ring.now)) }
{
    let mut row = Row::new();
    put_ring_words(&mut row, out, ring)?;
    row.end_line(out)
}

/// Writes the line of two visits of a cell without order.
fn put_unordered<O: TraceOut>(
    out: &mut O,
    cell: Cell,
    first: Visit,
    second: Visit,
) -> Result<(), OutFault>
    requires { IsWorking (O.state out.old) }
    ensures { TakesAll (O.state out.old) (O.state out.new) result
        (line_text (unordered_words cell first second)) }
{
    put_line(
        out,
        &[
            Word::Text("verify"),
            Word::Number(8),
            Word::Text("Unordered"),
            Word::Text("cell"),
            Word::Pair(cell.x, cell.y),
            Word::Text("first"),
            Word::Of(first.agent, first.position),
            Word::Text("second"),
            Word::Of(second.agent, second.position),
        ],
    )
}
