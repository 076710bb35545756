//! Why no times are told of an accepted program, or no rest of it is written.

use fleet_text::{OutFault, Refusal, TraceOut, put_memory, put_named, put_named_at};
use thiserror::Error;

/// Why no times are told of an accepted program, or no rest of it is written.
#[derive(Clone, Copy, Debug, Error)]
pub enum TimesFault {
    #[error("out of memory")]
    OutOfMemory,
    /// They have to be words `A:N` in rising order of agent, one space between two, each of which is an action.
    #[error("what is broken is no list of actions of the program")]
    Broken,
    /// It has to be `A X` or `A:N X`, of an agent or an action of the program, and X from 1 to a billion.
    #[error("line {line} says no cost of an agent or an action of the program")]
    Cost { line: u64 },
    /// It has to be `A:X,Y` or `A:X,Y:X,Y`, an agent of the program and one or two cells of the map.
    #[error("what is dead is no agent and its cells")]
    Dead,
}

impl Refusal for TimesFault {
    ghost use Rattle.fleet_dispatch.specs.RefusalWords.{times_words, is_times_failure};

    ghost words = { times_words };

    ghost is_failure = { is_times_failure };

    fn put<O: TraceOut>(&self, out: &mut O) -> Result<(), OutFault> {
        match *self {
            TimesFault::OutOfMemory => put_memory(out),
            TimesFault::Broken => put_named(out, "times", 2, "Broken"),
            TimesFault::Cost { line } => put_named_at(out, "times", 3, "Cost", "line", line),
            TimesFault::Dead => put_named(out, "times", 4, "Dead"),
        }
    }

    fn is_failure(&self) -> bool {
        matches!(self, TimesFault::OutOfMemory)
    }
}
