//! Why a text is no scenario.

ghost use Rattle.std.specs.Prelude.{◌≡◌};
ghost use Rattle.fleet_scen.specs.RefusalWords.{scen_words};
ghost use Rattle.fleet_scen.specs.Particulars.{particular_words};

use fleet_text::{OutFault, Refusal, TraceOut, put_memory, put_named, put_named_at, put_named_by};
use std::alloc::{AllocError, AllocFailed};
use thiserror::Error;

/// The first fault of a scenario text, from the front. Lines and fields count from 1, and empty lines count too.
#[derive(Clone, Copy, Debug, Error)]
pub enum ScenFault {
    #[error("out of memory")]
    OutOfMemory,
    /// The first line that has a word is no version line, or no line has one.
    #[error("the first line that is not empty is no version line")]
    Version,
    /// A line has fewer or more than nine words.
    #[error("line {line} has not nine fields")]
    Fields { line: u64 },
    /// A field is no number up to 65,535.
    #[error("field {field} of line {line} is no number up to 65535")]
    Number { line: u64, field: u8 },
    /// A line is for a map of other sizes.
    #[error("line {line} is for a map of other sizes")]
    OtherMap { line: u64 },
    /// The start or the goal of a line is not passable.
    #[error("the start or the goal of line {line} is not passable")]
    Blocked { line: u64 },
    /// The start of a line is that of an earlier agent.
    #[error("the start of line {line} is that of an earlier agent")]
    SharedStart { line: u64 },
    /// The goal of a line is that of an earlier agent.
    #[error("the goal of line {line} is that of an earlier agent")]
    SharedGoal { line: u64 },
    /// No agent was asked for, or there is none.
    #[error("there are no agents")]
    NoAgents,
    /// More than 1,024 agents were asked for, or there are more.
    #[error("there are more than 1024 agents")]
    TooMany,
    /// There are fewer agents than were asked for.
    #[error("there are fewer agents than were asked for")]
    Fewer,
}

impl<T: Drop> From<AllocFailed<T>> for ScenFault {
    ghost use Rattle.std.specs.Prelude.{◌≡◌};
    ghost use Rattle.fleet_scen.specs.declared.fault.ScenFault.TheVariants.{OutOfMemory};

    ghost from_gives = { λ _ e. e ≡ OutOfMemory };

    fn from(_e: AllocFailed<T>) -> ScenFault {
        ScenFault::OutOfMemory
    }
}

impl From<AllocError> for ScenFault {
    ghost use Rattle.std.specs.Prelude.{◌≡◌};
    ghost use Rattle.fleet_scen.specs.declared.fault.ScenFault.TheVariants.{OutOfMemory};

    ghost from_gives = { λ _ e. e ≡ OutOfMemory };

    fn from(_e: AllocError) -> ScenFault {
        ScenFault::OutOfMemory
    }
}

/// What the line of a fault of a scenario says: its number and its name, and the line and the field in which it is, if
/// it is in one.
#[derive(Clone, Copy)]
enum Particulars {
    Memory,
    Named(u64, &'static str),
    At(u64, &'static str, u64),
    Field(u64, u8),
}

fn particulars_of(fault: ScenFault) -> Particulars
    ensures { particular_words result ≡ scen_words fault }
{
    match fault {
        ScenFault::OutOfMemory => Particulars::Memory,
        ScenFault::Version => Particulars::Named(2, "Version"),
        ScenFault::Fields { line } => Particulars::At(3, "Fields", line),
        ScenFault::Number { line, field } => Particulars::Field(line, field),
        ScenFault::OtherMap { line } => Particulars::At(5, "OtherMap", line),
        ScenFault::Blocked { line } => Particulars::At(6, "Blocked", line),
        ScenFault::SharedStart { line } => Particulars::At(7, "SharedStart", line),
        ScenFault::SharedGoal { line } => Particulars::At(8, "SharedGoal", line),
        ScenFault::NoAgents => Particulars::Named(9, "NoAgents"),
        ScenFault::TooMany => Particulars::Named(10, "TooMany"),
        ScenFault::Fewer => Particulars::Named(11, "Fewer"),
    }
}

impl Refusal for ScenFault {
    ghost use Rattle.fleet_scen.specs.RefusalWords.{scen_words, is_scen_failure};

    ghost words = { scen_words };

    ghost is_failure = { is_scen_failure };

    fn put<O: TraceOut>(&self, out: &mut O) -> Result<(), OutFault> {
        match particulars_of(*self) {
            Particulars::Memory => put_memory(out),
            Particulars::Named(number, name) => put_named(out, "scen", number, name),
            Particulars::At(number, name, line) => {
                put_named_at(out, "scen", number, name, "line", line)
            }
            Particulars::Field(line, field) => {
                let field = ("field", field as u64);
                put_named_by(out, "scen", 4, "Number", ("line", line), field)
            }
        }
    }

    fn is_failure(&self) -> bool {
        matches!(self, ScenFault::OutOfMemory)
    }
}
