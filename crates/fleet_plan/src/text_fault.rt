//! Why a text is no plan.

use fleet_text::{OutFault, Refusal, TraceOut, put_memory, put_named, put_named_at};
use std::alloc::AllocFailed;
use thiserror::Error;

/// The first fault of a plan text, from the front. Lines count from 1.
#[derive(Clone, Copy, Debug, Error)]
pub enum TextFault {
    #[error("out of memory")]
    OutOfMemory,
    /// A line is no list of cells.
    #[error("line {line} is no list of cells")]
    Form { line: u64 },
    /// A line has more than 65,536 cells.
    #[error("line {line} has more than 65536 cells")]
    Length { line: u64 },
    /// There is no line, or there are more than 1,024.
    #[error("there are not 1 to 1024 agents")]
    AgentCount,
}

impl<T: Drop> From<AllocFailed<T>> for TextFault {
    ghost use Rattle.std.specs.Prelude.{◌≡◌};
    ghost use Rattle.fleet_plan.specs.declared.text_fault.TextFault.TheVariants.{OutOfMemory};

    ghost from_gives = { λ _ e. e ≡ OutOfMemory };

    fn from(_e: AllocFailed<T>) -> TextFault {
        TextFault::OutOfMemory
    }
}

impl Refusal for TextFault {
    ghost use Rattle.fleet_plan.specs.RefusalWords.{text_words, is_text_failure};

    ghost words = { text_words };

    ghost is_failure = { is_text_failure };

    fn put<O: TraceOut>(&self, out: &mut O) -> Result<(), OutFault> {
        match *self {
            TextFault::OutOfMemory => put_memory(out),
            TextFault::Form { line } => put_named_at(out, "text", 2, "Form", "line", line),
            TextFault::Length { line } => put_named_at(out, "text", 3, "Length", "line", line),
            TextFault::AgentCount => put_named(out, "text", 4, "AgentCount"),
        }
    }

    fn is_failure(&self) -> bool {
        matches!(self, TextFault::OutOfMemory)
    }
}
