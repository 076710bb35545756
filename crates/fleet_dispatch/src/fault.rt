//! Why a dispatch stopped before its end.

use fleet_text::{
    OutFault, Refusal, TraceOut, Word, put_line, put_memory, put_named, put_named_at, put_named_by,
};
use thiserror::Error;

/// Why a dispatch stopped before its end. Lines are counted from 1.
#[derive(Clone, Copy, Debug, Error)]
pub enum DispatchFault {
    #[error("out of memory")]
    OutOfMemory,
    #[error("line {line} is no report")]
    Form { line: u64 },
    #[error("line {line} reports an action of agent {agent} that is not ordered")]
    NotOrdered { line: u64, agent: u32 },
    #[error("the reports ended before line {line}, and actions are left")]
    Ended { line: u64 },
    #[error("the orders cannot be told")]
    Write,
    #[error("there are more reports than are taken")]
    ReportLimit,
    #[error("line {line} of the log is no report of this dispatch")]
    Log { line: u64 },
    #[error("the report of line {line} cannot be logged")]
    LogWrite { line: u64 },
    #[error("the log holds other bytes than the reports after which the dispatch goes on")]
    OtherLog,
    #[error("the reports cannot be read")]
    Input,
}

impl Refusal for DispatchFault {
    ghost use Rattle.fleet_dispatch.specs.RefusalWords.{dispatch_words, is_dispatch_failure};

    ghost words = { dispatch_words };

    ghost is_failure = { is_dispatch_failure };

    fn put<O: TraceOut>(&self, out: &mut O) -> Result<(), OutFault> {
        match *self {
            DispatchFault::OutOfMemory => put_memory(out),
            DispatchFault::Form { line } => put_named_at(out, "dispatch", 2, "Form", "line", line),
            DispatchFault::NotOrdered { line, agent } => put_named_by(
                out,
                "dispatch",
                3,
                "NotOrdered",
                ("line", line),
                ("agent", agent as u64),
            ),
            DispatchFault::Ended { line } => {
                put_named_at(out, "dispatch", 4, "Ended", "line", line)
            }
            DispatchFault::Write => put_named(out, "dispatch", 5, "Write"),
            DispatchFault::ReportLimit => put_named(out, "dispatch", 6, "ReportLimit"),
            DispatchFault::Log { line } => put_named_at(out, "dispatch", 7, "Log", "line", line),
            DispatchFault::LogWrite { line } => {
                put_named_at(out, "dispatch", 8, "LogWrite", "line", line)
            }
            DispatchFault::OtherLog => put_named(out, "dispatch", 9, "OtherLog"),
            DispatchFault::Input => put_line(out, &[Word::Text("file"), Word::Text("-")]),
        }
    }

    fn is_failure(&self) -> bool {
        matches!(
            self,
            DispatchFault::OutOfMemory
                | DispatchFault::Write
                | DispatchFault::LogWrite { .. }
                | DispatchFault::Input
        )
    }
}
