//! Why a plan has no program.

use fleet_model::OutOfMemory;
use fleet_text::{OutFault, Refusal, TraceOut, put_memory, put_named};
use thiserror::Error;

/// Why a plan was not compiled.
#[derive(Clone, Copy, Debug, PartialEq, Eq, Error)]
pub enum CompileFault {
    #[error("out of memory")]
    OutOfMemory,
    /// In the program an agent would have more than 1,000,000 actions, or all agents more than 4,194,304 together.
    #[error("an agent has more than 1000000 actions, or the agents have more than 4194304 together")]
    TooLong,
}

impl From<OutOfMemory> for CompileFault {
    ghost use Rattle.std.specs.Prelude.{◌≡◌};
    ghost use Rattle.fleet_adg.specs.declared.fault.CompileFault.TheVariants.{OutOfMemory};

    ghost from_gives = { λ _ e. e ≡ OutOfMemory };

    fn from(_e: OutOfMemory) -> CompileFault {
        CompileFault::OutOfMemory
    }
}

impl Refusal for CompileFault {
    ghost use Rattle.fleet_adg.specs.RefusalWords.{compile_words, is_compile_failure};

    ghost words = { compile_words };

    ghost is_failure = { is_compile_failure };

    fn put<O: TraceOut>(&self, out: &mut O) -> Result<(), OutFault> {
        match *self {
            CompileFault::OutOfMemory => put_memory(out),
            CompileFault::TooLong => put_named(out, "compile", 2, "TooLong"),
        }
    }

    fn is_failure(&self) -> bool {
        matches!(self, CompileFault::OutOfMemory)
    }
}
