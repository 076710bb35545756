//! Logs of reports.

use fleet_text::{Flush, OutFault, deliver};

/// A log, which keeps the lines of the reports that are taken.
pub trait ReportLog {
    ghost use Rattle.fleet_text.specs.Sink.{SinkState, IsWorking, Delivers};

    /// What is known of the log.
    ghost state: { Self → SinkState };

    /// Whether the second is the first, further on: what it borrows is the same.
    ghost stays: { Self → Self → Type 0 };

    /// Takes all of the bytes and hands them on before it answers. If it fails, it has taken a front of them.
    fn keep(&mut self, bytes: &[u8]) -> Result<(), OutFault>
        requires { IsWorking (state self.old) }
        ensures kept { Delivers (state self.old) (state self.new) result bytes.now }
        ensures stays { stays self.old self.new };

    /// A log stays the same.
    ghost same: { (l : Self) → stays l l };

    /// One that has stayed the same twice has stayed the same.
    ghost longer: { (a b c : Self) → stays a b → stays b c → stays a c };
}

/// A log that keeps nothing, and never fails.
#[derive(Clone, Copy)]
pub struct NoLog;

impl ReportLog for NoLog {
    ghost use Rattle.std.specs.Prelude.{None, false, true, ⊤};

    ghost state = { λ _. record { taken = None; has_failed = false; is_flushed = true } };

    ghost stays = { λ _ _. ⊤ };

    fn keep(&mut self, _: &[u8]) -> Result<(), OutFault> {
        Ok(())
    }

    ghost same = { λ l. tt };

    ghost longer = { λ a b c first then. tt };
}

/// A log that keeps its lines in a sink.
#[derive(Drop)]
pub struct SinkLog<O: Flush> {
    pub sink: O,
}

impl<O: Flush> ReportLog for SinkLog<O> {
    ghost use Rattle.std.specs.Prelude.{⊤};

    ghost state = { λ l. O.state l.sink };

    ghost stays = { λ _ _. ⊤ };

    fn keep(&mut self, bytes: &[u8]) -> Result<(), OutFault> {
        deliver(&mut self.sink, bytes)
    }

    ghost same = { λ l. tt };

    ghost longer = { λ a b c first then. tt };
}
