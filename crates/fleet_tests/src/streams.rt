//! The ends of a run that fail: a source at a call, and a writer at a byte.

use fleet_run::{HoldSource, SourceFault, clear};
use std::io;
use std::io::{ErrorKind, Write};

/// A source that holds nobody for so many ticks, and then fails so.
#[derive(Drop)]
pub struct FailingSource {
    pub ticks: u8,
    pub kind: SourceFault,
    pub failed: bool,
}

impl HoldSource for FailingSource {
    ghost use Rattle.std.specs.Prelude.{Some, None, [], replicate, if◌then◌else◌};

    ghost state = { λ s. record {
      ticks = replicate s.ticks [];
      last = Some s.kind;
      fault = if s.failed then Some s.kind else None;
    } };

    fn next(&mut self, held: &mut [bool]) -> Result<bool, SourceFault> {
        if self.ticks == 0 {
            self.failed = true;
            return Err(self.kind);
        }
        self.ticks -= 1;
        clear(held);
        Ok(true)
    }

    fn failed(&self) -> Option<SourceFault> {
        if self.failed { Some(self.kind) } else { None }
    }
}

/// A writer that takes so many bytes, one at a time, can be flushed so many times, and then fails so: takes nothing
/// more, or answers an error.
#[derive(Drop)]
pub struct ShortWriter {
    /// What it has taken.
    pub bytes: Vec<u8>,
    pub room: usize,
    pub flushes: usize,
    pub failing: Option<ErrorKind>,
}

impl Write for ShortWriter {
    fn write(&mut self, buf: &[u8]) -> io::Result<usize> {
        if self.bytes.len() < self.room {
            if let Some(byte) = buf.first() {
                self.bytes.push(*byte)?;
                return Ok(1);
            }
        }
        match self.failing {
            Some(kind) => Err(io::Error::from(kind)),
            None => Ok(0),
        }
    }

    fn flush(&mut self) -> io::Result<()> {
        if self.flushes == 0 {
            return Err(io::Error::from(ErrorKind::BrokenPipe));
        }
        self.flushes -= 1;
        Ok(())
    }
}
