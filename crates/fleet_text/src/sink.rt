//! Sinks of bytes: what they promise, and the two over memory and over a writer.

ghost use Rattle.std.specs.Prelude.{◌≡◌, ◌<◌, length, IfErr, [], false};
ghost use Rattle.fleet_text.specs.Sink.{IsWorking, TakesPiece, HandsOn, TakesAll, Delivers};

use std::alloc::Global;
use std::io::Write;
use std::marker::Model;

/// A sink that failed. It does not say why.
#[derive(Clone, Copy, Debug)]
pub struct OutFault;

/// A sink of bytes.
pub trait TraceOut {
    ghost use Rattle.std.specs.Prelude.{ℕ, List, ⊤};
    ghost use Rattle.fleet_text.specs.Sink.{SinkState};

    /// What is known of the sink.
    ghost state: { Self → SinkState };

    /// Whether the sink may refuse this piece.
    ghost refuses: { Self → List ℕ → Type 0 } = { λ _ _. ⊤ };

    /// Takes 1 up to all bytes of the piece. What it took may be kept back until the sink is flushed.
    fn put(&mut self, bytes: &[u8]) -> Result<usize, OutFault>
        requires working { IsWorking (state self.old) }
        requires piece { 0 < length bytes.now }
        ensures piece { TakesPiece (state self.old) (state self.new) result bytes.now }
        ensures refused { IfErr result (λ _. refuses self.old bytes.now) };

    /// Whether the sink has failed.
    fn failed(&self) -> bool
        ensures { result ≡ (state self.now).has_failed };
}

/// A sink that hands on what it has kept back.
pub trait Flush: TraceOut {
    ghost use Rattle.std.specs.Prelude.{⊤};

    /// Whether the sink may fail to hand on.
    ghost refuses_flush: { Self → Type 0 } = { λ _. ⊤ };

    /// Hands on what the sink keeps back of the bytes that it took. A sink that cannot has failed.
    fn flush(&mut self) -> Result<(), OutFault>
        requires { IsWorking (Self.state self.old) }
        ensures flushed { HandsOn (Self.state self.old) (Self.state self.new) result }
        ensures refused { IfErr result (λ _. refuses_flush self.old) };
}

/// Has the sink take all of the bytes, or stops at its failure, when it has taken a proper prefix of them.
pub fn put_all<O: TraceOut>(out: &mut O, bytes: &[u8]) -> Result<(), OutFault>
    requires { IsWorking (O.state out.old) }
    ensures { TakesAll (O.state out.old) (O.state out.new) result bytes.now }
{
    let mut at = 0;
    while at < bytes.len() {
        at += out.put(&bytes[at..])?;
    }
    Ok(())
}

/// Has the sink take all of the bytes and hand them on, or stops at its failure.
pub fn deliver<O: Flush>(out: &mut O, bytes: &[u8]) -> Result<(), OutFault>
    requires { IsWorking (O.state out.old) }
    ensures { Delivers (O.state out.old) (O.state out.new) result bytes.now }
{
    put_all(out, bytes)?;
    out.flush()
}

/// A sink over memory. A growth that is refused is its failure, and nothing else is.
#[derive(Drop)]
pub struct VecOut {
    bytes: Vec<u8>,
    failed: bool,
    /// Whether the sink was flushed after the last piece.
    flushed: bool,
}

impl Model for VecOut {
    ghost use Rattle.std.specs.Prelude.{vec_capacity};
    ghost use Rattle.fleet_text.specs.Taken.{Taken};

    ghost Value = { Taken };

    ghost view = { λ s. record {
      bytes = s.bytes.items;
      room = vec_capacity s.bytes;
      has_failed = s.failed;
      is_flushed = s.flushed;
    } };
}

impl VecOut {
    /// A sink that has taken nothing. Takes no memory.
    pub fn new(alloc: Global) -> VecOut
        ensures { result ≡ record { bytes = []; room = 0; has_failed = false; is_flushed = false } }
    {
        VecOut {
            bytes: Vec::new(alloc),
            failed: false,
            flushed: false,
        }
    }

    /// What was taken.
    pub fn bytes(&self) -> &[u8]
        ensures { result.now ≡ self.now.bytes }
    {
        self.bytes.as_slice()
    }
}

impl TraceOut for VecOut {
    ghost use Rattle.fleet_text.specs.Taken.{state_of, HasNoRoom};

    ghost state = { state_of };

    ghost refuses = { HasNoRoom };

    fn put(&mut self, bytes: &[u8]) -> Result<usize, OutFault> {
        if self.bytes.extend_from_slice(bytes).is_err() {
            self.failed = true;
            return Err(OutFault);
        }
        self.flushed = false;
        Ok(bytes.len())
    }

    fn failed(&self) -> bool {
        self.failed
    }
}

impl Flush for VecOut {
    ghost refuses_flush = { λ _. ⊥ };

    fn flush(&mut self) -> Result<(), OutFault> {
        self.flushed = true;
        Ok(())
    }
}

/// A sink over a writer. An error, an interrupted write, and a write that takes nothing are its failure, and so is a
/// flush that the writer refuses.
#[derive(Drop)]
pub struct WriteOut<W: Write> {
    writer: W,
    failed: bool,
    /// Whether the writer was flushed after the last write.
    flushed: bool,
}

impl<W: Write> WriteOut<W> {
    /// A sink over this writer, which may keep back what it took before.
    pub fn new(writer: W) -> WriteOut<W>
        ensures { ⟦<WriteOut<W> as TraceOut>⟧.state result
            ≡ record { taken = W.contents writer; has_failed = false; is_flushed = false } }
    {
        WriteOut {
            writer,
            failed: false,
            flushed: false,
        }
    }
}

impl<W: Write> TraceOut for WriteOut<W> {
    ghost state = { λ s. record {
      taken = W.contents s.writer;
      has_failed = s.failed;
      is_flushed = s.flushed;
    } };

    fn put(&mut self, bytes: &[u8]) -> Result<usize, OutFault> {
        match self.writer.write(bytes) {
            Ok(0) | Err(_) => {
                self.failed = true;
                Err(OutFault)
            }
            Ok(count) => {
                self.flushed = false;
                Ok(count)
            }
        }
    }

    fn failed(&self) -> bool {
        self.failed
    }
}

impl<W: Write> Flush for WriteOut<W> {
    fn flush(&mut self) -> Result<(), OutFault> {
        if self.flushed {
            return Ok(());
        }
        if self.writer.flush().is_err() {
            self.failed = true;
            return Err(OutFault);
        }
        self.flushed = true;
        Ok(())
    }
}
