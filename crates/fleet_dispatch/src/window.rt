//! The bytes of an input that were read and are not yet passed.

ghost use Rattle.std.specs.Prelude.{◌≡◌, ℕ, ◌+◌, ◌<◌, ◌≤◌, List, [], ◌++◌, length, drop, IfOk, OnErr};
ghost use Rattle.std.specs.Io.KnownBytes.{Keeps, Consumes, IsAtEnd};

use std::io;
use std::io::Read;

/// How many bytes of a line are heard. The longest report, of 1,024 agents, has 15,274.
pub const LINE_ROOM: usize = 16_384;

/// The bytes from `start` to `end`, and room after them.
#[derive(Drop)]
pub struct Window {
    bytes: [u8; LINE_ROOM],
    start: usize,
    end: usize,
    ghost ordered: { start ≤ end },
    ghost within: { end ≤ 16384 },
}

impl Window {
    ghost use Rattle.fleet_dispatch.specs.Window.{window_rest, room_of};

    /// A window without bytes.
    pub fn new() -> Window
        ensures { window_rest result ≡ [] }
    {
        Window {
            bytes: [0; LINE_ROOM],
            start: 0,
            end: 0,
        }
    }

    /// The bytes that are not yet passed.
    pub fn rest(&self) -> &[u8]
        ensures { result.now ≡ window_rest self.now }
    {
        &self.bytes[self.start..self.end]
    }

    /// Passes so many bytes, the first ones.
    pub fn pass(&mut self, count: usize)
        requires { count ≤ length (window_rest self.old) }
        ensures { window_rest self.new ≡ drop count (window_rest self.old) }
    {
        self.start += count;
    }

    /// Moves the bytes that are not yet passed to the front, so that all other room is behind them.
    pub fn move_to_front(&mut self)
        ensures bytes { window_rest self.new ≡ window_rest self.old }
        ensures room { room_of self.new + length (window_rest self.new) ≡ LINE_ROOM }
    {
        let (start, end) = (self.start, self.end);
        if start == 0 {
            return;
        }
        self.bytes.copy_within(start..end, 0);
        self.start = 0;
        self.end = end - start;
    }

    /// Reads once, into the room behind. Answers how many bytes came: none at the end of the input, or if there is no
    /// room.
    pub fn read_from<R: Read>(&mut self, input: &mut R) -> io::Result<usize>
        ensures read { IfOk result (λ n. (more : List ℕ) × (length more ≡ n)
            × (window_rest self.new ≡ window_rest self.old ++ more)
            × Consumes (R.remaining input.old) (R.remaining input.new) more) }
        ensures end { IfOk result (λ n. n ≡ 0 → 0 < room_of self.old
            → IsAtEnd (R.remaining input.new)) }
        ensures err { OnErr result ((window_rest self.new ≡ window_rest self.old)
            × Keeps (R.remaining input.old) (R.remaining input.new)) }
    {
        let end = self.end;
        let count = input.read(&mut self.bytes[end..])?;
        self.end = end + count;
        Ok(count)
    }
}
