//! A row of bytes in which a line is put together, so that a sink gets it in one piece, or in large ones; and the words
//! of a line, which are written by one.

ghost use Rattle.std.specs.Prelude.{◌≡◌, ◌+◌, ◌*◌, ◌<◌, ◌≤◌, ◌∷◌, [], ◌++◌, length, take, drop, decimal, OnOk, map};
ghost use Rattle.fleet_text.specs.Sink.{IsWorking, TakesAll};
ghost use Rattle.fleet_text.specs.Row.{Gathers};
ghost use Rattle.fleet_text.specs.Words.{digit_words, word_text, with_spaces, line_text, count_line};

use crate::numbers::{write_byte, write_number};
use crate::sink::{OutFault, TraceOut, put_all};
use std::marker::Model;

/// How many bytes a row has room for.
const ROOM: usize = 4_096;

/// How many bytes the longest number of 16 bits and the longest of 32 have, with a byte between them.
pub(crate) const TWO: usize = 5 + 1 + 10;

/// How many these have with a byte before them.
pub(crate) const NEXT_TWO: usize = 1 + TWO;

/// Writes two numbers with a byte between them so that they end before `TWO`, and answers where they begin.
#[inline(always)]
fn write_two(first: u16, between: u8, second: u32, row: &mut [u8; 2 * TWO]) -> usize
    ensures within { result ≤ TWO }
    ensures written { drop result row.new
        ≡ ((decimal first ++ between ∷ []) ++ decimal second) ++ drop TWO row.old }
{
    let end = write_number(u64::from(second), row, TWO);
    let end = write_byte(between, row, end);
    write_number(u64::from(first), row, end)
}

/// Writes the first so many bytes of a piece at a place, and answers where they end. All `TWO` of them are copied, for
/// which there is room: that takes no loop.
#[inline(always)]
fn copy_front(bytes: &mut [u8], at: usize, piece: &[u8], count: usize) -> usize
    requires piece { length piece.now ≡ TWO }
    requires count { count ≤ TWO }
    requires room { at + TWO ≤ length bytes.old }
    ensures end { result ≡ at + count }
    ensures len { length bytes.new ≡ length bytes.old }
    ensures written { take result bytes.new ≡ take at bytes.old ++ take count piece.now }
{
    bytes[at..at + TWO].copy_from_slice(piece);
    at + count
}

/// Writes a byte at a place, and answers where it ends.
#[inline(always)]
fn copy_byte(bytes: &mut [u8], at: usize, byte: u8) -> usize
    requires room { at < length bytes.old }
    ensures end { result ≡ at + 1 }
    ensures len { length bytes.new ≡ length bytes.old }
    ensures written { take result bytes.new ≡ take at bytes.old ++ byte ∷ [] }
{
    bytes[at] = byte;
    at + 1
}

/// Writes the first so many bytes of a piece and a digit behind them, for each of so many digits, from this one on, and
/// answers where they end.
#[inline(always)]
fn copy_digits(
    bytes: &mut [u8],
    begin: usize,
    piece: &[u8],
    front: usize,
    digit: u8,
    count: u8,
) -> usize
    requires piece { length piece.now ≡ TWO }
    requires front { front ≤ TWO }
    requires digits { digit + count < 256 }
    requires room { begin + NEXT_TWO * count ≤ length bytes.old }
    ensures end { result ≤ begin + NEXT_TWO * count }
    ensures written { take result bytes.new
        ≡ take begin bytes.old ++ digit_words (take front piece.now) digit count }
{
    let mut at = begin;
    for k in 0..count {
        at = copy_front(bytes, at, piece, front);
        at = copy_byte(bytes, at, digit + k);
    }
    at
}

/// The bytes of a line that are not yet handed on.
#[derive(Drop)]
pub struct Row {
    bytes: [u8; ROOM],
    len: usize,
}

impl Model for Row {
    ghost use Rattle.std.specs.Prelude.{ℕ, ◌≤◌, List, take};
    ghost use Rattle.fleet_text.specs.declared.row.TheConstants.{ROOM};

    ghost Value = { List ℕ };

    ghost view = { λ s. take s.len s.bytes };

    ghost invariant = { λ s. s.len ≤ ROOM };
}

impl Row {
    /// A row with nothing in it.
    pub fn new() -> Row
        ensures { result ≡ [] }
    {
        Row {
            bytes: [0; ROOM],
            len: 0,
        }
    }

    /// Has the sink take what is in the row.
    pub fn hand_on<O: TraceOut>(&mut self, out: &mut O) -> Result<(), OutFault>
        requires { IsWorking (O.state out.old) }
        ensures taken { TakesAll (O.state out.old) (O.state out.new) result self.old }
        ensures empty { OnOk result (self.new ≡ []) }
    {
        put_all(out, &self.bytes[..self.len])?;
        self.len = 0;
        Ok(())
    }

    /// Adds bytes for which there is room.
    fn append(&mut self, bytes: &[u8])
        requires { length self.old + length bytes.now ≤ ROOM }
        ensures { self.new ≡ self.old ++ bytes.now }
    {
        let end = self.len + bytes.len();
        self.bytes[self.len..end].copy_from_slice(bytes);
        self.len = end;
    }

    /// Adds the bytes to the row. If there is no room for them, the sink first takes what is in it, and then the bytes
    /// too if they are more than a row has room for.
    pub fn add<O: TraceOut>(&mut self, out: &mut O, bytes: &[u8]) -> Result<(), OutFault>
        requires { IsWorking (O.state out.old) }
        ensures { Gathers (O.state out.old) (O.state out.new) result self.old self.new bytes.now }
    {
        let has_room = bytes.len() <= ROOM - self.len;
        if has_room {
            self.append(bytes);
            return Ok(());
        }
        self.hand_on(out)?;
        let is_long = ROOM < bytes.len();
        if is_long {
            return put_all(out, bytes);
        }
        self.append(bytes);
        Ok(())
    }

    /// Has the sink take what is in the row, unless there is room for so many bytes more.
    pub(crate) fn make_room<O: TraceOut>(
        &mut self,
        out: &mut O,
        bytes: usize,
    ) -> Result<(), OutFault>
        requires working { IsWorking (O.state out.old) }
        requires bytes { bytes ≤ ROOM }
        ensures gathered { Gathers (O.state out.old) (O.state out.new) result self.old self.new [] }
        ensures room { OnOk result (length self.new + bytes ≤ ROOM) }
    {
        let has_room = bytes <= ROOM - self.len;
        if has_room {
            return Ok(());
        }
        self.hand_on(out)
    }

    /// Adds a byte for which there is room.
    fn append_byte(&mut self, byte: u8)
        requires { length self.old + 1 ≤ ROOM }
        ensures { self.new ≡ self.old ++ byte ∷ [] }
    {
        self.len = copy_byte(&mut self.bytes, self.len, byte);
    }

    /// Adds so many of the first bytes of a piece. There is room for all `TWO`.
    fn append_front(&mut self, piece: &[u8], count: usize)
        requires piece { length piece.now ≡ TWO }
        requires count { count ≤ TWO }
        requires room { length self.old + TWO ≤ ROOM }
        ensures { self.new ≡ self.old ++ take count piece.now }
    {
        self.len = copy_front(&mut self.bytes, self.len, piece, count);
    }

    /// Adds so many of the first bytes of a piece and a digit behind them, for each of so many digits, from this one
    /// on. There is room for as many whole pieces and digits.
    #[inline(always)]
    pub(crate) fn append_digits(&mut self, piece: &[u8], front: usize, digit: u8, count: u8)
        requires piece { length piece.now ≡ TWO }
        requires front { front ≤ TWO }
        requires digits { digit + count < 256 }
        requires room { length self.old + NEXT_TWO * count ≤ ROOM }
        ensures { self.new ≡ self.old ++ digit_words (take front piece.now) digit count }
    {
        self.len = copy_digits(&mut self.bytes, self.len, piece, front, digit, count);
    }

    /// Adds two numbers with a byte between them, for which there is room.
    #[inline(always)]
    fn append_two(&mut self, first: u16, between: u8, second: u32)
        requires { length self.old + TWO ≤ ROOM }
        ensures { self.new ≡ self.old ++ ((decimal first ++ between ∷ []) ++ decimal second) }
    {
        let mut word = [0; 2 * TWO];
        let start = write_two(first, between, second, &mut word);
        self.append_front(&word[start..start + TWO], TWO - start);
    }

    /// Adds two numbers with a byte between them.
    pub fn add_two<O: TraceOut>(
        &mut self,
        out: &mut O,
        first: u16,
        between: u8,
        second: u32,
    ) -> Result<(), OutFault>
        requires { IsWorking (O.state out.old) }
        ensures { Gathers (O.state out.old) (O.state out.new) result self.old self.new
            ((decimal first ++ between ∷ []) ++ decimal second) }
    {
        self.make_room(out, TWO)?;
        self.append_two(first, between, second);
        Ok(())
    }

    /// Adds a space and two numbers with a byte between them.
    #[inline(always)]
    pub fn add_next_two<O: TraceOut>(
        &mut self,
        out: &mut O,
        first: u16,
        between: u8,
        second: u32,
    ) -> Result<(), OutFault>
        requires { IsWorking (O.state out.old) }
        ensures { Gathers (O.state out.old) (O.state out.new) result self.old self.new
            (32 ∷ (decimal first ++ between ∷ []) ++ decimal second) }
    {
        self.make_room(out, NEXT_TWO)?;
        self.append_byte(b' ');
        self.append_two(first, between, second);
        Ok(())
    }

    /// Ends the line with an LF, and has the sink take what is left in the row.
    pub fn end_line<O: TraceOut>(&mut self, out: &mut O) -> Result<(), OutFault>
        requires { IsWorking (O.state out.old) }
        ensures { TakesAll (O.state out.old) (O.state out.new) result (self.old ++ 10 ∷ []) }
    {
        self.add(out, b"\n")?;
        self.hand_on(out)
    }
}

// Words of a line, written to a sink without memory.

/// A word of a line.
#[derive(Clone, Copy)]
pub enum Word<'a> {
    Text(&'a str),
    Number(u64),
    /// A number and a colon.
    Label(u64),
    /// Two numbers as `x,y`.
    Pair(u16, u16),
    /// A number and another that counts within it, as `a:n`.
    Of(u16, u32),
}

/// How many digits the longest number of 64 bits has.
const DIGITS: usize = 20;

/// Adds a number in base ten to the row.
fn put_number<O: TraceOut>(row: &mut Row, out: &mut O, number: u64) -> Result<(), OutFault>
    requires { IsWorking (O.state out.old) }
    ensures { Gathers (O.state out.old) (O.state out.new) result row.old row.new (decimal number) }
{
    let mut digits = [0; DIGITS];
    let start = write_number(number, &mut digits, DIGITS);
    row.add(out, &digits[start..])
}

/// Adds a number and a byte after it to the row.
fn put_number_then<O: TraceOut>(
    row: &mut Row,
    out: &mut O,
    number: u64,
    after: u8,
) -> Result<(), OutFault>
    requires { IsWorking (O.state out.old) }
    ensures { Gathers (O.state out.old) (O.state out.new) result row.old row.new
        (decimal number ++ after ∷ []) }
{
    let mut bytes = [0; DIGITS + 1];
    let end = write_byte(after, &mut bytes, DIGITS + 1);
    let start = write_number(number, &mut bytes, end);
    row.add(out, &bytes[start..])
}

/// Adds a word to the row.
fn put_word<O: TraceOut>(row: &mut Row, out: &mut O, word: Word<'_>) -> Result<(), OutFault>
    requires { IsWorking (O.state out.old) }
    ensures { Gathers (O.state out.old) (O.state out.new) result row.old row.new
        (word_text word.entry) }
{
    match word {
        Word::Text(text) => row.add(out, text.as_bytes()),
        Word::Number(number) => put_number(row, out, number),
        Word::Label(number) => put_number_then(row, out, number, b':'),
        Word::Pair(x, y) => row.add_two(out, x, b',', u32::from(y)),
        Word::Of(owner, number) => row.add_two(out, owner, b':', number),
    }
}

/// Adds a space and the word to the row.
pub fn put_next_word<O: TraceOut>(
    row: &mut Row,
    out: &mut O,
    word: Word<'_>,
) -> Result<(), OutFault>
    requires { IsWorking (O.state out.old) }
    ensures { Gathers (O.state out.old) (O.state out.new) result row.old row.new
        (32 ∷ word_text word.entry) }
{
    match word {
        Word::Pair(x, y) => row.add_next_two(out, x, b',', u32::from(y)),
        Word::Of(owner, number) => row.add_next_two(out, owner, b':', number),
        _ => {
            row.add(out, b" ")?;
            put_word(row, out, word)
        }
    }
}

/// Adds the words to the row, with one space between two, and no line's end.
pub fn put_words<O: TraceOut>(
    row: &mut Row,
    out: &mut O,
    words: &[Word<'_>],
) -> Result<(), OutFault>
    requires { IsWorking (O.state out.old) }
    ensures { Gathers (O.state out.old) (O.state out.new) result row.old row.new
        (with_spaces (map word_text words.now)) }
{
    let Some((first, rest)) = words.split_first() else {
        return Ok(());
    };
    put_word(row, out, *first)?;
    for word in rest {
        put_next_word(row, out, *word)?;
    }
    Ok(())
}

/// Adds the words to the row as a line.
pub fn add_line<O: TraceOut>(row: &mut Row, out: &mut O, words: &[Word<'_>]) -> Result<(), OutFault>
    requires { IsWorking (O.state out.old) }
    ensures { Gathers (O.state out.old) (O.state out.new) result row.old row.new
        (line_text (map word_text words.now)) }
{
    put_words(row, out, words)?;
    row.add(out, b"\n")
}

/// Writes the words as a line, in one piece if a row has room for it.
pub fn put_line<O: TraceOut>(out: &mut O, words: &[Word<'_>]) -> Result<(), OutFault>
    requires { IsWorking (O.state out.old) }
    ensures { TakesAll (O.state out.old) (O.state out.new) result
        (line_text (map word_text words.now)) }
{
    let mut row = Row::new();
    add_line(&mut row, out, words)?;
    row.hand_on(out)
}

/// Writes a word and a number as a line.
#[tactic(auto, unfolding(crate::specs::Words::count_line))]
pub fn put_count<O: TraceOut>(out: &mut O, word: &'static str, number: u64) -> Result<(), OutFault>
    requires { IsWorking (O.state out.old) }
    ensures { TakesAll (O.state out.old) (O.state out.new) result (count_line word.now number) }
{
    put_line(out, &[Word::Text(word), Word::Number(number)])
}
