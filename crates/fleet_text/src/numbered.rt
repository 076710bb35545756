//! Words `a:n` of one owner, whose numbers follow one another.

ghost use Rattle.std.specs.Prelude.{◌≡◌, ◌+◌, ◌%◌, ◌*◌, ◌<◌, ◌≤◌, ◌++◌, length, drop};
ghost use Rattle.fleet_text.specs.Sink.{IsWorking};
ghost use Rattle.fleet_text.specs.Row.{Gathers};
ghost use Rattle.fleet_text.specs.declared.row.TheConstants.{ROOM};
ghost use Rattle.fleet_text.specs.declared.numbered.TheConstants.{ELEVEN_DIGITS};
ghost use Rattle.fleet_text.specs.Words.{next_words, next_front, numbered_words, tens_text};

use crate::numbers::{write_byte, write_number};
use crate::row::{NEXT_TWO, Row, TWO};
use crate::sink::{OutFault, TraceOut};

/// The least number of eleven digits, above each that is written here.
const ELEVEN_DIGITS: u64 = 10_000_000_000;

/// How many digits a lesser number has before its last one at most.
const TENS_DIGITS: usize = 9;

/// How many bytes ten words have at most, with a space before each.
const TEN_WORDS: usize = 10 * NEXT_TWO;

/// Writes the digits of a number of so many tens, but for the last one, so that they end before `end`, and answers
/// where they begin.
#[inline(always)]
fn write_tens(tens: u64, row: &mut [u8], end: usize) -> usize
    requires few { 10 * tens < ELEVEN_DIGITS }
    requires room { TENS_DIGITS ≤ end }
    requires within { end ≤ length row.old }
    ensures start { result + length (tens_text tens) ≡ end }
    ensures written { drop result row.new ≡ tens_text tens ++ drop end row.old }
{
    if tens == 0 {
        return end;
    }
    write_number(tens, row, end)
}

/// Writes a space and a word `a:n` but for its last digit so that they end before `TWO`, and answers where they begin.
#[inline(always)]
fn write_front(owner: u16, tens: u64, row: &mut [u8; 2 * TWO]) -> usize
    requires { 10 * tens < ELEVEN_DIGITS }
    ensures within { result ≤ TWO }
    ensures written { drop result row.new ≡ next_front owner tens ++ drop TWO row.old }
{
    let end = write_tens(tens, row, TWO);
    let end = write_byte(b':', row, end);
    let end = write_number(u64::from(owner), row, end);
    write_byte(b' ', row, end)
}

/// Adds a space and a word `a:n` for each of so many numbers, from this one on, which differ in their last digit alone.
/// There is room for ten.
#[inline(always)]
fn append_ten(row: &mut Row, owner: u16, number: u64, count: u64)
    requires few { number < ELEVEN_DIGITS }
    requires tens { number % 10 + count ≤ 10 }
    requires room { length row.old + TEN_WORDS ≤ ROOM }
    ensures { row.new ≡ row.old ++ next_words (numbered_words owner number count) }
{
    let mut word = [0; 2 * TWO];
    let start = write_front(owner, number / 10, &mut word);
    let digit = b'0' + (number % 10) as u8;
    row.append_digits(&word[start..start + TWO], TWO - start, digit, count as u8);
}

/// Adds the same words, and has the sink take what is in the row if there is no room for ten.
#[inline(always)]
fn add_ten<O: TraceOut>(
    row: &mut Row,
    out: &mut O,
    owner: u16,
    number: u64,
    count: u64,
) -> Result<(), OutFault>
    requires working { IsWorking (O.state out.old) }
    requires few { number < ELEVEN_DIGITS }
    requires tens { number % 10 + count ≤ 10 }
    ensures { Gathers (O.state out.old) (O.state out.new) result row.old row.new
        (next_words (numbered_words owner number count)) }
{
    row.make_room(out, TEN_WORDS)?;
    append_ten(row, owner, number, count);
    Ok(())
}

/// Adds a space and a word `a:n` for each of so many numbers, from the first on: those that differ in the last digit
/// alone at once.
#[inline(never)]
fn put_by_tens<O: TraceOut>(
    row: &mut Row,
    out: &mut O,
    owner: u16,
    first: u32,
    count: u16,
) -> Result<(), OutFault>
    requires { IsWorking (O.state out.old) }
    ensures { Gathers (O.state out.old) (O.state out.new) result row.old row.new
        (next_words (numbered_words owner first count)) }
{
    let first = u64::from(first);
    let count = u64::from(count);
    let mut done = 0;
    while done < count {
        let number = first + done;
        let here = (10 - number % 10).min(count - done);
        add_ten(row, out, owner, number, here)?;
        done += here;
    }
    Ok(())
}

/// Adds a space and a word `a:n` for each of so many numbers, from the first on.
#[inline(always)]
pub fn put_numbered<O: TraceOut>(
    row: &mut Row,
    out: &mut O,
    owner: u16,
    first: u32,
    count: u16,
) -> Result<(), OutFault>
    requires { IsWorking (O.state out.old) }
    ensures { Gathers (O.state out.old) (O.state out.new) result row.old row.new
        (next_words (numbered_words owner first count)) }
{
    if count == 1 {
        return row.add_next_two(out, owner, b':', first);
    }
    put_by_tens(row, out, owner, first, count)
}
