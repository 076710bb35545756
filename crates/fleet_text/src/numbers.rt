//! Numbers that words spell, and the digits of a number; and bytes, numbers, lines and places that are written in a row
//! from its end to its front.

ghost use Rattle.std.specs.Prelude.{◌≡◌, ◌-◌, ◌<◌, true, false, Some, IfSome, IfNone, min, option_map, ◌+◌, ◌≤◌, ◌++◌, ◌∷◌, length, drop};
ghost use Rattle.fleet_text.specs.Text.{is_digit, number_front, at_most, number, plain_number, small_number, small_number_front};
ghost use Rattle.std.specs.Fmt.{decimal, signed_decimal};
ghost use Rattle.fleet_text.specs.Words.{count_line, place_text};

use fleet_model::Place;
use itoa::write_digits;

/// The least number that 16 bits do not hold.
pub const TOO_LARGE: u32 = 65_536;

/// What is answered for every number that 32 bits do not hold: the least of them.
pub const TOO_LONG: u64 = 4_294_967_296;

/// The number in front of a text, and what follows its digits, however many they are. A number above `TOO_LONG` is
/// answered as `TOO_LONG`; if no digit stands in front, there is none.
fn number_front(text: &[u8]) -> Option<(u64, &[u8])>
    ensures { option_map (λ x. (x.0, x.1.now)) result
        ≡ option_map (at_most TOO_LONG) (number_front text.now) }
{
    let [first, after @ ..] = text else {
        return None;
    };
    if !first.is_ascii_digit() {
        return None;
    }
    let mut number = u64::from(*first - b'0');
    let mut rest = after;
    while let [digit, after @ ..] = rest {
        if !digit.is_ascii_digit() {
            return Some((number, rest));
        }
        number = (10 * number + u64::from(*digit - b'0')).min(TOO_LONG);
        rest = after;
    }
    Some((number, rest))
}

/// The number that a word of digits spells, however many they are. A number above `TOO_LONG` is answered as `TOO_LONG`;
/// an empty word, or one with another byte, spells none.
pub fn number_of(word: &[u8]) -> Option<u64>
    ensures { result ≡ option_map (λ n. min n TOO_LONG) (number word.now) }
{
    let (number, rest) = number_front(word)?;
    if rest.is_empty() { Some(number) } else { None }
}

/// The number that a word spells without a leading zero. From `TOO_LONG` on it is `TOO_LONG`.
pub fn plain_number_of(word: &[u8]) -> Option<u64>
    ensures { result ≡ option_map (λ n. min n TOO_LONG) (plain_number word.now) }
{
    match word {
        [b'0', _, ..] => None,
        _ => number_of(word),
    }
}

/// The number that a word of digits spells, if it is at most 65,535.
#[tactic(auto, unfolding(crate::specs::Text::small_number))]
pub fn small_number_of(word: &[u8]) -> Option<u16>
    ensures { result ≡ small_number word.now }
{
    let number = number_of(word)?;
    if number < u64::from(TOO_LARGE) {
        Some(number as u16)
    } else {
        None
    }
}

/// The number in front of a text, if it is at most 65,535, and what follows its digits.
#[inline(always)]
pub fn small_number_front(text: &[u8]) -> Option<(u16, &[u8])>
    ensures { option_map (λ x. (x.0, x.1.now)) result ≡ small_number_front text.now }
{
    match short_number_front(text) {
        Some(found) => Some(found),
        None => any_number_front(text),
    }
}

/// The value of a digit.
#[inline(always)]
fn digit_of(byte: u8) -> Option<u32>
    ensures some { IfSome result (λ n. (is_digit byte ≡ true) × (n ≡ byte - 48)) }
    ensures few { IfSome result (λ n. n < 10) }
    ensures none { IfNone result (is_digit byte ≡ false) }
{
    let value = u32::from(byte).wrapping_sub(u32::from(b'0'));
    if value < 10 { Some(value) } else { None }
}

/// The number in front of a text, and what follows its digits, if it has one to four digits and the text five bytes or
/// more. It looks at the text's length once, and not before each digit.
#[inline(always)]
fn short_number_front(text: &[u8]) -> Option<(u16, &[u8])>
    ensures { IfSome result (λ x. small_number_front text.now ≡ Some (x.0, x.1.now)) }
{
    let [a, b, c, d, e, ..] = text else {
        return None;
    };
    let one = digit_of(*a)?;
    let Some(b) = digit_of(*b) else {
        return Some((one as u16, &text[1..]));
    };
    let two = 10 * one + b;
    let Some(c) = digit_of(*c) else {
        return Some((two as u16, &text[2..]));
    };
    let three = 10 * two + c;
    let Some(d) = digit_of(*d) else {
        return Some((three as u16, &text[3..]));
    };
    if e.is_ascii_digit() {
        return None;
    }
    Some(((10 * three + d) as u16, &text[4..]))
}

/// The same as `small_number_front`, a digit at a time, up to the first digit that makes the number too large. For
/// speed it has a loop of its own beside that of `number_front`: then the machine code needs no test of which way a
/// number was read.
#[inline(always)]
fn any_number_front(text: &[u8]) -> Option<(u16, &[u8])>
    ensures { option_map (λ x. (x.0, x.1.now)) result ≡ small_number_front text.now }
{
    let [first, after @ ..] = text else {
        return None;
    };
    if !first.is_ascii_digit() {
        return None;
    }
    let mut number = u32::from(*first - b'0');
    let mut rest = after;
    while let [digit, after @ ..] = rest {
        if !digit.is_ascii_digit() {
            return Some((number as u16, rest));
        }
        number = 10 * number + u32::from(*digit - b'0');
        let is_too_large = number >= TOO_LARGE;
        if is_too_large {
            return None;
        }
        rest = after;
    }
    Some((number as u16, rest))
}

/// Writes a byte before `end`, and answers where it is.
pub fn write_byte(byte: u8, row: &mut [u8], end: usize) -> usize
    requires room { 1 ≤ end }
    requires within { end ≤ length row.old }
    ensures start { result + 1 ≡ end }
    ensures written { drop result row.new ≡ byte ∷ drop end row.old }
{
    row[end - 1] = byte;
    end - 1
}

/// Writes the digits of a number so that they end before `end`, and answers where they begin.
pub fn write_number(number: u64, row: &mut [u8], end: usize) -> usize
    requires room { length (decimal number) ≤ end }
    requires within { end ≤ length row.old }
    ensures start { result + length (decimal number) ≡ end }
    ensures written { drop result row.new ≡ decimal number ++ drop end row.old }
{
    write_digits(number, row, end)
}

/// Writes the digits of a number of 16 bits, of which there are five at most, so that they end before `end`, and
/// answers where they begin.
pub fn write_small_number(number: u16, row: &mut [u8], end: usize) -> usize
    requires room { 5 ≤ end }
    requires within { end ≤ length row.old }
    ensures low { end ≤ result + 5 }
    ensures high { result < end }
    ensures written { drop result row.new ≡ decimal number ++ drop end row.old }
{
    write_number(number as u64, row, end)
}

// Bytes, numbers, lines and places that are written in a row from its end to its front: each so that it ends before
// what was written last.

/// Writes bytes so that they end before `end`, and answers where they begin.
pub fn write_bytes(bytes: &[u8], row: &mut [u8], end: usize) -> usize
    requires room { length bytes.now ≤ end }
    requires within { end ≤ length row.old }
    ensures start { result + length bytes.now ≡ end }
    ensures written { drop result row.new ≡ bytes.now ++ drop end row.old }
{
    let at = end - bytes.len();
    row[at..end].copy_from_slice(bytes);
    at
}

/// Writes the digits of a number of 32 bits so that they end before `end`, and answers where they begin.
pub fn write_count(number: u32, row: &mut [u8], end: usize) -> usize
    requires room { 10 ≤ end }
    requires within { end ≤ length row.old }
    ensures low { end ≤ result + 10 }
    ensures high { result ≤ end }
    ensures written { drop result row.new ≡ decimal number ++ drop end row.old }
{
    write_number(number as u64, row, end)
}

/// Writes a line of a word, a space and a number, so that it ends before `end`, and answers where it begins.
#[tactic(auto, unfolding(crate::specs::Words::count_line))]
pub fn write_count_line(word: &[u8], number: u32, row: &mut [u8], end: usize) -> usize
    requires room { length word.now + 12 ≤ end }
    requires within { end ≤ length row.old }
    ensures low { end ≤ result + length word.now + 12 }
    ensures high { result ≤ end }
    ensures written { drop result row.new ≡ count_line word.now number ++ drop end row.old }
{
    let at = write_byte(b'\n', row, end);
    let at = write_count(number, row, at);
    let at = write_byte(b' ', row, at);
    write_bytes(word, row, at)
}

/// Writes a number with a minus sign before its digits if it is negative, so that it ends before `end`, and answers
/// where it begins.
fn write_signed(number: i32, row: &mut [u8], end: usize) -> usize
    requires room { 11 ≤ end }
    requires within { end ≤ length row.old }
    ensures low { end ≤ result + 11 }
    ensures high { result ≤ end }
    ensures written { drop result row.new ≡ signed_decimal number ++ drop end row.old }
{
    let at = write_count(number.unsigned_abs(), row, end);
    if number < 0 {
        write_byte(b'-', row, at)
    } else {
        at
    }
}

/// How many bytes the longest number of a place has, with the byte before it.
pub const NUMBER: usize = 12;

/// Writes a byte and a number after it, so that they end before `end`, and answers where they begin.
pub fn write_separated(separator: u8, number: i32, row: &mut [u8], end: usize) -> usize
    requires room { NUMBER ≤ end }
    requires within { end ≤ length row.old }
    ensures low { end ≤ result + NUMBER }
    ensures high { result ≤ end }
    ensures written { drop result row.new
        ≡ separator ∷ (signed_decimal number ++ drop end row.old) }
{
    let at = write_signed(number, row, end);
    write_byte(separator, row, at)
}

/// How many bytes the longest place has, with the space before it.
pub const PLACE: usize = 2 * NUMBER;

/// Writes a place as ` x,y`, with the space before it, so that it ends before `end`, and answers where it begins.
pub fn write_place(place: Place, row: &mut [u8], end: usize) -> usize
    requires room { PLACE ≤ end }
    requires within { end ≤ length row.old }
    ensures low { end ≤ result + PLACE }
    ensures high { result ≤ end }
    ensures written { drop result row.new ≡ place_text place ++ drop end row.old }
{
    let at = write_separated(b',', place.y, row, end);
    write_separated(b' ', place.x, row, at)
}
