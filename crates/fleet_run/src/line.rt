//! The line of a run, kept from tick to tick: numbers, each with the byte before it, which are those of the agents'
//! places, one after another. A move changes one of them.

ghost use Rattle.std.specs.Prelude.{◌≡◌, false, ◌+◌, ◌-◌, ◌<◌, ◌≤◌, ◌^◌, ◌++◌, ◌∷◌, ℕ, List, true, length, take, drop, set, get_or, slice_index, IfSome, IfNone, IsTrue, ◌↔◌, ◌%◌, ◌≢◌, pos};
ghost use Rattle.std.specs.List.{copy_within};
ghost use Rattle.std.specs.Fmt.{decimal};
ghost use Rattle.fleet_model.specs.declared.standing.Standing.{Standing};
ghost use Rattle.fleet_model.specs.Machine.{Configuration, standing_at};
ghost use Rattle.fleet_run.specs.Line.{AreClose, ArePlacesKept, EndsWith, HasNumber, HasNumerals, HasPlace, HasRoomBefore, HaveOtherTens, IsBeside, IsDigit, IsDigitOver, IsLineKept, IsKeptBefore, IsNumeralAt, IsResized, LacksPlace, LacksRoom, Numeral, WritesOver, numeral, numeral_text, places_of};

use fleet_machine::Machine;
use fleet_model::{MAX_AGENTS, Place, Standing};
use fleet_text::{NUMBER, PLACE, write_byte, write_count, write_separated};

/// How many numbers a line has at most, besides the time.
pub const NUMERALS: usize = 2 * MAX_AGENTS;

/// How many bytes the longest time has, with the colon after it.
const TIME: usize = 11;

/// How many bytes the longest line has: the time, the places, and the end.
pub const LINE: usize = TIME + MAX_AGENTS * PLACE + 1;

/// Writes the number `at` of a line, after a byte, before those from `end` on, and where it begins into `begins`, and
/// answers that.
fn write_numeral(
    at: usize,
    separator: u8,
    value: i32,
    row: &mut [u8],
    begins: &mut [u16],
    end: usize,
) -> usize
    requires room { HasRoomBefore end row.old }
    requires begins { at < length begins.old }
    ensures written { (ns : List Numeral)
        → IsNumeralAt ns at (numeral separator value)
        → EndsWith ns (at + 1) end row.old begins.old → EndsWith ns at result row.new begins.new }
    ensures low { end ≤ result + NUMBER }
    ensures high { result ≤ end }
    ensures row { length row.new ≡ LINE }
{
    let begin = write_separated(separator, value, row, end);
    begins[at] = begin as u16;
    begin
}

/// Writes the places of all agents and the end of the line, so that they end with the row, and into `begins` where each
/// number of a place begins, and last where the end of the line does.
pub fn write_places(rows: &[Standing], row: &mut [u8], begins: &mut [u16])
    requires agents { length rows.now ≤ MAX_AGENTS }
    requires room { length row.old ≡ LINE }
    requires begins { length begins.old ≡ NUMERALS + 1 }
    ensures { IsLineKept rows.now row.new begins.new }
{
    let mut at = write_byte(b'\n', row, LINE);
    begins[2 * rows.len()] = at as u16;
    for i in (0..rows.len()).rev() {
        let Place { x, y } = rows[i].place;
        at = write_numeral(2 * i + 1, b',', y, row, begins, at);
        at = write_numeral(2 * i, b' ', x, row, begins, at);
    }
}

/// Copies the places of all agents.
pub fn copy_places(rows: &[Standing], places: &mut [Place])
    requires { length places.old ≡ length rows.now }
    ensures { places.new ≡ places_of rows.now }
{
    for (i, row) in rows.iter().enumerate() {
        places[i] = row.place;
    }
}

/// Writes a text over a number of the line if both have as many bytes, and answers whether it did.
fn overwrite(at: usize, text: &[u8], row: &mut [u8], begins: &[u16]) -> bool
    requires number { HasNumber at row.old begins.now }
    requires order { get_or begins.now at 0 ≤ get_or begins.now (at + 1) 0 }
    ensures { WritesOver result text.now (get_or begins.now at 0) (get_or begins.now (at + 1) 0)
        row.old row.new }
{
    let begin = usize::from(begins[at]);
    let end = usize::from(begins[at + 1]);
    if text.len() != end - begin {
        return false;
    }
    row[begin..end].copy_from_slice(text);
    true
}

/// How many numbers of a tick may become longer or shorter, one after another, before all places are written anew.
const MOST_RESIZED: u32 = 24;

/// Moves the bytes from `begin` to before `end` so that they end before `to`.
fn shift_bytes(row: &mut [u8], begin: usize, end: usize, to: usize)
    requires order { begin ≤ end }
    requires within { end ≤ length row.old }
    requires there { to ≤ length row.old }
    requires room { end ≤ to + begin }
    ensures { row.new ≡ copy_within row.old begin end (to + begin - end) }
{
    row.copy_within(begin..end, to + begin - end);
}

/// Moves the first offsets as `from` moves to `to`.
fn shift_begins(begins: &mut [u16], count: usize, from: u16, to: u16)
    requires count { count ≤ length begins.old }
    requires room { (k : ℕ) → k < count → from ≤ get_or begins.old k 0 + to }
    requires fit { (k : ℕ) → k < count → get_or begins.old k 0 + to < 2 ^ 16 }
    ensures shifted { (k : ℕ) → k < count
        → get_or begins.new k 0 + from ≡ get_or begins.old k 0 + to }
    ensures others { (k : ℕ) → count ≤ k → get_or begins.new k 0 ≡ get_or begins.old k 0 }
{
    for k in 0..count {
        begins[k] = begins[k] + to - from;
    }
}

/// Writes a text over the bytes from `begin` to before `end`, which are as many.
fn write_text(text: &[u8], row: &mut [u8], begin: usize, end: usize)
    requires fits { begin + length text.now ≡ end }
    requires within { end ≤ length row.old }
    ensures { row.new ≡ take begin row.old ++ (text.now ++ drop end row.old) }
{
    row[begin..end].copy_from_slice(text);
}

/// Writes a text over the bytes from `to` to before `end`, after the bytes from `front` to before `begin` are moved so
/// that they end there.
fn resize_text(text: &[u8], row: &mut [u8], front: usize, begin: usize, to: usize, end: usize)
    requires order { front ≤ begin }
    requires begin { begin ≤ length row.old }
    requires within { end ≤ length row.old }
    requires fits { to + length text.now ≡ end }
    requires room { begin ≤ front + to }
    ensures { row.new
        ≡ take to (copy_within row.old front begin (to + front - begin))
        ++ (text.now ++ drop end (copy_within row.old front begin (to + front - begin))) }
{
    shift_bytes(row, front, begin, to);
    write_text(text, row, to, end);
}

/// Where a text is to begin that ends at `end`, if there is room for the bytes from `front` to before `begin` before
/// it, and for the time before these.
fn place_for(text: &[u8], front: usize, begin: usize, end: usize) -> Option<usize>
    requires order { front ≤ begin }
    requires begin { begin ≤ LINE }
    requires end { end ≤ LINE }
    requires short { length text.now ≤ NUMBER }
    ensures place { IfSome result (HasPlace text.now front begin end) }
    ensures full { IfNone result (front + end < begin + TIME + length text.now) }
{
    let least = begin + TIME + text.len();
    let is_full = least > front + end;
    if is_full {
        return None;
    }
    Some(end - text.len())
}

/// Writes a text over a number of the line, however many bytes it has, and moves the numbers before it as far. Answers
/// whether there is room for that; if there is none, nothing changes.
fn resize_to(at: usize, text: &[u8], row: &mut [u8], begins: &mut [u16]) -> bool
    requires number { HasNumber at row.old begins.old }
    requires begin { get_or begins.old at 0 ≤ LINE }
    requires before { (k : ℕ) → k < at + 1
        → (get_or begins.old 0 0 ≤ get_or begins.old k 0) × (get_or begins.old k 0 ≤ LINE) }
    requires short { length text.now ≤ NUMBER }
    ensures resized { result ≡ true
        → IsResized at text.now row.old row.new begins.old begins.new }
    ensures full { result ≡ false
        → LacksRoom at text.now row.old row.new begins.old begins.new }
{
    let front = usize::from(begins[0]);
    let begin = usize::from(begins[at]);
    let end = usize::from(begins[at + 1]);
    match place_for(text, front, begin, end) {
        Some(to) => {
            resize_text(text, row, front, begin, to, end);
            shift_begins(begins, at + 1, begin as u16, to as u16);
            true
        }
        None => false,
    }
}

/// Writes the text of a number over a number of the line. Answers 0 if it has as many bytes, 1 if those before it were
/// moved, and else that there is no room for that, by a number greater than `MOST_RESIZED`.
fn put_text(at: usize, text: &[u8], row: &mut [u8], begins: &mut [u16]) -> u32
    requires kept { (ns : List Numeral) × (HasNumerals ns row.old begins.old) × (at < length ns) }
    requires short { length text.now ≤ NUMBER }
    ensures few { result ≤ MOST_RESIZED + 1 }
    ensures kept { result ≤ MOST_RESIZED → (ns : List Numeral) (n : Numeral)
        → HasNumerals ns row.old begins.old → at < length ns → text.now ≡ numeral_text n
        → HasNumerals (set ns at n) row.new begins.new }
    ensures full { MOST_RESIZED < result
        → LacksRoom at text.now row.old row.new begins.old begins.new }
{
    if overwrite(at, text, row, begins) {
        return 0;
    }
    if resize_to(at, text, row, begins) {
        return 1;
    }
    MOST_RESIZED + 1
}

/// Writes a number, after a byte, over a number of the line, and answers as `put_text` does.
#[inline(never)]
fn put_numeral(at: usize, separator: u8, value: i32, row: &mut [u8], begins: &mut [u16]) -> u32
    requires kept { (ns : List Numeral) × (HasNumerals ns row.old begins.old) × (at < length ns) }
    ensures few { result ≤ MOST_RESIZED + 1 }
    ensures kept { result ≤ MOST_RESIZED → (ns : List Numeral)
        → HasNumerals ns row.old begins.old → at < length ns
        → HasNumerals (set ns at (numeral separator value)) row.new begins.new }
    ensures full { MOST_RESIZED < result
        → LacksRoom at (numeral_text (numeral separator value))
        row.old row.new begins.old begins.new }
{
    let mut text = [0; NUMBER];
    let begin = write_separated(separator, value, &mut text, NUMBER);
    put_text(at, &text[begin..], row, begins)
}

/// Writes the time before the places, and answers where the line begins.
pub fn write_time(time: u32, row: &mut [u8], begin: usize) -> usize
    requires room { TIME ≤ begin }
    requires within { begin ≤ length row.old }
    ensures high { result ≤ begin }
    ensures room { length row.new ≡ length row.old }
    ensures written { drop result row.new ≡ decimal time ++ (58 ∷ drop begin row.old) }
{
    let at = write_byte(b':', row, begin);
    write_count(time, row, at)
}

/// The coordinate as a number, if it is not negative.
fn natural(coordinate: i32) -> Option<u32>
    ensures some { IfSome result (λ n. (coordinate ≡ pos n) × (n < 2 ^ 32)) }
    ensures none { IfNone result ((n : ℕ) → coordinate ≢ pos n) }
{
    if coordinate < 0 {
        return None;
    }
    Some(coordinate.unsigned_abs())
}

/// Whether a number is the code of a digit.
fn is_digit(code: u32) -> bool
    ensures { IsTrue result ↔ IsDigit code }
{
    (u32::from(b'0')..=u32::from(b'9')).contains(&code)
}

/// Writes the last digit of a coordinate over that of one beside it, if neither is negative, and no other digit
/// changes. Answers whether it did.
#[inline(always)]
fn patch_digit(old: i32, new: i32, row: &mut [u8], at: usize) -> bool
    requires at { at < length row.old }
    requires close { AreClose old new }
    requires digit { (m : ℕ) → old ≡ pos m → m < 2 ^ 32
        → slice_index row.old at ≡ 48 + m % 10 }
    ensures same { result ≡ false → row.new ≡ row.old }
    ensures patched { result ≡ true → IsDigitOver old new at row.old row.new }
    ensures other { result ≡ false → HaveOtherTens old new }
{
    let (Some(m), Some(n)) = (natural(old), natural(new)) else {
        return false;
    };
    let digit = u32::from(row[at]) + n - m;
    if !is_digit(digit) {
        return false;
    }
    row[at] = digit as u8;
    true
}

/// Writes a number over one beside it, which stands there, if only its last digit changes, and answers whether it did.
#[inline(always)]
fn patch(at: usize, old: i32, new: i32, row: &mut [u8], begins: &[u16]) -> bool
    requires kept { (ns : List Numeral) × (separator : ℕ) × (HasNumerals ns row.old begins.now)
        × IsNumeralAt ns at (numeral separator old) }
    requires close { AreClose old new }
    ensures kept { result ≡ true → (ns : List Numeral) (separator : ℕ)
        → HasNumerals ns row.old begins.now → IsNumeralAt ns at (numeral separator old)
        → HasNumerals (set ns at (numeral separator new)) row.new begins.now }
    ensures same { result ≡ false → row.new ≡ row.old }
    ensures other { result ≡ false → HaveOtherTens old new }
{
    let end = usize::from(begins[at + 1]);
    patch_digit(old, new, row, end - 1)
}

/// Writes a number over one beside it, which stands there after this byte, and answers as `put_text` does.
#[inline(always)]
fn change_numeral(
    at: usize,
    separator: u8,
    old: i32,
    new: i32,
    row: &mut [u8],
    begins: &mut [u16],
) -> u32
    requires kept { (ns : List Numeral) × (HasNumerals ns row.old begins.old)
        × IsNumeralAt ns at (numeral separator old) }
    requires close { AreClose old new }
    ensures few { result ≤ MOST_RESIZED + 1 }
    ensures kept { result ≤ MOST_RESIZED → (ns : List Numeral)
        → HasNumerals ns row.old begins.old → IsNumeralAt ns at (numeral separator old)
        → HasNumerals (set ns at (numeral separator new)) row.new begins.new }
    ensures full { MOST_RESIZED < result
        → LacksRoom at (numeral_text (numeral separator new))
        row.old row.new begins.old begins.new }
{
    if patch(at, old, new, row, begins) {
        return 0;
    }
    put_numeral(at, separator, new, row, begins)
}

/// Writes the place of agent `i` over the one beside it where the agent stood, and answers as `put_text` does.
#[inline(always)]
fn move_place(i: usize, old: Place, new: Place, row: &mut [u8], begins: &mut [u16]) -> u32
    requires agent { i < MAX_AGENTS }
    requires kept { (c : Configuration) × (IsLineKept c row.old begins.old) × (i < length c)
        × ((standing_at c i).place ≡ old) }
    requires beside { IsBeside old new }
    ensures few { result ≤ MOST_RESIZED + 1 }
    ensures kept { result ≤ MOST_RESIZED → (c : Configuration)
        → IsLineKept c row.old begins.old → i < length c → (standing_at c i).place ≡ old
        → (s : Standing) → s.place ≡ new → IsLineKept (set c i s) row.new begins.new }
    ensures full { MOST_RESIZED < result
        → LacksPlace i new row.old row.new begins.old begins.new }
{
    let is_other_row = old.y != new.y;
    if is_other_row {
        return change_numeral(2 * i + 1, b',', old.y, new.y, row, begins);
    }
    change_numeral(2 * i, b' ', old.x, new.x, row, begins)
}

/// Writes the places of the agents that the last tick moved over those before, in the row and in the list of places;
/// all places anew if more than a few are longer or shorter than before.
pub fn write_moved(machine: &Machine, row: &mut [u8], begins: &mut [u16], places: &mut [Place])
    requires agents { length machine.now.configuration ≤ MAX_AGENTS }
    requires before { IsKeptBefore machine.now row.old begins.old places.old }
    requires moved { length machine.now.moving ≡ length machine.now.configuration }
    ensures { ArePlacesKept machine.now.configuration row.new begins.new places.new }
{
    let rows = machine.agents();
    let mut resized = 0;
    let mut cursor = machine.moved_cursor();
    while let Some(i) = machine.moved_at(&mut cursor) {
        let i = usize::from(i);
        let place = rows[i].place;
        let more = move_place(i, places[i], place, row, begins);
        places[i] = place;
        if more > 0 {
            resized += more;
            if resized > MOST_RESIZED {
                write_places(rows, row, begins);
                copy_places(rows, places);
                return;
            }
        }
    }
}
