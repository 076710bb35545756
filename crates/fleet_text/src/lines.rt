//! The lines of a text, and the words of a line, which stand between its blanks, or have one space between two.
//!
//! A text is a slice of any bytes. Nothing is copied and nothing takes memory: each function lends what it finds in the
//! slice, and gives the rest of it. The end of a line is looked for by blocks of 64 bytes.

ghost use Rattle.std.specs.Prelude.{◌≡◌, ◌≤◌, ◌<◌, ◌+◌, ◌^◌, [], ◌∷◌, length, MatchOption, sum_by, not, position, ℕ, Bool, map, IfSome};
ghost use Rattle.std.specs.Str.Lines.{strip_carriage_return};
ghost use Rattle.fleet_text.specs.Text.{is_lf, lines, is_blank, words, words_from_front, is_space, is_dash};
ghost use Rattle.std.specs.Simd.Lanes.{mask_l};
ghost use Rattle.std.specs.List.{slice_split};

use std::marker::Model;
use std::simd::prelude::*;

/// A place between the lines of a text. As a value it is the list of the lines that follow.
#[derive(Drop)]
pub struct Cursor<'a> {
    rest: &'a [u8],
}

impl<'a> Model for Cursor<'a> {
    ghost use Rattle.std.specs.Prelude.{ℕ, List};
    ghost use Rattle.fleet_text.specs.Text.{lines};

    ghost Value = { List (List ℕ) };

    ghost view = { λ c. lines c.rest.now };
}

impl<'a> Cursor<'a> {
    /// The place before the first line.
    pub fn new(text: &'a [u8]) -> Self
        ensures lines { result ≡ lines text.now }
        ensures few { length result < 2 ^ 64 }
    {
        // What is read of a length is known to fit its type.
        let _length = text.len();
        Cursor { rest: text }
    }

    /// How many bytes are left. There are no more lines than bytes, and no more bytes than the lines have with a CR and
    /// an LF each.
    pub fn bytes_left(&self) -> usize
        ensures lines { length self.now ≤ result }
        ensures bytes { result ≤ sum_by (λ line. length line + 2) self.now }
    {
        self.rest.len()
    }

    /// Passes over the next line and lends it, without its LF or CR LF, or answers `None` at the end.
    pub fn next_line(&mut self) -> Option<&'a [u8]>
        ensures { MatchOption result ((self.old ≡ []) × (self.new ≡ []))
            (λ line. self.old ≡ line.now ∷ self.new) }
    {
        let (line, rest) = next_line(self.rest)?;
        self.rest = rest;
        Some(line)
    }
}

/// The first line of a text, without its LF or CR LF, and the text after it, or `None` at the end of the text.
pub fn next_line(text: &[u8]) -> Option<(&[u8], &[u8])>
    ensures { MatchOption result (lines text.now ≡ [])
        (λ x. lines text.now ≡ x.0.now ∷ lines x.1.now) }
{
    if text.is_empty() {
        return None;
    }
    match first_of::<LineEnd>(text) {
        Some(end) => Some((without_cr(&text[..end]), &text[end + 1..])),
        None => Some((without_cr(text), &text[text.len()..])),
    }
}

/// The byte that ends a line.
struct LineEnd;

impl ByteClass for LineEnd {
    ghost test = { is_lf };

    fn has(byte: u8) -> bool {
        byte == b'\n'
    }

    fn mask(block: u8x64) -> u64 {
        block.simd_eq(u8x64::splat(b'\n')).to_bitmask()
    }
}

/// The line without one CR at its end.
pub fn without_cr(line: &[u8]) -> &[u8]
    ensures { result.now ≡ strip_carriage_return line.now }
{
    match line {
        [front @ .., b'\r'] => front,
        _ => line,
    }
}

/// The first word of a line and the line after it, or `None` if no word is left.
pub fn next_word(line: &[u8]) -> Option<(&[u8], &[u8])>
    ensures { MatchOption result (words line.now ≡ [])
        (λ x. words line.now ≡ x.0.now ∷ words x.1.now) }
{
    let line = &line[word_start(line)?..];
    match word_end(line) {
        Some(end) => Some((&line[..end], &line[end..])),
        None => Some((line, &line[line.len()..])),
    }
}

/// The place of the first byte that is no blank, if there is one.
fn word_start(line: &[u8]) -> Option<usize>
    ensures { result ≡ position (λ b. not (is_blank b)) line.now }
{
    line.iter().position(|b| !is_blank(*b))
}

/// The place of the first blank, if there is one.
fn word_end(line: &[u8]) -> Option<usize>
    ensures { result ≡ position is_blank line.now }
{
    line.iter().position(|b| is_blank(*b))
}

/// The line, or nothing of it if it begins with a blank.
pub fn from_front(line: &[u8]) -> &[u8]
    ensures { words result.now ≡ words_from_front line.now }
{
    match line {
        [first, ..] if is_blank(*first) => &line[line.len()..],
        _ => line,
    }
}

/// Whether the byte is a space or a tab.
pub fn is_blank(byte: u8) -> bool
    ensures { result ≡ is_blank byte }
{
    byte == b' ' || byte == b'\t'
}

/// How many bytes a block has.
pub const BLOCK: usize = 64;

/// A class of bytes.
pub trait ByteClass {
    ghost test: { ℕ → Bool };

    /// Whether a byte is of the class.
    fn has(byte: u8) -> bool
        ensures { result ≡ test byte };

    /// Bit k says whether byte k of the block is of the class.
    fn mask(block: u8x64) -> u64
        ensures { result ≡ mask_l (map test block) };
}

/// The place of the first byte of the class, if there is one.
pub fn first_of<C: ByteClass>(text: &[u8]) -> Option<usize>
    ensures { result ≡ position C.test text.now }
{
    let mut rest = text;
    while let Some((block, after)) = rest.split_first_chunk::<BLOCK>() {
        let mask = C::mask(u8x64::from_array(*block));
        let has_one = mask != 0;
        if has_one {
            return Some(text.len() - rest.len() + mask.trailing_zeros() as usize);
        }
        rest = after;
    }
    let place = first_by_byte::<C>(rest)?;
    Some(text.len() - rest.len() + place)
}

/// The same, byte by byte.
fn first_by_byte<C: ByteClass>(text: &[u8]) -> Option<usize>
    ensures { result ≡ position C.test text.now }
{
    text.iter().position(|b| C::has(*b))
}

// The words of a line that has one space between two.

/// Whether it is the line `-`, which has no words.
pub fn is_dash(line: &[u8]) -> bool
    ensures { result ≡ is_dash line.now }
{
    matches!(line, [b'-'])
}

/// The bytes of the line before its first space, and those after it, if there is a space.
pub fn cut(line: &[u8]) -> (&[u8], Option<&[u8]>)
    ensures words { MatchOption result.1
        (slice_split is_space line.now ≡ result.0.now ∷ [])
        (λ after. slice_split is_space line.now ≡ result.0.now ∷ slice_split is_space after.now) }
    ensures shorter { IfSome result.1 (λ after. length after.now < length line.now) }
{
    match space_in(line) {
        Some(end) => (&line[..end], Some(&line[end + 1..])),
        None => (line, None),
    }
}

/// Where the first space is.
pub fn space_in(line: &[u8]) -> Option<usize>
    ensures { result ≡ position is_space line.now }
{
    line.iter().position(|b| *b == b' ')
}
