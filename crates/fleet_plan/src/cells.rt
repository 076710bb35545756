//! The cells of a line, read in one pass: each function takes what it finds in front of a text, and gives the rest.

ghost use Rattle.std.specs.Prelude.{◌≡◌, option_map, option_copied};
ghost use Rattle.fleet_plan.specs.CellReading.{after_comma, after_blanks, after_word, cell_front, begins_with_word};

use fleet_model::Cell;
use fleet_text::{is_blank, small_number_front};

/// What follows a comma in front.
fn after_comma(text: &[u8]) -> Option<&[u8]>
    ensures { option_copied result ≡ after_comma text.now }
{
    match text {
        [b',', after @ ..] => Some(after),
        _ => None,
    }
}

/// The text from the first byte on that is no blank.
fn after_blanks(text: &[u8]) -> &[u8]
    ensures { result.now ≡ after_blanks text.now }
{
    let mut rest = text;
    while let [byte, after @ ..] = rest {
        if !is_blank(*byte) {
            return rest;
        }
        rest = after;
    }
    rest
}

/// The text from the next word on, unless a word goes on in front.
fn after_word(text: &[u8]) -> Option<&[u8]>
    ensures { option_copied result ≡ after_word text.now }
{
    match text {
        [] => Some(text),
        [byte, after @ ..] if is_blank(*byte) => Some(after_blanks(after)),
        _ => None,
    }
}

/// The cell that the word in front spells, and the text from the next word on.
#[inline(always)]
#[tactic(auto, unfolding(crate::specs::CellReading::cell_front))]
pub(crate) fn cell_front(text: &[u8]) -> Option<(Cell, &[u8])>
    ensures { option_map (λ x. (x.0, x.1.now)) result ≡ cell_front text.now }
{
    let (x, after) = small_number_front(text)?;
    let after = after_comma(after)?;
    let (y, after) = small_number_front(after)?;
    let rest = after_word(after)?;
    Some((Cell { x, y }, rest))
}

/// Whether the text begins with a word.
pub(crate) fn begins_with_word(text: &[u8]) -> bool
    ensures { result ≡ begins_with_word text.now }
{
    match text {
        [first, ..] => !is_blank(*first),
        [] => false,
    }
}
