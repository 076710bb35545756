//! Which robot is dead, and on which cells it stands, by a text.

ghost use Rattle.std.specs.Prelude.{◌≡◌, ◌<◌, position, IfSome};
ghost use Rattle.fleet_dispatch.specs.DeadRobot.{is_comma, number_below, cell_of, cells_of, dead_robot_of};

use crate::number::long_number_of;
use crate::report_text::colon_in;
use fleet_model::Cell;

/// An agent whose robot is dead, and the cells on which that stands: one, twice, or two.
#[derive(Clone, Copy)]
pub struct DeadRobot {
    pub agent: u16,
    pub first: Cell,
    pub second: Cell,
}

/// The number that a word spells, if it is below this one.
fn number_below(limit: u16, word: &[u8]) -> Option<u16>
    ensures number { result ≡ number_below limit word.now }
    ensures below { IfSome result (λ n. n < limit) }
{
    let number = long_number_of(word)?;
    if number < u32::from(limit) {
        Some(number as u16)
    } else {
        None
    }
}

/// Where the first comma is.
fn comma_in(word: &[u8]) -> Option<usize>
    ensures { result ≡ position is_comma word.now }
{
    word.iter().position(|b| *b == b',')
}

/// The cell that a word names, of a map of these sizes.
fn cell_of(width: u16, height: u16, word: &[u8]) -> Option<Cell>
    ensures { result ≡ cell_of width height word.now }
{
    let end = comma_in(word)?;
    let x = number_below(width, &word[..end])?;
    let y = number_below(height, &word[end + 1..])?;
    Some(Cell { x, y })
}

/// The cells that a word names: one, twice, or two.
fn cells_of(width: u16, height: u16, word: &[u8]) -> Option<(Cell, Cell)>
    ensures { result ≡ cells_of width height word.now }
{
    let Some(end) = colon_in(word) else {
        let cell = cell_of(width, height, word)?;
        return Some((cell, cell));
    };
    let first = cell_of(width, height, &word[..end])?;
    let second = cell_of(width, height, &word[end + 1..])?;
    Some((first, second))
}

/// The agent and its cells that a text `A:X,Y` or `A:X,Y:X,Y` names, of so many agents on a map of these sizes.
pub fn dead_robot_of(agents: u16, width: u16, height: u16, text: &[u8]) -> Option<DeadRobot>
    ensures robot { result ≡ dead_robot_of agents width height text.now }
    ensures agent { IfSome result (λ d. d.agent < agents) }
{
    let end = colon_in(text)?;
    let agent = number_below(agents, &text[..end])?;
    let (first, second) = cells_of(width, height, &text[end + 1..])?;
    Some(DeadRobot {
        agent,
        first,
        second,
    })
}
