//! Orders and closing lines, as text.

ghost use Rattle.std.specs.Prelude.{◌≡◌, ◌+◌, ◌≤◌, ◌++◌, length, drop, take};
ghost use Rattle.fleet_dispatch.specs.Orders.{name_text, order_text, closing};
ghost use Rattle.fleet_dispatch.specs.ReportText.{word_text};
ghost use Rattle.fleet_dispatch.specs.Talk.{Tells};

use crate::floor::Floor;
use crate::form::ReportForm;
use crate::log_text::{WORD, write_word};
use crate::report::Reported;
use fleet_model::Place;
use fleet_text::{OutFault, PLACE, write_byte, write_bytes, write_count_line, write_place};

/// How many bytes the longest order has: how it names its action, and two places, between a word and a line's end.
pub const ORDER: usize = 3 + WORD + 2 * PLACE + 1;

/// The word of a report by which an order names action `n` of agent `i`.
#[inline(always)]
fn word_for(form: ReportForm, i: u16, n: u32) -> Reported
    ensures { word_text result ≡ name_text form i n }
{
    let agent = i as u32;
    let number = match form {
        ReportForm::Numbered => Some(n),
        ReportForm::Unnumbered => None,
    };
    Reported { agent, number }
}

/// Writes how an order names action `n` of agent `i`, so that it ends before `end`, and answers where it begins.
fn write_name(form: ReportForm, i: u16, n: u32, row: &mut [u8], end: usize) -> usize
    requires room { WORD ≤ end }
    requires within { end ≤ length row.old }
    ensures low { end ≤ result + WORD }
    ensures high { result ≤ end }
    ensures written { drop result row.new ≡ name_text form i n ++ drop end row.old }
{
    write_word(word_for(form, i, n), row, end)
}

/// An action that an agent is told: its number, and from where it leads to where.
#[derive(Clone, Copy)]
pub struct Order {
    pub agent: u16,
    pub number: u32,
    pub from: Place,
    pub to: Place,
}

/// Writes an order so that it ends with the row, and answers where it begins.
fn write_order(form: ReportForm, order: Order, row: &mut [u8]) -> usize
    requires room { length row.old ≡ ORDER }
    ensures high { result ≤ ORDER }
    ensures written { drop result row.new
        ≡ order_text form order.agent order.number order.from order.to }
{
    let at = write_byte(b'\n', row, ORDER);
    let at = write_place(order.to, row, at);
    let at = write_place(order.from, row, at);
    let at = write_name(form, order.agent, order.number, row, at);
    write_bytes(b"go ", row, at)
}

/// Writes an order behind those that end at `at`, and answers where it ends.
pub fn add_order(form: ReportForm, order: Order, row: &mut [u8], at: usize) -> usize
    requires room { at + ORDER ≤ length row.old }
    ensures high { result ≤ at + ORDER }
    ensures written { take result row.new ≡ take at row.old
        ++ order_text form order.agent order.number order.from order.to }
{
    let mut text = [0; ORDER];
    let begin = write_order(form, order, &mut text);
    add_text(&text[begin..], row, at)
}

/// Writes the text behind what ends at `at`, and answers where it ends.
pub fn add_text(text: &[u8], row: &mut [u8], at: usize) -> usize
    requires room { at + length text.now ≤ length row.old }
    ensures end { result ≡ at + length text.now }
    ensures written { take result row.new ≡ take at row.old ++ text.now }
{
    let end = at + text.len();
    row[at..end].copy_from_slice(text);
    end
}

/// How many bytes the closing lines have at most.
const CLOSING: usize = 100;

/// Writes the closing lines, and answers where they begin. They end with the row.
#[tactic(auto, unfolding(crate::specs::Orders::closing))]
fn write_closing(agents: u16, moves: u32, reports: u32, row: &mut [u8]) -> usize
    requires room { length row.old ≡ CLOSING }
    ensures within { result ≤ length row.new }
    ensures written { drop result row.new ≡ closing agents moves reports }
{
    let at = write_count_line(b"reports", reports, row, CLOSING);
    let at = write_count_line(b"moves", moves, row, at);
    let at = write_count_line(b"agents", agents as u32, row, at);
    write_bytes(b"arrived\n", row, at)
}

/// Tells that all have arrived, with the numbers of agents, moves and reports.
pub fn tell_closing<F: Floor>(
    agents: u16,
    moves: u32,
    reports: u32,
    floor: &mut F,
) -> Result<(), OutFault>
    requires floor { F.works floor.old }
    ensures { Tells (F.talks floor.old floor.new) (F.works floor.new) result
        (closing agents moves reports) }
{
    let mut row = [0; CLOSING];
    let at = write_closing(agents, moves, reports, &mut row);
    floor.tell(&row[at..])
}
