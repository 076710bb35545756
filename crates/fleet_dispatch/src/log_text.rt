//! The lines of a log.

ghost use Rattle.std.specs.Prelude.{◌≡◌, ◌≤◌, ◌+◌, ◌++◌, length, drop};
ghost use Rattle.fleet_dispatch.specs.ReportText.{word_text, log_line};

use crate::report::{Report, Reported};
use fleet_model::MAX_AGENTS;
use fleet_text::{write_byte, write_count};

/// How many bytes the longest word of a report has: two numbers, and a colon between them.
pub(crate) const WORD: usize = 21;

/// How many bytes the longest line of a log has: words, each with a byte before it, and the line's end.
pub const LOG_LINE: usize = MAX_AGENTS * (1 + WORD) + 1;

/// Writes a word of a report so that it ends before `end`, and answers where it begins.
pub(crate) fn write_word(word: Reported, row: &mut [u8], end: usize) -> usize
    requires room { WORD ≤ end }
    requires within { end ≤ length row.old }
    ensures low { end ≤ result + WORD }
    ensures high { result ≤ end }
    ensures written { drop result row.new ≡ word_text word ++ drop end row.old }
{
    match word.number {
        Some(number) => {
            let at = write_count(number, row, end);
            let at = write_byte(b':', row, at);
            write_count(word.agent, row, at)
        }
        None => write_count(word.agent, row, end),
    }
}

/// Writes the line of a report so that it ends with the row, and answers where it begins.
pub fn write_log_line(report: &Report, row: &mut [u8]) -> usize
    requires room { length row.old ≡ LOG_LINE }
    ensures within { result ≤ length row.new }
    ensures written { drop result row.new ≡ log_line report.now }
{
    let words = report.words();
    let mut at = write_byte(b'\n', row, LOG_LINE);
    if words.is_empty() {
        return write_byte(b'-', row, at);
    }
    for i in (0..words.len()).rev() {
        at = write_word(words[i], row, at);
        at = write_byte(b' ', row, at);
    }
    at + 1
}
