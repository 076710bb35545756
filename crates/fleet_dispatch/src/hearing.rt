//! How the next line of an input is found and heard.

ghost use Rattle.std.specs.Prelude.{◌≡◌, ◌≤◌, ◌+◌, length, take, position, Some, None};
ghost use Rattle.std.specs.Io.KnownBytes.{prepend_known};
ghost use Rattle.fleet_text.specs.Text.{is_lf};
ghost use Rattle.fleet_dispatch.specs.Window.{window_rest};
ghost use Rattle.fleet_dispatch.specs.Hearing.{FindsLine, HearsLine};

use crate::floor::HearFault;
use crate::form::ReportForm;
use crate::report::Report;
use crate::report_text::{LineKind, read_line};
use crate::window::{LINE_ROOM, Window};
use fleet_text::without_cr;
use std::io::Read;

/// Where the first line of the bytes ends, if it ends within them.
pub fn end_in(bytes: &[u8]) -> Option<usize>
    ensures { result ≡ position is_lf bytes.now }
{
    bytes.iter().position(|b| *b == b'\n')
}

/// Where the first line of the bytes ends, of which the first `front` end none, if it ends within them.
fn end_behind(bytes: &[u8], front: usize) -> Option<usize>
    requires front { front ≤ length bytes.now }
    requires none { position is_lf (take front bytes.now) ≡ None }
    ensures { result ≡ position is_lf bytes.now }
{
    let Some(end) = end_in(&bytes[front..]) else {
        return None;
    };
    Some(front + end)
}

/// Reads until a line ends in the window, and answers where; nowhere at the end of the input, where what was read ends
/// no line. A line that the window cannot hold is no report. Each byte is looked at once.
fn find_line<R: Read>(input: &mut R, window: &mut Window) -> Result<Option<usize>, HearFault>
    ensures { FindsLine (R.remaining input.old) (R.remaining input.new) (window_rest window.old)
        (window_rest window.new) result }
{
    let mut front = 0;
    'reads: loop {
        let rest = window.rest();
        if let Some(end) = end_behind(rest, front) {
            return Ok(Some(end));
        }
        front = rest.len();
        if front >= LINE_ROOM {
            return Err(HearFault::Form);
        }
        window.move_to_front();
        match window.read_from(input) {
            Ok(0) => return Ok(None),
            Ok(_) => {}
            Err(_) => return Err(HearFault::Broken),
        }
    }
}

/// Hears the next line of the input, which ends with an LF: of a report it makes this one the one that the line stands
/// for.
pub fn hear_line<R: Read>(
    form: ReportForm,
    input: &mut R,
    window: &mut Window,
    report: &mut Report,
) -> Result<Option<LineKind>, HearFault>
    ensures { HearsLine form (prepend_known (window_rest window.old) (R.remaining input.old))
        (prepend_known (window_rest window.new) (R.remaining input.new)) result report.new }
{
    let found = find_line(input, window)?;
    let Some(end) = found else {
        return Ok(None);
    };
    let line = without_cr(&window.rest()[..end]);
    let Some(heard) = read_line(form, line, report) else {
        return Err(HearFault::Form);
    };
    window.pass(end + 1);
    Ok(Some(heard))
}
