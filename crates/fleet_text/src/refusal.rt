//! Refusals: the line of each.

ghost use Rattle.fleet_text.specs.Sink.{IsWorking, TakesAll};
ghost use Rattle.fleet_text.specs.Words.{line_text};
ghost use Rattle.fleet_text.specs.Refusals.{memory_words, named, named_at, named_by};

use crate::row::{Word, put_line};
use crate::sink::{OutFault, TraceOut};

/// Why something was not done. Beside each enum of faults stands its line.
pub trait Refusal {
    ghost use Rattle.std.specs.Prelude.{◌≡◌, ℕ, Bool, List};

    /// The words of its line: the part, the refusal's number, its name, then each field's name and value.
    ghost words: { Self → List (List ℕ) };

    /// Whether memory, a file, a source or a sink failed, and nothing is wrong with what was given.
    ghost is_failure: { Self → Bool };

    /// Writes its line.
    fn put<O: TraceOut>(&self, out: &mut O) -> Result<(), OutFault>
        requires { IsWorking (O.state out.old) }
        ensures { TakesAll (O.state out.old) (O.state out.new) result
            (line_text (words self.now)) };

    /// Whether it is a failure.
    fn is_failure(&self) -> bool
        ensures { result ≡ is_failure self.now };
}

/// Writes the line that says that memory ran out.
pub fn put_memory<O: TraceOut>(out: &mut O) -> Result<(), OutFault>
    requires { IsWorking (O.state out.old) }
    ensures { TakesAll (O.state out.old) (O.state out.new) result (line_text memory_words) }
{
    put_line(out, &[Word::Text("memory")])
}

/// Writes the line of a refusal without fields: its part, its number and its name.
pub fn put_named<O: TraceOut>(
    out: &mut O,
    part: &'static str,
    number: u64,
    name: &'static str,
) -> Result<(), OutFault>
    requires { IsWorking (O.state out.old) }
    ensures { TakesAll (O.state out.old) (O.state out.new) result
        (line_text (named part.now number name.now)) }
{
    put_line(
        out,
        &[Word::Text(part), Word::Number(number), Word::Text(name)],
    )
}

/// Writes the line of a refusal with one field: its part, its number, its name, and the field's name and value.
pub fn put_named_at<O: TraceOut>(
    out: &mut O,
    part: &'static str,
    number: u64,
    name: &'static str,
    field: &'static str,
    value: u64,
) -> Result<(), OutFault>
    requires { IsWorking (O.state out.old) }
    ensures { TakesAll (O.state out.old) (O.state out.new) result
        (line_text (named_at part.now number name.now field.now value)) }
{
    put_line(
        out,
        &[
            Word::Text(part),
            Word::Number(number),
            Word::Text(name),
            Word::Text(field),
            Word::Number(value),
        ],
    )
}

/// Writes the line of a refusal with two fields, each its name and its value.
pub fn put_named_by<O: TraceOut>(
    out: &mut O,
    part: &'static str,
    number: u64,
    name: &'static str,
    first: (&'static str, u64),
    second: (&'static str, u64),
) -> Result<(), OutFault>
    requires { IsWorking (O.state out.old) }
    ensures { TakesAll (O.state out.old) (O.state out.new) result
        (line_text (named_by part.now number name.now
        first.entry.0.now first.entry.1 second.entry.0.now second.entry.1)) }
{
    let (first_name, first_value) = first;
    let (second_name, second_value) = second;
    put_line(
        out,
        &[
            Word::Text(part),
            Word::Number(number),
            Word::Text(name),
            Word::Text(first_name),
            Word::Number(first_value),
            Word::Text(second_name),
            Word::Number(second_value),
        ],
    )
}
