//! Floors: where the robots are told their orders, where they report, and where their reports are logged.

use crate::report::Report;
use crate::report_text::LineKind;
use fleet_text::OutFault;

/// Why no report was heard.
#[derive(Clone, Copy)]
pub enum HearFault {
    /// The line is no report, and not the question.
    Form,
    /// The line cannot be read.
    Broken,
}

/// A floor of robots. All that is said to it, heard from it and logged is one talk, in turn, so a contract says which
/// bytes were said before a report was heard, and that it was logged before others were said.
pub trait Floor {
    ghost use Rattle.std.specs.Prelude.{[], ◌++◌};
    ghost use Rattle.fleet_dispatch.specs.Talk.{Talk, Tells, Logs, Hears};

    /// From the first to the second this was said, heard and logged.
    ghost talks: { Self → Self → Talk → Type 0 };

    /// Whether it can be told more, heard further, and have more logged.
    ghost works: { Self → Type 0 };

    /// Whether the second is the first, further on: what it borrows is the same.
    ghost stays: { Self → Self → Type 0 };

    /// Hands on all of the bytes before it answers. If it fails, a front of them was taken, and nothing more can be
    /// said.
    fn tell(&mut self, bytes: &[u8]) -> Result<(), OutFault>
        requires { works self.old }
        ensures { Tells (talks self.old self.new) (works self.new) result bytes.now };

    /// Has the log take all of the bytes and hand them on before it answers. If it fails, a front of them was taken,
    /// and nothing more can be logged.
    fn log(&mut self, bytes: &[u8]) -> Result<(), OutFault>
        requires { works self.old }
        ensures { Logs (talks self.old self.new) (works self.new) result bytes.now };

    /// Waits for a line, and answers what was heard: of a report, it makes this one the one that it heard. `Ok(None)`
    /// if there is no line any more.
    fn hear(&mut self, report: &mut Report) -> Result<Option<LineKind>, HearFault>
        requires { works self.old }
        ensures { Hears (talks self.old self.new) (works self.new) result report.new };

    /// From a floor to itself nothing was said or heard.
    ghost silent: { (f : Self) → talks f f [] };

    /// A floor stays the same in all that is said and heard.
    ghost kept: { (f g : Self) (talk : Talk) → talks f g talk → stays f g };

    /// What was said and heard in two stretches, one after the other, was said and heard in both.
    ghost joined: { (f g h : Self) (before after : Talk)
        → talks f g before → talks g h after → talks f h (before ++ after) };
}
