//! Inputs by which robots report to who tells them their orders over an output, and logs what they report.

ghost use Rattle.fleet_text.specs.Sink.{IsWorking};

use crate::floor::HearFault;
use crate::form::ReportForm;
use crate::hearing::hear_line;
use crate::report::Report;
use crate::report_text::LineKind;
use crate::window::Window;
use fleet_text::{Flush, OutFault, deliver};
use std::io::Read;

/// An input by which robots report, beside the output over which they are told and a log. What is told over the one,
/// heard from the other and logged is one talk, in turn, so a contract says what was told before a report was heard,
/// and logged before an order was told. The window has the bytes of the input that were read ahead. Every reader is
/// one, beside every output that hands on: a report is a line.
pub trait ReportsTo<O: Flush>: Read {
    ghost use Rattle.std.specs.Prelude.{ℕ, List, ◌++◌, ◌∷◌, []};
    ghost use Rattle.std.specs.Io.KnownBytes.{Appends};
    ghost use Rattle.fleet_text.specs.Sink.{SinkState, IsWorking, IsDelivered, HasFailed};
    ghost use Rattle.fleet_dispatch.specs.declared.form.ReportForm.{ReportForm};
    ghost use Rattle.fleet_dispatch.specs.Talk.{Talk, Logged, Unlogged, Tells, Hears};
    ghost use Rattle.fleet_dispatch.specs.Window.{window_rest};

    /// From the first input, with what was read ahead of it, the first output and the first log to the second ones this
    /// was told, heard and logged.
    ghost talks: { ReportForm → Self → List ℕ → O → SinkState → Self → List ℕ → O → SinkState
        → Talk → Type 0 };

    /// Hands on all of the bytes before it answers. If it fails, a front of them was taken, and nothing more can be
    /// told.
    fn tell(
        &mut self,
        form: ReportForm,
        window: &Window,
        orders: &mut O,
        bytes: &[u8],
    ) -> Result<(), OutFault>
        requires { IsWorking (O.state orders.old) }
        ensures { (log : SinkState) → Tells (talks form self.old (window_rest window.now)
            orders.old log self.new (window_rest window.now) orders.new log)
            (IsWorking (O.state orders.new)) result bytes.now };

    /// Waits for a line, and answers what was heard: of a report, it makes this one the one that it heard. `Ok(None)`
    /// if there is no line any more.
    fn hear(
        &mut self,
        form: ReportForm,
        window: &mut Window,
        orders: &O,
        report: &mut Report,
    ) -> Result<Option<LineKind>, HearFault>
        requires { IsWorking (O.state orders.now) }
        ensures { (log : SinkState) → Hears (talks form self.old (window_rest window.old)
            orders.now log self.new (window_rest window.new) orders.now log)
            (IsWorking (O.state orders.now)) result report.new };

    /// From an input, an output and a log to themselves nothing was told, heard or logged.
    ghost silent: { (form : ReportForm) (r : Self) (ahead : List ℕ) (o : O) (log : SinkState)
        → talks form r ahead o log r ahead o log [] };

    /// What a log took and handed on is a part of the talk.
    ghost logged: { (form : ReportForm) (r : Self) (ahead : List ℕ) (o : O)
        (log log' : SinkState) (bytes : List ℕ)
        → IsDelivered log log' bytes → talks form r ahead o log r ahead o log' (Logged bytes ∷ []) };

    /// So is what a log took that has failed then.
    ghost unlogged: { (form : ReportForm) (r : Self) (ahead : List ℕ) (o : O)
        (log log' : SinkState) (bytes : List ℕ)
        → Appends log.taken log'.taken bytes → HasFailed log'
        → talks form r ahead o log r ahead o log' (Unlogged bytes ∷ []) };

    /// What was told, heard and logged in two stretches, one after the other, was so in both.
    ghost joined: { (form : ReportForm) (r : Self) (ahead : List ℕ) (o : O) (log : SinkState)
        (r' : Self) (ahead' : List ℕ) (o' : O) (log' : SinkState)
        (r'' : Self) (ahead'' : List ℕ) (o'' : O) (log'' : SinkState) (before after : Talk)
        → talks form r ahead o log r' ahead' o' log' before
        → talks form r' ahead' o' log' r'' ahead'' o'' log'' after
        → talks form r ahead o log r'' ahead'' o'' log'' (before ++ after) };
}

/// Turn after turn, what was told was handed on by the output, what was logged by the log, and what was heard is the
/// next line of the input.
impl<R: Read, O: Flush> ReportsTo<O> for R {
    ghost use Rattle.std.specs.Io.KnownBytes.{prepend_known};
    ghost use Rattle.fleet_dispatch.specs.Stream.{TakesTurns};
    ghost use Rattle.fleet_dispatch.specs.StreamTalk.{takes_nothing, takes_log, takes_cut_log, takes_turns_more};

    ghost talks = { λ form r ahead o log r' ahead' o' log' talk. TakesTurns form
        (record { out = O.state o; left = prepend_known ahead (R.remaining r); log = log })
        (record { out = O.state o'; left = prepend_known ahead' (R.remaining r'); log = log' }) talk };

    fn tell(
        &mut self,
        _: ReportForm,
        _: &Window,
        orders: &mut O,
        bytes: &[u8],
    ) -> Result<(), OutFault> {
        deliver(orders, bytes)
    }

    fn hear(
        &mut self,
        form: ReportForm,
        window: &mut Window,
        orders: &O,
        report: &mut Report,
    ) -> Result<Option<LineKind>, HearFault> {
        hear_line(form, self, window, report)
    }

    ghost silent = { λ form r ahead o log. takes_nothing form _ };

    ghost logged = { λ form r ahead o log log' bytes delivered. takes_log form
        (record { out = O.state o; left = prepend_known ahead (R.remaining r); log = log })
        log' bytes delivered };

    ghost unlogged = { λ form r ahead o log log' bytes taken failed. takes_cut_log form
        (record { out = O.state o; left = prepend_known ahead (R.remaining r); log = log })
        log' bytes taken failed };

    ghost joined = { λ form r ahead o log r' ahead' o' log' r'' ahead'' o'' log'' before after.
        takes_turns_more form _ _ _ before after };
}
