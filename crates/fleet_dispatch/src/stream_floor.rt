//! A floor whose robots report in the lines of an input, are told their orders over an output, and are logged.

ghost use Rattle.std.specs.Prelude.{◌≡◌};
ghost use Rattle.fleet_text.specs.Sink.{IsWorking};
ghost use Rattle.fleet_model.specs.Program.{IsWellFormed};
ghost use Rattle.fleet_dispatch.specs.Replay.{DispatchesAfter};
ghost use Rattle.fleet_dispatch.specs.Session.{IsReady, DispatchesOver, first_course, course_in, left_in};
ghost use Rattle.fleet_dispatch.specs.Stream.{IsOver};
ghost use Rattle.fleet_dispatch.specs.Talk.{IsLogged, IsSaid};

use crate::fault::DispatchFault;
use crate::floor::{Floor, HearFault};
use crate::form::ReportForm;
use crate::pace::Pace;
use crate::replay::lead_on;
use crate::report::Report;
use crate::report_log::{NoLog, ReportLog};
use crate::report_text::LineKind;
use crate::reports_to::ReportsTo;
use crate::run::{DispatchReport, Session, run_session};
use crate::window::Window;
use fleet_model::ProgramView;
use fleet_text::{Flush, OutFault};
use fleet_verify::Accepted;
use std::alloc::Global;

/// A floor over an input, an output and a log, which it borrows. A report is a line of the input, read as it comes and
/// ended by an LF: `-` for nobody, or words in strictly rising order of agent with one space between two, each `A:N`,
/// or `A` in the form without numbers; the line `?` asks where the agents are. What is told or logged is handed on
/// before anything else is done. Takes no memory.
#[derive(Drop)]
pub struct StreamFloor<'a, R: ReportsTo<O>, O: Flush, L: ReportLog> {
    form: ReportForm,
    input: &'a mut R,
    window: Window,
    orders: &'a mut O,
    log: &'a mut L,
}

impl<'a, R: ReportsTo<O>, O: Flush, L: ReportLog> StreamFloor<'a, R, O, L> {
    /// A floor that hears the lines of `input`, tells over `orders`, and logs in `log`.
    pub fn new(
        form: ReportForm,
        input: &'a mut R,
        orders: &'a mut O,
        log: &'a mut L,
    ) -> StreamFloor<'a, R, O, L>
        ensures { IsOver form input.entry orders.entry log.entry result }
    {
        StreamFloor {
            form,
            input,
            window: Window::new(),
            orders,
            log,
        }
    }
}

impl<R: ReportsTo<O>, O: Flush, L: ReportLog> Floor for StreamFloor<'_, R, O, L> {
    ghost use Rattle.std.specs.Prelude.{◌≡◌};
    ghost use Rattle.std.proofs.Common.{refl, ◌∙◌, subst};
    ghost use Rattle.fleet_text.specs.Sink.{IsWorking};
    ghost use Rattle.fleet_dispatch.specs.Window.{window_rest};

    ghost talks = { λ f g talk. R.talks f.form f.input.now (window_rest f.window) f.orders.now
        (L.state f.log.now)
        g.input.now (window_rest g.window) g.orders.now (L.state g.log.now) talk
        × (g.form ≡ f.form)
        × (g.input.ghost_name ≡ f.input.ghost_name) × (g.orders.ghost_name ≡ f.orders.ghost_name)
        × (g.log.ghost_name ≡ f.log.ghost_name) × L.stays f.log.now g.log.now };

    ghost works = { λ f. IsWorking (O.state f.orders.now) × IsWorking (L.state f.log.now) };

    ghost stays = { λ f g. (g.form ≡ f.form) × (g.input.ghost_name ≡ f.input.ghost_name)
        × (g.orders.ghost_name ≡ f.orders.ghost_name) × (g.log.ghost_name ≡ f.log.ghost_name)
        × L.stays f.log.now g.log.now };

    fn tell(&mut self, bytes: &[u8]) -> Result<(), OutFault> {
        self.input.tell(self.form, &self.window, self.orders, bytes)
    }

    fn log(&mut self, bytes: &[u8]) -> Result<(), OutFault> {
        self.log.keep(bytes)
    }

    fn hear(&mut self, report: &mut Report) -> Result<Option<LineKind>, HearFault> {
        self.input
            .hear(self.form, &mut self.window, self.orders, report)
    }

    ghost silent = { λ f. (R.silent f.form _ _ _ _, refl, refl, refl, refl, L.same f.log.now) };

    ghost kept = { λ f g talk said. (said.1, said.2, said.3, said.4, said.5) };

    ghost joined = { λ f g h before after first then. (
      R.joined f.form _ _ _ _ _ _ _ _ _ _ _ _ before after first.0
          (subst (λ x. R.talks x g.input.now (window_rest g.window) g.orders.now (L.state g.log.now)
          h.input.now (window_rest h.window) h.orders.now (L.state h.log.now) after) first.1 then.0),
      then.1 ∙ first.1,
      then.2 ∙ first.2,
      then.3 ∙ first.3,
      then.4 ∙ first.4,
      L.longer f.log.now g.log.now h.log.now first.5 then.5,
    ) };
}

/// How a dispatch begins: how its orders are given, and the log of the reports that were taken before.
#[derive(Clone, Copy)]
pub struct Outset<'a> {
    pub pace: Pace,
    pub past: &'a [u8],
}

/// Dispatches the agents of an accepted program over the floor of an input, an output and a log: they report in the
/// lines of the input, and are told their orders over the output; each report that is taken is a line of the log before
/// anything follows from it. Of the input more may have been read than the lines that were heard. It goes on where the
/// reports of the past have led another.
///
/// Errors: those of `dispatch_accepted`.
pub fn dispatch_logged<P: ProgramView + Drop, R: ReportsTo<O>, O: Flush, L: ReportLog>(
    alloc: Global,
    accepted: Accepted<'_, P>,
    outset: Outset<'_>,
    input: &mut R,
    orders: &mut O,
    log: &mut L,
) -> Result<DispatchReport, DispatchFault>
    requires orders { IsWorking (O.state orders.old) }
    requires log { IsWorking (L.state log.old) }
    ensures outcome { DispatchesAfter
        (first_course (P.program accepted.entry.program) outset.entry.pace) outset.entry.past.now
        (IsLogged R.talks input.old orders.old input.new orders.new (L.state log.old)
        (L.state log.new) outset.entry.pace.form) result }
    ensures stays { L.stays log.old log.new }
{
    let Outset { pace, past } = outset;
    let program = accepted.program();
    let mut session = lead_on(alloc, program, pace, past)?;
    dispatch_led(&mut session, program, pace, input, orders, log)
}

/// The same of a session that the reports of the past have led (`lead_on`).
///
/// Errors: those of `run_session`.
pub fn dispatch_led<P: ProgramView, R: ReportsTo<O>, O: Flush, L: ReportLog>(
    session: &mut Session,
    program: &P,
    pace: Pace,
    input: &mut R,
    orders: &mut O,
    log: &mut L,
) -> Result<DispatchReport, DispatchFault>
    requires well_formed { IsWellFormed (P.program program.now) }
    requires ready { IsReady (P.program program.now) pace session.old }
    requires fresh { session.old.progress.told ≡ session.old.progress.done }
    requires orders { IsWorking (O.state orders.old) }
    requires log { IsWorking (L.state log.old) }
    ensures { DispatchesOver (course_in (P.program program.now) pace session.old)
        (IsLogged R.talks input.old orders.old input.new orders.new (L.state log.old)
        (L.state log.new) pace.form) (L.stays log.old log.new) (left_in session.new) result }
{
    let mut floor = StreamFloor::new(pace.form, input, orders, log);
    run_session(session, program, pace, &mut floor)
}

/// A dispatch without a log, from its start or where the reports of the past have led another.
///
/// Errors: those of `dispatch_accepted`.
pub fn dispatch_over<P: ProgramView + Drop, R: ReportsTo<O>, O: Flush>(
    alloc: Global,
    accepted: Accepted<'_, P>,
    pace: Pace,
    past: &[u8],
    input: &mut R,
    orders: &mut O,
) -> Result<DispatchReport, DispatchFault>
    requires { IsWorking (O.state orders.old) }
    ensures { DispatchesAfter (first_course (P.program accepted.entry.program) pace) past.now
        (IsSaid R.talks input.old orders.old input.new orders.new pace.form) result }
{
    let outset = Outset { pace, past };
    dispatch_logged(alloc, accepted, outset, input, orders, &mut NoLog)
}
