//! The command `dispatch`, and its log: a file of a store, behind whose bytes the lines of its reports are put.

ghost use Rattle.std.specs.Prelude.{◌≡◌, ◌≢◌, OnOk, IfErr, IfSome};
ghost use Rattle.fleet_text.specs.Sink.{IsWorking};
ghost use Rattle.fleet_model.specs.Program.{IsWellFormed};
ghost use Rattle.fleet_dispatch.specs.{Talk.IsLogged, Dispatch.Dispatches, Session.IsReady, Session.course_in, Session.left_in};
ghost use Rattle.fleet_cli.specs.{Output.around, Files.IsGivenAs, Files.IsOwnLog};
ghost use Rattle.fleet_cli.specs.DispatchCommand.{log_in, lines_in, ChangesOnlyLog, IsKeptAfter, IsLogFault, answer_of, pace_of, AnswersDispatch};

use crate::fault::{Fault, or_refuse};
use crate::files::{FileFault, Files};
use crate::steps::{Problem, accept};
use fleet_args::DispatchRequest;
use fleet_dispatch::{
    DispatchFault, DispatchReport, NoLog, Pace, ReportForm, ReportLog, ReportsTo, Session,
    dispatch_led, lead_on,
};
use fleet_model::ProgramView;
use fleet_text::{Flush, OutFault};
use std::alloc::Global;

/// Begins the log, if one is named, of a dispatch that goes on after the bytes `past`: of one that holds nothing or
/// just these it cuts off what stands behind the last LF. One that holds something else is refused, and every file is
/// as it was. Want of memory is `Memory`, and a log that cannot be begun is `File` with its name.
fn begin_log<'a, F: Files>(
    alloc: Global,
    files: &mut F,
    name: Option<&'a str>,
    past: &[u8],
) -> Result<(), Fault<'a>>
    ensures own { OnOk result
        (IfSome (log_in (F.contents files.old) name.entry) (IsOwnLog past.now)) }
    ensures lines { OnOk result
        (log_in (F.contents files.new) name.entry ≡ lines_in (F.contents files.old) name.entry) }
    ensures fault { IfErr result (IsLogFault
        (F.contents files.old) (F.contents files.new) name.entry past.now) }
    ensures refused { IfErr result (λ fault. fault ≢ Fault.Dispatch DispatchFault.OtherLog
        → IsGivenAs (F.refuses_write files.old) name.entry fault) }
    ensures others { ChangesOnlyLog (F.contents files.old) (F.contents files.new) name.entry }
{
    let Some(name) = name else {
        return Ok(());
    };
    match files.begin_log(alloc, name, past) {
        Ok(true) => Ok(()),
        Ok(false) => Err(Fault::Dispatch(DispatchFault::OtherLog)),
        Err(FileFault::OutOfMemory) => Err(Fault::Memory),
        Err(FileFault::Failed) => Err(Fault::File(name)),
    }
}

/// A log in the named file of a store.
#[derive(Drop)]
struct Journal<'a, F: Files> {
    files: &'a mut F,
    name: &'a str,
    /// Whether it could not be grown.
    failed: bool,
}

impl<F: Files> ReportLog for Journal<'_, F> {
    ghost use Rattle.std.specs.Prelude.{◌≡◌};
    ghost use Rattle.std.proofs.Common.{refl, ◌∙◌};
    ghost use Rattle.fleet_cli.specs.Files.{bytes_of, ChangesOnly};
    ghost use Rattle.fleet_cli.specs.DispatchCommand.{log_state, log_self, log_longer};

    ghost state = { λ j. log_state (bytes_of (F.contents j.files.now) j.name.now) j.failed };

    ghost stays = { λ a b. (b.files.ghost_name ≡ a.files.ghost_name) × (b.name.now ≡ a.name.now)
        × ChangesOnly (F.contents a.files.now) (F.contents b.files.now) a.name.now };

    fn keep(&mut self, bytes: &[u8]) -> Result<(), OutFault> {
        match self.files.append(self.name, bytes) {
            Ok(()) => Ok(()),
            Err(_) => {
                self.failed = true;
                Err(OutFault)
            }
        }
    }

    ghost same = { λ j. (refl, refl, log_self (F.contents j.files.now) j.name.now) };

    ghost longer = { λ a b c first then. (
      then.0 ∙ first.0,
      then.1 ∙ first.1,
      log_longer (F.contents a.files.now) (F.contents b.files.now) (F.contents c.files.now)
          a.name.now b.name.now first.1 first.2 then.2,
    ) };
}

/// How the orders of a request are given. More than 255 ahead are 255.
fn pace_of(request: &DispatchRequest<'_>) -> Pace
    ensures { result ≡ pace_of request.now }
{
    let form = if request.unnumbered {
        ReportForm::Unnumbered
    } else {
        ReportForm::Numbered
    };
    let ahead = request.ahead.min(u8::MAX as u16) as u8;
    Pace { form, ahead }
}

/// Dispatches the agents of a program from where the session is, as the request asks, and puts each report that is
/// taken behind the bytes of the log.
fn dispatch_kept<P: ProgramView, R: ReportsTo<O>, F: Files, O: Flush>(
    session: &mut Session,
    program: &P,
    request: &DispatchRequest<'_>,
    input: &mut R,
    files: &mut F,
    out: &mut O,
) -> Result<DispatchReport, DispatchFault>
    requires well_formed { IsWellFormed (P.program program.now) }
    requires ready { IsReady (P.program program.now) (pace_of request.now) session.old }
    requires fresh { session.old.progress.told ≡ session.old.progress.done }
    requires out { IsWorking (O.state out.old) }
    ensures outcome { Dispatches
        (course_in (P.program program.now) (pace_of request.now) session.old)
        (IsKeptAfter (log_in (F.contents files.old) request.now.log) (F.contents files.new)
        request.now.log (IsLogged R.talks input.old out.old input.new out.new)
        (pace_of request.now).form) (left_in session.new) result }
    ensures others { ChangesOnlyLog (F.contents files.old) (F.contents files.new)
        request.now.log }
{
    let pace = pace_of(request);
    match request.log {
        None => dispatch_led(session, program, pace, input, out, &mut NoLog),
        Some(name) => {
            let mut journal = Journal {
                files,
                name,
                failed: false,
            };
            dispatch_led(session, program, pace, input, out, &mut journal)
        }
    }
}

/// What is answered if a dispatch ended so: 0 if all agents have arrived.
fn answer_of<'a>(told: Result<DispatchReport, DispatchFault>) -> Result<u8, Fault<'a>>
    ensures { result ≡ answer_of told }
{
    match told {
        Ok(_) => Ok(0),
        Err(fault) => Err(Fault::Dispatch(fault)),
    }
}

/// The command `dispatch`: verifies the program, and dispatches its agents, which report in the lines of `input`: each
/// is told its orders over `out` as soon as they are due, before the next report is waited for. It goes on where the
/// reports of the file `resume` led another, and each report that is taken is put behind the whole lines of the file
/// `log`, which holds nothing, or what `resume` does, before anything follows from it. Before the first order these two
/// may be refused, and stay as they are. Answers 0.
#[inline(never)]
pub(crate) fn do_dispatch<'a, R: ReportsTo<O>, F: Files, O: Flush>(
    alloc: Global,
    request: &DispatchRequest<'a>,
    problem: &Problem,
    input: &mut R,
    files: &mut F,
    out: &mut O,
) -> Result<u8, Fault<'a>>
    requires { IsWorking (O.state out.old) }
    ensures { AnswersDispatch (around (F.contents files.old) (F.contents files.new)
        (input.new ≡ input.old) (out.new ≡ out.old)
        (IsLogged R.talks input.old out.old input.new out.new)) request.now problem.now
        (O.state out.old) (O.state out.new) result }
{
    let accepted = accept(alloc, problem)?;
    let program = accepted.program();
    let mut session = or_refuse!(
        lead_on(alloc, program, pace_of(request), &problem.texts.log),
        Fault::Dispatch
    );
    begin_log(alloc, files, request.log, &problem.texts.log)?;
    answer_of(dispatch_kept(&mut session, program, request, input, files, out))
}
