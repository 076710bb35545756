//! A log of reports, by which a dispatch is led to where it is to go on.

ghost use Rattle.std.specs.Prelude.{◌≡◌, IfOk, replicate};
ghost use Rattle.fleet_model.specs.Program.{IsWellFormed};
ghost use Rattle.fleet_dispatch.specs.Session.{IsReady, left_in, course_in};
ghost use Rattle.fleet_dispatch.specs.Replay.{Replays, LeadsOn, replay_end};

use crate::fault::DispatchFault;
use crate::floor::{Floor, HearFault};
use crate::form::ReportForm;
use crate::hearing::end_in;
use crate::pace::Pace;
use crate::report::Report;
use crate::report_text::{LineKind, read_line};
use crate::run::{DispatchReport, Session, run_session, start_session};
use fleet_model::ProgramView;
use fleet_text::{OutFault, without_cr};
use std::alloc::{AllocError, Global};

/// A floor whose reports are the lines of a text, each ended by an LF, and to which nothing that is told or logged
/// matters.
#[derive(Drop)]
struct LogFloor<'a> {
    form: ReportForm,
    rest: &'a [u8],
}

impl Floor for LogFloor<'_> {
    ghost use Rattle.std.specs.Prelude.{◌≡◌, ⊤};
    ghost use Rattle.std.proofs.Common.{refl, ◌∙◌, subst};
    ghost use Rattle.fleet_dispatch.specs.Replay.{ReplaysTurns};
    ghost use Rattle.fleet_dispatch.specs.ReplayTalk.{replays_more};

    ghost talks = { λ f g talk. ReplaysTurns f.form f.rest.now g.rest.now talk × (g.form ≡ f.form) };

    ghost works = { λ f. ⊤ };

    ghost stays = { λ f g. g.form ≡ f.form };

    fn tell(&mut self, _: &[u8]) -> Result<(), OutFault> {
        Ok(())
    }

    fn log(&mut self, _: &[u8]) -> Result<(), OutFault> {
        Ok(())
    }

    fn hear(&mut self, report: &mut Report) -> Result<Option<LineKind>, HearFault> {
        let Some(end) = end_in(self.rest) else {
            return Ok(None);
        };
        let line = without_cr(&self.rest[..end]);
        let Some(heard) = read_line(self.form, line, report) else {
            return Err(HearFault::Form);
        };
        self.rest = &self.rest[end + 1..];
        Ok(Some(heard))
    }

    ghost silent = { λ f. (refl, refl) };

    ghost kept = { λ f g talk said. said.1 };

    ghost joined = { λ f g h before after first then. (
      replays_more f.form f.rest.now g.rest.now h.rest.now before after first.0
          (subst (λ x. ReplaysTurns x g.rest.now h.rest.now after) first.1 then.0),
      then.1 ∙ first.1,
    ) };
}

/// How a dispatch ends whose log ends so.
fn replay_end(ended: Result<DispatchReport, DispatchFault>) -> Result<(), DispatchFault>
    ensures { result ≡ replay_end ended }
{
    match ended {
        Ok(_) => Ok(()),
        Err(DispatchFault::Ended { .. }) => Ok(()),
        Err(DispatchFault::Form { line }) => Err(DispatchFault::Log { line }),
        Err(DispatchFault::NotOrdered { line, .. }) => Err(DispatchFault::Log { line }),
        Err(fault) => Err(fault),
    }
}

/// Takes the lines of a log as reports, up to its last LF, or to the one by which all is carried out; says nothing.
fn replay<P: ProgramView>(
    session: &mut Session,
    program: &P,
    pace: Pace,
    log: &[u8],
) -> Result<(), DispatchFault>
    requires well_formed { IsWellFormed (P.program program.now) }
    requires ready { IsReady (P.program program.now) pace session.old }
    requires fresh { session.old.progress.told ≡ session.old.progress.done }
    ensures { Replays (course_in (P.program program.now) pace session.old) log.now
        (left_in session.new) result }
{
    let mut floor = LogFloor {
        form: pace.form,
        rest: log,
    };
    replay_end(run_session(session, program, pace, &mut floor))
}

/// That nothing is carried out by any of so many agents.
fn none_done(alloc: Global, agents: u16) -> Result<Vec<u32>, AllocError>
    ensures { IfOk result (λ done. done.items ≡ replicate agents 0) }
{
    vec![in alloc; 0; agents as usize]
}

/// The session of a dispatch that goes on where the reports of a log have led another, and is to say first which orders
/// are open. What stands behind the log's last LF is no report.
///
/// Errors: `Log` if a line is no report that the dispatch could take; `ReportLimit` if the log has more lines or
/// reports than a dispatch takes; `OutOfMemory`.
pub fn lead_on<P: ProgramView>(
    alloc: Global,
    program: &P,
    pace: Pace,
    log: &[u8],
) -> Result<Session, DispatchFault>
    ensures { LeadsOn (P.program program.now) pace log.now result }
{
    let Ok(done) = none_done(alloc, program.agents()) else {
        return Err(DispatchFault::OutOfMemory);
    };
    let Ok(mut past) = start_session(alloc, program, pace, &done, 0) else {
        return Err(DispatchFault::OutOfMemory);
    };
    replay(&mut past, program, pace, log)?;
    let Ok(session) = start_session(alloc, program, pace, past.done(), past.taken()) else {
        return Err(DispatchFault::OutOfMemory);
    };
    Ok(session)
}
