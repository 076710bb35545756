//! Dispatch of a fleet, report by report.

ghost use Rattle.std.specs.Prelude.{◌≡◌, ◌<◌, ◌+◌, length, IfOk, if◌then◌else◌};
ghost use Rattle.fleet_model.specs.Program.{IsWellFormed};
ghost use Rattle.fleet_dispatch.specs.Dispatch.{Dispatches};
ghost use Rattle.fleet_dispatch.specs.Session.{IsReady, IsOpened, TellsOrders, TellsStandings, TakesLine, TakesReport, LogsReport, Concludes, left_in, course_in};
ghost use Rattle.fleet_dispatch.specs.Ahead.{told_at};
ghost use Rattle.fleet_dispatch.specs.Progress.{AreCounts};

use crate::fault::DispatchFault;
use crate::floor::{Floor, HearFault};
use crate::log_text::{LOG_LINE, write_log_line};
use crate::orders::{ORDER, tell_closing};
use crate::pace::Pace;
use crate::progress::Progress;
use crate::report::Report;
use crate::report_text::LineKind;
use crate::standings::STANDING;
use fleet_model::{ProgramView, total_moves};
use fleet_text::OutFault;
use std::alloc::{AllocError, Global};

/// How many lines are heard at most, and how many reports are taken.
pub const MAX_REPORTS: u32 = u32::MAX;

/// A dispatch after which all stand on their goals: its agents, the actions of its program, and the reports that were
/// taken and were no repeats.
#[derive(Clone, Copy)]
pub struct DispatchReport {
    pub agents: u16,
    pub moves: u32,
    pub reports: u32,
}

/// A dispatch under way: what is carried out and told, the last report, room for the orders, for a line of the log and
/// for where all agents are, and how many reports were taken.
pub struct Session {
    progress: Progress,
    report: Report,
    row: Vec<u8>,
    line: Vec<u8>,
    answer: Vec<u8>,
    taken: u32,
}

impl Drop for Session {
    fn drop(self) {
        let Session {
            progress,
            report,
            row,
            line,
            answer,
            taken: _,
        } = self;
        drop(progress);
        drop(report);
        drop(row);
        drop(line);
        drop(answer);
    }
}

/// A session that begins where the agents have carried out so much, by so many reports. It fails only if memory is
/// refused.
pub fn start_session<P: ProgramView>(
    alloc: Global,
    program: &P,
    pace: Pace,
    done: &[u32],
    taken: u32,
) -> Result<Session, AllocError>
    requires counts { AreCounts (P.program program.now) done.now }
    ensures { IfOk result (IsOpened (P.program program.now) pace done.now taken) }
{
    let report = Report::new(alloc)?;
    let room = ORDER * pace.ahead as usize * program.agents() as usize;
    let row = vec![in alloc; 0; room]?;
    let line = vec![in alloc; 0; LOG_LINE]?;
    let answer = vec![in alloc; 0; STANDING * program.agents() as usize]?;
    let progress = Progress::start(alloc, program, done)?;
    Ok(Session {
        progress,
        report,
        row,
        line,
        answer,
        taken,
    })
}

impl Session {
    /// How many of its actions each agent has carried out.
    pub fn done(&self) -> &[u32]
        ensures { result.now ≡ self.now.progress.done }
    {
        self.progress.done()
    }

    /// How many reports were taken.
    pub fn taken(&self) -> u32
        ensures { result ≡ self.now.taken }
    {
        self.taken
    }
}

/// Tells the orders that are due.
fn tell_orders<P: ProgramView, F: Floor>(
    session: &mut Session,
    program: &P,
    pace: Pace,
    floor: &mut F,
) -> Result<(), OutFault>
    requires well_formed { IsWellFormed (P.program program.now) }
    requires ready { IsReady (P.program program.now) pace session.old }
    requires floor { F.works floor.old }
    ensures { TellsOrders (P.program program.now) pace (F.talks floor.old floor.new)
        (F.works floor.new) session.old session.new result }
{
    let end = session.progress.tell(program, pace, &mut session.row);
    floor.tell(&session.row[..end])
}

/// How many reports are taken with one more, which is a repeat or not.
fn count_with(taken: u32, is_repeat: bool) -> u32
    requires few { taken < MAX_REPORTS }
    ensures { result ≡ taken + (if is_repeat then 0 else 1) }
{
    if is_repeat { taken } else { taken + 1 }
}

/// Has a report logged that is no repeat.
fn log_report<F: Floor>(
    report: &Report,
    is_repeat: bool,
    row: &mut [u8],
    floor: &mut F,
) -> Result<(), OutFault>
    requires room { length row.old ≡ LOG_LINE }
    requires floor { F.works floor.old }
    ensures { LogsReport (F.talks floor.old floor.new) (F.works floor.new) is_repeat result report.now }
{
    if is_repeat {
        return Ok(());
    }
    let begin = write_log_line(report, row);
    floor.log(&row[begin..])
}

/// Takes the report that was heard in the line of this number. It is logged before anything follows from it; one that
/// is a repeat changes nothing.
fn take_report<P: ProgramView, F: Floor>(
    session: &mut Session,
    program: &P,
    _pace: Pace,
    floor: &mut F,
    line: u64,
) -> Result<(), DispatchFault>
    requires well_formed { IsWellFormed (P.program program.now) }
    requires ready { IsReady (P.program program.now) _pace session.old }
    requires told { session.old.progress.told
        ≡ told_at (P.program program.now) _pace.ahead session.old.progress.done }
    requires few { session.old.taken < MAX_REPORTS }
    requires floor { F.works floor.old }
    ensures { TakesReport (P.program program.now) _pace (F.talks floor.old floor.new)
        (F.works floor.new) session.old session.new line session.old.report result }
{
    if let Some(agent) = session.progress.first_unordered(program, &session.report) {
        return Err(DispatchFault::NotOrdered { line, agent });
    }
    let is_repeat = session.progress.is_repeat(program, &session.report);
    let logged = log_report(&session.report, is_repeat, &mut session.line, floor);
    if logged.is_err() {
        return Err(DispatchFault::LogWrite { line });
    }
    session.progress.take(program, &session.report);
    session.taken = count_with(session.taken, is_repeat);
    Ok(())
}

/// Tells where the agents are that have not arrived.
fn answer_question<P: ProgramView, F: Floor>(
    session: &mut Session,
    program: &P,
    _pace: Pace,
    floor: &mut F,
) -> Result<(), OutFault>
    requires well_formed { IsWellFormed (P.program program.now) }
    requires ready { IsReady (P.program program.now) _pace session.old }
    requires floor { F.works floor.old }
    ensures { TellsStandings (P.program program.now) _pace (F.talks floor.old floor.new)
        (F.works floor.new) session.old session.new result }
{
    let end = session
        .progress
        .write_standings(program, &mut session.answer);
    floor.tell(&session.answer[..end])
}

/// Hears the line of this number, and takes it as a report, or answers the question.
fn take_line<P: ProgramView, F: Floor>(
    session: &mut Session,
    program: &P,
    pace: Pace,
    floor: &mut F,
    line: u64,
) -> Result<(), DispatchFault>
    requires well_formed { IsWellFormed (P.program program.now) }
    requires ready { IsReady (P.program program.now) pace session.old }
    requires told { session.old.progress.told
        ≡ told_at (P.program program.now) pace.ahead session.old.progress.done }
    requires few { session.old.taken < MAX_REPORTS }
    requires floor { F.works floor.old }
    ensures { TakesLine (P.program program.now) pace (F.talks floor.old floor.new)
        (F.works floor.new) session.old session.new line result }
{
    match floor.hear(&mut session.report) {
        Ok(Some(LineKind::Report)) => take_report(session, program, pace, floor, line),
        Ok(Some(LineKind::Question)) => {
            if answer_question(session, program, pace, floor).is_err() {
                return Err(DispatchFault::Write);
            }
            Ok(())
        }
        Ok(None) => Err(DispatchFault::Ended { line }),
        Err(HearFault::Form) => Err(DispatchFault::Form { line }),
        Err(HearFault::Broken) => Err(DispatchFault::Input),
    }
}

/// Tells that all have arrived, with these numbers, and answers them.
fn conclude<F: Floor>(
    agents: u16,
    moves: u32,
    reports: u32,
    floor: &mut F,
) -> Result<DispatchReport, DispatchFault>
    requires floor { F.works floor.old }
    ensures { Concludes (F.talks floor.old floor.new) agents moves reports result }
{
    if tell_closing(agents, moves, reports, floor).is_err() {
        return Err(DispatchFault::Write);
    }
    Ok(DispatchReport {
        agents,
        moves,
        reports,
    })
}

/// The orders, the reports and the closing lines of a dispatch, until all stand on their goals.
///
/// Errors: `Form` if a line is no report, `NotOrdered` if a report says an action that is not ordered, `Ended` if no
/// line is left, `Input` if one cannot be read; `LogWrite` if a report cannot be logged, which is not taken then;
/// `Write` if orders, an answer or the closing lines cannot be told; `ReportLimit` if actions are left after
/// `MAX_REPORTS` lines or reports.
pub fn run_session<P: ProgramView, F: Floor>(
    session: &mut Session,
    program: &P,
    pace: Pace,
    floor: &mut F,
) -> Result<DispatchReport, DispatchFault>
    requires well_formed { IsWellFormed (P.program program.now) }
    requires ready { IsReady (P.program program.now) pace session.old }
    requires fresh { session.old.progress.told ≡ session.old.progress.done }
    requires floor { F.works floor.old }
    ensures { Dispatches (course_in (P.program program.now) pace session.old)
        (F.talks floor.old floor.new) (left_in session.new) result }
{
    let mut lines: u32 = 0;
    'lines: loop {
        if tell_orders(session, program, pace, floor).is_err() {
            return Err(DispatchFault::Write);
        }
        let taken = session.taken;
        if session.progress.is_finished(program) {
            return conclude(program.agents(), total_moves(program), taken, floor);
        }
        if lines == MAX_REPORTS || taken == MAX_REPORTS {
            return Err(DispatchFault::ReportLimit);
        }
        lines += 1;
        take_line(session, program, pace, floor, lines as u64)?;
    }
}
