//! Where robots stand after the reports of a log.

ghost use Rattle.std.specs.Prelude.{◌≡◌, ℕ, IfOk, IfErr, List};
ghost use Rattle.fleet_model.specs.Program.{Program};
ghost use Rattle.fleet_model.specs.Machine.{IsReached};
ghost use Rattle.fleet_dispatch.specs.Report.{Words};
ghost use Rattle.fleet_dispatch.specs.Progress.{AreCounts};
ghost use Rattle.fleet_dispatch.specs.Dispatch.{AreTaken, counts_by, configuration_at};
ghost use Rattle.fleet_dispatch.specs.Lead.{none_done};
ghost use Rattle.fleet_dispatch.specs.Standing.{StandsAfter, IsLogRefusal};

use crate::fault::DispatchFault;
use crate::form::ReportForm;
use crate::pace::Pace;
use crate::progress::place_after;
use crate::replay::lead_on;
use fleet_model::{OutOfMemory, ProgramView, Standing};
use std::alloc::Global;

/// The most orders that an agent may be told ahead.
pub const MOST_AHEAD: u8 = u8::MAX;

/// What is carried out by reports that could be taken is what the agents have finished at some time of a run, in which
/// they stand where these actions lead them. This does nothing: its contract is the law.
pub fn reports_lead_as_runs_do()
    ensures { (p : Program) (ahead : ℕ) (reports : List Words) → AreTaken p ahead (none_done p) reports
        → IsReached p (configuration_at p (counts_by (none_done p) reports)) }
{}

/// Where the agents stand that have carried out so many of their actions.
fn standings_at<P: ProgramView>(
    alloc: Global,
    program: &P,
    done: &[u32],
) -> Result<Vec<Standing>, OutOfMemory>
    requires counts { AreCounts (P.program program.now) done.now }
    ensures { IfOk result (λ v. v.items ≡ configuration_at (P.program program.now) done.now) }
{
    let agents = program.agents();
    let mut standings = Vec::with_capacity(alloc, usize::from(agents))?;
    for i in 0..agents {
        let count = done[i as usize];
        let place = place_after(program, i, count);
        standings.push(Standing { place, count })?;
    }
    Ok(standings)
}

/// Where the agents stand once the reports of a log are taken, and how many actions each has finished then: as in some
/// run. The log is one of a dispatch with numbered reports, however many orders were given ahead; what follows its last
/// LF is no report.
///
/// Errors: `Log` if a line of it is no report or says an action that could not be ordered; `ReportLimit` if it has more
/// lines than a dispatch hears; `OutOfMemory`.
pub fn standings_after<P: ProgramView>(
    alloc: Global,
    program: &P,
    log: &[u8],
) -> Result<Vec<Standing>, DispatchFault>
    ensures stand { IfOk result (λ v. StandsAfter (P.program program.now) log.now v.items) }
    ensures fault { IfErr result (IsLogRefusal (P.program program.now) log.now) }
{
    reports_lead_as_runs_do();
    let pace = Pace {
        form: ReportForm::Numbered,
        ahead: MOST_AHEAD,
    };
    let session = lead_on(alloc, program, pace, log)?;
    match standings_at(alloc, program, session.done()) {
        Ok(standings) => Ok(standings),
        Err(OutOfMemory) => Err(DispatchFault::OutOfMemory),
    }
}
