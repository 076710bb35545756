//! Dispatch of an accepted program.

ghost use Rattle.std.specs.Prelude.{List};
ghost use Rattle.fleet_grid.specs.Ground.{is_passable};
ghost use Rattle.fleet_dispatch.specs.Report.{Words};
ghost use Rattle.fleet_dispatch.specs.Dispatch.{AreTaken};
ghost use Rattle.fleet_dispatch.specs.Session.{first_course};
ghost use Rattle.fleet_dispatch.specs.Replay.{DispatchesAfter};
ghost use Rattle.fleet_dispatch.specs.Lead.{none_done, LeadsWell};

use crate::fault::DispatchFault;
use crate::floor::Floor;
use crate::led::dispatches_lead_safely;
use crate::pace::Pace;
use crate::replay::lead_on;
use crate::run::{DispatchReport, run_session};
use fleet_model::ProgramView;
use fleet_verify::Accepted;
use std::alloc::Global;

/// Dispatches the agents of an accepted program from their starts until all stand on their goals. Each agent is told
/// its next actions, up to `pace.ahead` that it has not reported, in turn, each as soon as what it awaits is reported
/// and before the next report is waited for. A report names actions that were ordered; by it their agents have carried
/// out these and all before them. One that names only what is carried out already changes nothing.
///
/// It goes on where the reports of a log have led another dispatch of the same program and form, and says first the
/// orders that are open. The log is lines as `dispatch_over` hears them; what stands behind its last LF is none.
///
/// Memory is taken before anything is said, two times: 35 KB for a report and its line of the log, 124 bytes an agent,
/// and 73 for each order that may be given at once, of which there are `pace.ahead` an agent.
///
/// Errors: before anything is said `OutOfMemory`, or `Log` if a line of the log is no report that the dispatch could
/// take; and else those of `run_session`.
pub fn dispatch_accepted<P: ProgramView + Drop, F: Floor>(
    alloc: Global,
    accepted: Accepted<'_, P>,
    pace: Pace,
    log: &[u8],
    floor: &mut F,
) -> Result<DispatchReport, DispatchFault>
    requires { F.works floor.old }
    ensures outcome { DispatchesAfter (first_course (P.program accepted.entry.program) pace) log.now
        (F.talks floor.old floor.new) result }
    ensures stays { F.stays floor.old floor.new }
    ensures led { (reports : List Words) → AreTaken (P.program accepted.entry.program) pace.ahead
        (none_done (P.program accepted.entry.program)) reports
        → LeadsWell (is_passable accepted.entry.grid) (P.program accepted.entry.program)
        pace.ahead reports }
{
    dispatches_lead_safely();
    let program = accepted.program();
    let mut session = lead_on(alloc, program, pace, log)?;
    run_session(&mut session, program, pace, floor)
}
