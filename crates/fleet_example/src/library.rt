//! What a program of one's own does with the crates: it runs a program under holds, dispatches its robots, or lets them
//! report and sends them on.

ghost use Rattle.std.specs.Prelude.{◌≡◌, ◌<◌, List, ℕ, IfOk, IfErr, OnOk, OnErr, Ok, length};
ghost use Rattle.fleet_code.specs.Spelling.{Spells};
ghost use Rattle.fleet_run.specs.Fleet.{HaveCarriedOut};
ghost use Rattle.fleet_run.specs.Trace.{WritesTrace};
ghost use Rattle.fleet_dispatch.specs.Replay.{DispatchesAfter};
ghost use Rattle.fleet_dispatch.specs.Session.{first_course};
ghost use Rattle.fleet_example.specs.Library.{IsRunStop};
ghost use Rattle.fleet_grid.specs.Ground.{Ground};
ghost use Rattle.fleet_grid.specs.MapText.{IsMapText};
ghost use Rattle.fleet_machine.specs.Confirmed.{IsFirstUnready};
ghost use Rattle.fleet_machine.specs.Machine.{flag_of};
ghost use Rattle.fleet_model.specs.Claims.{order_of};
ghost use Rattle.fleet_model.specs.Program.{Program};
ghost use Rattle.fleet_model.specs.declared.task.Task.{Task};
ghost use Rattle.fleet_scen.specs.ScenText.{IsScenText};
ghost use Rattle.fleet_text.specs.Sink.{IsWorking};
ghost use Rattle.fleet_verify.specs.Parts.{IsAcceptedFor};

use fleet_code::{LoadFault, view};
use fleet_dispatch::{DispatchFault, DispatchReport, Floor, Pace, dispatch_accepted};
use fleet_grid::{Grid, MapFault, read_map};
use fleet_model::{ProgramView, Step};
use fleet_run::{Fleet, NotSent, Report, RunFault, TraceOut, run_accepted};
use fleet_scen::{Instance, ScenFault, read_scen};
use fleet_verify::{VerifyFault, verify};
use std::alloc::Global;
use thiserror::Error;

/// The first step that refuses.
#[derive(Debug, Drop, Error)]
pub enum Stop {
    #[error("the map: {0}")]
    Map(MapFault),
    #[error("the scenario: {0}")]
    Scen(ScenFault),
    #[error("the bytes: {0}")]
    Load(LoadFault),
    #[error("the program: {0}")]
    Verify(VerifyFault),
    #[error("the run: {0}")]
    Run(RunFault),
    #[error("the dispatch: {0}")]
    Dispatch(DispatchFault),
}

/// Verifies the program that the bytes spell for the map and the scenario, runs it under the holds, and writes its
/// trace to `out`. The report has the trace's numbers. Before the run nothing is written.
pub fn run<O: TraceOut>(
    alloc: Global,
    map: &[u8],
    scen: &[u8],
    bytes: &[u8],
    holds: &[u8],
    out: &mut O,
) -> Result<Report, Stop>
    requires { IsWorking (O.state out.old) }
    ensures ran { IfOk result (λ report. (g : Ground) × (tasks : List Task)
        × IsMapText map.now g × IsScenText scen.now g None tasks
        × ((p : Program) × (chain : ℕ) × Spells bytes.now p × IsAcceptedFor g tasks p chain
        × WritesTrace p chain holds.now (O.state out.old) (O.state out.new) report)) }
    ensures refused { IfErr result (IsRunStop map.now scen.now bytes.now holds.now
        (O.state out.old) (O.state out.new)) }
{
    let grid = read_map(alloc, map).map_err(Stop::Map)?;
    let instance = read_scen(alloc, scen, &grid, None).map_err(Stop::Scen)?;
    let program = match view(alloc, bytes) {
        Ok(program) => program,
        Err(fault) => return Err(Stop::Load(fault)),
    };
    let accepted = match verify(alloc, program, &grid, &instance) {
        Ok(accepted) => accepted,
        Err(refused) => return Err(Stop::Verify(refused.fault)),
    };
    match run_accepted(alloc, accepted, holds, out) {
        Ok(report) => Ok(report),
        Err(fault) => Err(Stop::Run(fault)),
    }
}

/// Verifies the program for the map and the tasks, and dispatches its robots over the floor until all stand on their
/// goals: each is told its next actions, up to `pace.ahead` that it has not reported, each as soon as what it awaits is
/// reported, and before the next report is waited for. It goes on after the reports of the log.
pub fn send<P: ProgramView + Drop, F: Floor>(
    alloc: Global,
    program: P,
    grid: &Grid,
    instance: &Instance,
    pace: Pace,
    log: &[u8],
    floor: &mut F,
) -> Result<DispatchReport, Stop>
    requires { F.works floor.old }
    ensures { IfOk result (λ report.
        DispatchesAfter (first_course (P.program program) pace) log.now
        (F.talks floor.old floor.new) (Ok report)) }
{
    let accepted = match verify(alloc, program, grid, instance) {
        Ok(accepted) => accepted,
        Err(refused) => return Err(Stop::Verify(refused.fault)),
    };
    match dispatch_accepted(alloc, accepted, pace, log, floor) {
        Ok(report) => Ok(report),
        Err(fault) => Err(Stop::Dispatch(fault)),
    }
}

/// The flagged robots have arrived, and all others are still on their way. Answers where robot `i` may be sent then:
/// the step of its next move, if it has an order. If a flagged robot had no order, the first such robot is refused, and
/// nothing changes.
pub fn note_report<P: ProgramView>(
    fleet: &mut Fleet<'_, P>,
    done: &[bool],
    i: u16,
) -> Result<Option<Step>, NotSent>
    requires done { length done.now ≡ length (P.program fleet.old.accepted.program) }
    requires robot { i < length (P.program fleet.old.accepted.program) }
    ensures carried_out { OnOk result (HaveCarriedOut (P.program fleet.old.accepted.program)
        (flag_of done.now) fleet.old fleet.new) }
    ensures order { IfOk result (λ step.
        step ≡ order_of (P.program fleet.new.accepted.program) fleet.new.configuration i) }
    ensures refused { IfErr result (λ e. IsFirstUnready (P.program fleet.old.accepted.program)
        fleet.old.configuration (flag_of done.now) e.agent) }
    ensures unchanged { OnErr result (fleet.new ≡ fleet.old) }
{
    fleet.confirm(done)?;
    Ok(fleet.order(i))
}
