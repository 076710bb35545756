//! The commands that run a program tick by tick, `run`, `auto` and `rehearse`, and the run of the program without
//! words; and what becomes of their output at the end: a run's sink hands on all that was written before anything is
//! reported.

ghost use Rattle.std.specs.Prelude.{◌≡◌};
ghost use Rattle.fleet_text.specs.Sink.{IsWorking};
ghost use Rattle.fleet_cli.specs.Output.{end_status};
ghost use Rattle.fleet_cli.specs.RunCommands.{FlushesRun, Runs, AutoRuns, AnswersRun, TellsNumbers, AnswersAuto, RehearsesBytes, AnswersHex, RunsHex};

use crate::fault::{AutoFault, Fault, finish, or_refuse};
use crate::files::{CHUNK, FileFault, read_whole};
use crate::steps::{
    ONE_TRY, PlanNumbers, Problem, accept, accept_made, hand_on, made_bytes, put_counts,
    view_program,
};
use fleet_adg::Deps;
use fleet_args::AutoRequest;
use fleet_code::read_hex;
use fleet_grid::{MapFault, read_map};
use fleet_model::ProgramView;
use fleet_run::{End, HoldText, Report, RunFault, rehearse, run_accepted};
use fleet_scen::{ScenFault, read_scen};
use fleet_text::{Flush, TraceOut};
use fleet_verify::Accepted;
use std::alloc::Global;
use std::io::Read;

/// Has the sink of a run hand on all that was written, unless it has failed. A flush that fails is a failed write.
fn flush_run<T: Drop, O: Flush>(out: &mut O, ran: Result<T, RunFault>) -> Result<T, RunFault>
    ensures { FlushesRun (O.state out.old) (O.state out.new) ran result }
{
    if !out.failed() && out.flush().is_err() {
        return Err(RunFault::Write);
    }
    ran
}

/// Runs an accepted program under the holds for which the bytes `held` stand, writes its trace, and has the sink hand
/// it on. Answers 0.
fn run_flushed<'a, P: ProgramView + Drop, O: Flush>(
    alloc: Global,
    accepted: Accepted<'_, P>,
    held: &[u8],
    out: &mut O,
) -> Result<u8, Fault<'a>>
    requires { IsWorking (O.state out.old) }
    ensures { Runs (P.program accepted.entry.program) accepted.entry.chain held.now
        (O.state out.old) (O.state out.new) result }
{
    let ran = run_accepted(alloc, accepted, held, out);
    match flush_run(out, ran) {
        Ok(_) => Ok(0),
        Err(fault) => Err(Fault::Run(fault)),
    }
}

/// The command `run`: verifies the program, and writes its trace, under the holds, to `out`. Answers 0.
#[inline(never)]
pub(crate) fn do_run<'a, O: Flush>(
    alloc: Global,
    problem: &Problem,
    out: &mut O,
) -> Result<u8, Fault<'a>>
    requires { IsWorking (O.state out.old) }
    ensures { AnswersRun problem.now (O.state out.old) (O.state out.new) result }
{
    let accepted = accept(alloc, problem)?;
    run_flushed(alloc, accepted, &problem.texts.holds, out)
}

/// Plans for the map and the scenario (of whose agents the first `asked`, or all), in the order of the agents' numbers,
/// with paths that arrive by the horizon, a time in steps; compiles the plan, writes the program as bytes, loads and
/// verifies these, and runs the program under the holds. The trace is written to `out`, which is not flushed. The
/// report has the trace's numbers.
///
/// Errors: the fault of the first step that refuses. Before the run nothing is written; of a run that stops `out` has
/// the lines of the times so far, and if `out` fails a front of the trace. Encoding, loading and verifying refuse for
/// want of memory alone.
pub fn auto_run<O: TraceOut>(
    alloc: Global,
    map: &[u8],
    scen: &[u8],
    asked: Option<u16>,
    horizon: u16,
    deps: Deps,
    holds: &[u8],
    out: &mut O,
) -> Result<Report, AutoFault>
    requires { IsWorking (O.state out.old) }
    ensures { AutoRuns map.now scen.now asked horizon deps holds.now
        (O.state out.old) (O.state out.new) result }
{
    let grid = match read_map(alloc, map) {
        Ok(grid) => grid,
        Err(MapFault::OutOfMemory) => return Err(AutoFault::OutOfMemory),
        Err(fault) => return Err(AutoFault::Map(fault)),
    };
    let instance = match read_scen(alloc, scen, &grid, asked) {
        Ok(instance) => instance,
        Err(ScenFault::OutOfMemory) => return Err(AutoFault::OutOfMemory),
        Err(fault) => return Err(AutoFault::Scen(fault)),
    };
    let made = match made_bytes(alloc, &grid, &instance, horizon, ONE_TRY, deps) {
        Ok(made) => made,
        Err(Fault::Search(stop)) => return Err(AutoFault::Plan(stop)),
        Err(Fault::Compile(fault)) => return Err(AutoFault::Compile(fault)),
        Err(_) => return Err(AutoFault::OutOfMemory),
    };
    let Ok(accepted) = accept_made(alloc, &made.bytes, &grid, &instance) else {
        return Err(AutoFault::OutOfMemory);
    };
    match run_accepted(alloc, accepted, holds, out) {
        Ok(report) => Ok(report),
        Err(fault) => match fault {
            RunFault::OutOfMemory => Err(AutoFault::OutOfMemory),
            _ => Err(AutoFault::Run(fault)),
        },
    }
}

/// Prints the numbers of a plan that was run, if they are asked for. Answers 0.
fn tell_numbers<'a, O: Flush>(
    asked: bool,
    numbers: &PlanNumbers,
    out: &mut O,
) -> Result<u8, Fault<'a>>
    requires { IsWorking (O.state out.old) }
    ensures { TellsNumbers asked numbers.now (O.state out.old) (O.state out.new) result }
{
    if !asked {
        return Ok(0);
    }
    let counts = [
        ("tries", numbers.tried as u64),
        ("steps", numbers.steps as u64),
        ("cost", numbers.cost as u64),
    ];
    let printed = put_counts(out, &counts);
    hand_on(out, printed)
}

/// The command `auto`: plans for the map and the scenario, compiles the plan, and writes the trace of the program,
/// under the holds, to `out`, and after it the numbers of the plan, if they are asked for. Answers 0.
#[inline(never)]
pub(crate) fn do_auto<'a, O: Flush>(
    alloc: Global,
    request: &AutoRequest<'a>,
    problem: &Problem,
    out: &mut O,
) -> Result<u8, Fault<'a>>
    requires { IsWorking (O.state out.old) }
    ensures { AnswersAuto request.now problem.now (O.state out.old) (O.state out.new) result }
{
    let (texts, grid, instance) = (&problem.texts, &problem.grid, &problem.instance);
    let (tries, deps) = (request.tries, request.deps);
    let made = made_bytes(alloc, grid, instance, request.horizon, tries, deps)?;
    let accepted = accept_made(alloc, &made.bytes, grid, instance)?;
    run_flushed(alloc, accepted, &texts.holds, out)?;
    tell_numbers(request.numbers, &made.numbers, out)
}

/// The status of a rehearsal that ended so: 0 if finished, 1 if stuck.
fn end_status(end: End) -> u8
    ensures { result ≡ end_status end }
{
    match end {
        End::Finished => 0,
        End::Stuck => 1,
    }
}

/// The command `rehearse`: writes the rehearsal of the program that the bytes spell, under the holds for which the
/// bytes `held` stand, to `out`, and has the sink hand it on. Answers 0 if it ends finished and 1 if it ends stuck.
#[inline(never)]
pub(crate) fn rehearse_bytes<'a, O: Flush>(
    alloc: Global,
    bytes: &Vec<u8>,
    held: &[u8],
    out: &mut O,
) -> Result<u8, Fault<'a>>
    requires { IsWorking (O.state out.old) }
    ensures { RehearsesBytes bytes.now.items held.now
        (O.state out.old) (O.state out.new) result }
{
    let program = view_program(alloc, bytes)?;
    let mut source = HoldText::new(held, program.agents());
    let ran = rehearse(alloc, &program, &mut source, out);
    match flush_run(out, ran) {
        Ok(rehearsal) => Ok(end_status(rehearsal.end)),
        Err(fault) => Err(Fault::Run(fault)),
    }
}

/// Rehearses, with nobody held, the program that the input stands for in hexadecimal.
fn rehearse_hex<R: Read, O: Flush>(
    alloc: Global,
    input: &mut R,
    out: &mut O,
) -> Result<u8, Fault<'static>>
    requires { IsWorking (O.state out.old) }
    ensures { AnswersHex (R.remaining input.old) (O.state out.old) (O.state out.new) result }
{
    let text = match read_whole(alloc, input, &mut [0; CHUNK]) {
        Ok(text) => text,
        Err(FileFault::OutOfMemory) => return Err(Fault::Memory),
        Err(FileFault::Failed) => return Err(Fault::File("-")),
    };
    let bytes = or_refuse!(read_hex(alloc, &text), Fault::Hex);
    rehearse_bytes(alloc, &bytes, b"", out)
}

/// Reads program bytes in hexadecimal from `input`, at most `MAX_BYTES` bytes of text, and writes the rehearsal of the
/// program, with nobody held, to `out`. Answers 0 if the rehearsal ends finished and 1 if it ends stuck; a refusal is
/// written to `err` and its status answered: 1, or 3 if memory, the input or `out` failed.
#[inline(never)]
pub fn run_hex<R: Read, O: Flush, E: TraceOut>(
    alloc: Global,
    input: &mut R,
    out: &mut O,
    err: &mut E,
) -> u8
    requires out_working { IsWorking (O.state out.old) }
    requires err_working { IsWorking (E.state err.old) }
    ensures { RunsHex (R.remaining input.old)
        (O.state out.old) (O.state out.new)
        (E.state err.old) (E.state err.new)
        result }
{
    finish(rehearse_hex(alloc, input, out), err)
}
