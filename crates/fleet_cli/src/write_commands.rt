//! The commands that write a program to a file, and then print its numbers: `compile`, `thin`, `migrate`, and `rest`,
//! which writes what is left of a program after the reports of a log.

ghost use Rattle.std.specs.Prelude.{◌<◌, IfOk, IfErr, IfSome, length};
ghost use Rattle.fleet_text.specs.Sink.{IsWorking};
ghost use Rattle.fleet_cli.specs.WriteCommands.{AnswersCompile, AnswersThin, AnswersMigrate, IsDead, IsDeadRefusal, IsMapAround, AreOthers, AreRestTexts, LeavesProgram, IsLeavingRefusal, AnswersRest};
ghost use Rattle.fleet_model.specs.Accepted.{IsAccepted};
ghost use Rattle.fleet_grid.specs.Ground.{is_passable};
ghost use Rattle.fleet_adg.specs.Remaining.{tasks_of};

use crate::fault::{Fault, or_refuse};
use crate::files::{FileTexts, Files, no_texts};
use crate::steps::{Problem, accept, write_out};
use fleet_adg::{accepted_tasks_are_an_instance, compile_bytes, rest, tasks_of, thin_bytes};
use fleet_args::{CompileRequest, MigrateRequest, RestRequest, ThinRequest};
use fleet_code::{encode_shortest, encode2, load};
use fleet_dispatch::{DeadRobot, TimesFault, dead_robot_of, standings_after};
use fleet_grid::{Grid, write_map};
use fleet_model::{OutOfMemory, Program, ProgramView, Task, total_awaits, total_moves};
use fleet_plan::{check, read_plan};
use fleet_scen::{a_written_scenario_is_read, write_scen};
use fleet_text::Flush;
use std::alloc::Global;

/// The command `compile`: writes the bytes of the plan's program to the file OUT once all before it succeeded, and
/// prints the program's numbers to `out`. Answers 0. The texts are let go once they are read.
#[inline(never)]
pub(crate) fn do_compile<'a, F: Files, O: Flush>(
    alloc: Global,
    request: &CompileRequest<'a>,
    problem: &mut Problem,
    files: &mut F,
    out: &mut O,
) -> Result<u8, Fault<'a>>
    requires { IsWorking (O.state out.old) }
    ensures { AnswersCompile (F.contents files.old) (F.contents files.new) request.now problem.old
        (O.state out.old) (O.state out.new) result }
{
    let read = or_refuse!(read_plan(alloc, &problem.texts.subject), Fault::Text);
    problem.texts = no_texts(alloc);
    let checked = match check(alloc, read, &problem.grid, &problem.instance) {
        Ok(checked) => checked,
        Err(refusal) => return Err(Fault::Check(refusal.fault)),
    };
    let made = or_refuse!(
        compile_bytes(alloc, &checked, request.deps, request.dwell),
        Fault::Compile
    );
    let counts = [
        ("agents", made.agents as u64),
        ("moves", made.moves as u64),
        ("awaits", made.awaits),
        ("bytes", made.bytes.len() as u64),
    ];
    write_out(files, &[(Some(request.out), &made.bytes)], out, &counts)
}

/// The command `thin`: writes the bytes of the program without its implied awaits to the file OUT once all before it
/// succeeded, and prints its awaits before and after to `out`. Answers 0.
#[inline(never)]
pub(crate) fn do_thin<'a, F: Files, O: Flush>(
    alloc: Global,
    request: &ThinRequest<'a>,
    problem: &Problem,
    files: &mut F,
    out: &mut O,
) -> Result<u8, Fault<'a>>
    requires { IsWorking (O.state out.old) }
    ensures { AnswersThin (F.contents files.old) (F.contents files.new) request.now problem.now
        (O.state out.old) (O.state out.new) result }
{
    let accepted = accept(alloc, problem)?;
    let before = total_awaits(accepted.program());
    let Ok(made) = thin_bytes(alloc, &accepted) else {
        return Err(Fault::Memory);
    };
    let counts = [("awaits", before as u64), ("awaits", made.awaits)];
    write_out(files, &[(Some(request.out), &made.bytes)], out, &counts)
}

/// The command `migrate`: writes the program, of either version, to the file OUT in version 2 once all before it
/// succeeded, and prints how many bytes it has to `out`. Answers 0.
#[inline(never)]
pub(crate) fn do_migrate<'a, F: Files, O: Flush>(
    alloc: Global,
    request: &MigrateRequest<'a>,
    texts: &FileTexts,
    files: &mut F,
    out: &mut O,
) -> Result<u8, Fault<'a>>
    requires { IsWorking (O.state out.old) }
    ensures { AnswersMigrate (F.contents files.old) (F.contents files.new) request.now texts.now
        (O.state out.old) (O.state out.new) result }
{
    let program = or_refuse!(load(alloc, &texts.subject), Fault::Load);
    let migrated = encode2(alloc, &program)?;
    let counts = [("bytes", migrated.len() as u64)];
    write_out(files, &[(Some(request.out), &migrated)], out, &counts)
}

/// What is written of a program that is left: the text of its tasks and the bytes that spell it; and around a dead
/// robot, as far as they are asked for, the text of the map and that of the tasks of the others.
#[derive(Drop)]
struct RestTexts {
    scen: Vec<u8>,
    map: Vec<u8>,
    others: Vec<u8>,
    bytes: Vec<u8>,
}

/// The dead robot that is named, if one is.
fn dead_in<'a>(
    without: Option<&str>,
    grid: &Grid,
    program: &Program,
) -> Result<Option<DeadRobot>, Fault<'a>>
    ensures dead { IfOk result (IsDead grid.now (length program.now) without.entry) }
    ensures agent { IfOk result (λ dead. IfSome dead (λ d. d.agent < length program.now)) }
    ensures fault { IfErr result (IsDeadRefusal grid.now (length program.now) without.entry) }
{
    let Some(text) = without else {
        return Ok(None);
    };
    let (width, height) = (grid.width(), grid.height());
    match dead_robot_of(program.agents(), width, height, text.as_bytes()) {
        Some(dead) => Ok(Some(dead)),
        None => Err(Fault::Times(TimesFault::Dead)),
    }
}

/// The text of the map, in which the cells of the dead robot are blocked, if it is asked for.
fn map_around(
    alloc: Global,
    grid: &Grid,
    dead: Option<DeadRobot>,
    name: Option<&str>,
) -> Result<Vec<u8>, OutOfMemory>
    ensures { IfOk result (λ text. IsMapAround grid.now dead name.entry text.items) }
{
    if name.is_none() {
        return Ok(Vec::new(alloc));
    }
    match dead {
        Some(DeadRobot { first, second, .. }) => write_map(alloc, grid, &[first, second]),
        None => write_map(alloc, grid, &[]),
    }
}

/// The text of the tasks of all but the dead robot's agent, if it is asked for.
fn others_around(
    alloc: Global,
    grid: &Grid,
    tasks: Vec<Task>,
    dead: Option<DeadRobot>,
    name: Option<&str>,
) -> Result<Vec<u8>, OutOfMemory>
    requires { IfSome dead (λ d. d.agent < length tasks.items) }
    ensures { IfOk result (λ text. AreOthers grid.now tasks.items dead name.entry text.items) }
{
    if name.is_none() {
        return Ok(Vec::new(alloc));
    }
    let mut others = tasks;
    if let Some(dead) = dead {
        others.remove(usize::from(dead.agent));
    }
    write_scen(alloc, grid.width(), grid.height(), &others)
}

/// What is left of the problem's program after the reports of its log.
fn program_left<'a>(alloc: Global, problem: &Problem) -> Result<Program, Fault<'a>>
    ensures left { IfOk result (LeavesProgram problem.now) }
    ensures fault { IfErr result (IsLeavingRefusal problem.now) }
{
    accepted_tasks_are_an_instance();
    let accepted = accept(alloc, problem)?;
    let standings = or_refuse!(
        standings_after(alloc, accepted.program(), &problem.texts.log),
        Fault::Dispatch
    );
    let program = rest(alloc, &accepted, &standings)?;
    Ok(program)
}

/// What is written of a program that is left, and of what is asked for around a dead robot.
fn texts_left(
    alloc: Global,
    request: &RestRequest<'_>,
    grid: &Grid,
    program: &Program,
    dead: Option<DeadRobot>,
) -> Result<RestTexts, OutOfMemory>
    requires accepted { IsAccepted (is_passable grid.now) (tasks_of program.now) program.now }
    requires dead { IfSome dead (λ d. d.agent < length program.now) }
    ensures { IfOk result (AreRestTexts grid.now program.now dead request.now) }
{
    accepted_tasks_are_an_instance();
    a_written_scenario_is_read();
    // What is left has few agents, and a map that is read is no larger than one that can be written.
    let _agents = program.agents();
    let (width, height) = (grid.width(), grid.height());
    let map = map_around(alloc, grid, dead, request.map_out)?;
    let tasks = tasks_of(alloc, program)?;
    let scen = write_scen(alloc, width, height, &tasks)?;
    let others = others_around(alloc, grid, tasks, dead, request.others_out)?;
    let bytes = encode_shortest(alloc, program)?;
    Ok(RestTexts {
        scen,
        map,
        others,
        bytes,
    })
}

/// The command `rest`: writes what is left of an accepted program after the reports of a log, its tasks to the file
/// SCEN_OUT, then what is asked for around a dead robot, and then the program to PROGRAM_OUT, once all before it
/// succeeded; and prints the program's numbers to `out`. Answers 0.
#[inline(never)]
pub(crate) fn do_rest<'a, F: Files, O: Flush>(
    alloc: Global,
    request: &RestRequest<'a>,
    problem: &Problem,
    files: &mut F,
    out: &mut O,
) -> Result<u8, Fault<'a>>
    requires { IsWorking (O.state out.old) }
    ensures { AnswersRest (F.contents files.old) (F.contents files.new) request.now problem.now
        (O.state out.old) (O.state out.new) result }
{
    let program = program_left(alloc, problem)?;
    let dead = dead_in(request.without, &problem.grid, &program)?;
    let texts = texts_left(alloc, request, &problem.grid, &program, dead)?;
    write_out(
        files,
        &[
            (Some(request.scen_out), &texts.scen),
            (request.map_out, &texts.map),
            (request.others_out, &texts.others),
            (Some(request.program_out), &texts.bytes),
        ],
        out,
        &[
            ("agents", program.agents() as u64),
            ("moves", total_moves(&program) as u64),
            ("awaits", total_awaits(&program) as u64),
            ("bytes", texts.bytes.len() as u64),
        ],
    )
}
