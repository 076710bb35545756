//! The commands that print what they find: `instance`, `check`, `plan`, `verify`, `list` and `times`.

ghost use Rattle.std.specs.Prelude.{IfOk, ◌≤◌};
ghost use Rattle.fleet_text.specs.Sink.{IsWorking, TakesAll};
ghost use Rattle.fleet_cli.specs.Output.{Prints};
ghost use Rattle.fleet_cli.specs.PrintCommands.{task_lines, instance_text, apart_line, numbers_text, check_text, AreAsked, AnswersCheck, AnswersPlan, ReportsRefused, AnswersVerify, AnswersList, TellsTimetable, TellsTimes, TellsReached, AnswersTimes};
ghost use Rattle.fleet_model.specs.declared.program.ActionId.{ActionId};
ghost use Rattle.fleet_verify.specs.Broken.{IsBrokenBy};

use crate::fault::{Fault, or_refuse};
use crate::files::{FileTexts, no_texts};
use crate::steps::{Problem, accept, hand_on, plan_by, put_counts, put_report, view_program};
use fleet_args::{CheckRequest, PlanRequest, TimesRequest};
use fleet_dispatch::{breaks_of, costs_of};
use fleet_grid::Grid;
use fleet_model::{OutOfMemory, ProgramView, total_awaits, total_moves};
use fleet_plan::{Checked, Plan, check, is_apart, read_plan, write_plan};
use fleet_run::{put_program, put_reached, put_times, write_holds};
use fleet_scen::Instance;
use fleet_search::bound;
use fleet_text::{Flush, OutFault, TraceOut, Word, deliver, put_all, put_line};
use fleet_verify::{
    Accepted, ActionCosts, OneEach, Refused, Times, VerifyFault, breaking_holds, reached_counts,
    stopped_agents, verify,
};
use std::alloc::Global;

/// Writes the line of each agent, with its start and its goal.
fn put_tasks<O: TraceOut>(out: &mut O, instance: &Instance) -> Result<(), OutFault>
    requires { IsWorking (O.state out.old) }
    ensures { TakesAll (O.state out.old) (O.state out.new) result (task_lines instance.now) }
{
    for i in 0..instance.agents() {
        let (start, goal) = (instance.start(i), instance.goal(i));
        let start = Word::Pair(start.x, start.y);
        let goal = Word::Pair(goal.x, goal.y);
        put_line(out, &[Word::Label(i as u64), start, goal])?;
    }
    Ok(())
}

/// Writes the sizes of the map, its passable cells, and the tasks of the agents.
#[tactic(auto, unfolding(crate::specs::PrintCommands::instance_text), using(fleet_text::proofs::SinkLemmas::takes_then, fleet_text::proofs::SinkLemmas::takes_err_then))]
fn put_instance<O: TraceOut>(out: &mut O, grid: &Grid, instance: &Instance) -> Result<(), OutFault>
    requires { IsWorking (O.state out.old) }
    ensures { TakesAll (O.state out.old) (O.state out.new) result
        (instance_text grid.now instance.now) }
{
    let width = Word::Number(grid.width() as u64);
    let height = Word::Number(grid.height() as u64);
    put_line(out, &[Word::Text("map"), width, height])?;
    let counts = [
        ("ground", grid.ground() as u64),
        ("agents", instance.agents() as u64),
    ];
    put_counts(out, &counts)?;
    put_tasks(out, instance)
}

/// The command `instance`: prints to `out` the sizes of the map, its passable cells, and the start and the goal of each
/// agent. Answers 0.
#[inline(never)]
pub(crate) fn do_instance<'a, O: Flush>(problem: &Problem, out: &mut O) -> Result<u8, Fault<'a>>
    requires { IsWorking (O.state out.old) }
    ensures { Prints (instance_text problem.now.grid problem.now.instance)
        (O.state out.old) (O.state out.new) result }
{
    let printed = put_instance(out, &problem.grid, &problem.instance);
    hand_on(out, printed)
}

/// What is printed of a plan only if it is asked for.
#[derive(Clone, Copy)]
struct Asked {
    /// The sum of the distances from the starts to the goals.
    bound: u32,
    /// Whether no agent follows another.
    apart: bool,
}

/// Writes whether no agent follows another.
fn put_apart<O: TraceOut>(out: &mut O, apart: bool) -> Result<(), OutFault>
    requires { IsWorking (O.state out.old) }
    ensures { TakesAll (O.state out.old) (O.state out.new) result (apart_line apart) }
{
    if apart {
        put_line(out, &[Word::Text("apart"), Word::Text("yes")])
    } else {
        put_line(out, &[Word::Text("apart"), Word::Text("no")])
    }
}

/// Writes the numbers of a plan: its agents, its steps, its sum of costs, its bound, its moves and its waits, and then
/// whether no agent follows another.
#[tactic(auto, using(fleet_text::proofs::SinkLemmas::takes_then, fleet_text::proofs::SinkLemmas::takes_err_then))]
fn put_numbers<O: TraceOut>(out: &mut O, plan: &Plan, asked: Asked) -> Result<(), OutFault>
    requires { IsWorking (O.state out.old) }
    ensures { TakesAll (O.state out.old) (O.state out.new) result (numbers_text plan.now asked) }
{
    let counts = [
        ("agents", plan.agents() as u64),
        ("steps", plan.steps() as u64),
        ("cost", plan.sum_of_costs() as u64),
        ("bound", asked.bound as u64),
        ("moves", plan.moves() as u64),
        ("waits", plan.waits() as u64),
    ];
    put_report(out, "conflict-free", &counts)?;
    put_apart(out, asked.apart)
}

/// Writes that the plan is free of conflict, with its agents and steps and, if more is asked for, its other numbers.
fn put_check<O: TraceOut>(out: &mut O, plan: &Plan, asked: Option<Asked>) -> Result<(), OutFault>
    requires { IsWorking (O.state out.old) }
    ensures { TakesAll (O.state out.old) (O.state out.new) result (check_text plan.now asked) }
{
    match asked {
        None => put_report(
            out,
            "conflict-free",
            &[
                ("agents", plan.agents() as u64),
                ("steps", plan.steps() as u64),
            ],
        ),
        Some(asked) => put_numbers(out, plan, asked),
    }
}

/// The sum of the distances from the starts to the goals, and whether no agent follows another, if the numbers are
/// asked for.
fn asked_of(
    alloc: Global,
    checked: &Checked<'_>,
    numbers: bool,
) -> Result<Option<Asked>, OutOfMemory>
    ensures { IfOk result (AreAsked checked.now numbers) }
{
    if numbers {
        let bound = bound(alloc, checked)?;
        let apart = is_apart(alloc, checked)?;
        Ok(Some(Asked { bound, apart }))
    } else {
        Ok(None)
    }
}

/// The command `check`: judges the plan, and prints to `out` that it is free of conflict, with its agents and its steps
/// and, if they are asked for, its sum of costs, the sum of the distances to the goals, its moves and its waits, and
/// whether no agent follows another. Answers 0. A plan's first fault is a refusal.
#[inline(never)]
pub(crate) fn do_check<'a, O: Flush>(
    alloc: Global,
    request: &CheckRequest<'a>,
    problem: &Problem,
    out: &mut O,
) -> Result<u8, Fault<'a>>
    requires { IsWorking (O.state out.old) }
    ensures { AnswersCheck request.now problem.now (O.state out.old) (O.state out.new) result }
{
    let plan = or_refuse!(read_plan(alloc, &problem.texts.subject), Fault::Text);
    let checked = match check(alloc, plan, &problem.grid, &problem.instance) {
        Ok(checked) => checked,
        Err(refusal) => return Err(Fault::Check(refusal.fault)),
    };
    let asked = asked_of(alloc, &checked, request.numbers)?;
    let printed = put_check(out, checked.plan(), asked);
    hand_on(out, printed)
}

/// The command `plan`: prints to `out` a plan in which each agent's path is the earliest against those of the agents
/// before it, in one of the first orders of the agents, or the best of these plans. Answers 0. The texts are let go.
#[inline(never)]
pub(crate) fn do_plan<'a, O: Flush>(
    alloc: Global,
    request: &PlanRequest<'a>,
    problem: &mut Problem,
    out: &mut O,
) -> Result<u8, Fault<'a>>
    requires { IsWorking (O.state out.old) }
    ensures { AnswersPlan request.now problem.old (O.state out.old) (O.state out.new) result }
{
    problem.texts = no_texts(alloc);
    let (grid, instance) = (&problem.grid, &problem.instance);
    let found = plan_by(alloc, grid, instance, request.horizon, request.tries)?;
    let text = write_plan(alloc, found.checked.plan())?;
    let printed = put_all(out, &text);
    hand_on(out, printed)
}

/// The refusal of a program. If it is of two visits of a cell that no chain orders, their breaking holds are printed.
fn report_refused<'a, P: ProgramView + Drop, O: Flush>(
    alloc: Global,
    refused: Refused<P>,
    out: &mut O,
) -> Fault<'a>
    requires working { IsWorking (O.state out.old) }
    requires broken { IsBrokenBy (P.program refused.program) refused.fault }
    ensures { ReportsRefused (P.program refused.program) refused.fault
        (O.state out.old) (O.state out.new) result }
{
    let Refused { fault, program } = refused;
    let VerifyFault::Unordered { first, second, .. } = &fault else {
        return Fault::Verify(fault);
    };
    let Ok(holds) = breaking_holds(alloc, &program, *first, *second) else {
        return Fault::Memory;
    };
    let Ok(text) = write_holds(alloc, &holds) else {
        return Fault::Memory;
    };
    match deliver(out, &text) {
        Ok(()) => Fault::Verify(fault),
        Err(OutFault) => Fault::File("-"),
    }
}

/// The command `verify`: prints to `out` that the program is accepted, with its numbers, or, of a program that is
/// refused for two visits which no chain orders, the holds that break it. Answers 0.
#[inline(never)]
pub(crate) fn do_verify<'a, O: Flush>(
    alloc: Global,
    problem: &Problem,
    out: &mut O,
) -> Result<u8, Fault<'a>>
    requires { IsWorking (O.state out.old) }
    ensures { AnswersVerify problem.now (O.state out.old) (O.state out.new) result }
{
    let program = view_program(alloc, &problem.texts.subject)?;
    let accepted = match verify(alloc, program, &problem.grid, &problem.instance) {
        Ok(accepted) => accepted,
        Err(refused) => return Err(report_refused(alloc, refused, out)),
    };
    let program = accepted.program();
    let counts = [
        ("agents", program.agents() as u64),
        ("moves", total_moves(program) as u64),
        ("awaits", total_awaits(program) as u64),
        ("chain", accepted.chain() as u64),
    ];
    let printed = put_report(out, "accepted", &counts);
    hand_on(out, printed)
}

/// The command `list`: prints the program that the file spells to `out`, as text. Answers 0.
#[inline(never)]
pub(crate) fn do_list<'a, O: Flush>(
    alloc: Global,
    texts: &FileTexts,
    out: &mut O,
) -> Result<u8, Fault<'a>>
    requires { IsWorking (O.state out.old) }
    ensures { AnswersList texts.now (O.state out.old) (O.state out.new) result }
{
    let program = view_program(alloc, &texts.subject)?;
    let printed = put_program(out, &program);
    hand_on(out, printed)
}

/// Prints when the agents of a program arrive, whose actions end at these times, when all have arrived, and a chain
/// that takes so long. Answers 0.
fn tell_timetable<'a, P: ProgramView, C: ActionCosts, O: Flush>(
    alloc: Global,
    times: &Times<'_, P, C>,
    moves: u32,
    out: &mut O,
) -> Result<u8, Fault<'a>>
    requires costs { (a : ActionId) → 1 ≤ C.cost times.now.costs a }
    requires working { IsWorking (O.state out.old) }
    ensures { TellsTimetable (P.program times.now.program) (C.cost times.now.costs) moves
        (O.state out.old) (O.state out.new) result }
{
    let arrivals = times.arrivals(alloc)?;
    let path = times.critical_path(alloc)?;
    let printed = put_times(out, &arrivals, moves, times.last_arrival(), &path);
    hand_on(out, printed)
}

/// Prints when the agents arrive: by the costs that the text says, if a file of costs is named, and else with a cost of
/// 1 for each action. Answers 0.
fn tell_times<'a, P: ProgramView, O: Flush>(
    alloc: Global,
    accepted: &Accepted<'_, P>,
    costs: Option<&str>,
    text: &[u8],
    out: &mut O,
) -> Result<u8, Fault<'a>>
    requires { IsWorking (O.state out.old) }
    ensures { TellsTimes (P.program accepted.now.program) costs.entry text.now
        (O.state out.old) (O.state out.new) result }
{
    let program = accepted.program();
    let moves = total_moves(program);
    let Some(_) = costs else {
        let times = Times::by_levels(alloc, accepted, &OneEach)?;
        return tell_timetable(alloc, &times, moves, out);
    };
    let table = or_refuse!(costs_of(alloc, program, text), Fault::Times);
    let times = Times::of(alloc, accepted, &table)?;
    tell_timetable(alloc, &times, moves, out)
}

/// Prints how far each agent comes if the actions that the line names are never ended. Answers 0.
fn tell_reached<'a, P: ProgramView, O: Flush>(
    alloc: Global,
    accepted: &Accepted<'_, P>,
    line: &[u8],
    out: &mut O,
) -> Result<u8, Fault<'a>>
    requires { IsWorking (O.state out.old) }
    ensures { TellsReached (P.program accepted.now.program) line.now
        (O.state out.old) (O.state out.new) result }
{
    let program = accepted.program();
    let breaks = or_refuse!(breaks_of(alloc, program, line), Fault::Times);
    let counts = reached_counts(alloc, accepted, &breaks)?;
    let stopped = stopped_agents(program, &counts);
    let printed = put_reached(out, &counts, total_moves(program), stopped);
    hand_on(out, printed)
}

/// The command `times`: prints to `out` when each agent of an accepted program arrives, or, if some robots break down,
/// how far each still comes. Answers 0.
#[inline(never)]
pub(crate) fn do_times<'a, O: Flush>(
    alloc: Global,
    request: &TimesRequest<'a>,
    problem: &Problem,
    out: &mut O,
) -> Result<u8, Fault<'a>>
    requires { IsWorking (O.state out.old) }
    ensures { AnswersTimes request.now problem.now (O.state out.old) (O.state out.new) result }
{
    let accepted = accept(alloc, problem)?;
    match request.broken {
        None => tell_times(alloc, &accepted, request.costs, &problem.texts.holds, out),
        Some(line) => tell_reached(alloc, &accepted, line.as_bytes(), out),
    }
}
