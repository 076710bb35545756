//! What commands are made of: from the texts of a map and a scenario to an instance, from bytes to a program and to an
//! accepted one, from an instance to a plan, the first or the best of several, and to the bytes of its program; and
//! what several commands print or write in the same way.

ghost use Rattle.std.specs.Prelude.{IfOk, IfErr, MatchResult, ◌≡◌, ℕ, List, map};
ghost use Rattle.fleet_code.specs.Spelling.{Spells};
ghost use Rattle.fleet_cli.specs.Steps.{IsProblemOf, Accepts, IsProblemRefusal, IsLoadRefusal, IsAcceptRefusal, SpellsMade, IsPlanningRefusal, IsMakingRefusal, IsPlannedFor};
ghost use Rattle.fleet_model.specs.{Program.Program, Accepted.IsAccepted};
ghost use Rattle.fleet_grid.specs.Ground.{is_passable};
ghost use Rattle.fleet_text.specs.Sink.{IsWorking, SinkState, TakesAll};
ghost use Rattle.fleet_cli.specs.Output.{with_labels, count_lines, report, Prints, WritesFiles};

use crate::fault::{Fault, or_refuse};
use crate::files::{FileTexts, Files, write_given};
use fleet_adg::{CompileFault, Deps, compile_bytes};
use fleet_args::{Best, Tasks, Tries};
use fleet_code::{CodeView, LoadFault, view};
use fleet_grid::{Grid, read_map};
use fleet_model::OutOfMemory;
use fleet_plan::Checked;
use fleet_scen::{Instance, read_scen};
use fleet_search::{
    Found, Measure, Measured, PlanStop, SumOfCosts, best_in_orders, first_in_orders,
};
use fleet_text::{Flush, OutFault, TraceOut, Word, put_count, put_line};
use fleet_verify::{Accepted, VerifyFault, verify};
use std::alloc::Global;

/// The texts of a command about tasks, and the map and the instance for which they stand.
pub(crate) struct Problem {
    pub(crate) texts: FileTexts,
    pub(crate) grid: Grid,
    pub(crate) instance: Instance,
}

impl Drop for Problem {
    fn drop(self) {
        let Problem {
            texts,
            grid,
            instance,
        } = self;
        drop(texts);
        drop(grid);
        drop(instance);
    }
}

/// The problem for which the texts of these tasks stand.
pub(crate) fn problem_of<'a>(
    alloc: Global,
    texts: FileTexts,
    tasks: Tasks<'_>,
) -> Result<Problem, Fault<'a>>
    ensures { MatchResult result (IsProblemOf texts tasks.entry.agents)
        (IsProblemRefusal texts tasks.entry.agents) }
{
    let grid = or_refuse!(read_map(alloc, &texts.map), Fault::Map);
    let instance = or_refuse!(
        read_scen(alloc, &texts.scen, &grid, tasks.agents),
        Fault::Scen
    );
    Ok(Problem {
        texts,
        grid,
        instance,
    })
}

/// The program that the bytes of a file spell, read in place, or the refusal of the program.
pub(crate) fn view_program<'g, 'a>(
    alloc: Global,
    bytes: &'g Vec<u8>,
) -> Result<CodeView<'g>, Fault<'a>>
    ensures spelled { IfOk result (λ v. Spells bytes.now.items v.program) }
    ensures fault { IfErr result (IsLoadRefusal bytes.now.items) }
{
    Ok(or_refuse!(view(alloc, bytes), Fault::Load))
}

/// The program of the problem, read in place and accepted for its map and its instance, or the refusal of the program.
pub(crate) fn accept<'g, 'a>(
    alloc: Global,
    problem: &'g Problem,
) -> Result<Accepted<'g, CodeView<'g>>, Fault<'a>>
    ensures accepted { IfOk result (λ a. Accepts problem.now.texts.subject.items
        problem.now.grid problem.now.instance a.program.program a.chain) }
    ensures kept { IfOk result (λ a. (a.grid ≡ problem.now.grid)
        × (a.instance ≡ problem.now.instance)) }
    ensures fault { IfErr result (IsAcceptRefusal problem.now) }
{
    let program = view_program(alloc, &problem.texts.subject)?;
    match verify(alloc, program, &problem.grid, &problem.instance) {
        Ok(accepted) => Ok(accepted),
        Err(refused) => Err(Fault::Verify(refused.fault)),
    }
}

/// What is told of a plan that was made: how many orders of the agents were tried for it, its steps, and its sum of
/// costs in steps.
#[derive(Clone, Copy, Debug)]
pub(crate) struct PlanNumbers {
    pub(crate) tried: u32,
    pub(crate) steps: u32,
    pub(crate) cost: u32,
}

/// One order is tried, that of the agents' numbers.
pub(crate) const ONE_TRY: Tries = Tries {
    count: 1,
    best: None,
};

/// The bytes of the program of a plan, and the numbers of the plan.
#[derive(Drop)]
pub(crate) struct MadeBytes {
    pub(crate) bytes: Vec<u8>,
    pub(crate) numbers: PlanNumbers,
}

/// The bytes that spell the program of the plan that is made for the map and the instance, in version 1, and the
/// numbers of the plan.
pub(crate) fn made_bytes<'a>(
    alloc: Global,
    grid: &Grid,
    instance: &Instance,
    horizon: u16,
    tries: Tries,
    deps: Deps,
) -> Result<MadeBytes, Fault<'a>>
    ensures made { IfOk result
        (λ m. SpellsMade grid.now instance.now horizon tries deps m.numbers m.bytes.items) }
    ensures fault { IfErr result (IsMakingRefusal grid.now instance.now horizon tries deps) }
{
    let Found { checked, tried } = plan_by(alloc, grid, instance, horizon, tries)?;
    let compiled = match compile_bytes(alloc, &checked, deps, 0) {
        Ok(compiled) => compiled,
        Err(CompileFault::OutOfMemory) => return Err(Fault::Memory),
        Err(fault) => return Err(Fault::Compile(fault)),
    };
    let plan = checked.plan();
    let numbers = PlanNumbers {
        tried,
        steps: plan.steps(),
        cost: plan.sum_of_costs(),
    };
    Ok(MadeBytes {
        bytes: compiled.bytes,
        numbers,
    })
}

/// The program that the bytes spell, which is accepted for the map and the instance, read in place and accepted:
/// refused for want of memory alone.
pub fn accept_made<'g>(
    alloc: Global,
    bytes: &'g [u8],
    grid: &'g Grid,
    instance: &'g Instance,
) -> Result<Accepted<'g, CodeView<'g>>, OutOfMemory>
    requires { (p : Program) × Spells bytes.now p
        × IsAccepted (is_passable grid.now) instance.now p }
    ensures accepted { IfOk result (λ a.
        Accepts bytes.now grid.now instance.now a.program.program a.chain) }
    ensures only { IfOk result (λ a. (p : Program) → Spells bytes.now p → p ≡ a.program.program) }
{
    let program = match view(alloc, bytes) {
        Ok(program) => program,
        Err(fault) => match fault {
            LoadFault::OutOfMemory => return Err(OutOfMemory),
            // The bytes spell a program.
            _ => unreachable!(),
        },
    };
    match verify(alloc, program, grid, instance) {
        Ok(accepted) => Ok(accepted),
        Err(refused) => match refused.fault {
            VerifyFault::OutOfMemory => Err(OutOfMemory),
            // The program is accepted.
            _ => unreachable!(),
        },
    }
}

/// What stands for the chain of a plan that has no program, since its agents make too many moves.
pub(crate) const NO_CHAIN: u32 = u32::MAX;

/// By what a plan is the best: the number of actions in the longest chain of its program, in which a move into a cell
/// awaits the latest leaving of it, or its sum of costs in steps.
#[derive(Clone, Copy)]
struct MeasureBy {
    alloc: Global,
    best: Best,
}

impl Measure for MeasureBy {
    ghost use Rattle.fleet_cli.specs.Steps.{IsMeasure};

    ghost is_measure = { λ m. IsMeasure m.best };

    fn measure(&self, checked: &Checked<'_>) -> Result<u32, OutOfMemory> {
        match self.best {
            Best::Cost => SumOfCosts.measure(checked),
            Best::Chain => match compile_bytes(self.alloc, checked, Deps::Last, 0) {
                Ok(made) => {
                    let (grid, instance) = (checked.grid(), checked.instance());
                    let accepted = accept_made(self.alloc, &made.bytes, grid, instance)?;
                    Ok(accepted.chain())
                }
                Err(CompileFault::OutOfMemory) => Err(OutOfMemory),
                Err(CompileFault::TooLong) => Ok(NO_CHAIN),
            },
        }
    }
}

/// The plan that is made for the map and the instance by so many tries, with paths that arrive by the horizon, and how
/// many orders were tried for it; or the refusal of the program.
pub(crate) fn plan_by<'g, 'a>(
    alloc: Global,
    grid: &'g Grid,
    instance: &'g Instance,
    horizon: u16,
    tries: Tries,
) -> Result<Found<'g>, Fault<'a>>
    ensures planned { IfOk result
        (λ f. IsPlannedFor grid.now instance.now horizon tries f.tried f.checked.plan) }
    ensures grid { IfOk result (λ f. f.checked.grid ≡ grid.now) }
    ensures instance { IfOk result (λ f. f.checked.instance ≡ instance.now) }
    ensures fault { IfErr result (IsPlanningRefusal grid.now instance.now horizon tries) }
{
    let stop = match tries.best {
        None => match first_in_orders(alloc, grid, instance, horizon, tries.count) {
            Ok(found) => return Ok(found),
            Err(stop) => stop,
        },
        Some(best) => {
            let (measure, tried) = (MeasureBy { alloc, best }, tries.count.max(1));
            match best_in_orders(alloc, grid, instance, horizon, tries.count, &measure) {
                Ok(Measured { checked, .. }) => return Ok(Found { checked, tried }),
                Err(stop) => stop,
            }
        }
    };
    match stop {
        PlanStop::OutOfMemory => Err(Fault::Memory),
        PlanStop::NoPath { .. } => Err(Fault::Search(stop)),
    }
}

// What several commands print or write in the same way: counts, and files with counts.

/// Writes a line for each count: its label and its number.
#[tactic(auto, using(fleet_text::proofs::SinkLemmas::takes_then, fleet_text::proofs::SinkLemmas::takes_err_then))]
pub(crate) fn put_counts<O: TraceOut>(
    out: &mut O,
    counts: &[(&'static str, u64)],
) -> Result<(), OutFault>
    requires { IsWorking (O.state out.old) }
    ensures { TakesAll (O.state out.old) (O.state out.new) result
        (count_lines (with_labels counts.now)) }
{
    let Some(((label, number), others)) = counts.split_first() else {
        return Ok(());
    };
    put_count(out, label, *number)?;
    put_counts(out, others)
}

/// Writes a word in a line of its own, and then a line for each count.
#[tactic(auto, unfolding(crate::specs::Output::report), using(fleet_text::proofs::SinkLemmas::takes_then, fleet_text::proofs::SinkLemmas::takes_err_then))]
pub(crate) fn put_report<O: TraceOut>(
    out: &mut O,
    title: &'static str,
    counts: &[(&'static str, u64)],
) -> Result<(), OutFault>
    requires { IsWorking (O.state out.old) }
    ensures { TakesAll (O.state out.old) (O.state out.new) result
        (report title.now (with_labels counts.now)) }
{
    put_line(out, &[Word::Text(title)])?;
    put_counts(out, counts)
}

/// Has the sink hand on the text that was written. Answers 0, or the refusal of the standard output.
pub(crate) fn hand_on<'a, O: Flush>(
    out: &mut O,
    written: Result<(), OutFault>,
) -> Result<u8, Fault<'a>>
    ensures { (before : SinkState) → (text : List ℕ) → TakesAll before (O.state out.old) written text
        → Prints text before (O.state out.new) result }
{
    if written.is_err() || out.failed() || out.flush().is_err() {
        return Err(Fault::File("-"));
    }
    Ok(0)
}

/// Writes the bytes to the files that are named, one after another, and then prints the counts. Answers 0.
pub(crate) fn write_out<'a, F: Files, O: Flush>(
    files: &mut F,
    written: &[(Option<&'a str>, &Vec<u8>)],
    out: &mut O,
    counts: &[(&'static str, u64)],
) -> Result<u8, Fault<'a>>
    requires { IsWorking (O.state out.old) }
    ensures { WritesFiles (F.contents files.old) (F.contents files.new)
        (map (λ w. (w.0, w.1.now.items)) written.now) (count_lines (with_labels counts.now))
        (O.state out.old) (O.state out.new) result }
{
    match written {
        [] => {
            let printed = put_counts(out, counts);
            hand_on(out, printed)
        }
        [(name, bytes), others @ ..] => {
            write_given(files, *name, bytes)?;
            write_out(files, others, out, counts)
        }
    }
}
