//! Runs, line by line: the trace of an accepted program, and the rehearsal of any one.

ghost use Rattle.std.specs.Prelude.{◌≡◌, ◌+◌, ◌<◌, ◌≤◌, ◌^◌, length, if◌then◌else◌, drop};
ghost use Rattle.fleet_model.specs.Machine.{Configuration};
ghost use Rattle.fleet_machine.specs.Machine.{Runs, flag_of};
ghost use Rattle.fleet_run.specs.Text.{line_of, last_line_of, closing_lines, trace_closing};
ghost use Rattle.fleet_run.specs.Line.{ArePlacesKept, IsLineKept};
ghost use Rattle.fleet_text.specs.Sink.{IsWorking, TakesAll};
ghost use Rattle.fleet_run.specs.Source.{CanBeAsked, HasNotFailed};
ghost use Rattle.fleet_run.specs.Outcome.{run_end, fault_of, AreRowsFor, AsksNext, AsksUnlessOver, CanRun, HasTicked, PassesTime, RunsLines};
ghost use Rattle.fleet_run.specs.Fleet.{IsShown};
ghost use Rattle.fleet_run.specs.Drive.{Drives};
ghost use Rattle.fleet_run.specs.Rehearsal.{Rehearses};

use crate::line::{LINE, NUMERALS, copy_places, write_moved, write_places, write_time};
use crate::source::{HoldSource, SourceFault, ask};
use fleet_machine::Machine;
use fleet_model::{MAX_AGENTS, Place, ProgramView};
use fleet_text::{
    OutFault, Refusal, TraceOut, put_all, put_memory, put_named, put_named_at, write_bytes,
    write_count_line,
};
use std::alloc::Global;
use thiserror::Error;

/// How a run ends: with no action left, or with actions left and nobody ready.
#[derive(Clone, Copy)]
pub enum End {
    Finished,
    Stuck,
}

/// Why a run stopped before its end. Ticks and lines are counted from 1.
#[derive(Clone, Copy, Debug, PartialEq, Eq, Error)]
pub enum RunFault {
    #[error("out of memory")]
    OutOfMemory,
    #[error("the holds broke off at tick {tick}")]
    Source { tick: u32 },
    #[error("line {line} of the holds is no tick")]
    Hold { line: u64 },
    #[error("the text cannot be written")]
    Write,
    #[error("the holds have more ticks than a run takes")]
    HoldLimit,
}

impl Refusal for RunFault {
    ghost use Rattle.fleet_run.specs.RefusalWords.{run_words, is_run_failure};

    ghost words = { run_words };

    ghost is_failure = { is_run_failure };

    fn put<O: TraceOut>(&self, out: &mut O) -> Result<(), OutFault> {
        match *self {
            RunFault::OutOfMemory => put_memory(out),
            RunFault::Source { tick } => put_named_at(out, "run", 2, "Source", "tick", tick as u64),
            RunFault::Hold { line } => put_named_at(out, "run", 3, "Hold", "line", line),
            RunFault::Write => put_named(out, "run", 4, "Write"),
            RunFault::HoldLimit => put_named(out, "run", 5, "HoldLimit"),
        }
    }

    fn is_failure(&self) -> bool {
        matches!(
            self,
            RunFault::OutOfMemory | RunFault::Source { .. } | RunFault::Write
        )
    }
}

/// A run that came to its end: its ticks, those in which a ready agent was held, and how it ended.
#[derive(Clone, Copy)]
struct Ran {
    ticks: u32,
    held: u32,
    end: End,
}

/// How many ticks a run has had, and in how many of them a ready agent was held.
#[derive(Clone, Copy)]
struct Counts {
    ticks: u32,
    held: u32,
}

/// A time of a run: after how many ticks, whether the source had ended before the last of them, and how the run has
/// ended, if it has.
#[derive(Clone, Copy)]
struct Time {
    ticks: u32,
    source_ended: bool,
    end: Option<End>,
}

/// How a run has ended, if it has.
#[tactic(auto, using(crate::proofs::Ending::goes_on, crate::proofs::Ending::is_stuck_if))]
fn end_at<P: ProgramView>(program: &P, machine: &Machine) -> Option<End>
    requires runs { Runs (P.program program.now) machine.now }
    ensures { result ≡ run_end (P.program program.now) machine.now.configuration }
{
    if machine.is_finished(program) {
        return Some(End::Finished);
    }
    if machine.is_any_ready(program) {
        return None;
    }
    Some(End::Stuck)
}

/// Writes the line of a time to the sink: the time, before the places that are kept.
fn put_time_line<O: TraceOut>(
    out: &mut O,
    time: u32,
    row: &mut [u8],
    begins: &[u16],
) -> Result<(), OutFault>
    requires working { IsWorking (O.state out.old) }
    requires kept { (c : Configuration) × IsLineKept c row.old begins.now }
    ensures kept { (c : Configuration) → IsLineKept c row.old begins.now
        → IsLineKept c row.new begins.now }
    ensures taken { (c : Configuration) → IsLineKept c row.old begins.now
        → TakesAll (O.state out.old) (O.state out.new) result (line_of time c) }
{
    let at = write_time(time, row, usize::from(begins[0]));
    put_all(out, &row[at..])
}

/// How many ticks a run takes from its source at most.
pub const MAX_RUN_TICKS: u32 = 4_194_304;

/// The refusal of a run whose source fails so when it is asked for this tick.
fn fault_at(fault: SourceFault, tick: u32) -> RunFault
    ensures { result ≡ fault_of fault tick }
{
    match fault {
        SourceFault::Broken => RunFault::Source { tick },
        SourceFault::Text => RunFault::Hold {
            line: u64::from(tick),
        },
    }
}

/// Asks the source for the tick after so many ticks, as `ask` does, and answers whether there was one, or why the run
/// stops there.
fn next_tick<S: HoldSource>(
    source: &mut S,
    has_ended: bool,
    ticks: u32,
    flags: &mut [bool],
) -> Result<bool, RunFault>
    requires can { CanBeAsked has_ended (S.state source.old) flags.old }
    requires few { ticks + 1 < 2 ^ 32 }
    ensures { AsksNext has_ended (S.state source.old) (S.state source.new) ticks result flags.new }
{
    match ask(source, has_ended, flags) {
        Ok(true) if ticks == MAX_RUN_TICKS => Err(RunFault::HoldLimit),
        Ok(more) => Ok(more),
        Err(fault) => Err(fault_at(fault, ticks + 1)),
    }
}

/// Asks the source for the next tick, as `next_tick` does, unless the run has ended.
fn next_unless_over<S: HoldSource>(
    source: &mut S,
    time: Time,
    flags: &mut [bool],
) -> Result<bool, RunFault>
    requires can { CanBeAsked time.source_ended (S.state source.old) flags.old }
    requires few { time.ticks + 1 < 2 ^ 32 }
    ensures { AsksUnlessOver time (S.state source.old) (S.state source.new) result flags.new }
{
    match time.end {
        Some(_) => Ok(false),
        None => next_tick(source, time.source_ended, time.ticks, flags),
    }
}

/// A time of a run: writes its line, and then, unless the run has ended, asks the source for the next tick.
#[tactic(auto, using(crate::proofs::Passing::asks_after))]
fn pass_time<S: HoldSource, O: TraceOut>(
    source: &mut S,
    out: &mut O,
    time: Time,
    row: &mut [u8],
    begins: &[u16],
    flags: &mut [bool],
) -> Result<bool, RunFault>
    requires can { CanBeAsked time.source_ended (S.state source.old) flags.old }
    requires few { time.ticks + 1 < 2 ^ 32 }
    requires sink { IsWorking (O.state out.old) }
    requires kept { (c : Configuration) × IsLineKept c row.old begins.now }
    ensures kept { (c : Configuration) → IsLineKept c row.old begins.now
        → IsLineKept c row.new begins.now }
    ensures passes { (c : Configuration) → IsLineKept c row.old begins.now
        → PassesTime time (S.state source.old) (S.state source.new)
        (O.state out.old) (O.state out.new) (line_of time.ticks c) result flags.new }
{
    match put_time_line(out, time.ticks, row, begins) {
        Ok(()) => next_unless_over(source, time, flags),
        Err(_) => Err(RunFault::Write),
    }
}

impl Counts {
    /// The counts after one tick more, in which a ready agent was held or not.
    fn after(self, ready_held: bool) -> Counts
        requires few { self.ticks + 1 < 2 ^ 32 }
        requires held { self.held + 1 < 2 ^ 32 }
        ensures ticks { result.ticks ≡ self.ticks + 1 }
        ensures held { result.held ≡ self.held + (if ready_held then 1 else 0) }
    {
        Counts {
            ticks: self.ticks + 1,
            held: self.held + u32::from(ready_held),
        }
    }
}

/// One tick, with the places after it in the row and in the list of places. Answers whether a ready agent was held.
fn tick_row<P: ProgramView>(
    program: &P,
    machine: &mut Machine,
    flags: &[bool],
    row: &mut [u8],
    begins: &mut [u16],
    places: &mut [Place],
) -> bool
    requires runs { Runs (P.program program.now) machine.old }
    requires flags { length flags.now ≡ length (P.program program.now) }
    requires kept { ArePlacesKept machine.old.configuration row.old begins.old places.old }
    ensures ticked { HasTicked (P.program program.now) (flag_of flags.now) machine.old machine.new
        result }
    ensures kept { ArePlacesKept machine.new.configuration row.new begins.new places.new }
{
    let tick = machine.tick(program, flags);
    write_moved(machine, row, begins, places);
    tick.ready_held
}

/// What a run keeps from tick to tick: the bytes of the line of the time, and where each number of a place begins in
/// them; and of each agent whether it is held, and its place.
struct Rows<'r> {
    row: &'r mut [u8],
    begins: &'r mut [u16],
    flags: &'r mut [bool],
    places: &'r mut [Place],
}

/// Runs a program from its start, and writes the line of each time. What is in the rows before does not matter.
fn run_in<P: ProgramView, S: HoldSource, O: TraceOut>(
    program: &P,
    machine: &mut Machine,
    source: &mut S,
    out: &mut O,
    rows: Rows<'_>,
) -> Result<Ran, RunFault>
    requires can { CanRun (P.program program.now) machine.old (S.state source.old) (O.state out.old) }
    requires rows { AreRowsFor (P.program program.now) rows.row.now rows.begins.now rows.flags.now
        rows.places.now }
    ensures runs { Runs (P.program program.now) machine.new }
    ensures looked { machine.old.looked ≤ machine.new.looked }
    ensures lines { RunsLines (P.program program.now) (S.state source.old) (S.state source.new)
        (O.state out.old) (O.state out.new)
        machine.new.configuration result }
{
    let Rows {
        row,
        begins,
        flags,
        places,
    } = rows;
    write_places(machine.agents(), row, begins);
    copy_places(machine.agents(), places);
    let mut counts = Counts { ticks: 0, held: 0 };
    let mut source_ended = false;
    'ticks: loop {
        let Counts { ticks, held } = counts;
        let end = end_at(program, machine);
        let time = Time {
            ticks,
            source_ended,
            end,
        };
        let more = pass_time(source, out, time, row, begins, flags)?;
        if let Some(end) = end {
            return Ok(Ran { ticks, held, end });
        }
        let ready_held = tick_row(program, machine, flags, row, begins, places);
        counts = counts.after(ready_held);
        source_ended = !more;
    }
}

/// Runs a program from its start, and writes the line of each time. Takes no memory.
fn run_lines<P: ProgramView, S: HoldSource, O: TraceOut>(
    program: &P,
    machine: &mut Machine,
    source: &mut S,
    out: &mut O,
) -> Result<Ran, RunFault>
    requires { CanRun (P.program program.now) machine.old (S.state source.old) (O.state out.old) }
    ensures runs { Runs (P.program program.now) machine.new }
    ensures looked { machine.old.looked ≤ machine.new.looked }
    ensures lines { RunsLines (P.program program.now) (S.state source.old) (S.state source.new)
        (O.state out.old) (O.state out.new)
        machine.new.configuration result }
{
    let mut flags = [false; MAX_AGENTS];
    let flags = &mut flags[..program.agents() as usize];
    let mut row = [0; LINE];
    let mut begins = [0; NUMERALS + 1];
    let mut places = [Place { x: 0, y: 0 }; MAX_AGENTS];
    let places = &mut places[..program.agents() as usize];
    let rows = Rows {
        row: &mut row,
        begins: &mut begins,
        flags,
        places,
    };
    run_in(program, machine, source, out, rows)
}

// The text of a run of an accepted program, and the ends of both texts.

/// The numbers of a run of a fleet: its agents, its ticks, the actions of its longest chain, and the ticks in which a
/// ready agent was held.
#[derive(Clone, Copy, Debug, PartialEq, Eq)]
pub struct Report {
    pub agents: u16,
    pub ticks: u32,
    pub chain: u32,
    pub held: u32,
}

/// Runs an accepted program from its start until all is finished, and writes its trace text.
pub fn run_trace<P: ProgramView, S: HoldSource, O: TraceOut>(
    program: &P,
    chain: u32,
    machine: &mut Machine,
    source: &mut S,
    out: &mut O,
) -> Result<Report, RunFault>
    requires shown { IsShown (P.program program.now) chain }
    requires can { CanRun (P.program program.now) machine.old (S.state source.old) (O.state out.old) }
    ensures runs { Runs (P.program program.now) machine.new }
    ensures looked { machine.old.looked ≤ machine.new.looked }
    ensures outcome { Drives (P.program program.now) chain (S.state source.old) (S.state source.new)
        (O.state out.old) (O.state out.new)
        machine.new.configuration result }
{
    let agents = program.agents();
    let ran = run_lines(program, machine, source, out)?;
    let mut closing = [0; CLOSING];
    let at = write_trace_closing(agents, ran.ticks, chain, ran.held, &mut closing);
    if put_all(out, &closing[at..]).is_err() {
        return Err(RunFault::Write);
    }
    Ok(Report {
        agents,
        ticks: ran.ticks,
        chain,
        held: ran.held,
    })
}

/// The last line of a rehearsal that ended so.
fn last_line(end: End) -> &'static [u8]
    ensures { result.now ≡ last_line_of end }
{
    match end {
        End::Finished => b"finished\n",
        End::Stuck => b"stuck\n",
    }
}

/// How many bytes the closing lines have at most.
const CLOSING: usize = 100;

/// Writes the closing lines of a rehearsal, and answers where they begin. They end with the row.
fn write_rehearsal_closing(agents: u16, ticks: u32, held: u32, end: End, row: &mut [u8]) -> usize
    requires room { length row.old ≡ CLOSING }
    ensures within { result ≤ length row.new }
    ensures written { drop result row.new ≡ closing_lines agents ticks held end }
{
    let at = write_bytes(last_line(end), row, CLOSING);
    let at = write_count_line(b"held", held, row, at);
    let at = write_count_line(b"ticks", ticks, row, at);
    write_count_line(b"agents", agents as u32, row, at)
}

/// Writes the closing lines of a trace, and answers where they begin. They end with the row.
fn write_trace_closing(agents: u16, ticks: u32, chain: u32, held: u32, row: &mut [u8]) -> usize
    requires room { length row.old ≡ CLOSING }
    ensures within { result ≤ length row.new }
    ensures written { drop result row.new ≡ trace_closing agents ticks chain held }
{
    let at = write_count_line(b"held", held, row, CLOSING);
    let at = write_count_line(b"chain", chain, row, at);
    let at = write_count_line(b"ticks", ticks, row, at);
    write_count_line(b"agents", agents as u32, row, at)
}

// Rehearsals: runs of any program.

/// The numbers of a rehearsal, its agents, its ticks and those in which a ready agent was held, and how it ended.
#[derive(Clone, Copy)]
pub struct Rehearsal {
    pub agents: u16,
    pub ticks: u32,
    pub held: u32,
    pub end: End,
}

/// Runs a program from its start to its end, and writes its rehearsal text.
fn run_rehearsal<P: ProgramView, S: HoldSource, O: TraceOut>(
    program: &P,
    machine: &mut Machine,
    source: &mut S,
    out: &mut O,
) -> Result<Rehearsal, RunFault>
    requires { CanRun (P.program program.now) machine.old (S.state source.old) (O.state out.old) }
    ensures { Rehearses (P.program program.now) (S.state source.old) (S.state source.new)
        (O.state out.old) (O.state out.new)
        result }
{
    let agents = program.agents();
    let ran = run_lines(program, machine, source, out)?;
    let mut closing = [0; CLOSING];
    let at = write_rehearsal_closing(agents, ran.ticks, ran.held, ran.end, &mut closing);
    if put_all(out, &closing[at..]).is_err() {
        return Err(RunFault::Write);
    }
    Ok(Rehearsal {
        agents,
        ticks: ran.ticks,
        held: ran.held,
        end: ran.end,
    })
}

/// Runs any program, accepted or not, from its start until it is finished or stuck, asks `source` who is held in each
/// tick, and writes the rehearsal text to `out`: a line for each time, how many agents, ticks and ticks in which a
/// ready agent was held there were, and `finished` or `stuck`.
///
/// Errors: `OutOfMemory` before anything is written; and else those of `drive`.
pub fn rehearse<P: ProgramView, S: HoldSource, O: TraceOut>(
    alloc: Global,
    program: &P,
    source: &mut S,
    out: &mut O,
) -> Result<Rehearsal, RunFault>
    requires source { HasNotFailed (S.state source.old) }
    requires sink { IsWorking (O.state out.old) }
    ensures { Rehearses (P.program program.now) (S.state source.old) (S.state source.new)
        (O.state out.old) (O.state out.new)
        result }
{
    let Ok(mut machine) = Machine::start(alloc, program) else {
        return Err(RunFault::OutOfMemory);
    };
    run_rehearsal(program, &mut machine, source, out)
}
