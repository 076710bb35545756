//! Sinks, runs under sources that fail and into outputs that fail after some bytes, and dispatches whose log fails so.

ghost use Rattle.std.specs.Prelude.{◌≡◌, All, false, length};
ghost use Rattle.fleet_run.specs.Source.{HasNotFailed};
ghost use Rattle.fleet_text.specs.Sink.{IsWorking};

use crate::due::due_bytes;
use crate::fleets::{PAIR_ORDERS, PAIR_TRACE, accepted_pair, pair, pair_fleet};
use crate::streams::{FailingSource, ShortWriter};
use fleet_dispatch::{
    DispatchFault, Outset, Pace, ReportForm, ReportLog, SinkLog, dispatch_logged,
};
use fleet_model::{Place, ProgramView};
use fleet_run::{
    Fleet, HoldSource, HoldText, OutFault, RunFault, SourceFault, TraceOut, VecOut, WriteOut, drive,
};
use fleet_text::{Flush, put_all};
use std::alloc::Global;
use std::io::ErrorKind;
use std::process::Abort;
use std::test::Fail;

/// The ways in which a stream fails: it takes nothing more, or answers an error.
const WAYS: [Option<ErrorKind>; 3] = [
    None,
    Some(ErrorKind::Interrupted),
    Some(ErrorKind::BrokenPipe),
];

/// A source that gives so many ticks and then fails so.
fn some_ticks(ticks: u8, kind: SourceFault) -> FailingSource
    ensures { result.failed ≡ false }
{
    FailingSource {
        ticks,
        kind,
        failed: false,
    }
}

/// The columns of both agents of the pair after so many ticks in which nobody is held.
const COLUMNS: [[i32; 2]; 4] = [[1, 0], [2, 0], [3, 1], [3, 2]];

/// How many bytes each line of the pair's trace has up to that of tick 3.
const LINE: usize = 11;

/// Why the pair's run stopped, if it did; in which columns the agents stood then, both in the row of the map; and
/// whether three more ticks with nobody held bring them to their goals.
type Ran = (Option<RunFault>, [i32; 2], bool);

fn run_of<P: ProgramView, S: HoldSource, O: TraceOut>(
    fleet: &mut Fleet<'_, P>,
    source: &mut S,
    out: &mut O,
) -> Ran
    requires agents { length (P.program fleet.old.accepted.program) ≡ 2 }
    requires counts { All (λ s. s.count ≡ 0) fleet.old.configuration }
    requires source { HasNotFailed (S.state source.old) }
    requires sink { IsWorking (O.state out.old) }
{
    let fault = drive(fleet, source, out).err();
    let columns = [fleet.place(0).x, fleet.place(1).x];
    let _ = fleet.tick(&[false, false]);
    let _ = fleet.tick(&[false, false]);
    let _ = fleet.tick(&[false, false]);
    let is_there = fleet.place(0) == Place { x: 3, y: 0 } && fleet.place(1) == Place { x: 2, y: 0 };
    (fault, columns, is_there && fleet.finished())
}

fn drive_answer<S: HoldSource, O: TraceOut>(
    alloc: Global,
    source: &mut S,
    out: &mut O,
) -> Result<Ran, Fail>
    requires source { HasNotFailed (S.state source.old) }
    requires sink { IsWorking (O.state out.old) }
{
    let (grid, instance, program) = pair(alloc)?;
    let mut fleet = pair_fleet(alloc, program, &grid, &instance)?;
    Ok(run_of(&mut fleet, source, out))
}

/// After a refusal the lines before it are written, and the fleet has run the ticks before it and goes on.
fn due_run(
    rt: &impl Abort,
    alloc: Global,
    ticks: u8,
    kind: SourceFault,
    due: RunFault,
) -> Result<(), Fail> {
    let columns = COLUMNS.get(usize::from(ticks)).copied().ok_or("columns")?;
    let lines = PAIR_TRACE
        .get(..(usize::from(ticks) + 1) * LINE)
        .ok_or("lines")?;
    let mut out = VecOut::new(alloc);
    let ran = drive_answer(alloc, &mut some_ticks(ticks, kind), &mut out)?;
    assert!(*rt; ran == (Some(due), columns, true), "{ticks}");
    due_bytes(rt, out.bytes(), lines);
    Ok(())
}

#[test]
fn sources_fail_after_some_ticks(rt: HostRuntime) -> Result<(), Fail> {
    for ticks in 0..3u8 {
        let tick = u32::from(ticks) + 1;
        let line = u64::from(tick);
        for (kind, due) in [
            (SourceFault::Broken, RunFault::Source { tick }),
            (SourceFault::Text, RunFault::Hold { line }),
        ] {
            due_run(&rt, rt.alloc(), ticks, kind, due)?;
        }
    }
    Ok(())
}

/// A writer that takes so many bytes, can be flushed so many times, and then fails so.
fn writer(alloc: Global, room: usize, flushes: usize, failing: Option<ErrorKind>) -> ShortWriter {
    ShortWriter {
        bytes: Vec::new(alloc),
        room,
        flushes,
        failing,
    }
}

/// Of a text so many bytes are taken, and it is a fault if that is not all.
fn due_front(rt: &impl Abort, room: usize, text: &[u8], taken: &[u8], fault: Option<RunFault>) {
    let due = if room < text.len() {
        Some(RunFault::Write)
    } else {
        None
    };
    assert!(*rt; fault == due, "{room}");
    due_bytes(rt, taken, text.get(..room).unwrap_or(b"none"));
}

/// What a run of the pair wrote to an output that fails so after so many bytes, and how it went on.
fn cut_run(
    alloc: Global,
    room: usize,
    failing: Option<ErrorKind>,
) -> Result<(ShortWriter, Ran), Fail> {
    let mut output = writer(alloc, room, 0, failing);
    let mut out = WriteOut::new(&mut output);
    let ran = drive_answer(alloc, &mut HoldText::new(b"", 2), &mut out)?;
    Ok((output, ran))
}

/// A run whose output fails goes on from the last tick that was run.
#[test]
fn runs_go_on_after_a_failed_output(rt: HostRuntime) -> Result<(), Fail> {
    for failing in WAYS {
        for room in 0..=PAIR_TRACE.len() {
            let (output, (fault, columns, is_there)) = cut_run(rt.alloc(), room, failing)?;
            due_front(&rt, room, PAIR_TRACE, &output.bytes, fault);
            let due = COLUMNS.get(room / LINE).copied().unwrap_or([3, 2]);
            assert!(rt; columns == due && is_there, "{room}");
        }
    }
    Ok(())
}

/// A sink over memory keeps what it took. What a writer was given since the last flush is handed on; if nothing was,
/// there is nothing to hand on.
#[test]
fn sinks_take_bytes(rt: HostRuntime) {
    let mut memory = VecOut::new(rt.alloc());
    let taken: Result<usize, OutFault> = memory.put(b"bytes");
    assert!(rt; matches!(taken, Ok(5)) && !memory.failed());
    due_bytes(&rt, memory.bytes(), b"bytes");
    let mut output = writer(rt.alloc(), 9, 1, None);
    let mut out = WriteOut::new(&mut output);
    assert!(rt; put_all(&mut out, b"by").is_ok() && out.flush().is_ok() && out.flush().is_ok());
    assert!(rt; put_all(&mut out, b"tes").is_ok() && out.flush().is_err() && out.failed());
    due_bytes(&rt, &output.bytes, b"bytes");
}

/// Why a dispatch of the pair over this output, which keeps this log, stopped, if it did.
fn logged_answer<L: ReportLog>(
    alloc: Global,
    output: &mut ShortWriter,
    log: &mut L,
) -> Result<Option<DispatchFault>, Fail>
    requires { IsWorking (L.state log.old) }
{
    let (grid, instance, program) = pair(alloc)?;
    let accepted = accepted_pair(alloc, program, &grid, &instance)?;
    let mut input = REPORTS;
    let mut out = WriteOut::new(output);
    let pace = Pace {
        form: ReportForm::Numbered,
        ahead: 1,
    };
    let outset = Outset { pace, past: b"" };
    Ok(dispatch_logged(alloc, accepted, outset, &mut input, &mut out, log).err())
}

/// Reports of the pair's robots. The orders that they are given are handed on four times.
const REPORTS: &[u8] = b"0:1\n0:2 1:1\n1:2\n";

/// How many bytes of the orders are told before the report of this line is logged.
fn told_before(line: u64) -> usize {
    match line {
        1 => 15,
        2 => 45,
        3 => 60,
        _ => 0,
    }
}

/// Whether a dispatch whose log fails after so many bytes, or at the flush after so many, stops for that with no order
/// more, or else goes to its end.
fn is_unlogged(alloc: Global, room: usize, flushes: usize) -> Result<bool, Fail> {
    let mut output = writer(alloc, PAIR_ORDERS.len(), 4, None);
    let mut kept = writer(alloc, room, flushes, None);
    let mut log = SinkLog {
        sink: WriteOut::new(&mut kept),
    };
    let fault = logged_answer(alloc, &mut output, &mut log)?;
    let is_stopped = match fault {
        None => room == REPORTS.len() && flushes == 3 && output.bytes.len() == PAIR_ORDERS.len(),
        Some(DispatchFault::LogWrite { line }) => {
            (room < REPORTS.len() || flushes < 3) && output.bytes.len() == told_before(line)
        }
        Some(_) => false,
    };
    Ok(is_stopped && REPORTS.starts_with(&kept.bytes) && PAIR_ORDERS.starts_with(&output.bytes))
}

#[test]
fn logs_fail_after_some_bytes(rt: HostRuntime) -> Result<(), Fail> {
    for room in 0..=REPORTS.len() {
        assert!(rt; is_unlogged(rt.alloc(), room, 3)?, "{room}");
    }
    for flushes in 0..3 {
        assert!(rt;
            is_unlogged(rt.alloc(), REPORTS.len(), flushes)?,
            "{flushes}"
        );
    }
    Ok(())
}
