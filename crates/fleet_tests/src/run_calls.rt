//! Fleets that are ticked and driven, a rehearsal that is stuck, and the sources of both.

ghost use Rattle.std.specs.Prelude.{◌≡◌, ◌<◌, All, IfOk, length};
ghost use Rattle.std.specs.List.Sorted.{IsStrictlyIncreasing};

use crate::due::due_bytes;
use crate::fleets::{DEADLOCK_BYTES, accepted_of, pair, pair_fleet, problem, started};
use fleet_adg::rest;
use fleet_code::{encode, view};
use fleet_grid::Grid;
use fleet_model::{Dir, Place, ProgramView, Step};
use fleet_run::{
    End, Fleet, HoldList, HoldSource, HoldText, NotSent, Rehearsal, Report, RunFault, SourceFault,
    Tick, VecOut, WriteOut, drive, rehearse,
};
use fleet_scen::Instance;
use std::alloc::{AllocError, Global};
use std::io::sink;
use std::process::Abort;
use std::test::Fail;

/// A tick of the pair: who is held; how many agents it moves, and whether it holds a ready one; and after it the
/// columns of both agents, how many actions they have finished, who is ready, and how many agents were looked at in
/// all, at least and at most.
type PairTick = (
    [bool; 2],
    (u16, bool),
    [i32; 2],
    [u32; 2],
    [bool; 2],
    (u64, u64),
);

/// Agent 0 is held in the first tick, and agent 1, which is not ready, in the second. The last two ticks are those of a
/// finished fleet.
const TICKS: [PairTick; 6] = [
    (
        [true, false],
        (0, true),
        [1, 0],
        [0, 0],
        [true, false],
        (1, 1),
    ),
    (
        [false, true],
        (1, false),
        [2, 0],
        [1, 0],
        [true, true],
        (2, 3),
    ),
    (
        [false, false],
        (2, false),
        [3, 1],
        [2, 1],
        [false, true],
        (4, 5),
    ),
    (
        [false, false],
        (1, false),
        [3, 2],
        [2, 2],
        [false, false],
        (5, 6),
    ),
    (
        [true, true],
        (0, false),
        [3, 2],
        [2, 2],
        [false, false],
        (5, 6),
    ),
    (
        [false, false],
        (0, false),
        [3, 2],
        [2, 2],
        [false, false],
        (5, 6),
    ),
];

/// Whether the pair stands so.
fn stands<P: ProgramView>(
    fleet: &Fleet<'_, P>,
    columns: [i32; 2],
    counts: [u32; 2],
    ready: [bool; 2],
) -> bool
    requires { length (P.program fleet.now.accepted.program) ≡ 2 }
{
    for i in 0..2u16 {
        let k = usize::from(i);
        let place = Place {
            x: columns[k],
            y: 0,
        };
        if fleet.place(i) != place || fleet.count(i) != counts[k] || fleet.ready(i) != ready[k] {
            return false;
        }
    }
    fleet.finished() == (counts == [2, 2])
}

/// Whether the tick has its outcome, and the pair stands so after it.
fn ticks<P: ProgramView>(fleet: &mut Fleet<'_, P>, tick: &PairTick) -> bool
    requires { length (P.program fleet.old.accepted.program) ≡ 2 }
    ensures { length (P.program fleet.new.accepted.program) ≡ 2 }
{
    let (held, outcome, columns, counts, ready, (least, most)) = *tick;
    let Tick { moved, ready_held } = fleet.tick(&held);
    let looked = fleet.looked();
    (moved, ready_held) == outcome
        && stands(fleet, columns, counts, ready)
        && least <= looked
        && looked <= most
}

/// The ticks of the table, one after another.
fn tick_pair<P: ProgramView>(rt: &impl Abort, fleet: &mut Fleet<'_, P>)
    requires { length (P.program fleet.old.accepted.program) ≡ 2 }
{
    for tick in &TICKS {
        assert!(*rt; ticks(fleet, tick));
    }
}

/// What is left of the pair when it is finished: both agents stand on their goals.
const NOTHING_BYTES: &[u8] = b"MPF1\0\x02\0\x03\0\0\0\x03\0\0\0\0\
\0\x02\0\0\0\x02\0\0\0\0";

/// The bytes of what is left of a fleet's program.
fn rest_bytes<P: ProgramView>(alloc: Global, fleet: &Fleet<'_, P>) -> Result<Vec<u8>, Fail> {
    let left = rest(alloc, fleet.accepted(), fleet.standings())?;
    Ok(encode(alloc, &left)?)
}

/// The pair's ticks, what is left after them, and its chain.
fn due_ticks<P: ProgramView + Drop>(
    rt: &impl Abort,
    alloc: Global,
    fleet: Fleet<'_, P>,
) -> Result<(), Fail>
    requires { length (P.program fleet.accepted.program) ≡ 2 }
{
    let mut fleet = fleet;
    tick_pair(rt, &mut fleet);
    due_bytes(rt, &rest_bytes(alloc, &fleet)?, NOTHING_BYTES);
    assert!(*rt; fleet.into_accepted().chain() == 3);
    Ok(())
}

#[test]
fn fleets_are_ticked(rt: HostRuntime) -> Result<(), Fail> {
    let (grid, instance, program) = pair(rt.alloc())?;
    let fleet = pair_fleet(rt.alloc(), program, &grid, &instance)?;
    due_ticks(&rt, rt.alloc(), fleet)
}

/// What robots of the pair report: who has carried out an order; the first of them that had none, if there is one; and
/// after it who has an order, which leads east, and how many actions both have finished.
type PairReport = ([bool; 2], Option<u16>, [bool; 2], [u32; 2]);

/// Agent 1 has no order until agent 0 has left the cell that it enters.
const REPORTS: [PairReport; 5] = [
    ([false, false], None, [true, false], [0, 0]),
    ([true, true], Some(1), [true, false], [0, 0]),
    ([true, false], None, [true, true], [1, 0]),
    ([true, true], None, [false, true], [2, 1]),
    ([false, true], None, [false, false], [2, 2]),
];

/// Whether the agent has an order that leads east.
fn goes_east<P: ProgramView>(fleet: &Fleet<'_, P>, i: u16) -> bool
    requires { i < length (P.program fleet.now.accepted.program) }
{
    matches!(fleet.order(i), Some(Step::Go(Dir::East)))
}

/// Whether the report is taken, or refused for that agent, and the pair stands so after it.
fn confirms<P: ProgramView>(fleet: &mut Fleet<'_, P>, report: &PairReport) -> bool
    requires { length (P.program fleet.old.accepted.program) ≡ 2 }
    ensures { length (P.program fleet.new.accepted.program) ≡ 2 }
{
    let (done, idle, orders, counts) = *report;
    let refused = match fleet.confirm(&done) {
        Ok(()) => None,
        Err(NotSent { agent }) => Some(agent),
    };
    fleet.apart();
    refused == idle
        && [goes_east(fleet, 0), goes_east(fleet, 1)] == orders
        && [fleet.count(0), fleet.count(1)] == counts
}

/// The reports of the table, one after another.
fn confirm_pair<P: ProgramView>(rt: &impl Abort, fleet: &mut Fleet<'_, P>)
    requires { length (P.program fleet.old.accepted.program) ≡ 2 }
{
    for report in &REPORTS {
        assert!(*rt; confirms(fleet, report));
    }
}

#[test]
fn reports_are_confirmed(rt: HostRuntime) -> Result<(), Fail> {
    let (grid, instance, program) = pair(rt.alloc())?;
    let mut fleet = pair_fleet(rt.alloc(), program, &grid, &instance)?;
    confirm_pair(&rt, &mut fleet);
    Ok(())
}

/// A row of 1,025 cells.
fn crowd_map(alloc: Global) -> Result<Vec<u8>, Fail> {
    let mut text = b"type t\nheight 1\nwidth 1025\nmap\n".to_vec(alloc)?;
    for _ in 0..1025 {
        text.push(b'.')?;
    }
    text.push(b'\n')?;
    Ok(text)
}

/// Agent 0 goes one cell east, and each other one of the 1,024 stands beyond.
fn crowd_scen(alloc: Global) -> Result<Vec<u8>, Fail> {
    let mut text = String::from_str(alloc, "version 1\n0 m 1025 1 0 0 1 0 1\n")?;
    for x in 2..1025u16 {
        write!(text, "0 m 1025 1 {x} 0 {x} 0 0\n")?;
    }
    Ok(text.into_bytes())
}

/// Agent 0 makes 65,535 moves, to and fro, and the others make none.
fn crowd_bytes(alloc: Global) -> Result<Vec<u8>, Fail> {
    let mut bytes = b"MPF1\x04\0\0\0\0\0\0\x01\0\0\xFF\xFF\x01".to_vec(alloc)?;
    for _ in 0..32_767 {
        bytes.extend_from_slice(b"\x03\x01")?;
    }
    for x in 2..1025u16 {
        for _ in 0..2 {
            bytes.extend_from_slice(&x.to_be_bytes())?;
            bytes.extend_from_slice(b"\0\0")?;
        }
        bytes.extend_from_slice(b"\0\0")?;
    }
    Ok(bytes)
}

/// The report of a run with nobody held, or why it stopped, and how many agents were looked at.
type Looked = (Result<Report, RunFault>, u64);

fn free_drive<P: ProgramView>(fleet: &mut Fleet<'_, P>) -> Result<Looked, Fail>
    requires { All (λ s. s.count ≡ 0) fleet.old.configuration }
{
    let agents = fleet.accepted().program().agents();
    if agents == 0 {
        return Err(Fail::from("nobody"));
    }
    let mut nowhere = sink();
    let mut out = WriteOut::new(&mut nowhere);
    let ran = drive(fleet, &mut HoldText::new(b"", agents), &mut out);
    Ok((ran, fleet.looked()))
}

fn free_run(alloc: Global, grid: &Grid, instance: &Instance, bytes: &[u8]) -> Result<Looked, Fail> {
    let accepted = accepted_of(alloc, view(alloc, bytes)?, grid, instance)?;
    let mut fleet = started(alloc, accepted)?;
    free_drive(&mut fleet)
}

/// The run of the crowd.
fn crowd_run(alloc: Global) -> Result<Looked, Fail> {
    let (grid, instance) = problem(alloc, &crowd_map(alloc)?, &crowd_scen(alloc)?)?;
    free_run(alloc, &grid, &instance, &crowd_bytes(alloc)?)
}

/// A tick looks at nobody but the agents that are ready, and those that await one that moves in it.
#[test]
fn standing_agents_are_not_looked_at(rt: HostRuntime) -> Result<(), Fail> {
    let (ran, looked) = crowd_run(rt.alloc())?;
    let due = Report {
        agents: 1024,
        ticks: 65_535,
        chain: 65_535,
        held: 0,
    };
    assert!(rt; ran == Ok(due) && looked == 65_535);
    Ok(())
}

/// A list that holds agents 0 and 9 in its first tick, and nobody in its second.
fn some_holds(alloc: Global) -> Result<Vec<Vec<u16>>, AllocError>
    ensures { IfOk result (λ rows. All (λ row. IsStrictlyIncreasing row.items) rows.items) }
{
    Ok(vec![in alloc; vec![in alloc; 0, 9]?, Vec::new(alloc)]?)
}

/// The next tick that a source gives to three agents, if it gives one.
fn next_of<S: HoldSource>(source: &mut S) -> Option<[bool; 3]> {
    let mut flags = [false; 3];
    if source.failed().is_some() || source.next(&mut flags) != Ok(true) {
        return None;
    }
    Some(flags)
}

/// Whether it gives these and no more, and has failed so after them.
fn gives<S: HoldSource>(source: &mut S, due: &[[bool; 3]], fault: Option<SourceFault>) -> bool {
    for tick in due {
        if next_of(source) != Some(*tick) {
            return false;
        }
    }
    next_of(source).is_none() && source.failed() == fault
}

#[test]
fn sources_give_ticks(rt: HostRuntime) -> Result<(), Fail> {
    let mut list = HoldList::new(some_holds(rt.alloc())?);
    let due = [[true, false, false], [false; 3]];
    assert!(rt; gives(&mut list, &due, None));
    let mut text = HoldText::new(b"0 2\r\n-\n1 0\n-\n", 3);
    let due = [[true, false, true], [false; 3]];
    assert!(rt; gives(&mut text, &due, Some(SourceFault::Text)));
    Ok(())
}

/// Each agent awaits the other.
#[test]
fn deadlocks_are_rehearsed(rt: HostRuntime) -> Result<(), Fail> {
    let alloc = rt.alloc();
    let program = view(alloc, DEADLOCK_BYTES)?;
    let mut out = VecOut::new(alloc);
    let ran = rehearse(alloc, &program, &mut HoldText::new(b"0 1\n", 2), &mut out)?;
    let Rehearsal {
        agents,
        ticks,
        held,
        end,
    } = ran;
    assert!(rt; (agents, ticks, held) == (2, 0, 0) && matches!(end, End::Stuck));
    due_bytes(
        &rt,
        out.bytes(),
        b"0: 1,0 0,0\nagents 2\nticks 0\nheld 0\nstuck\n",
    );
    Ok(())
}
