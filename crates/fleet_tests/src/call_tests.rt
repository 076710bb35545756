//! Calls of which a growth is refused, each action's reach in a train of agents, and many ticks that are written.

use crate::due::due_bytes;
use crate::fleets::{
    HELD_TEXT, HELD_TRACE, PAIR_BYTES, PAIR_MAP, PAIR_SCEN, STAYING_BYTES, TRAIN_MAP, VAIN_BYTES,
    train_scen,
};
use fleet_adg::compile;
use fleet_cli::{AutoFault, Files, MemFiles, auto_run};
use fleet_code::{EncodeFault, encode, load};
use fleet_grid::{Grid, read_map};
use fleet_model::{ActionId, Deps, Program};
use fleet_plan::{read_plan, write_plan};
use fleet_run::{HoldList, RunFault, TraceOut, VecOut, rehearse, write_holds};
use fleet_scen::{Instance, read_scen};
use fleet_search::plan;
use fleet_verify::{Reach, verify};
use std::alloc::Global;
use std::test::Fail;

/// The trace of the pair with agent 0 held in the first tick, in one call. None without memory.
fn auto_answer(alloc: Global) -> Option<Vec<u8>> {
    let mut out = VecOut::new(alloc);
    let holds = b"0\n".as_slice();
    match auto_run(
        alloc,
        PAIR_MAP,
        PAIR_SCEN,
        None,
        1024,
        Deps::Last,
        holds,
        &mut out,
    ) {
        Err(AutoFault::OutOfMemory) => None,
        Err(AutoFault::Run(RunFault::Write)) if out.failed() => None,
        Err(_) => b"refused".to_vec(alloc).ok(),
        Ok(_) => out.bytes().to_vec(alloc).ok(),
    }
}

/// The rehearsal of the pair under a list that holds agent 0, and one that is not there, in the first tick.
fn list_answer(alloc: Global) -> Option<Vec<u8>> {
    let program = load(alloc, PAIR_BYTES).ok()?;
    let rows = vec![in alloc; vec![in alloc; 0, 9].ok()?].ok()?;
    let mut out = VecOut::new(alloc);
    match rehearse(alloc, &program, &mut HoldList::new(rows), &mut out) {
        Err(RunFault::OutOfMemory) => None,
        Err(RunFault::Write) if out.failed() => None,
        Err(_) => b"refused".to_vec(alloc).ok(),
        Ok(_) => out.bytes().to_vec(alloc).ok(),
    }
}

/// The program's bytes in version 1, or why it has none.
fn encode_answer(alloc: Global, bytes: &[u8]) -> Option<Vec<u8>> {
    let program = load(alloc, bytes).ok()?;
    match encode(alloc, &program) {
        Ok(bytes) => Some(bytes),
        Err(EncodeFault::OutOfMemory) => None,
        Err(EncodeFault::TooLong) => b"too long".to_vec(alloc).ok(),
        Err(EncodeFault::Dwell) => b"dwell".to_vec(alloc).ok(),
    }
}

/// A plan that is read, and written.
fn plan_answer(alloc: Global) -> Option<Vec<u8>> {
    let plan = read_plan(
        alloc,
        b"0,65535\t09,10  99,100 999,1000 9999,10000 65535,0\r\n3,4",
    )
    .ok()?;
    write_plan(alloc, &plan).ok()
}

/// A file that is written over another, and read.
fn file_answer(alloc: Global) -> Option<Vec<u8>> {
    let mut files = MemFiles::new(alloc);
    files.put("out", b"old bytes").ok()?;
    files.write("out", b"bytes").ok()?;
    files.read(alloc, "out").ok()
}

/// How many actions of each agent the second action of the last agent needs, and then how many of the last agent the
/// second action of agent 0 needs.
fn reach_counts(alloc: Global, reach: &Reach, last: u16) -> Option<Vec<u8>> {
    let mut counts = Vec::new(alloc);
    for agent in 0..=last {
        let to = ActionId {
            agent: last,
            number: 2,
        };
        let count = reach.greatest(to, agent);
        counts.push(u8::try_from(count).unwrap_or(u8::MAX)).ok()?;
    }
    let to = ActionId {
        agent: 0,
        number: 2,
    };
    let count = reach.greatest(to, last);
    counts.push(u8::try_from(count).unwrap_or(u8::MAX)).ok()?;
    Some(counts)
}

/// The program that is made for a map and an instance.
fn made_for(alloc: Global, grid: &Grid, instance: &Instance) -> Option<Program> {
    let checked = plan(alloc, grid, instance, 1024).ok()?;
    compile(alloc, &checked, Deps::Last).ok()
}

/// How far its actions reach back.
fn reach_of(alloc: Global, grid: &Grid, instance: &Instance) -> Option<Reach> {
    let program = made_for(alloc, grid, instance)?;
    let accepted = verify(alloc, program, grid, instance).ok()?;
    Reach::of(alloc, &accepted).ok()
}

/// .. of one that is made for the map and the scenario.
fn reach_answer(alloc: Global, map: &[u8], scen: &[u8]) -> Option<Vec<u8>> {
    let grid = read_map(alloc, map).ok()?;
    let instance = read_scen(alloc, scen, &grid, None).ok()?;
    let reach = reach_of(alloc, &grid, &instance)?;
    reach_counts(alloc, &reach, instance.agents().saturating_sub(1))
}

#[derive(Clone, Copy)]
enum Call {
    Auto,
    List,
    EncodeVain,
    EncodeStaying,
    Plan,
    File,
    Reach,
}

/// What the call answers. None without memory.
fn answer_of(alloc: Global, call: Call) -> Option<Vec<u8>> {
    match call {
        Call::Auto => auto_answer(alloc),
        Call::List => list_answer(alloc),
        Call::EncodeVain => encode_answer(alloc, VAIN_BYTES),
        Call::EncodeStaying => encode_answer(alloc, STAYING_BYTES),
        Call::Plan => plan_answer(alloc),
        Call::File => file_answer(alloc),
        Call::Reach => reach_answer(alloc, PAIR_MAP, PAIR_SCEN),
    }
}

/// Each call, and what is due.
const CALLS: [(Call, &[u8]); 7] = [
    (Call::Auto, HELD_TRACE),
    (Call::List, HELD_TEXT),
    (Call::EncodeVain, b"too long"),
    (Call::EncodeStaying, b"dwell"),
    (
        Call::Plan,
        b"0,65535 9,10 99,100 999,1000 9999,10000 65535,0\n3,4\n",
    ),
    (Call::File, b"bytes"),
    (Call::Reach, b"\x02\x02\0"),
];

/// Whether the answer is due, or memory was lacking.
fn is_due(answer: Option<&Vec<u8>>, due: &[u8]) -> bool {
    match answer {
        Some(bytes) => bytes.as_slice() == due,
        None => true,
    }
}

/// Whether of two answers of the call one lacks memory at most, and each other is due.
fn is_answered(alloc: Global, call: Call, due: &[u8]) -> bool {
    let first = answer_of(alloc, call);
    let second = answer_of(alloc, call);
    (first.is_some() || second.is_some())
        && is_due(first.as_ref(), due)
        && is_due(second.as_ref(), due)
}

/// `rt try --test --fail-alloc N` refuses the N-th growth of the test, and that one alone. So of two answers one may
/// lack memory, and each other is due.
#[test]
fn only_memory_may_be_refused(rt: HostRuntime) {
    for one in &CALLS {
        let (call, due) = *one;
        assert!(rt;
            is_answered(rt.alloc(), call, due),
            "{} bytes are due",
            due.len()
        );
    }
}

/// Each action of a train of 128 agents needs as many of every agent before its own, and none of those behind it. No
/// clause says that memory suffices.
#[test]
fn a_train_reaches_back(rt: HostRuntime) -> Result<(), Fail> {
    let scen = train_scen(rt.alloc())?;
    let counts = reach_answer(rt.alloc(), TRAIN_MAP, &scen).ok_or("memory")?;
    let Some((count, others)) = counts.split_last() else {
        return Err(Fail::from("no counts"));
    };
    assert!(rt; *count == 0);
    due_bytes(&rt, others, &[2; 128]);
    Ok(())
}

#[test]
fn many_ticks_are_written(rt: HostRuntime) -> Result<(), Fail> {
    let alloc = rt.alloc();
    let mut rows = Vec::new(alloc);
    for _ in 0..100_000 {
        rows.push(vec![in alloc; 0, 9]?)?;
    }
    assert!(rt; write_holds(alloc, &rows)?.len() == 400_000);
    Ok(())
}
