//! Dispatches with ample memory: every order that they tell, and their report.

use crate::due::{due_bytes, due_numbers};
use crate::fleets::{PAIR_ORDERS, accepted_pair, pair};
use fleet_dispatch::{
    DispatchFault, DispatchReport, NoLog, Pace, ReportForm, StreamFloor, dispatch_accepted,
    dispatch_over,
};
use fleet_run::VecOut;
use std::alloc::Global;
use std::process::Abort;
use std::test::Fail;

/// Reports of the pair's robots, of which one comes twice.
const REPORTS: &[u8] = b"0:1\n0:1\n0:2 1:1\n1:2\n";

/// One order at a time, by its number.
const PACE: Pace = Pace {
    form: ReportForm::Numbered,
    ahead: 1,
};

/// What a dispatch told, and the agents, the moves and the reports that it counted.
type Told = (VecOut, [u32; 3]);

fn counts_of(answer: Result<DispatchReport, DispatchFault>) -> Result<[u32; 3], Fail> {
    match answer {
        Ok(report) => Ok([u32::from(report.agents), report.moves, report.reports]),
        Err(_) => Err(Fail::from("refused")),
    }
}

/// A dispatch of the pair over an input and an output.
fn told_over(alloc: Global) -> Result<Told, Fail> {
    let (grid, instance, program) = pair(alloc)?;
    let accepted = accepted_pair(alloc, program, &grid, &instance)?;
    let mut input = REPORTS;
    let mut orders = VecOut::new(alloc);
    let answer = dispatch_over(alloc, accepted, PACE, b"", &mut input, &mut orders);
    Ok((orders, counts_of(answer)?))
}

/// .. over a floor.
fn told_on_floor(alloc: Global) -> Result<Told, Fail> {
    let (grid, instance, program) = pair(alloc)?;
    let accepted = accepted_pair(alloc, program, &grid, &instance)?;
    let mut input = REPORTS;
    let mut orders = VecOut::new(alloc);
    let mut log = NoLog;
    let mut floor = StreamFloor::new(PACE.form, &mut input, &mut orders, &mut log);
    let answer = dispatch_accepted(alloc, accepted, PACE, b"", &mut floor);
    Ok((orders, counts_of(answer)?))
}

fn due_told(rt: &impl Abort, told: &Told) {
    due_bytes(rt, told.0.bytes(), PAIR_ORDERS);
    due_numbers(rt, &told.1, &[2, 4, 3]);
}

#[test]
fn dispatches_tell_all_orders(rt: HostRuntime) -> Result<(), Fail> {
    due_told(&rt, &told_over(rt.alloc())?);
    due_told(&rt, &told_on_floor(rt.alloc())?);
    Ok(())
}
