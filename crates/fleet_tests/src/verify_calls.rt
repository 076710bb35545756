//! Programs that are accepted, with their times and whom a broken robot stops, and refused, with the holds that break
//! them.

ghost use Rattle.fleet_model.specs.declared.geometry.Place.{Place};
ghost use Rattle.fleet_verify.specs.Broken.{MeetUnordered, IsBrokenBy};
ghost use Rattle.std.specs.Prelude.{◌≡◌, ◌==◌, if◌then◌else◌, length};

use crate::due::{due_bytes, due_numbers};
use crate::fleets::{PAIR_MAP, PAIR_SCEN, accepted_pair, pair, problem};
use fleet_cli::Fault;
use fleet_code::{encode, load};
use fleet_model::{ActionId, Program, ProgramView, Visit};
use fleet_run::{TraceOut, VecOut, write_holds};
use fleet_text::put_all;
use fleet_verify::{
    Accepted, ActionCosts, OneEach, Refused, Stretch, Times, VerifyFault, breaking_holds,
    reached_counts, stopped_agents, verify,
};
use std::alloc::Global;
use std::process::Abort;
use std::test::Fail;

/// The holds that bring two agents onto one cell, as text.
fn breaking_text<P: ProgramView>(
    alloc: Global,
    program: &P,
    first: Visit,
    second: Visit,
) -> Result<Vec<u8>, Fail>
    requires { (q : Place) × MeetUnordered (P.program program.now) q first second }
{
    let holds = breaking_holds(alloc, program, first, second)?;
    Ok(write_holds(alloc, &holds)?)
}

/// The line of a refusal, after the holds that break the program, if it has such. The program is handed back.
fn tell_refused(alloc: Global, refused: Refused<Program>, bytes: &[u8]) -> Result<VecOut, Fail>
    requires { IsBrokenBy refused.program refused.fault }
{
    let Refused { fault, program } = refused;
    let mut out = VecOut::new(alloc);
    if let VerifyFault::Unordered { first, second, .. } = &fault {
        let text = breaking_text(alloc, &program, *first, *second)?;
        put_all(&mut out, &text)?;
    }
    if !out.failed() {
        Fault::Verify(fault).tell(&mut out);
    }
    if encode(alloc, &program)?.as_slice() != bytes {
        return Err(Fail::from("another program"));
    }
    Ok(out)
}

/// What is told of a program for the pair that is refused.
fn refusal_of(alloc: Global, bytes: &[u8]) -> Result<VecOut, Fail> {
    let (grid, instance) = problem(alloc, PAIR_MAP, PAIR_SCEN)?;
    match verify(alloc, load(alloc, bytes)?, &grid, &instance) {
        Ok(_) => Err(Fail::from("accepted")),
        Err(refused) => tell_refused(alloc, refused, bytes),
    }
}

/// One agent that stands on 0,0.
const CELL_BYTES: &[u8] = b"MPF1\0\x01\0\0\0\0\0\0\0\0\0\0";

/// Agent 1 of the pair does not wait for the second action of agent 0.
const EARLY_BYTES: &[u8] = b"MPF1\0\x02\0\x01\0\0\0\x03\0\0\0\x02\x01\x01\
\0\0\0\0\0\x02\0\0\0\x02\x10\0\0\0\x01\x01\x10\0\0\0\x01\x01";

const EARLY_TOLD: &[u8] = b"-\n0\n0\nverify 8 Unordered cell 2,0 first 0:1 second 1:2\n";

#[test]
fn programs_are_refused(rt: HostRuntime) -> Result<(), Fail> {
    due_bytes(
        &rt,
        refusal_of(rt.alloc(), CELL_BYTES)?.bytes(),
        b"verify 2 OtherFleet\n",
    );
    due_bytes(
        &rt,
        refusal_of(rt.alloc(), EARLY_BYTES)?.bytes(),
        EARLY_TOLD,
    );
    Ok(())
}

/// Each action of agent 0 costs five, and each of the others two.
struct SlowFirst;

impl ActionCosts for SlowFirst {
    ghost cost = { λ c a. if a.agent == 0 then 5 else 2 };

    fn cost(&self, action: ActionId) -> u32 {
        if action.agent == 0 { 5 } else { 2 }
    }
}

/// When the agents of the pair arrive, and which action ends last.
fn due_ends<P: ProgramView>(rt: &impl Abort, times: &Times<'_, P, SlowFirst>)
    requires { length (P.program times.now.program) ≡ 2 }
{
    assert!(*rt; (times.arrival(0), times.arrival(1), times.last_arrival()) == (10, 12, 12));
    match times.latest() {
        Some(last) => assert!(*rt; (last.agent, last.number, times.end(last)) == (1, 2, 12)),
        None => panic!(*rt; "no actions"),
    }
}

/// The stretches of the critical path, each as its agent, its first number and how many actions it has.
fn path_stretches<P: ProgramView>(
    alloc: Global,
    times: &Times<'_, P, SlowFirst>,
) -> Result<Vec<(u16, u32, u16)>, Fail> {
    let mut stretches = Vec::new(alloc);
    for stretch in &times.critical_path(alloc)? {
        let Stretch {
            agent,
            count,
            first,
        } = *stretch;
        stretches.push((agent, first, count))?;
    }
    Ok(stretches)
}

/// The same arrivals as a list, and the critical path.
fn due_lists<P: ProgramView>(
    rt: &impl Abort,
    alloc: Global,
    times: &Times<'_, P, SlowFirst>,
) -> Result<(), Fail> {
    assert!(*rt; times.arrivals(alloc)?.as_slice() == [10, 12].as_slice());
    let path = path_stretches(alloc, times)?;
    assert!(*rt; path.as_slice() == [(0, 1, 2), (1, 2, 1)].as_slice());
    Ok(())
}

/// When the last agent arrives, if each action costs one.
fn last_arrival<P: ProgramView>(alloc: Global, accepted: &Accepted<'_, P>) -> Result<u64, Fail> {
    let times = Times::by_levels(alloc, accepted, &OneEach)?;
    Ok(times.last_arrival())
}

/// The times of the pair, if each action costs one, and if the actions of agent 0 are slow.
fn due_times<P: ProgramView>(
    rt: &impl Abort,
    alloc: Global,
    accepted: &Accepted<'_, P>,
) -> Result<(), Fail>
    requires { length (P.program accepted.now.program) ≡ 2 }
{
    assert!(*rt; last_arrival(alloc, accepted)? == 3);
    let times = Times::of(alloc, accepted, &SlowFirst)?;
    due_ends(rt, &times);
    due_lists(rt, alloc, &times)
}

/// Agent 0 never ends its second action, and so agent 1 does not end its own.
fn due_stopped<P: ProgramView>(
    rt: &impl Abort,
    alloc: Global,
    accepted: &Accepted<'_, P>,
) -> Result<(), Fail> {
    let counts = reached_counts(alloc, accepted, &[2, 0])?;
    due_numbers(rt, &counts, &[1, 1]);
    assert!(*rt; stopped_agents(accepted.program(), &counts) == 2);
    Ok(())
}

/// What is kept of the pair with its program, its times, and whom a broken robot stops.
fn due_accepted<P: ProgramView>(
    rt: &impl Abort,
    alloc: Global,
    accepted: &Accepted<'_, P>,
) -> Result<(), Fail>
    requires { length (P.program accepted.now.program) ≡ 2 }
{
    assert!(*rt; accepted.chain() == 3 && accepted.program().agents() == 2);
    assert!(*rt; accepted.grid().width() == 4 && accepted.instance().agents() == 2);
    due_times(rt, alloc, accepted)?;
    due_stopped(rt, alloc, accepted)
}

#[test]
fn programs_are_accepted(rt: HostRuntime) -> Result<(), Fail> {
    let (grid, instance, program) = pair(rt.alloc())?;
    let accepted = accepted_pair(rt.alloc(), program, &grid, &instance)?;
    due_accepted(&rt, rt.alloc(), &accepted)
}
