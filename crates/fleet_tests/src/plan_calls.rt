//! Plans that are made, the programs that are compiled from them, and awaits that others imply.

use crate::due::{due_bytes, due_numbers};
use crate::fleets::{
    ALL_BYTES, LAST_BYTES, PAIR_BYTES, PAIR_MAP, PAIR_PLAN, PAIR_SCEN, ROW_MAP, ROW_SCEN,
    STAYING_BYTES, accepted_of, checked_of, problem,
};
use fleet_adg::{Deps, ProgramBytes, compile, compile_bytes, compile_dwell, thin, thin_bytes};
use fleet_code::{encode, encode2, view};
use fleet_grid::Grid;
use fleet_model::ProgramView;
use fleet_plan::{Checked, Plan, is_apart, write_plan};
use fleet_scen::Instance;
use fleet_search::{SumOfCosts, best_in_orders, bound, first_in_orders, plan};
use fleet_verify::Accepted;
use std::alloc::Global;
use std::process::Abort;
use std::test::Fail;

/// A row of seven cells with two bays, whose ends two agents exchange. One of them goes straight, in six steps. The
/// other waits in a bay, and arrives at time 9 if it is agent 0, at 11 if it is agent 1.
const BAYS_MAP: &[u8] = b"type octile\nheight 2\nwidth 7\nmap\n.......\n@.@@.@@\n";

const BAYS_SCEN: &[u8] = b"version 1\n0 m 7 2 6 0 0 0 6\n0 m 7 2 0 0 6 0 6\n";

/// The sum of costs of a plan of two agents, that of its paths, its moves and its waits.
fn plan_numbers(plan: &Plan) -> [u32; 4] {
    let paths = if plan.agents() == 2 {
        plan.path(0).cost() + plan.path(1).cost()
    } else {
        0
    };
    [plan.sum_of_costs(), paths, plan.moves(), plan.waits()]
}

/// The measure of the best plan of two agents in two orders, the numbers of the plan, and the bound.
fn best_numbers(alloc: Global, grid: &Grid, instance: &Instance) -> Result<[u32; 6], Fail> {
    let best = best_in_orders(alloc, grid, instance, 1024, 2, &SumOfCosts)?;
    let [sum, paths, moves, waits] = plan_numbers(best.checked.plan());
    let least = bound(alloc, &best.checked)?;
    Ok([best.measure, sum, paths, moves, waits, least])
}

/// The best plan is that of the second order, and the first one that of the first.
fn due_best(rt: &impl Abort, alloc: Global, grid: &Grid, instance: &Instance) -> Result<(), Fail> {
    let best = best_numbers(alloc, grid, instance)?;
    due_numbers(rt, &best, &[15, 15, 15, 14, 1, 12]);
    let first = first_in_orders(alloc, grid, instance, 1024, 2)?;
    due_numbers(
        rt,
        &[first.tried, first.checked.plan().sum_of_costs()],
        &[1, 17],
    );
    Ok(())
}

#[test]
fn plans_have_numbers_and_the_best_is_kept(rt: HostRuntime) -> Result<(), Fail> {
    let (grid, instance) = problem(rt.alloc(), BAYS_MAP, BAYS_SCEN)?;
    due_best(&rt, rt.alloc(), &grid, &instance)
}

/// How many agents, moves and awaits a program has.
type Numbers = (u16, u32, u64);

/// These bytes and numbers are due.
fn due_made(rt: &impl Abort, made: &ProgramBytes, due: &[u8], numbers: Numbers) {
    due_bytes(rt, &made.bytes, due);
    assert!(*rt; (made.agents, made.moves, made.awaits) == numbers);
}

/// The pair's plan, its program, and that with two stays of each agent after its moves, which is made at once too.
fn due_compiled(rt: &impl Abort, alloc: Global, checked: &Checked<'_>) -> Result<(), Fail> {
    due_bytes(rt, &write_plan(alloc, checked.plan())?, PAIR_PLAN);
    due_bytes(
        rt,
        &encode(alloc, &compile(alloc, checked, Deps::All)?)?,
        PAIR_BYTES,
    );
    let staying = compile_dwell(alloc, checked, Deps::Last, 2)?;
    due_bytes(rt, &encode2(alloc, &staying)?, STAYING_BYTES);
    due_made(
        rt,
        &compile_bytes(alloc, checked, Deps::Last, 2)?,
        STAYING_BYTES,
        (2, 8, 2),
    );
    Ok(())
}

#[test]
fn plans_are_made_and_compiled(rt: HostRuntime) -> Result<(), Fail> {
    let (grid, instance) = problem(rt.alloc(), PAIR_MAP, PAIR_SCEN)?;
    let checked = plan(rt.alloc(), &grid, &instance, 1024)?;
    due_compiled(&rt, rt.alloc(), &checked)
}

/// The pair's plan in which the second agent waits for one step, before it sets out.
const WAITING_PLAN: &[u8] = b"1,0 2,0 3,0\n0,0 0,0 1,0 2,0\n";

/// Whether the plan is apart is due.
fn due_apart(rt: &impl Abort, alloc: Global, checked: &Checked<'_>, due: bool) -> Result<(), Fail> {
    assert!(*rt; is_apart(alloc, checked)? == due);
    Ok(())
}

#[test]
fn plans_are_apart_if_nobody_follows(rt: HostRuntime) -> Result<(), Fail> {
    let alloc = rt.alloc();
    let (grid, instance) = problem(alloc, PAIR_MAP, PAIR_SCEN)?;
    let following = checked_of(alloc, PAIR_PLAN, &grid, &instance)?;
    due_apart(&rt, alloc, &following, false)?;
    let waiting = checked_of(alloc, WAITING_PLAN, &grid, &instance)?;
    due_apart(&rt, alloc, &waiting, true)
}

/// The row's program without the awaits that others imply, which is made at once too.
fn due_thinned<P: ProgramView>(
    rt: &impl Abort,
    alloc: Global,
    accepted: &Accepted<'_, P>,
) -> Result<(), Fail> {
    due_bytes(rt, &encode(alloc, &thin(alloc, accepted)?)?, LAST_BYTES);
    due_made(rt, &thin_bytes(alloc, accepted)?, LAST_BYTES, (3, 6, 4));
    Ok(())
}

/// The row's program with all awaits is accepted, and thinned.
fn due_row(rt: &impl Abort, alloc: Global, grid: &Grid, instance: &Instance) -> Result<(), Fail> {
    let accepted = accepted_of(alloc, view(alloc, ALL_BYTES)?, grid, instance)?;
    due_thinned(rt, alloc, &accepted)
}

#[test]
fn programs_are_thinned(rt: HostRuntime) -> Result<(), Fail> {
    let (grid, instance) = problem(rt.alloc(), ROW_MAP, ROW_SCEN)?;
    due_row(&rt, rt.alloc(), &grid, &instance)
}
