//! The run in which nobody is held, whose ticks are the levels of the actions, and a ring of needs in one that is
//! stuck.

ghost use Rattle.std.specs.Prelude.{◌≡◌, ◌<◌, ◌++◌, ◌∷◌, [], ℕ, false, length, IsTrue, IfSome, IfNone, IfOk, IfErr, OnOk, MatchResult, List, ◌≤◌, ◌+◌, ◌-◌, ◌↔◌, slice_index};
ghost use Rattle.fleet_model.specs.declared.program.Visit.{Visit};
ghost use Rattle.fleet_model.specs.Geometry.{place_of};
ghost use Rattle.fleet_model.specs.Program.{IsCell, moves, AreInRange};
ghost use Rattle.fleet_model.specs.Machine.{count_at, IsReached, is_stuck};
ghost use Rattle.fleet_grid.specs.Ground.{is_passable};
ghost use Rattle.fleet_machine.specs.Machine.{Runs, flag_of};
ghost use Rattle.fleet_verify.specs.Faults.{StandsRight};
ghost use Rattle.fleet_verify.specs.Order.{AreAdded};
ghost use Rattle.fleet_verify.specs.Walk.{begun_in, moved_to, position_in, AreOnGround, IsStop, IsAtStart, IsRunOnGround, IsReadyBy, counts_of, AreAddedOnGround, IsAtOpening};
ghost use Rattle.fleet_verify.specs.Blocked.{IsBlocked, IsUnmet, AreWants, WaitsBack, IsLeastBack, down_from};
ghost use Rattle.fleet_verify.specs.Ring.{IsToldRing};

use crate::agents::map_cell;
use crate::order::{PlacedVisit, VisitOrder, add_visit};
use fleet_grid::Grid;
use fleet_machine::Machine;
use fleet_model::{
    ActionId, Await, Cell, MAX_AGENTS, OutOfMemory, Place, ProgramView, Standing, Visit,
    total_moves,
};
use std::alloc::Global;

/// A run in which nobody is held, to its end: the agents as they stand then, the order of their visits, and the number
/// of ticks.
#[derive(Drop)]
pub struct UnheldRun {
    pub machine: Machine,
    pub visits: VisitOrder,
    pub ticks: u32,
}

/// Why agents are not let run to the end.
#[derive(Clone, Copy)]
pub enum Stop {
    OutOfMemory,
    /// An agent leaves passable ground.
    OffGround,
}

impl From<OutOfMemory> for Stop {
    ghost use Rattle.std.specs.Prelude.{◌≡◌};
    ghost use Rattle.fleet_verify.specs.declared.unheld_run.Stop.TheVariants.{OutOfMemory};

    ghost from_gives = { λ _ s. s ≡ OutOfMemory };

    fn from(_e: OutOfMemory) -> Stop {
        Stop::OutOfMemory
    }
}

impl UnheldRun {
    /// The run at its start, to which no visits are added yet.
    pub fn start<P: ProgramView>(alloc: Global, program: &P) -> Result<UnheldRun, OutOfMemory>
        ensures { IfOk result (IsAtStart (P.program program.now)) }
    {
        let machine = Machine::start(alloc, program)?;
        Ok(UnheldRun {
            machine,
            visits: VisitOrder::new(alloc),
            ticks: 0,
        })
    }
}

/// Runs the machine from its start until the run is over, adds all visits, and counts the ticks.
pub fn run_unheld<P: ProgramView>(program: &P, grid: &Grid, run: &mut UnheldRun) -> Result<(), Stop>
    requires { IsAtStart (P.program program.now) run.old }
    ensures { MatchResult result
        (λ _. IsRunOnGround (is_passable grid.now) (P.program program.now) run.new)
        (IsStop (is_passable grid.now) (P.program program.now)) }
{
    add_starts(program, grid, &run.machine, &mut run.visits)?;
    let nobody = [false; MAX_AGENTS];
    let nobody = &nobody[..program.agents() as usize];
    run.ticks = run_on(program, grid, nobody, &mut run.machine, &mut run.visits)?;
    Ok(())
}

/// Runs the machine from its start on, whose visits are added, and answers the number of ticks. No flag of `nobody` is
/// set.
fn run_on<P: ProgramView>(
    program: &P,
    grid: &Grid,
    nobody: &[bool],
    machine: &mut Machine,
    visits: &mut VisitOrder,
) -> Result<u32, Stop>
    requires agents { length nobody.now ≡ length (P.program program.now) }
    requires nobody { (i : ℕ) → flag_of nobody.now i ≡ false }
    requires start { IsAtOpening (P.program program.now) machine.old }
    requires starts { AreAddedOnGround (is_passable grid.now) (P.program program.now)
        (begun_in (P.program program.now) 0) visits.old }
    ensures { MatchResult result
        (λ t. IsRunOnGround (is_passable grid.now) (P.program program.now)
        (record { machine = machine.new; visits = visits.new; ticks = t }))
        (IsStop (is_passable grid.now) (P.program program.now)) }
{
    let most = total_moves(program);
    for ticks in 0..most {
        let tick = machine.tick(program, nobody);
        if tick.moved == 0 {
            return Ok(ticks);
        }
        add_moved(program, grid, machine, visits)?;
    }
    Ok(most)
}

/// Adds the starts, if all are on passable ground.
fn add_starts<P: ProgramView>(
    program: &P,
    grid: &Grid,
    machine: &Machine,
    visits: &mut VisitOrder,
) -> Result<(), Stop>
    requires start { IsAtOpening (P.program program.now) machine.now }
    requires none { AreAdded (P.program program.now) [] visits.old }
    ensures starts { OnOk result (AreAddedOnGround (is_passable grid.now) (P.program program.now)
        (begun_in (P.program program.now) 0) visits.new) }
    ensures stop { IfErr result (IsStop (is_passable grid.now) (P.program program.now)) }
{
    for agent in 0..program.agents() {
        add_position(program, grid, machine, agent, visits)?;
    }
    Ok(())
}

/// Adds the positions to which the last tick has brought the agents that it moved, if all are on passable ground.
fn add_moved<P: ProgramView>(
    program: &P,
    grid: &Grid,
    machine: &Machine,
    visits: &mut VisitOrder,
) -> Result<(), Stop>
    requires runs { Runs (P.program program.now) machine.now }
    requires reached { IsReached (P.program program.now) machine.now.configuration }
    ensures added { OnOk result
        ((before : List Visit) → AreAdded (P.program program.now) before visits.old
        → AreAdded (P.program program.now)
        (before ++ moved_to machine.now (length (P.program program.now))) visits.new) }
    ensures on_ground { OnOk result
        (AreOnGround (is_passable grid.now) (P.program program.now)
        (moved_to machine.now (length (P.program program.now)))) }
    ensures stop { IfErr result (IsStop (is_passable grid.now) (P.program program.now)) }
{
    let mut from = 0;
    while let Some(agent) = machine.next_moved(from) {
        add_position(program, grid, machine, agent, visits)?;
        from = agent + 1;
    }
    Ok(())
}

/// Adds the position to which an agent has come, if it is on passable ground.
fn add_position<P: ProgramView>(
    program: &P,
    grid: &Grid,
    machine: &Machine,
    agent: u16,
    visits: &mut VisitOrder,
) -> Result<(), Stop>
    requires runs { Runs (P.program program.now) machine.now }
    requires reached { IsReached (P.program program.now) machine.now.configuration }
    requires agent { agent < length (P.program program.now) }
    ensures added { OnOk result
        ((before : List Visit) → AreAdded (P.program program.now) before visits.old
        → AreAdded (P.program program.now)
        (before ++ position_in machine.now agent ∷ []) visits.new) }
    ensures on_ground { OnOk result
        (StandsRight (is_passable grid.now) (P.program program.now) agent
        (count_at machine.now.configuration agent)) }
    ensures stop { IfErr result (IsStop (is_passable grid.now) (P.program program.now)) }
{
    let Standing { place, count } = machine.agent(agent);
    let Some(cell) = cell_at(grid, place) else {
        return Err(Stop::OffGround);
    };
    let visit = Visit {
        agent,
        position: count,
    };
    add_visit(
        program,
        &mut visits.last,
        &mut visits.pairs,
        PlacedVisit { visit, cell },
    )?;
    Ok(())
}

/// The cell at a place, if that is passable.
fn cell_at(grid: &Grid, place: Place) -> Option<Cell>
    ensures some { IfSome result (λ cell. (place_of cell ≡ place)
        × IsTrue (is_passable grid.now place)) }
    ensures cell { IfSome result IsCell }
    ensures none { IfNone result (is_passable grid.now place ≡ false) }
{
    let cell = map_cell(grid, place)?;
    if grid.passable(cell) {
        Some(cell)
    } else {
        None
    }
}

// A ring of actions of which each needs the one before, in a run without holds that is stuck.

/// A ring among the actions that are left when nobody is ready.
pub fn find_ring<P: ProgramView>(
    alloc: Global,
    program: &P,
    machine: &Machine,
) -> Result<Vec<ActionId>, OutOfMemory>
    requires runs { Runs (P.program program.now) machine.now }
    requires ranges { AreInRange (P.program program.now) }
    requires stuck { IsTrue (is_stuck (P.program program.now) machine.now.configuration) }
    ensures { IfOk result (λ ring. IsToldRing (P.program program.now) ring.items) }
{
    let counts = counts_of(alloc, machine.agents())?;
    ring_by_counts(alloc, program, &counts)
}

/// The same by how many actions each agent has finished.
fn ring_by_counts<P: ProgramView>(
    alloc: Global,
    program: &P,
    counts: &[u32],
) -> Result<Vec<ActionId>, OutOfMemory>
    requires counts { length counts.now ≡ length (P.program program.now) }
    requires ranges { AreInRange (P.program program.now) }
    requires stuck { (i : ℕ) → i < length (P.program program.now)
        → IsReadyBy (P.program program.now) counts.now i → ⊥ }
    requires left { (i : ℕ) × IsBlocked (P.program program.now) counts.now i }
    ensures { IfOk result (λ ring. IsToldRing (P.program program.now) ring.items) }
{
    let wants = all_wants(alloc, program, counts)?;
    let first = least_on_ring(program, counts, &wants);
    ring_from(alloc, program, counts, &wants, first)
}

/// How many actions each agent has finished.
fn counts_of(alloc: Global, agents: &[Standing]) -> Result<Vec<u32>, OutOfMemory>
    ensures { IfOk result (λ counts. counts.items ≡ counts_of agents.now) }
{
    let mut counts = Vec::with_capacity(alloc, agents.len())?;
    for agent in agents {
        counts.push(agent.count)?;
    }
    Ok(counts)
}

/// For each agent an await of its next action that is not met, if it has an action left.
fn all_wants<P: ProgramView>(
    alloc: Global,
    program: &P,
    counts: &[u32],
) -> Result<Vec<Await>, OutOfMemory>
    requires counts { length counts.now ≡ length (P.program program.now) }
    requires stuck { (i : ℕ) → i < length (P.program program.now)
        → IsReadyBy (P.program program.now) counts.now i → ⊥ }
    ensures { IfOk result (λ wants. AreWants (P.program program.now) counts.now wants.items) }
{
    let mut wants = Vec::new(alloc);
    for i in 0..program.agents() {
        let want = unmet(program, counts, i).unwrap_or(Await { agent: 0, count: 0 });
        wants.push(want)?;
    }
    Ok(wants)
}

/// An await of an agent's next action that is not met, if there is one.
fn unmet<P: ProgramView>(program: &P, counts: &[u32], i: u16) -> Option<Await>
    requires agent { i < length (P.program program.now) }
    requires counts { length counts.now ≡ length (P.program program.now) }
    ensures some { IfSome result (IsUnmet (P.program program.now) counts.now i) }
    ensures none { IfNone result (slice_index counts.now i < moves (P.program program.now) i
        → IsReadyBy (P.program program.now) counts.now i) }
{
    let agents = program.agents();
    let done = counts[i as usize];
    if done >= program.moves(i) {
        return None;
    }
    let number = done + 1;
    for k in 0..program.await_count(i, number) {
        let awaited = program.await_at(i, number, k);
        prove!(awaited.agent < agents);
        let is_short = counts[awaited.agent as usize] < awaited.count;
        if is_short {
            return Some(awaited);
        }
    }
    None
}

/// The least agent whose waiting leads back to it.
fn least_on_ring<P: ProgramView>(program: &P, counts: &[u32], wants: &[Await]) -> u16
    requires counts { length counts.now ≡ length (P.program program.now) }
    requires ranges { AreInRange (P.program program.now) }
    requires wants { AreWants (P.program program.now) counts.now wants.now }
    requires left { (i : ℕ) × IsBlocked (P.program program.now) counts.now i }
    ensures { IsLeastBack (P.program program.now) counts.now wants.now result }
{
    for i in 0..program.agents() {
        let is_blocked = counts[i as usize] < program.moves(i);
        if is_blocked && leads_back(program, counts, wants, i) {
            return i;
        }
    }
    unreachable!()
}

/// Whether an agent's waiting leads back to it.
fn leads_back<P: ProgramView>(program: &P, counts: &[u32], wants: &[Await], i: u16) -> bool
    requires ranges { AreInRange (P.program program.now) }
    requires wants { AreWants (P.program program.now) counts.now wants.now }
    requires blocked { IsBlocked (P.program program.now) counts.now i }
    ensures { IsTrue result ↔ WaitsBack wants.now (length (P.program program.now)) i }
{
    let mut agent = i;
    for _steps in 0..program.agents() {
        agent = wants[agent as usize].agent;
        let is_back = agent == i;
        if is_back {
            return true;
        }
    }
    false
}

/// The actions on the way back to an agent, from its next one.
fn ring_from<P: ProgramView>(
    alloc: Global,
    program: &P,
    counts: &[u32],
    wants: &[Await],
    first: u16,
) -> Result<Vec<ActionId>, OutOfMemory>
    requires counts { length counts.now ≡ length (P.program program.now) }
    requires ranges { AreInRange (P.program program.now) }
    requires wants { AreWants (P.program program.now) counts.now wants.now }
    requires first { IsLeastBack (P.program program.now) counts.now wants.now first }
    ensures { IfOk result (λ ring. IsToldRing (P.program program.now) ring.items) }
{
    let mut trail = Vec::new(alloc);
    let mut agent = first;
    let agents = program.agents();
    for _steps in 0..agents {
        let Await { agent: next, count } = wants[agent as usize];
        prove!(next < agents);
        push_down(&mut trail, next, counts[next as usize], count)?;
        agent = next;
        let is_back = agent == first;
        if is_back {
            trail.reverse();
            return Ok(trail);
        }
    }
    unreachable!()
}

/// Adds the actions of an agent from the last one back to the one after those that are done.
fn push_down(trail: &mut Vec<ActionId>, agent: u16, done: u32, last: u32) -> Result<(), OutOfMemory>
    requires { done ≤ last }
    ensures { OnOk result (trail.new.items ≡ trail.old.items
        ++ down_from agent last (last - done)) }
{
    for back in 0..last - done {
        let number = last - back;
        trail.push(ActionId { agent, number })?;
    }
    Ok(())
}
