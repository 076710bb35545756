//! Agents run on until nobody can: by a queue, which nothing is said of, and then all of them are looked at once more.

ghost use Rattle.std.specs.Prelude.{◌≡◌, ◌<◌, ◌≤◌, ℕ, false, length, IsTrue, IfErr, IfNone, IfSome, OnOk, Option, IfOk};
ghost use Rattle.fleet_grid.specs.Ground.{is_passable};
ghost use Rattle.fleet_model.specs.declared.program.Await.{Await};
ghost use Rattle.fleet_model.specs.Program.{moves};
ghost use Rattle.fleet_verify.specs.Ahead.{CanGoOn, IsAhead, IsStopped, NobodyGoesOn, count_in, AreStill, IsStoppedAhead};
ghost use Rattle.fleet_verify.specs.Walk.{IsStop};

use crate::ahead::{Ahead, has_finished, needs_of, run_agent, runner_of};
use crate::level_row::row_of;
use crate::unheld_run::Stop;
use fleet_grid::Grid;
use fleet_model::{Await, OutOfMemory, ProgramView, total_moves};
use std::alloc::Global;
use std::marker::Model;

/// Lets the agents run on until nobody can: each as it is woken, until nobody is left to be looked at, or so many looks
/// are made, and then the rest.
pub fn run_ahead<P: ProgramView>(
    alloc: Global,
    program: &P,
    grid: &Grid,
    ahead: &mut Ahead,
) -> Result<(), Stop>
    requires { IsAhead (is_passable grid.now) (P.program program.now) ahead.old }
    ensures still { OnOk result
        (AreStill (is_passable grid.now) (P.program program.now) ahead.new) }
    ensures stop { IfErr result (IsStop (is_passable grid.now) (P.program program.now)) }
{
    let agents = program.agents();
    let most = 2 * total_moves(program) + u32::from(agents);
    let mut queue = Queue::new(alloc, agents)?;
    for _ in 0..most {
        let Some(agent) = queue.pop() else {
            break;
        };
        look_at(program, grid, ahead, &mut queue, agent)?;
    }
    run_rest(program, grid, ahead)
}

/// Lets an agent run on, and wakes those that it has kept waiting.
fn look_at<P: ProgramView>(
    program: &P,
    grid: &Grid,
    ahead: &mut Ahead,
    queue: &mut Queue,
    agent: u16,
) -> Result<(), Stop>
    requires ahead { IsAhead (is_passable grid.now) (P.program program.now) ahead.old }
    requires queue { queue.old ≡ length (P.program program.now) }
    requires agent { agent < length (P.program program.now) }
    ensures stopped { OnOk result (IsStoppedAhead (is_passable grid.now) (P.program program.now)
        ahead.new agent queue.old queue.new) }
    ensures stop { IfErr result (IsStop (is_passable grid.now) (P.program program.now)) }
{
    if let Some(awaited) = run_agent(program, grid, ahead, agent)? {
        queue.wait(agent, awaited);
    }
    queue.wake(agent, row_of(&ahead.rows, agent).count())?;
    Ok(())
}

/// Whether the agent can go on: it has an action left, of which each await is met.
fn can_go_on<P: ProgramView>(program: &P, ahead: &Ahead, agent: u16) -> bool
    requires rows { length ahead.now.rows.items ≡ length (P.program program.now) }
    requires cells { length ahead.now.cells.items ≡ length (P.program program.now) }
    requires agent { agent < length (P.program program.now) }
    requires within { count_in ahead.now.rows.items agent ≤ moves (P.program program.now) agent }
    ensures yes { IsTrue result → CanGoOn (P.program program.now) ahead.now.rows.items agent }
    ensures no { result ≡ false → (w : Option Await)
        × IsStopped (P.program program.now) ahead.now.rows.items agent w }
{
    if has_finished(program, ahead, agent) {
        return false;
    }
    let runner = runner_of(program, ahead, agent);
    match needs_of(program, &ahead.rows, agent, runner) {
        Ok(_) => true,
        Err(_) => false,
    }
}

/// The first agent that can go on, if any can.
fn free_agent<P: ProgramView>(program: &P, ahead: &Ahead) -> Option<u16>
    requires rows { length ahead.now.rows.items ≡ length (P.program program.now) }
    requires cells { length ahead.now.cells.items ≡ length (P.program program.now) }
    requires within { (i : ℕ) → count_in ahead.now.rows.items i ≤ moves (P.program program.now) i }
    ensures agent { IfSome result (λ i. i < length (P.program program.now)) }
    ensures goes_on { IfSome result (CanGoOn (P.program program.now) ahead.now.rows.items) }
    ensures still { IfNone result (NobodyGoesOn (P.program program.now) ahead.now.rows.items) }
{
    for agent in 0..program.agents() {
        if can_go_on(program, ahead, agent) {
            return Some(agent);
        }
    }
    None
}

/// Lets agents run on until nobody can. Mostly nobody can from the outset: it takes one look at each agent.
fn run_rest<P: ProgramView>(program: &P, grid: &Grid, ahead: &mut Ahead) -> Result<(), Stop>
    requires { IsAhead (is_passable grid.now) (P.program program.now) ahead.old }
    ensures still { OnOk result
        (AreStill (is_passable grid.now) (P.program program.now) ahead.new) }
    ensures stop { IfErr result (IsStop (is_passable grid.now) (P.program program.now)) }
{
    while let Some(agent) = free_agent(program, ahead) {
        run_agent(program, grid, ahead, agent)?;
    }
    Ok(())
}

// Who is looked at next while agents run ahead.

/// Agents that may go on, and agents that wait for others. It only says who is looked at next.
#[derive(Drop)]
struct Queue {
    agents: u16,
    /// Those that may go on, the next one last.
    work: Vec<u16>,
    /// For each agent who waits for it, and for what it waits.
    turns: Vec<Turn>,
}

/// Who waits for an agent, and for what it waits.
#[derive(Clone, Copy)]
struct Turn {
    /// The first of those that wait for it; `NOBODY` if there are none.
    first: u16,
    /// The one after it among those that wait for the same one.
    next: u16,
    /// The count that it waits for.
    count: u32,
    /// The least count that is waited for.
    least: u32,
}

/// No agent.
const NOBODY: u16 = u16::MAX;

/// Of an agent for which nobody waits.
const FREE: Turn = Turn {
    first: NOBODY,
    next: NOBODY,
    count: 0,
    least: u32::MAX,
};

impl Model for Queue {
    ghost Value = { ℕ };

    ghost view = { λ q. q.agents };

    ghost invariant = { λ q. length q.turns.items ≡ q.agents };
}

impl Queue {
    /// All of so many agents may go on, the first one next.
    fn new(alloc: Global, agents: u16) -> Result<Queue, OutOfMemory>
        ensures { IfOk result (λ q. q ≡ agents) }
    {
        let mut work = Vec::new(alloc);
        for agent in 0..agents {
            work.push(agents - 1 - agent)?;
        }
        let turns = vec![in alloc; FREE; usize::from(agents)]?;
        Ok(Queue {
            agents,
            work,
            turns,
        })
    }

    /// An agent that may go on.
    fn pop(&mut self) -> Option<u16>
        ensures agent { IfSome result (λ i. i < self.old) }
        ensures same { self.new ≡ self.old }
    {
        let agent = self.work.pop()?;
        if agent < self.agents {
            Some(agent)
        } else {
            None
        }
    }

    /// An agent waits until another one has finished so many actions.
    fn wait(&mut self, agent: u16, awaited: Await)
        requires agent { agent < self.old }
        requires other { awaited.agent < self.old }
        ensures { self.new ≡ self.old }
    {
        let other = &mut self.turns[usize::from(awaited.agent)];
        let next = other.first;
        other.first = agent;
        if awaited.count < other.least {
            other.least = awaited.count;
        }
        let own = &mut self.turns[usize::from(agent)];
        own.next = next;
        own.count = awaited.count;
    }

    /// An agent has finished so many actions: of those that wait for it, each that waits for no more may go on.
    fn wake(&mut self, agent: u16, count: u32) -> Result<(), OutOfMemory>
        requires { agent < self.old }
        ensures { self.new ≡ self.old }
    {
        let turn = &mut self.turns[usize::from(agent)];
        if count < turn.least {
            return Ok(());
        }
        let mut waiting = turn.first;
        turn.first = NOBODY;
        turn.least = u32::MAX;
        for _ in 0..self.agents {
            if waiting >= self.agents {
                return Ok(());
            }
            let next = self.turns[usize::from(waiting)].next;
            self.wake_if_reached(waiting, agent, count)?;
            waiting = next;
        }
        Ok(())
    }

    /// One that waited for an agent, which has finished so many actions, may go on, or waits for it again.
    fn wake_if_reached(&mut self, waiting: u16, agent: u16, count: u32) -> Result<(), OutOfMemory>
        requires waiting { waiting < self.old }
        requires agent { agent < self.old }
        ensures { self.new ≡ self.old }
    {
        let awaited = self.turns[usize::from(waiting)].count;
        if count < awaited {
            self.wait(
                waiting,
                Await {
                    agent,
                    count: awaited,
                },
            );
            return Ok(());
        }
        self.work.push(waiting)?;
        Ok(())
    }
}
