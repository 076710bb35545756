//! What is left of programs whose agents are on their way.

ghost use Rattle.std.specs.Prelude.{◌≡◌, ◌<◌, IfOk, OnOk, [], Some, None, true, false, List, All, length, drop, map};
ghost use Rattle.fleet_model.specs.declared.program.Await.{Await};
ghost use Rattle.fleet_model.specs.declared.task.Task.{Task};
ghost use Rattle.fleet_model.specs.Program.{Program, IsWellFormed, actions_of, awaits_of};
ghost use Rattle.fleet_model.specs.Machine.{IsReached, count_at, is_met};
ghost use Rattle.fleet_model.specs.Chain.{IsAction};
ghost use Rattle.fleet_model.specs.Accepted.{IsAccepted};
ghost use Rattle.fleet_grid.specs.Ground.{Ground, is_passable};
ghost use Rattle.fleet_scen.specs.Instance.{IsInstance};
ghost use Rattle.fleet_scen.specs.ScenText.{HasPassableEnds};
ghost use Rattle.fleet_verify.specs.Rest.{StandOn, RunsOn, cell_at, natural, rest, rest_action, rest_agent, rest_await, rest_awaits, rest_tasks};
ghost use Rattle.fleet_adg.specs.Remaining.{IsOnWay, IsCellNumber, tasks_of};

use fleet_model::{
    Action, ActionId, Actions, AgentProgram, Await, Awaits, Cell, OutOfMemory, Place, Program,
    ProgramView, Standing, Task,
};
use fleet_verify::{
    Accepted, rests_are_accepted, rests_are_well_formed, rests_run_on, runs_are_safe, runs_arrive,
};
use std::alloc::Global;

/// The rest of an accepted program, some of whose actions are finished: for each agent, from the cell on which it
/// stands, the actions that it has not finished. They await what is not met yet, counted from what is finished.
///
/// It is accepted for the tasks that are left, from these cells to the same goals, and runs on as the program would.
/// The standings are those of a run, one for each agent. It goes once over the actions that are left, and fails only if
/// memory is refused.
pub fn rest<P: ProgramView>(
    alloc: Global,
    accepted: &Accepted<'_, P>,
    standings: &[Standing],
) -> Result<Program, OutOfMemory>
    requires { IsReached (P.program accepted.now.program) standings.now }
    ensures rest { IfOk result (λ q. q ≡ rest (cell_at standings.now)
        (P.program accepted.now.program) standings.now) }
    ensures stand { IfOk result (λ _. StandOn (P.program accepted.now.program) standings.now
        (cell_at standings.now)) }
    ensures accepted { IfOk result (IsAccepted (is_passable accepted.now.grid)
        (rest_tasks (cell_at standings.now) (P.program accepted.now.program))) }
    ensures runs_on { IfOk result (RunsOn (P.program accepted.now.program) standings.now) }
{
    rests_are_accepted();
    rests_are_well_formed();
    rests_run_on();
    let program = accepted.program();
    // The contracts of these calls say that the program is well formed, and the sizes of the map.
    let _ = program.agents();
    let _ = accepted.grid().width();
    let agents = rest_agents(alloc, program, standings)?;
    Ok(Program::new(agents))
}

/// The number of a column or a row of a cell.
fn cell_number(number: i32) -> u16
    requires { IsCellNumber number }
    ensures { result ≡ natural number }
{
    number as u16
}

/// The cell at a place that is one.
fn cell_of(place: Place) -> Cell
    requires column { IsCellNumber place.x }
    requires row { IsCellNumber place.y }
    ensures { result ≡ record { x = natural place.x; y = natural place.y } }
{
    Cell {
        x: cell_number(place.x),
        y: cell_number(place.y),
    }
}

/// What is left of each agent's program.
fn rest_agents<P: ProgramView>(
    alloc: Global,
    program: &P,
    standings: &[Standing],
) -> Result<Vec<AgentProgram>, OutOfMemory>
    requires { IsOnWay (P.program program.now) standings.now }
    ensures { IfOk result (λ v. v.items ≡ rest (cell_at standings.now)
        (P.program program.now) standings.now) }
{
    let count = program.agents();
    let mut agents = Vec::with_capacity(alloc, usize::from(count))?;
    for i in 0..count {
        agents.push(rest_agent(alloc, program, standings, i)?)?;
    }
    Ok(agents)
}

/// What is left of the program of agent `i`.
fn rest_agent<P: ProgramView>(
    alloc: Global,
    program: &P,
    standings: &[Standing],
    i: u16,
) -> Result<AgentProgram, OutOfMemory>
    requires on_way { IsOnWay (P.program program.now) standings.now }
    requires agent { i < length (P.program program.now) }
    ensures { IfOk result (λ a. a ≡ rest_agent (cell_at standings.now)
        (P.program program.now) standings.now i) }
{
    let actions = rest_actions(alloc, program, standings, i)?;
    let start = cell_of(standings[usize::from(i)].place);
    Ok(AgentProgram::new(start, program.goal(i), actions))
}

/// The actions that agent `i` has not finished.
fn rest_actions<P: ProgramView>(
    alloc: Global,
    program: &P,
    standings: &[Standing],
    i: u16,
) -> Result<Actions, OutOfMemory>
    requires on_way { IsOnWay (P.program program.now) standings.now }
    requires agent { i < length (P.program program.now) }
    ensures { IfOk result (λ actions. actions ≡ map (rest_action standings.now)
        (drop (count_at standings.now i) (actions_of (P.program program.now) i))) }
{
    let mut actions = Actions::new(alloc);
    put_rest(alloc, program, standings, i, &mut actions)?;
    Ok(actions)
}

/// Puts the actions that agent `i` has not finished on an empty list.
fn put_rest<P: ProgramView>(
    alloc: Global,
    program: &P,
    standings: &[Standing],
    i: u16,
    actions: &mut Actions,
) -> Result<(), OutOfMemory>
    requires on_way { IsOnWay (P.program program.now) standings.now }
    requires agent { i < length (P.program program.now) }
    requires none { actions.old ≡ [] }
    ensures { OnOk result (actions.new ≡ map (rest_action standings.now)
        (drop (count_at standings.now i) (actions_of (P.program program.now) i))) }
{
    let done = standings[usize::from(i)].count;
    let count = program.moves(i);
    actions.reserve_exact((count - done) as usize, 0)?;
    for finished in done..count {
        let action = ActionId {
            agent: i,
            number: finished + 1,
        };
        let awaits = rest_awaits(alloc, program, standings, action)?;
        let step = program.step(i, finished + 1);
        actions.push(Action { step, awaits })?;
    }
    Ok(())
}

/// The awaits of the action that are not met yet.
fn rest_awaits<P: ProgramView>(
    alloc: Global,
    program: &P,
    standings: &[Standing],
    action: ActionId,
) -> Result<Awaits, OutOfMemory>
    requires on_way { IsOnWay (P.program program.now) standings.now }
    requires action { IsAction (P.program program.now) action }
    ensures { IfOk result (λ awaits. awaits ≡ rest_awaits standings.now
        (awaits_of (P.program program.now) action.agent action.number)) }
{
    // The view's answer shows that the program is well formed.
    let _ = program.agents();
    let mut awaits = Awaits::new(alloc);
    for k in 0..program.await_count(action.agent, action.number) {
        let awaited = program.await_at(action.agent, action.number, k);
        if let Some(one) = unmet(standings, awaited) {
            awaits.push(one)?;
        }
    }
    Ok(awaits)
}

/// The await, counted from what the awaited agent has finished, unless it is met.
fn unmet(standings: &[Standing], awaited: Await) -> Option<Await>
    requires { awaited.agent < length standings.now }
    ensures some { (w : Await) → result ≡ Some w
        → (w ≡ rest_await standings.now awaited) × (is_met standings.now awaited ≡ false) }
    ensures none { result ≡ None → is_met standings.now awaited ≡ true }
{
    let done = standings[usize::from(awaited.agent)].count;
    if awaited.count <= done {
        return None;
    }
    Some(Await {
        agent: awaited.agent,
        count: awaited.count - done,
    })
}

/// The tasks of a program: each agent's, from its start to its goal. Of an accepted program they are those that it was
/// accepted for. It fails only if memory is refused.
pub fn tasks_of<P: ProgramView>(alloc: Global, program: &P) -> Result<Vec<Task>, OutOfMemory>
    ensures { IfOk result (λ v. v.items ≡ tasks_of (P.program program.now)) }
{
    let agents = program.agents();
    let mut tasks = Vec::with_capacity(alloc, usize::from(agents))?;
    for i in 0..agents {
        let (start, goal) = (program.start(i), program.goal(i));
        tasks.push(Task { start, goal })?;
    }
    Ok(tasks)
}

/// The tasks that a program is accepted for are its own, and an instance whose starts and goals are passable. This does
/// nothing: its contract is the law.
pub fn accepted_tasks_are_an_instance()
    ensures tasks { (g : Ground) (tasks : List Task) (p : Program)
        → IsAccepted (is_passable g) tasks p → tasks ≡ tasks_of p }
    ensures ends { (g : Ground) (tasks : List Task) (p : Program)
        → IsAccepted (is_passable g) tasks p → All (HasPassableEnds g) tasks }
    ensures instance { (g : Ground) (tasks : List Task) (p : Program) → IsWellFormed p
        → IsAccepted (is_passable g) tasks p → IsInstance tasks }
{
    runs_are_safe();
    runs_arrive();
}
