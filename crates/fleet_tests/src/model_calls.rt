//! Programs that are made by hand, and what a view says of a program.

ghost use Rattle.std.specs.Prelude.{◌<◌, ◌≤◌, ◌+◌, length};
ghost use Rattle.fleet_model.specs.Program.{moves, awaits_of};

use crate::due::{due_bytes, due_numbers};
use crate::fleets::{PAIR_BYTES, STAYING_BYTES};
use fleet_code::{encode, load, view};
use fleet_model::{
    Action, Actions, AgentProgram, Await, Awaits, Cell, Dir, Instruction, OutOfMemory, Program,
    ProgramView, Reading, Step, total_awaits, total_moves, well_formed,
};
use std::alloc::{AllocError, Global};
use std::process::Abort;
use std::test::Fail;

/// A step to the east, after so many actions of agent 0, if there are any.
fn east_after(alloc: Global, count: u32) -> Result<Action, OutOfMemory> {
    let mut awaits = Awaits::new(alloc);
    if count > 0 {
        awaits.push(Await { agent: 0, count })?;
    }
    Ok(Action {
        step: Step::Go(Dir::East),
        awaits,
    })
}

/// An agent that goes two steps east from a column to another, after so many actions of agent 0.
fn agent(alloc: Global, from: u16, to: u16, counts: [u32; 2]) -> Result<AgentProgram, OutOfMemory> {
    let mut actions = Actions::new(alloc);
    for count in counts {
        actions.push(east_after(alloc, count)?)?;
    }
    Ok(AgentProgram {
        start: Cell { x: from, y: 0 },
        goal: Cell { x: to, y: 0 },
        actions,
    })
}

/// The program of agent 0, which awaits nobody if the count is 0, and of agent 1; none if the two are no program.
fn pair_by_hand(alloc: Global, count: u32) -> Result<Option<Program>, Fail> {
    let one = agent(alloc, 1, 3, [count, 0])?;
    let other = agent(alloc, 0, 2, [1, 2])?;
    let agents = vec![in alloc; one, other]?;
    if well_formed(&agents) {
        Ok(Some(Program::new(agents)))
    } else {
        Ok(None)
    }
}

#[test]
fn programs_are_made_by_hand(rt: HostRuntime) -> Result<(), Fail> {
    let alloc = rt.alloc();
    let program = pair_by_hand(alloc, 0)?.ok_or("refused")?;
    due_bytes(&rt, &encode(alloc, &program)?, PAIR_BYTES);
    // An agent awaits no action of its own, and a program has agents.
    assert!(rt; pair_by_hand(alloc, 1)?.is_none() && !well_formed(&[]));
    Ok(())
}

/// The number of a step: that of its opcode.
fn number_of(step: Step) -> u32 {
    match step {
        Step::Go(Dir::North) => 0,
        Step::Go(Dir::East) => 1,
        Step::Go(Dir::South) => 2,
        Step::Go(Dir::West) => 3,
        Step::Dwell => 4,
    }
}

/// Adds the numbers of an instruction: of an await its agent and its count, of a step its own.
fn tell_instruction(one: Instruction, told: &mut Vec<u32>) -> Result<(), AllocError> {
    match one {
        Instruction::Await(awaited) => {
            told.push(u32::from(awaited.agent))?;
            told.push(awaited.count)?;
        }
        Instruction::Step(step) => told.push(number_of(step))?,
    }
    Ok(())
}

/// Adds an instruction twice, as it is asked for and as it is read where it stands, and then whether the one after it,
/// which has these numbers, stands where the reading says.
fn tell_reading<P: ProgramView>(
    program: &P,
    i: u16,
    finished: u32,
    k: u16,
    told: &mut Vec<u32>,
) -> Result<(), AllocError>
    requires agent { i < length (P.program program.now) }
    requires left { finished < moves (P.program program.now) i }
    requires place { k ≤ length (awaits_of (P.program program.now) i (finished + 1)) }
{
    // The view's answer shows that the program is within the limits.
    let _ = program.agents();
    let before = program.awaits_before(i, finished);
    tell_instruction(program.instruction(i, finished, before, k), told)?;
    let reading: Reading = program.read(i, finished, k, program.offset(i, finished, k));
    tell_instruction(reading.instruction, told)?;
    let next = if k < program.await_count(i, finished + 1) {
        program.offset(i, finished, k + 1)
    } else {
        program.offset(i, finished + 1, 0)
    };
    told.push(u32::from(reading.after == next))?;
    Ok(())
}

/// Adds what the view says of the actions of agent `i`: of each how many awaits it has, these and its step, as they are
/// asked for and as they are read; and last how many awaits the agent has.
fn tell_actions<P: ProgramView>(program: &P, i: u16, told: &mut Vec<u32>) -> Result<(), AllocError>
    requires { i < length (P.program program.now) }
{
    for finished in 0..program.moves(i) {
        let awaits = program.await_count(i, finished + 1);
        told.push(u32::from(awaits))?;
        for k in 0..awaits {
            let one = program.await_at(i, finished + 1, k);
            tell_instruction(Instruction::Await(one), told)?;
            tell_reading(program, i, finished, k, told)?;
        }
        told.push(number_of(program.step(i, finished + 1)))?;
        tell_reading(program, i, finished, awaits, told)?;
    }
    told.push(program.awaits_before(i, program.moves(i)))?;
    Ok(())
}

/// What a view says of its program: of each agent its start, its goal and how many actions it has, and these.
pub fn told_by<P: ProgramView>(alloc: Global, program: &P) -> Result<Vec<u32>, AllocError> {
    let mut told = Vec::new(alloc);
    for i in 0..program.agents() {
        for cell in [program.start(i), program.goal(i)] {
            told.push(u32::from(cell.x))?;
            told.push(u32::from(cell.y))?;
        }
        told.push(program.moves(i))?;
        tell_actions(program, i, &mut told)?;
    }
    Ok(told)
}

/// What a view says of the pair, and of the pair that stays.
const PAIR_TOLD: &[u32] = &[
    1, 0, 3, 0, 2, 0, 1, 1, 1, 1, 0, 1, 1, 1, 1, 0, 0, 0, 2, 0, 2, 1, 0, 1, 0, 1, 0, 1, 1, 1, 1, 1,
    1, 1, 0, 2, 0, 2, 0, 2, 1, 1, 1, 1, 1, 2,
];

const STAYING_TOLD: &[u32] = &[
    1, 0, 3, 0, 4, 0, 1, 1, 1, 1, 0, 1, 1, 1, 1, 0, 4, 4, 4, 1, 0, 4, 4, 4, 1, 0, 0, 0, 2, 0, 4, 1,
    0, 1, 0, 1, 0, 1, 1, 1, 1, 1, 1, 1, 0, 2, 0, 2, 0, 2, 1, 1, 1, 1, 1, 0, 4, 4, 4, 1, 0, 4, 4, 4,
    1, 2,
];

/// This is due of a view, and of it so many moves together, and two awaits.
fn due_told<P: ProgramView>(
    rt: &impl Abort,
    alloc: Global,
    program: &P,
    due: &[u32],
    moves: u32,
) -> Result<(), Fail> {
    due_numbers(rt, &told_by(alloc, program)?, due);
    assert!(*rt; total_moves(program) == moves && total_awaits(program) == 2);
    Ok(())
}

#[test]
fn views_tell_of_programs(rt: HostRuntime) -> Result<(), Fail> {
    let alloc = rt.alloc();
    due_told(&rt, alloc, &load(alloc, PAIR_BYTES)?, PAIR_TOLD, 4)?;
    due_told(&rt, alloc, &view(alloc, PAIR_BYTES)?, PAIR_TOLD, 4)?;
    due_told(&rt, alloc, &load(alloc, STAYING_BYTES)?, STAYING_TOLD, 8)?;
    due_told(&rt, alloc, &view(alloc, STAYING_BYTES)?, STAYING_TOLD, 8)
}
