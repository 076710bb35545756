//! Programs of a fleet of agents on a grid, and what they mean.
//!
//! `program` has the types of a program, with its invariant, the trait by which every other crate reads one
//! (`ProgramView`), action by action, or from front to back by its `instruction`s, and the numbers of agents,
//! `geometry` cells, places and steps, also as a row keeps these, `task` and `standing` what an agent is to do and
//! where it stands, `deps` the two kinds of awaits of a compiled program, `limits` the limits and `well_formed`, which
//! tests them, `memory` the one refusal of calls that fail by lack of memory alone. All that a run, a conflict or
//! acceptance *is* stands in `specs/`, and no code there runs.
#![tactic(auto)]

mod deps;
mod geometry;
mod limits;
mod memory;
mod program;
mod standing;
mod task;

pub use deps::Deps;
pub use geometry::{Cell, Dir, MAX_OFFSET, Place, Step};
pub use limits::{
    MAX_AGENTS, MAX_AWAIT, MAX_AWAIT_V1, MAX_COORDINATE, MAX_HORIZON, MAX_MOVES, MAX_MOVES_IN_ALL,
    MAX_MOVES_V1, MAX_TRIES, well_formed,
};
pub use memory::OutOfMemory;
pub use program::{
    Action, ActionId, Actions, AgentProgram, Await, Awaits, Instruction, Program, ProgramView,
    Reading, Visit, agent_awaits, agent_numbers, total_awaits, total_moves,
};
pub use standing::Standing;
pub use task::Task;
