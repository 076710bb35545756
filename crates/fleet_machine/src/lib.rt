//! The state of a run: the agents of a program on their way, and one tick of all of them.
//!
//! `Machine` is the agents on their way, with rows that are made once. The program is handed to each method, and no
//! tick takes memory. `fleet_verify` runs one without holds, or under those that break a program, and `fleet_run` under
//! those of a source; `fleet_dispatch` uses the sets and the lists alone. A tick goes by sets of agents (`AgentSet`: a
//! bit for each agent) and by lists (`WaitLists`, linked by the agents' numbers, eight for each agent), both of
//! `agent_set`: who is ready is a set, and who is not and has an action left stands in a list of an agent whose count
//! it lacks; which of the eight the count says. With each list is kept the least count for which an agent in it waits,
//! or a lesser one. A tick moves those that are ready and not held, takes all agents off the lists of the counts to
//! which those came that it moved, if a list's least count is reached, and then judges anew, once each, those that it
//! moved and those that it took off: who is ready stays in no list, and who lacks a count goes into the list of that
//! count. Who is ready and held is ready after the tick too, since no count falls. Each agent has a mark (`steps`): how
//! many awaits stand before its next action, and how many of that action's are known to be met. It is judged by reading
//! on from there, and who is ready has read up to its step. So an agent that is woken moves in the next tick at the
//! earliest, and nobody is judged twice in one. `tick` has the holds of a tick as flags, and looks at all that are
//! ready; `carry_out` has the flags of those that move, and looks at these alone. Flags are looked at by stretches of
//! 64, of which those without a set flag are passed over. A set has its words in itself, so that one can be made
//! anywhere; a `Cursor` goes on through its members, and keeps those of one word as bits.
#![tactic(auto)]

mod agent_set;
mod machine;
mod steps;

pub use agent_set::{AgentSet, Cursor, WaitLists};
pub use machine::{Machine, Tick};
