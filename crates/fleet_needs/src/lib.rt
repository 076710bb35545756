//! Needs: which actions of a program begin a chain of needs that ends with another action, by rows of counts; which
//! awaits others imply; and what the dearest of these chains cost.
//!
//! - `await_places`: where awaits and rows are found in lists that go agent by agent, action by action.
//! - `cost_walk`: agents that go on as far as their awaits allow, without ticks; `critical` hands out their costs.
//! - `level_order`: the actions that add a chain, with their levels. An action that awaits nothing adds none, nor does
//!   one with one await that is known to be implied. Any levels will do: another `OrderSource` may know others.
//! - `schedule`: the rows, made once for all blocks of columns. What is listed, sorted by level, are the joins: each
//!   has a row of its own, and the row of any other action is that of its agent's action before. Row 0 is of no action,
//!   and stands for those before their agent's first row, to which no chain leads from another agent. A row is joined
//!   of those that stand for the action before and for the awaited actions: these are of lower levels, so they are made
//!   before. Which rows stand for actions is looked up once (`Standing`): blocks read what joins take in its order.
//! - `join_pass`: the rows, made in that order in the columns of one block, in two steps: first of the rows of all that
//!   its action needs, and then, for each await, with the awaited action's own number. A row in its slot has 0 in the
//!   column of its own agent, so after the first step the count of each awaited agent is that of all needs but this
//!   await. `counts` has the counts of all rows that are kept and of the one that is made, and joins rows.
//! - `questions`, `gather`, `implied`: what the rows of a block answer, each in a loop of its own over them. `settled`
//!   settles awaits by a few steps back, so that `implied` asks rows for fewer agents.
//!
//! `let _ = program.agents();` stands where what that call ensures is needed: the program is well-formed.
#![tactic(auto)]

mod await_places;
mod cost_walk;
mod counts;
mod critical;
mod gather;
mod implied;
mod join_pass;
mod level_order;
mod questions;
mod schedule;
mod settled;

pub use counts::join_rows;
pub use critical::{ActionCosts, CriticalCosts, LevelsTo, MAX_COST, OneEach};
pub use gather::Pieces;
pub use implied::{ImpliedAwaits, implied_awaits};
pub use level_order::{LevelOrder, OrderSource};
pub use questions::{Question, answer_questions};
