//! Paths for one agent after another, each the earliest past those before it.
//!
//! The planner is prioritised (Silver 2005): each agent searches over cells and times, past the reserved paths.
//!
//! `reservations` are the reserved paths, without maps and tasks, with their table: for each cell the occupancies of
//! the agents in the order of time, in lists by the cell's key. `intervals` has occupancies, finds the safe intervals
//! between them, and has labels: the earliest time of a search in each safe interval, that of a cell's first one in a
//! table, those of the later ones in lists.
//!
//! `distances` are the heuristic: they label cells backward from a goal, as far as the delay of the last search lets
//! expect that they are asked for. `frontier` expands nodes over states (a cell at a time; with each node the one from
//! which it was reached, in 4 bytes that align it to 2), from an open list in buckets, and `earliest_path` is one
//! search from its query to its path, which reads the reservation table and changes nothing in it. `orders` goes from
//! one agent to the next, in one order of the agents or in one after another with the same tables, keeps the paths that
//! are still the earliest, and puts the paths by the agents' numbers at the end. `best` tries all orders, and keeps the
//! first of the plans with the least `Measure`: a trait, so that a crate above can compare plans by what it makes of
//! them. `alone` searches for each agent alone, for the bound of the costs.
#![tactic(auto)]

mod alone;
mod best;
mod distances;
mod earliest_path;
mod fault;
mod frontier;
mod intervals;
mod laws;
mod orders;
mod reservations;

pub use alone::bound;
pub use best::{Measure, Measured, SumOfCosts, best_in_orders};
pub use earliest_path::earliest;
pub use fault::{PlanStop, SearchFault};
pub use laws::{
    fits_by_steps, one_try_takes_the_first_order, paths_that_fit_are_conflict_free,
    prioritised_plans_are_conflict_free,
};
pub use orders::{Found, first_in_orders, plan, plan_in_orders};
pub use reservations::Reservations;
