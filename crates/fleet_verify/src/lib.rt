//! Which programs are safe to run: the verifier, and the laws of the runs that it accepts.
//!
//! A program is accepted for a map and an instance if its agents begin and end where the instance says, stay on
//! passable cells, await only what can come, have no ring of needs, and enter each cell only when the visit before is
//! sure to have been left. Every run of it then is free of conflicts and arrives, whatever agents are held for however
//! long (Hönig et al. 2019).
//!
//! `verifier` passes over a right program once. `agents` judges the fleet and its starts; `ahead` lets each agent run
//! on as far as its awaits allow, and reads it instruction by instruction. `still` does so with all of them until
//! nobody can go on: whom it looks at next says its `Queue`, and at the end it looks at each once more. `ahead` keeps
//! the levels of the actions (`level_row`), of each cell the last visit (`last_visits`) and the open pairs, which
//! mostly the last await of an action spares, and says yes if all arrive on passable ground and chains order those
//! pairs. `chained` looks whether what the awaited actions await in turn orders all of them, and asks for chains where
//! it does not: `level_row` lists the actions that await something by their levels, and chains are found in that
//! order. If all is not right, `unheld_run` runs the program with nobody held, looks whether each place that
//! it comes to is passable, and adds each visit as it begins to the `VisitOrder` of `order`, which keeps the last one
//! of each cell and the *open pairs*: a visit and the next of its cell, by another agent, which does not await that the
//! first is left. A run that finishes has met each await, and `agents` looks whether all stand on their goals. Only if
//! that run goes wrong are the paths judged one by one, in the order of the faults (`agents`); if they are right the
//! run is stuck, and `unheld_run` finds a ring of needs. If pairs are open `order` asks for chains, unless the run
//! ahead has asked for all of them, whose answers `chained` has kept, and if some pair has none `order` finds which is
//! reported. `runs`, `orders`, `schedules`, `exactness`, `promises`, `counting`, `ahead_laws`, `reduced` and `rest` are
//! laws: their functions do nothing. What `verify` promises stands in the spec `Promises`. `reach` keeps, of an
//! accepted program, where chains begin (`Reach`): the pieces of `fleet_needs`. `times` has when its actions end at the
//! soonest (`Times`), by the critical costs of `fleet_needs`, or by the levels if each costs one and the verifier has
//! kept them (`Levels`), and a chain that takes so long, in stretches of one agent's actions, which `stretch` also
//! writes; `stopped` how far each agent comes if some actions are never ended: each of these costs one and all others
//! nothing, so that what costs nothing needs none of them. `fault` has the refusals. `covers` compares two rows of
//! counts, for callers alone.
//!
//! `needed` finds for two visits how many actions of each agent they need, and `breaking` runs the machine, tick by
//! tick, and says whom each tick holds: those whose next action is not needed.
//!
//! `let _agents = program.agents();` stands where what that call ensures is needed: the program is well-formed.
#![tactic(auto)]

mod agents;
mod ahead;
mod ahead_laws;
mod breaking;
mod chained;
mod counting;
mod covers;
mod exactness;
mod fault;
mod last_visits;
mod level_row;
mod needed;
mod order;
mod orders;
mod promises;
mod reach;
mod reduced;
mod rest;
mod runs;
mod schedules;
mod still;
mod stopped;
mod stretch;
mod times;
mod unheld_run;
mod verifier;

pub use ahead_laws::{begun_visits_are_orderly, counted_levels_are_levels};
pub use breaking::breaking_holds;
pub use counting::rows_are_joined;
pub use covers::row_covers;
pub use exactness::{
    acceptance_is_exact, breaking_holds_are_one_list, breaking_holds_by_rows,
    breaking_holds_end_in_a_conflict, listed_visits_are_chained, unordered_visits_are_found,
    unordered_visits_meet,
};
pub use fault::VerifyFault;
pub use fleet_needs::{ActionCosts, MAX_COST, OneEach, join_rows};
pub use orders::{
    awaits_are_chains, orderly_listings_rise, rings_are_never_finished, sorted_listings_decide,
};
pub use promises::{promises_are_kept, refusals_are_right};
pub use reach::Reach;
pub use reduced::{
    same_chains_run_equally, thinned_programs_run_equally, thinning_is_least, thinning_keeps_chains,
};
pub use rest::{rests_are_accepted, rests_are_well_formed, rests_begin_whole, rests_run_on};
pub use runs::{
    levels_rise, orders_are_given_once, ready_moves_are_apart, reports_make_a_run, runs_are_safe,
    runs_arrive, runs_end, ticks_are_safe, visits_come_in_turn,
};
pub use schedules::{
    acceptance_is_exact_for_tasks, actions_are_finished_in_time, orders_may_be_given_ahead,
    runs_are_schedules, runs_follow_critical_paths, schedules_are_never_stuck, schedules_are_safe,
    schedules_end_in_time, schedules_need_acceptance,
};
pub use stopped::{reached_counts, stopped_agents};
pub use stretch::{Stretch, put_stretches};
pub use times::Times;
pub use verifier::{Accepted, Refused, verify};
