//! Programs made from plans.
//!
//! `sweep` goes once over the steps of a plan. It lists the moves of a step, goes over them first as leavings of cells
//! and then as enterings, and adds to each agent's actions, which are bytes from the first on. `Leavings` say who left
//! each cell so far: the last leaving alone for `Deps::Last`, a row for each cell, in order of agent, for `Deps::All`.
//! `compiler` joins these bytes, with the stays of `compile_dwell`, into `ProgramBytes`, and reads a program from such.
//! `thinner` writes the bytes of an accepted program without the awaits that `fleet_needs` finds implied. `remaining`
//! makes the rest of a program from where its agents stand in a run. `laws` are the laws of compiled programs, `apart` those
//! of plans in which no agent follows another.
#![tactic(auto)]

mod apart;
mod compiler;
mod fault;
mod laws;
mod remaining;
mod sweep;
mod thin_fault;
mod thinner;

pub use apart::{plans_that_are_apart_run_as_written, runs_are_plans, trains_delay_runs};
pub use compiler::{ProgramBytes, compile, compile_bytes, compile_dwell};
pub use fault::CompileFault;
pub use fleet_model::Deps;
pub use laws::{
    awaits_are_as_defined, compiled_plans_are_accepted, compiled_plans_are_well_formed,
    compiled_plans_run_equally,
};
pub use remaining::{accepted_tasks_are_an_instance, rest, tasks_of};
pub use thin_fault::ThinFault;
pub use thinner::{thin, thin_bytes};
