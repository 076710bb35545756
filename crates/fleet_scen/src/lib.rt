//! Scenarios: where the agents of a fleet begin, and where they are to end.
//!
//! A scenario is read from the `.scen` format of the MovingAI benchmark (Sturtevant 2012).
//!
//! `reading` goes over the lines of a text once, in the order in which faults are judged, and over the nine words of an
//! agent's line, and has what was read (`Instance`); `laws` says that a text stands for one instance or has one first
//! fault, and `writing` writes tasks.
#![tactic(auto)]

mod fault;
mod laws;
mod reading;
mod writing;

pub use fault::ScenFault;
pub use laws::{
    a_scenario_text_is_one_instance, a_text_is_a_scenario_or_has_a_first_fault,
    a_written_scenario_is_read,
};
pub use reading::{Instance, read_scen};
pub use writing::write_scen;
