//! Plans of a fleet: for each agent a path, without conflict. They are read from texts and written.
//!
//! `reading` reads plan text line by line, each line by `cells` in one pass, and `writing` writes it; `plan` has paths,
//! plans, the test of each step by itself, and the numbers of a plan: its sum of costs, its moves and its waits.
//! `checking` judges a plan in the order of its faults: it looks at starts and goals, and then at the steps, and
//! `sweep` goes over the times, with each agent entered in a table of cells, so that whom it meets, swaps with or
//! follows is one look-up. Only if cells are entered in the step in which they are left does it follow the agents round
//! their rings. A `Checked` is a plan that was found free of conflict, which nothing else makes; `is_apart` says of one
//! whether an agent follows another. `fault_laws` and `text_laws` are laws.
#![tactic(auto)]

mod cells;
mod checking;
mod fault_laws;
mod plan;
mod plan_fault;
mod reading;
mod sweep;
mod text_fault;
mod text_laws;
mod writing;

pub use checking::{Checked, check, is_apart};
pub use fault_laws::a_plan_is_free_or_has_a_first_fault;
pub use plan::{Path, Plan};
pub use plan_fault::{Conflict, PlanFault, PlanRefusal};
pub use reading::read_plan;
pub use text_fault::TextFault;
pub use text_laws::{
    a_plan_text_is_one_plan, a_text_is_a_plan_or_has_a_first_fault, a_written_plan_is_read,
};
pub use writing::write_plan;
