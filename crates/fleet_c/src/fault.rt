//! Why a call answers nothing.

use fleet_adg::CompileFault;
use fleet_code::LoadFault;
use fleet_grid::MapFault;
use fleet_plan::{PlanFault, TextFault};
use fleet_run::RunFault;
use fleet_scen::ScenFault;
use fleet_search::PlanStop;
use fleet_verify::VerifyFault;
use thiserror::Error;

/// The refusal of the first step that refuses.
#[derive(Debug, Drop, Error)]
pub enum CallFault {
    #[error("out of memory")]
    OutOfMemory,
    /// The map's text is no map.
    #[error("the map: {0}")]
    Map(MapFault),
    /// The scenario's text is no scenario on the map.
    #[error("the scenario: {0}")]
    Scen(ScenFault),
    /// The plan's text is no plan.
    #[error("the plan's text: {0}")]
    Text(TextFault),
    /// The plan is not right for the map and the scenario, or not free of conflict.
    #[error("the plan: {0}")]
    Check(PlanFault),
    /// An agent is left without a path.
    #[error("the planner: {0}")]
    Search(PlanStop),
    /// The agents of the plan have too many actions.
    #[error("the compiler: {0}")]
    Compile(CompileFault),
    /// The bytes spell no program.
    #[error("the bytes: {0}")]
    Load(LoadFault),
    /// The program is not safe to run for the map and the scenario.
    #[error("the program: {0}")]
    Verify(VerifyFault),
    /// The rehearsal stopped before its end.
    #[error("the rehearsal: {0}")]
    Run(RunFault),
}
