//! Plans of texts, which are judged for a map and an instance of texts.

ghost use Rattle.std.specs.Prelude.{◌≡◌, IfOk, IfErr};
ghost use Rattle.fleet_c.specs.Check.{ChecksTexts, IsCheckStop, IsFreePlan, IsPlanStop};

use crate::fault::CallFault;
use crate::problem::{Problem, read_problem};
use fleet_plan::{Checked, check, read_plan};
use std::alloc::Global;

/// The numbers of a plan that is free of conflict: its agents, and its steps, by which all stand on their goals.
#[repr(C)]
#[derive(Clone, Copy)]
pub struct FleetChecked {
    pub agents: u32,
    pub steps: u32,
}

/// The plan for which the text stands, which is free of conflict for the map and the instance.
pub fn checked_plan<'g>(
    alloc: Global,
    problem: &'g Problem,
    plan: &[u8],
) -> Result<Checked<'g>, CallFault>
    ensures free { IfOk result (λ c. IsFreePlan problem.now.grid problem.now.instance plan.now c.plan) }
    ensures grid { IfOk result (λ c. c.grid ≡ problem.now.grid) }
    ensures instance { IfOk result (λ c. c.instance ≡ problem.now.instance) }
    ensures stop { IfErr result (IsPlanStop problem.now.grid problem.now.instance plan.now) }
{
    let read = match read_plan(alloc, plan) {
        Ok(read) => read,
        Err(fault) => return Err(CallFault::Text(fault)),
    };
    match check(alloc, read, &problem.grid, &problem.instance) {
        Ok(checked) => Ok(checked),
        Err(refusal) => Err(CallFault::Check(refusal.fault)),
    }
}

/// The numbers of the plan for which the texts stand, if it is free of conflict for its map and its instance.
pub fn check_texts(
    alloc: Global,
    map: &[u8],
    scen: &[u8],
    agents: u16,
    plan: &[u8],
) -> Result<FleetChecked, CallFault>
    ensures checked { IfOk result (ChecksTexts map.now scen.now agents plan.now) }
    ensures stop { IfErr result (IsCheckStop map.now scen.now agents plan.now) }
{
    let problem = read_problem(alloc, map, scen, agents)?;
    let checked = checked_plan(alloc, &problem, plan)?;
    let paths = checked.plan();
    Ok(FleetChecked {
        agents: u32::from(paths.agents()),
        steps: paths.steps(),
    })
}
