//! Plans that are made for a map and an instance of texts.

ghost use Rattle.std.specs.Prelude.{IfOk, IfErr};
ghost use Rattle.fleet_c.specs.Plan.{PlansTexts, IsPlannerStop};

use crate::fault::CallFault;
use crate::problem::read_problem;
use fleet_plan::write_plan;
use fleet_search::plan_in_orders;
use std::alloc::Global;

/// The text of a plan in which each path is the earliest against those before it, in one of the first `tries` orders of
/// the agents, and arrives by the horizon, a time in steps.
pub fn plan_texts(
    alloc: Global,
    map: &[u8],
    scen: &[u8],
    agents: u16,
    horizon: u16,
    tries: u32,
) -> Result<Vec<u8>, CallFault>
    ensures planned { IfOk result (λ text. PlansTexts map.now scen.now agents horizon tries
        text.items) }
    ensures stop { IfErr result (IsPlannerStop map.now scen.now agents horizon tries) }
{
    let problem = read_problem(alloc, map, scen, agents)?;
    let checked = match plan_in_orders(alloc, &problem.grid, &problem.instance, horizon, tries) {
        Ok(checked) => checked,
        Err(stop) => return Err(CallFault::Search(stop)),
    };
    match write_plan(alloc, checked.plan()) {
        Ok(text) => Ok(text),
        Err(_) => Err(CallFault::OutOfMemory),
    }
}
