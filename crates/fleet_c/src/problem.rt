//! What the texts of a map, of a scenario and of a plan stand for.

ghost use Rattle.std.specs.Prelude.{◌≡◌, IfOk, IfErr};
ghost use Rattle.fleet_c.specs.Texts.{asked_of, AreTextsOf, IsTextsStop};

use crate::fault::CallFault;
use fleet_grid::{Grid, read_map};
use fleet_scen::{Instance, read_scen};
use std::alloc::Global;

/// A map, and an instance on it.
#[derive(Drop)]
pub struct Problem {
    pub grid: Grid,
    pub instance: Instance,
}

/// How many agents of a scenario are asked for: the first so many, or all where the number is 0.
fn asked(agents: u16) -> Option<u16>
    ensures { result ≡ asked_of agents }
{
    if agents == 0 { None } else { Some(agents) }
}

/// The map and the instance for which the texts stand: of the scenario's agents the first `agents`, or all where that
/// is 0.
pub fn read_problem(
    alloc: Global,
    map: &[u8],
    scen: &[u8],
    agents: u16,
) -> Result<Problem, CallFault>
    ensures read { IfOk result (λ p. AreTextsOf map.now scen.now agents p.grid p.instance) }
    ensures stop { IfErr result (IsTextsStop map.now scen.now agents) }
{
    let grid = match read_map(alloc, map) {
        Ok(grid) => grid,
        Err(fault) => return Err(CallFault::Map(fault)),
    };
    match read_scen(alloc, scen, &grid, asked(agents)) {
        Ok(instance) => Ok(Problem { grid, instance }),
        Err(fault) => Err(CallFault::Scen(fault)),
    }
}
