//! Holds that bring two agents onto one cell, if their visits of it have no order.

ghost use Rattle.std.specs.Prelude.{◌≡◌, ℕ, ◌<◌, ◌≤◌, ◌↔◌, IsTrue, IfOk, OnOk, All, false, get_or, length, map};
ghost use Rattle.std.specs.List.Sorted.{IsStrictlyIncreasing};
ghost use Rattle.fleet_model.specs.declared.geometry.Place.{Place};
ghost use Rattle.fleet_model.specs.declared.program.ActionId.{ActionId};
ghost use Rattle.fleet_model.specs.Program.{AreInRange};
ghost use Rattle.fleet_model.specs.Chain.{IsNumbering};
ghost use Rattle.fleet_model.specs.Machine.{count_at, tick};
ghost use Rattle.fleet_machine.specs.Machine.{Runs};
ghost use Rattle.fleet_model.specs.Visit.{AreUnordered};
ghost use Rattle.fleet_verify.specs.Breaking.{is_held_by, held_row};
ghost use Rattle.fleet_model.specs.Breaking.{AreBreakingHolds, MeetOn};
ghost use Rattle.fleet_verify.specs.Needed.{AreTwoVisits, IsNeededRow};
ghost use Rattle.fleet_verify.specs.Walk.{IsAtOpening};

use crate::needed::needed_for;
use fleet_machine::Machine;
use fleet_model::{MAX_AGENTS, OutOfMemory, ProgramView, Visit, total_moves};
use std::alloc::Global;

/// The holds that bring the agents of two visits, which have no order either way, onto their cell: a row for each tick,
/// with the numbers of the agents that are held in it, in strictly rising order. In each tick those are held whose next
/// action is not needed for the visits, until both visits have begun. It fails only if memory is refused.
pub fn breaking_holds<P: ProgramView>(
    alloc: Global,
    program: &P,
    first: Visit,
    second: Visit,
) -> Result<Vec<Vec<u16>>, OutOfMemory>
    requires range { AreInRange (P.program program.now) }
    requires numbering { (number : ActionId → ℕ) × IsNumbering (P.program program.now) number }
    requires unordered { (q : Place) × AreUnordered (P.program program.now) q first second }
    ensures holds { IfOk result (λ holds.
        AreBreakingHolds (P.program program.now) first second
        (map (λ row. row.items) holds.items)) }
    ensures rising { IfOk result (λ holds.
        All (λ row. IsStrictlyIncreasing row.items) holds.items) }
    ensures meet { IfOk result (λ holds.
        (q : Place) → AreUnordered (P.program program.now) q first second →
        MeetOn (P.program program.now) q first second (map (λ row. row.items) holds.items)) }
{
    let needed = needed_for(alloc, program, first, second)?;
    let mut machine = Machine::start(alloc, program)?;
    holds_by(alloc, program, first, second, &needed, &mut machine)
}

/// The same holds, by how many actions of each agent are needed. The machine is at its start.
fn holds_by<P: ProgramView>(
    alloc: Global,
    program: &P,
    v: Visit,
    w: Visit,
    needed: &[u32],
    machine: &mut Machine,
) -> Result<Vec<Vec<u16>>, OutOfMemory>
    requires start { IsAtOpening (P.program program.now) machine.old }
    requires visits { AreTwoVisits (P.program program.now) v w }
    requires needed { IsNeededRow (P.program program.now) v w needed.now }
    requires range { AreInRange (P.program program.now) }
    requires numbering { (number : ActionId → ℕ) × IsNumbering (P.program program.now) number }
    ensures { IfOk result (λ holds.
        AreBreakingHolds (P.program program.now) v w (map (λ row. row.items) holds.items)) }
{
    let mut holds = Vec::new(alloc);
    for t in 0..total_moves(program) {
        if have_arrived(machine, v, w) {
            return Ok(holds);
        }
        let row = run_tick(alloc, program, machine, needed)?;
        holds.push(row)?;
    }
    Ok(holds)
}

/// The agents that are held in a tick, in rising order. The machine makes it.
fn run_tick<P: ProgramView>(
    alloc: Global,
    program: &P,
    machine: &mut Machine,
    needed: &[u32],
) -> Result<Vec<u16>, OutOfMemory>
    requires runs { Runs (P.program program.now) machine.old }
    requires needed { length needed.now ≡ length (P.program program.now) }
    ensures row { IfOk result (λ row. row.items
        ≡ held_row (P.program program.now) machine.old.configuration needed.now) }
    ensures runs { OnOk result (Runs (P.program program.now) machine.new) }
    ensures after { OnOk result (machine.new.configuration ≡ tick (P.program program.now)
        (is_held_by (P.program program.now) machine.old.configuration needed.now)
        machine.old.configuration) }
{
    let mut flags = [false; MAX_AGENTS];
    let flags = &mut flags[..usize::from(program.agents())];
    let row = held_agents(alloc, program, machine, needed, flags)?;
    machine.tick(program, flags);
    Ok(row)
}

/// The agents that are held, in rising order. The flag of each agent says then whether it is one of them.
fn held_agents<P: ProgramView>(
    alloc: Global,
    program: &P,
    machine: &Machine,
    needed: &[u32],
    flags: &mut [bool],
) -> Result<Vec<u16>, OutOfMemory>
    requires runs { Runs (P.program program.now) machine.now }
    requires needed { length needed.now ≡ length (P.program program.now) }
    requires flags { length flags.old ≡ length (P.program program.now) }
    ensures row { IfOk result (λ row. row.items
        ≡ held_row (P.program program.now) machine.now.configuration needed.now) }
    ensures all { OnOk result (length flags.new ≡ length (P.program program.now)) }
    ensures flags { OnOk result ((i : ℕ) → i < length (P.program program.now)
        → get_or flags.new i false
        ≡ is_held_by (P.program program.now) machine.now.configuration needed.now i) }
{
    let mut row = Vec::new(alloc);
    for i in 0..program.agents() {
        let is_held = is_held(program, machine, needed, i);
        flags[i as usize] = is_held;
        if is_held {
            row.push(i)?;
        }
    }
    Ok(row)
}

/// Whether an agent has an action left, and the next one is not needed.
fn is_held<P: ProgramView>(program: &P, machine: &Machine, needed: &[u32], i: u16) -> bool
    requires agent { i < length (P.program program.now) }
    requires machine { length machine.now.configuration ≡ length (P.program program.now) }
    requires needed { length needed.now ≡ length (P.program program.now) }
    ensures { result
        ≡ is_held_by (P.program program.now) machine.now.configuration needed.now i }
{
    let done = machine.agent(i).count;
    done < program.moves(i) && needed[i as usize] <= done
}

/// Whether both agents have come to their visits.
fn have_arrived(machine: &Machine, v: Visit, w: Visit) -> bool
    requires v { v.agent < length machine.now.configuration }
    requires w { w.agent < length machine.now.configuration }
    ensures { IsTrue result
        ↔ ((v.position ≤ count_at machine.now.configuration v.agent)
        × (w.position ≤ count_at machine.now.configuration w.agent)) }
{
    v.position <= machine.agent(v.agent).count && w.position <= machine.agent(w.agent).count
}
