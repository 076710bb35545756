//! The calls that need no state, over bytes, for callers in other languages: each takes texts and bytes as they lie in
//! the caller's memory, and answers a status. `include/fleet.h` declares them for C.
//!
//! A slice is a pointer and a length to the caller, and a `Global` is nothing. What a call answers stands in what the
//! caller lends it: numbers, or bytes at the front of a buffer with their length, or a refusal. A buffer that is too
//! small is as before, and the length says what is needed. After a refusal all but the refusal is as before.
//!
//! The exports are the root, each a `match` over one function on slices: `check`, `compile`, `verify`, `thin`, `plan`
//! and `rehearse` have these, and what each promises in the file of `specs/` of the same name. `problem` reads a map
//! and a scenario. `fault` has the refusal of a call as an enum, and `plain` as the struct that a caller reads, with
//! the numbers of the refusal's line. `answer` has what all exports do: `hand_over` puts bytes into a buffer that has
//! room for them, `refuse` reports. `tools/lib.sh` makes the archive and the shared object.
#![tactic(auto)]

ghost use Rattle.fleet_c.specs.Answer.{AnswersNumbers, AnswersBytes};
ghost use Rattle.fleet_c.specs.Check.{ChecksTexts, IsCheckStop};
ghost use Rattle.fleet_c.specs.Compile.{deps_of, CompilesTo, IsCompileStop};
ghost use Rattle.fleet_c.specs.Verify.{VerifiesTexts, IsVerifyStop};
ghost use Rattle.fleet_c.specs.Thin.{ThinsTo};
ghost use Rattle.fleet_c.specs.Plan.{PlansTo, IsPlannerStop};
ghost use Rattle.fleet_c.specs.Rehearse.{RehearsesTo, IsRehearseStop};

mod answer;
mod check;
mod compile;
mod fault;
mod plain;
mod plan;
mod problem;
mod rehearse;
mod thin;
mod verify;

pub use answer::{DONE, FAILED, REFUSED, STUCK, TOO_SMALL};
use answer::{hand_made, hand_over, refuse};
pub use check::FleetChecked;
use check::check_texts;
use compile::{Wish, compile_texts};
pub use fault::CallFault;
pub use plain::FleetFault;
use plan::plan_texts;
use rehearse::{end_status, rehearse_bytes};
use std::alloc::Global;
use thin::thin_texts;
pub use verify::FleetAccepted;
use verify::verify_texts;

/// Judges the plan for the map and the scenario: of the scenario's agents the first `agents`, or all where that is 0.
/// Tells the plan's numbers if it is free of conflict.
#[unsafe(no_mangle)]
pub extern "C" fn fleet_check(
    alloc: Global,
    map: &[u8],
    scen: &[u8],
    agents: u16,
    plan: &[u8],
    checked: &mut FleetChecked,
    fault: &mut FleetFault,
) -> u32
    ensures { AnswersNumbers (ChecksTexts map.now scen.now agents plan.now)
        (IsCheckStop map.now scen.now agents plan.now)
        checked.old checked.new fault.old fault.new result }
{
    match check_texts(alloc, map, scen, agents, plan) {
        Ok(numbers) => {
            *checked = numbers;
            DONE
        }
        Err(stop) => refuse(&stop, fault),
    }
}

/// Compiles the plan: hands over the bytes of its program. An action awaits the latest leaving of its cell where `deps`
/// is 0, and else the last one of each agent; each agent stays on its last cell for `dwell` actions.
#[unsafe(no_mangle)]
pub extern "C" fn fleet_compile(
    alloc: Global,
    map: &[u8],
    scen: &[u8],
    agents: u16,
    plan: &[u8],
    deps: u8,
    dwell: u32,
    out: &mut [u8],
    length: &mut usize,
    fault: &mut FleetFault,
) -> u32
    ensures { AnswersBytes (CompilesTo map.now scen.now agents plan.now (deps_of deps) dwell)
        (IsCompileStop map.now scen.now agents plan.now (deps_of deps) dwell)
        out.old out.new length.old length.new fault.old fault.new result }
{
    let wish = Wish {
        agents,
        deps,
        dwell,
    };
    match compile_texts(alloc, map, scen, plan, &wish) {
        Ok(bytes) => hand_made(&bytes, out, length),
        Err(stop) => refuse(&stop, fault),
    }
}

/// Verifies the program that the bytes spell for the map and the scenario, and tells its numbers if it is accepted.
#[unsafe(no_mangle)]
pub extern "C" fn fleet_verify(
    alloc: Global,
    map: &[u8],
    scen: &[u8],
    agents: u16,
    program: &[u8],
    accepted: &mut FleetAccepted,
    fault: &mut FleetFault,
) -> u32
    ensures { AnswersNumbers (VerifiesTexts map.now scen.now agents program.now)
        (IsVerifyStop map.now scen.now agents program.now)
        accepted.old accepted.new fault.old fault.new result }
{
    match verify_texts(alloc, map, scen, agents, program) {
        Ok(numbers) => {
            *accepted = numbers;
            DONE
        }
        Err(stop) => refuse(&stop, fault),
    }
}

/// Hands over the bytes of the program without its implied awaits, if it is accepted for the map and the scenario.
#[unsafe(no_mangle)]
pub extern "C" fn fleet_thin(
    alloc: Global,
    map: &[u8],
    scen: &[u8],
    agents: u16,
    program: &[u8],
    out: &mut [u8],
    length: &mut usize,
    fault: &mut FleetFault,
) -> u32
    ensures { AnswersBytes (ThinsTo map.now scen.now agents program.now)
        (IsVerifyStop map.now scen.now agents program.now)
        out.old out.new length.old length.new fault.old fault.new result }
{
    match thin_texts(alloc, map, scen, agents, program) {
        Ok(bytes) => hand_made(&bytes, out, length),
        Err(stop) => refuse(&stop, fault),
    }
}

/// Plans agent by agent, in up to `tries` orders of the agents, and hands over the text of the plan. All arrive by the
/// horizon, a time in steps.
#[unsafe(no_mangle)]
pub extern "C" fn fleet_plan(
    alloc: Global,
    map: &[u8],
    scen: &[u8],
    agents: u16,
    horizon: u16,
    tries: u32,
    out: &mut [u8],
    length: &mut usize,
    fault: &mut FleetFault,
) -> u32
    ensures { AnswersBytes (PlansTo map.now scen.now agents horizon tries)
        (IsPlannerStop map.now scen.now agents horizon tries)
        out.old out.new length.old length.new fault.old fault.new result }
{
    match plan_texts(alloc, map, scen, agents, horizon, tries) {
        Ok(text) => hand_made(&text, out, length),
        Err(stop) => refuse(&stop, fault),
    }
}

/// Rehearses any program that the bytes spell, under the holds, and hands over the text of the rehearsal. The status
/// says whether it ended with all actions done or stuck.
#[unsafe(no_mangle)]
pub extern "C" fn fleet_rehearse(
    alloc: Global,
    program: &[u8],
    holds: &[u8],
    out: &mut [u8],
    length: &mut usize,
    fault: &mut FleetFault,
) -> u32
    ensures { AnswersBytes (RehearsesTo program.now holds.now) (IsRehearseStop program.now holds.now)
        out.old out.new length.old length.new fault.old fault.new result }
{
    match rehearse_bytes(alloc, program, holds) {
        Ok(rehearsed) => {
            let done = end_status(rehearsed.end);
            hand_over(rehearsed.text.bytes(), done, out, length)
        }
        Err(stop) => refuse(&stop, fault),
    }
}
