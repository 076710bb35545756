//! The compiler of plans, and the bytes of a program that is made as bytes at once.

ghost use Rattle.std.specs.Prelude.{◌≡◌, ◌≤◌, ◌<◌, ◌+◌, ◌^◌, ◌↔◌, ℕ, All, IfOk, length, sum_by};
ghost use Rattle.fleet_model.specs.Program.{Program, moves, NeverStays, AreShort, total_moves};
ghost use Rattle.fleet_model.specs.declared.limits.TheConstants.{MAX_MOVES_V1, MAX_MOVES_IN_ALL};
ghost use Rattle.fleet_model.specs.Accepted.{IsAccepted};
ghost use Rattle.fleet_model.specs.Answer.{IsDueUnless};
ghost use Rattle.fleet_grid.specs.Ground.{is_passable};
ghost use Rattle.fleet_model.specs.declared.deps.Deps.{Deps};
ghost use Rattle.fleet_adg.specs.Compiled.{moves_in_all, compiled, compiled_if_few, compiled_staying, each_has_few, all_have_few, has_few_actions, compiled_staying_if_few};
ghost use Rattle.fleet_verify.specs.Reduced.{RunEqually};
ghost use Rattle.fleet_plan.specs.Plan.{steps};
ghost use Rattle.fleet_code.specs.declared.format.TheConstants.{HEAD_LEN};
ghost use Rattle.fleet_code.specs.Offsets.{head_len};
ghost use Rattle.fleet_code.specs.Spelling.{most_count, spelling, SpellsIn, Spells, SpellsShortest};
ghost use Rattle.fleet_code.specs.declared.format.Version.TheVariants.{One};
ghost use Rattle.fleet_adg.specs.Sweep.{all_bytes_by};
ghost use Rattle.fleet_adg.specs.ProgramBytes.{AreBytesOf, version_for};

use crate::fault::CompileFault;
use crate::sweep::{actions_of, moves_of};
use fleet_code::{
    ActionBytes, HEAD_LEN, Version, awaits_in, begin_program, load, programs_have_bytes,
};
use fleet_model::{Deps, MAX_AGENTS, MAX_MOVES, MAX_MOVES_IN_ALL, OutOfMemory, Program};
use fleet_plan::{Checked, Plan};
use std::alloc::Global;

/// All agents together do not make too many moves in so many steps.
const FEW_STEPS: u32 = MAX_MOVES_IN_ALL / MAX_AGENTS as u32;

/// The program of a plan (after the action dependency graph of Hönig et al. 2019): the actions of each agent are its
/// changes of cell, in order, and each awaits earlier leavings of the cell that it enters.
///
/// It is refused as `TooLong` exactly if the agents make more than 4,194,304 moves together. The program is accepted
/// for the plan's map and instance, each of its actions is a move, and version 1 of the bytes has room for it. With
/// either `deps` it runs equally.
pub fn compile(alloc: Global, checked: &Checked<'_>, deps: Deps) -> Result<Program, CompileFault>
    ensures program { IsDueUnless (λ p. p) result
        (compiled_if_few checked.now.plan deps) CompileFault.OutOfMemory }
    ensures accepted { IfOk result (IsAccepted
        (is_passable checked.now.grid) checked.now.instance) }
    ensures moves { IfOk result NeverStays }
    // Version 1 of the bytes has room for it.
    ensures short { IfOk result AreShort }
    // The programs of one plan run equally, whichever leavings they await.
    ensures equally { IfOk result (λ p. (other : Deps)
        → RunEqually p (compiled checked.now.plan other)) }
{
    // The plan that is read shows that it is within the limits, so no agent makes too many moves.
    let _plan = checked.plan();
    compile_dwell(alloc, checked, deps, 0)
}

/// The program of `compile`, in which each agent stays on its last cell for `dwell` actions more, also one that makes
/// no move. These actions await nobody, and nobody awaits them.
///
/// It is refused as `TooLong` exactly if an agent would have more than 1,000,000 actions, or all agents more than
/// 4,194,304 together. The program is accepted for the plan's map and instance. With either `deps` it runs equally.
pub fn compile_dwell(
    alloc: Global,
    checked: &Checked<'_>,
    deps: Deps,
    dwell: u32,
) -> Result<Program, CompileFault>
    ensures program { IsDueUnless (λ p. p) result
        (compiled_staying_if_few checked.now.plan deps dwell) CompileFault.OutOfMemory }
    ensures accepted { IfOk result (IsAccepted
        (is_passable checked.now.grid) checked.now.instance) }
    // Version 1 of the bytes has room for it exactly if it has for the actions of each agent, the stays among them.
    ensures short { IfOk result (λ p. AreShort p ↔ ((i : ℕ) → moves p i ≤ MAX_MOVES_V1)) }
    // The programs of one plan run equally, whichever leavings they await.
    ensures equally { IfOk result (λ p. (other : Deps)
        → RunEqually p (compiled_staying checked.now.plan other dwell)) }
{
    // The plan that is read is free of conflict.
    let _plan = checked.plan();
    let compiled = compile_bytes(alloc, checked, deps, dwell)?;
    let program = program_of(alloc, &compiled.bytes)?;
    Ok(program)
}

/// What `encode_shortest` writes of the program of `compile_dwell`, made at once, and the numbers of that program.
///
/// It is refused as `TooLong` exactly if `compile_dwell` is.
#[tactic(auto, using(crate::proofs::Staying::due_plainly))]
pub fn compile_bytes(
    alloc: Global,
    checked: &Checked<'_>,
    deps: Deps,
    dwell: u32,
) -> Result<ProgramBytes, CompileFault>
    ensures spelled { IfOk result (AreBytesOf (compiled_staying checked.now.plan deps dwell)) }
    ensures due { IsDueUnless (λ _. compiled_staying checked.now.plan deps dwell) result
        (compiled_staying_if_few checked.now.plan deps dwell) CompileFault.OutOfMemory }
    ensures accepted { IfOk result (λ _. IsAccepted (is_passable checked.now.grid)
        checked.now.instance (compiled_staying checked.now.plan deps dwell)) }
    // The programs of one plan run equally, whichever leavings they await.
    ensures equally { IfOk result (λ _. (other : Deps)
        → RunEqually (compiled_staying checked.now.plan deps dwell)
        (compiled_staying checked.now.plan other dwell)) }
    // Without stays it is the program of `compile`, in version 1.
    ensures plain { dwell ≡ 0 → compiled_staying_if_few checked.now.plan deps dwell
        ≡ compiled_if_few checked.now.plan deps }
    ensures first { dwell ≡ 0 → IfOk result (λ c.
        SpellsIn One c.bytes.items (compiled_staying checked.now.plan deps dwell)) }
{
    let plan = checked.plan();
    if !has_few_actions(plan, dwell) {
        return Err(CompileFault::TooLong);
    }
    programs_have_bytes();
    let version = version_for(dwell);
    let actions = actions_of(alloc, checked, version, deps)?;
    let moves = actions_in(&actions, dwell);
    let bytes = join(alloc, plan, version, &actions, dwell)?;
    Ok(ProgramBytes::new(bytes, version, plan.agents(), moves))
}

/// The version that is shortest: the first, unless agents stay.
fn version_for(stays: u32) -> Version
    ensures { result ≡ version_for stays }
{
    if stays == 0 {
        Version::One
    } else {
        Version::Two
    }
}

/// Whether no agent has too many actions, nor all agents together, if each stays so often after its moves.
fn has_few_actions(plan: &Plan, stays: u32) -> bool
    ensures { result ≡ has_few_actions plan.now stays }
{
    each_has_few(plan, stays) && all_have_few(plan, stays)
}

/// Whether no agent has too many actions then.
#[tactic(auto, using(crate::proofs::Staying::each_few, crate::proofs::Staying::some_too_long, crate::proofs::Staying::few_steps))]
fn each_has_few(plan: &Plan, stays: u32) -> bool
    ensures { result ≡ each_has_few plan.now stays }
{
    // No agent makes more moves than there are steps.
    let are_few = u64::from(plan.steps()) + u64::from(stays) <= u64::from(MAX_MOVES);
    if are_few {
        return true;
    }
    for i in 0..plan.agents() {
        if u64::from(moves_of(plan, i)) + u64::from(stays) > u64::from(MAX_MOVES) {
            return false;
        }
    }
    true
}

/// Whether all agents together do not have too many then.
#[tactic(auto, using(crate::proofs::Staying::few_in_all))]
fn all_have_few(plan: &Plan, stays: u32) -> bool
    ensures { result ≡ all_have_few plan.now stays }
{
    // So it is whatever the agents do, if there are few enough steps.
    let are_few = stays == 0 && plan.steps() <= FEW_STEPS;
    if are_few {
        return true;
    }
    let added = u64::from(plan.agents()) * u64::from(stays);
    u64::from(moves_of_all(plan)) + added <= u64::from(MAX_MOVES_IN_ALL)
}

/// How many moves all agents make.
fn moves_of_all(plan: &Plan) -> u32
    ensures { result ≡ moves_in_all plan.now }
{
    let mut moves = 0;
    for i in 0..plan.agents() {
        moves += moves_of(plan, i);
    }
    moves
}

/// How many actions the agents have together, if each stays so often after these.
fn actions_in(rows: &[ActionBytes], stays: u32) -> u32
    requires { sum_by (λ row. row.count + stays) rows.now ≤ MAX_MOVES_IN_ALL }
    ensures { result ≡ sum_by (λ row. row.count + stays) rows.now }
{
    let mut actions = 0;
    for row in rows {
        actions += row.count() as u32 + stays;
    }
    actions
}

/// How many bytes the program takes, if each agent stays so often after these actions.
fn room_for(version: Version, rows: &[ActionBytes], stays: u32) -> usize
    ensures { HEAD_LEN + sum_by (λ row. length row.bytes + stays + head_len version) rows.now < 2 ^ 64
        → result ≡ HEAD_LEN
        + sum_by (λ row. length row.bytes + stays + head_len version) rows.now }
{
    let mut room = HEAD_LEN;
    for row in rows {
        room = room.saturating_add(row.agent_len(version, stays));
    }
    room
}

/// The bytes of the program whose agents have these actions, after which each stays so often.
fn join(
    alloc: Global,
    plan: &Plan,
    version: Version,
    rows: &[ActionBytes],
    stays: u32,
) -> Result<Vec<u8>, OutOfMemory>
    requires agents { length rows.now ≡ length plan.now }
    requires few { All (λ row. row.count + stays ≤ most_count version) rows.now }
    ensures { IfOk result (λ bytes. (deps : Deps)
        → rows.now ≡ all_bytes_by plan.now deps version (steps plan.now)
        → bytes.items ≡ spelling version (compiled_staying plan.now deps stays)) }
{
    let room = room_for(version, rows, stays);
    let mut out = begin_program(alloc, version, plan.agents(), room)?;
    let end = plan.steps();
    for i in 0..plan.agents() {
        let start = plan.cell(i, 0);
        let goal = plan.cell(i, end);
        rows[usize::from(i)].put_agent(&mut out, version, start, goal, stays)?;
    }
    Ok(out)
}

// The bytes of a program that is made as bytes at once, and the program that they spell.

/// The bytes of a program: how many agents it has, and how many moves and awaits they have together.
#[derive(Drop)]
pub struct ProgramBytes {
    pub bytes: Vec<u8>,
    pub agents: u16,
    pub moves: u32,
    pub awaits: u64,
}

impl ProgramBytes {
    /// The bytes, in this version, of a program of so many agents and moves.
    pub(crate) fn new(bytes: Vec<u8>, version: Version, agents: u16, moves: u32) -> ProgramBytes
        ensures bytes { result.bytes ≡ bytes }
        ensures of { (p : Program) → length p ≡ agents → total_moves p ≡ moves
            → bytes.items ≡ spelling version p → SpellsShortest bytes.items p → AreBytesOf p result }
    {
        let awaits = awaits_in(version, bytes.len(), agents, moves);
        ProgramBytes {
            bytes,
            agents,
            moves,
            awaits,
        }
    }
}

/// The program that the bytes spell.
pub(crate) fn program_of(alloc: Global, bytes: &[u8]) -> Result<Program, OutOfMemory>
    ensures { IfOk result (λ q. (p : Program) → Spells bytes.now p → q ≡ p) }
{
    match load(alloc, bytes) {
        Ok(program) => Ok(program),
        // Bytes that spell a program are refused for want of memory alone.
        Err(_) => Err(OutOfMemory),
    }
}
