//! Programs without the awaits that others imply.

ghost use Rattle.std.specs.Prelude.{◌≡◌, ◌≤◌, ◌<◌, ◌-◌, ◌↔◌, ℕ, Some, false, length, slice_get, IfOk, OnOk, IsTrue};
ghost use Rattle.fleet_model.specs.declared.limits.TheConstants.{MAX_MOVES_V1};
ghost use Rattle.fleet_model.specs.Program.{Program, moves, awaits_of, NeverStays, AreShort};
ghost use Rattle.fleet_model.specs.declared.program.Await.{Await};
ghost use Rattle.fleet_model.specs.Chain.{IsAction};
ghost use Rattle.fleet_grid.specs.Ground.{is_passable};
ghost use Rattle.fleet_code.specs.Spelling.{most_count, spelling};
ghost use Rattle.fleet_needs.specs.Implied.{IsImplied};
ghost use Rattle.fleet_needs.specs.Flags.{AreImplied};
ghost use Rattle.fleet_adg.specs.ProgramBytes.{AreBytesOf};
ghost use Rattle.fleet_adg.specs.Thinned.{FitsFirst, IsThinnedFor, CanThin, AreThinnedAgents, AddsAction, AddsActions};

use crate::compiler::{ProgramBytes, program_of};
use crate::thin_fault::ThinFault;
use fleet_code::{
    Version, begin_agent, begin_program, encoded_len, never_stays, programs_have_bytes, put_await,
    put_step,
};
use fleet_model::{
    ActionId, Instruction, MAX_MOVES_V1, OutOfMemory, Program, ProgramView, total_moves,
};
use fleet_needs::{ImpliedAwaits, implied_awaits};
use fleet_verify::Accepted;
use std::alloc::Global;

/// The accepted program without its implied awaits: those whose awaited action begins a chain of needs that ends with
/// another action which the same action directly needs. This is the transitive reduction of the action dependency graph
/// (Aho et al. 1972) in all but the edges from an agent's action to its next one, which stay.
///
/// The program that is left is accepted for the same map and instance, has the same longest chain, and runs as before
/// under every list of holds; none of its awaits is implied, and every program with the same chains has all of them. It
/// fails only if memory is refused.
pub fn thin<P: ProgramView>(alloc: Global, accepted: &Accepted<'_, P>) -> Result<Program, ThinFault>
    ensures thinned { IfOk result (IsThinnedFor (is_passable accepted.now.grid)
        accepted.now.instance (P.program accepted.now.program) accepted.now.chain) }
    ensures moves { IfOk result (λ q. NeverStays (P.program accepted.now.program) → NeverStays q) }
    // If version 1 of the bytes has room for the program, it has for what is left of it.
    ensures short { IfOk result (λ q. AreShort (P.program accepted.now.program) → AreShort q) }
{
    // The program that is read is accepted.
    let _program = accepted.program();
    let thinned = thin_bytes(alloc, accepted)?;
    let program = program_of(alloc, &thinned.bytes)?;
    Ok(program)
}

/// What `encode_shortest` writes of the program of `thin`, made at once, and the numbers of that program. It fails only
/// if memory is refused.
pub fn thin_bytes<P: ProgramView>(
    alloc: Global,
    accepted: &Accepted<'_, P>,
) -> Result<ProgramBytes, ThinFault>
    ensures { IfOk result (λ c. (q : Program) × AreBytesOf q c
        × IsThinnedFor (is_passable accepted.now.grid) accepted.now.instance
        (P.program accepted.now.program) accepted.now.chain q) }
{
    let program = accepted.program();
    programs_have_bytes();
    let implied = implied_awaits(alloc, program, accepted.chain())?;
    let version = shortest_version(program);
    let bytes = thinned_bytes(alloc, program, &implied, version)?;
    let moves = total_moves(program);
    Ok(ProgramBytes::new(bytes, version, program.agents(), moves))
}

/// The version that is shortest for a program whose awaits can be met: the first, if it has bytes for all actions.
fn shortest_version<P: ProgramView>(program: &P) -> Version
    ensures few { (i : ℕ) → moves (P.program program.now) i ≤ most_count result }
    ensures first { result ≡ Version.One ↔ FitsFirst (P.program program.now) }
{
    // The view's answer shows that the program is within the limits.
    let _agents = program.agents();
    let fits = have_few_moves(program) && never_stays(program);
    if fits { Version::One } else { Version::Two }
}

/// Whether version 1 has room for the number of each agent's actions.
fn have_few_moves<P: ProgramView>(program: &P) -> bool
    ensures { IsTrue result ↔ ((i : ℕ) → moves (P.program program.now) i ≤ MAX_MOVES_V1) }
{
    for i in 0..program.agents() {
        let has_more = program.moves(i) > MAX_MOVES_V1;
        if has_more {
            return false;
        }
    }
    true
}

/// The bytes of the program without its implied awaits.
fn thinned_bytes<P: ProgramView>(
    alloc: Global,
    program: &P,
    implied: &ImpliedAwaits,
    version: Version,
) -> Result<Vec<u8>, OutOfMemory>
    requires { CanThin version (P.program program.now) implied.now }
    ensures { IfOk result (λ v. (q : Program)
        × AreThinnedAgents (P.program program.now) (length (P.program program.now)) q
        × (v.items ≡ spelling version q)) }
{
    let agents = program.agents();
    let room = encoded_len(version, program);
    let mut out = begin_program(alloc, version, agents, room)?;
    for i in 0..agents {
        let (start, goal) = (program.start(i), program.goal(i));
        begin_agent(&mut out, version, start, goal, program.moves(i))?;
        put_actions(program, implied, version, i, &mut out)?;
    }
    Ok(out)
}

/// Adds the actions of agent `i` without their implied awaits.
fn put_actions<P: ProgramView>(
    program: &P,
    implied: &ImpliedAwaits,
    version: Version,
    i: u16,
    out: &mut Vec<u8>,
) -> Result<(), OutOfMemory>
    requires thin { CanThin version (P.program program.now) implied.now }
    requires agent { i < length (P.program program.now) }
    ensures { OnOk result (AddsActions version (P.program program.now) i
        (moves (P.program program.now) i) out.old.items out.new.items) }
{
    let mut at = program.offset(i, 0, 0);
    for finished in 0..program.moves(i) {
        let action = ActionId {
            agent: i,
            number: finished + 1,
        };
        at = put_action(program, implied, version, action, at, out)?;
    }
    Ok(())
}

/// Adds the action that stands there without its implied awaits, and answers where the next one of its agent stands.
#[inline(always)]
fn put_action<P: ProgramView>(
    program: &P,
    implied: &ImpliedAwaits,
    version: Version,
    action: ActionId,
    at: usize,
    out: &mut Vec<u8>,
) -> Result<usize, OutOfMemory>
    requires thin { CanThin version (P.program program.now) implied.now }
    requires action { IsAction (P.program program.now) action }
    requires at { at ≡ P.offset program.now action.agent (action.number - 1) 0 }
    ensures put { OnOk result (AddsAction version (P.program program.now) action
        out.old.items out.new.items) }
    ensures after { IfOk result (λ after. after
        ≡ P.offset program.now action.agent action.number 0) }
{
    // The view's answer shows that the program is well formed.
    let _agents = program.agents();
    let finished = action.number - 1;
    let mut at = at;
    let mut k = 0;
    'instructions: loop {
        let reading = program.read(action.agent, finished, k, at);
        match reading.instruction {
            Instruction::Await(one) => {
                if is_kept(program, implied, action, k) {
                    put_await(out, version, one)?;
                }
                at = reading.after;
                k += 1;
            }
            Instruction::Step(step) => {
                put_step(out, step)?;
                return Ok(reading.after);
            }
        }
    }
}

/// Whether await `k` of the action is kept: if others do not imply it.
#[inline(always)]
fn is_kept<P: ProgramView>(program: &P, implied: &ImpliedAwaits, action: ActionId, k: u16) -> bool
    requires implied { AreImplied (P.program program.now) implied.now }
    requires action { IsAction (P.program program.now) action }
    requires place { k < length (awaits_of (P.program program.now) action.agent action.number) }
    ensures { (w : Await)
        → slice_get (awaits_of (P.program program.now) action.agent action.number) k ≡ Some w
        → (result ≡ false) ↔ IsImplied (P.program program.now) action w }
{
    !implied.is_implied(program, action, k)
}
