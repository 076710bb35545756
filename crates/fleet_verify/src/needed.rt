//! Which actions two visits need through chains.

ghost use Rattle.std.specs.Prelude.{◌≡◌, ◌≢◌, ◌<◌, ◌≤◌, ℕ, length, slice_index, IfOk};
ghost use Rattle.fleet_model.specs.Program.{moves, IsWellFormed, AreInRange};
ghost use Rattle.fleet_model.specs.declared.program.Visit.{Visit};
ghost use Rattle.fleet_verify.specs.Needed.{IsRaised, AreNeeded, AreTwoVisits, AreZeros, HasLookedOn, IsNeededRow};

use fleet_model::{OutOfMemory, ProgramView, Visit, total_moves};
use std::alloc::Global;

/// For each agent how many of its actions enter the visits or are needed for that through chains.
pub fn needed_for<P: ProgramView>(
    alloc: Global,
    program: &P,
    first: Visit,
    second: Visit,
) -> Result<Vec<u32>, OutOfMemory>
    requires visits { AreTwoVisits (P.program program.now) first second }
    requires apart { first.agent ≢ second.agent }
    requires range { AreInRange (P.program program.now) }
    ensures { IfOk result (λ needed.
        IsNeededRow (P.program program.now) first second needed.items) }
{
    let mut needed = zeros(alloc, program.agents())?;
    let mut looked = zeros(alloc, program.agents())?;
    close(program, first, second, &mut needed, &mut looked);
    Ok(needed)
}

/// A row of so many zeros.
fn zeros(alloc: Global, n: u16) -> Result<Vec<u32>, OutOfMemory>
    ensures { IfOk result (λ row. AreZeros n row.items) }
{
    Ok(vec![in alloc; 0; usize::from(n)]?)
}

/// Looks at what the needed actions await, the next action of each agent in turn, until none is left.
fn close<P: ProgramView>(
    program: &P,
    first: Visit,
    second: Visit,
    needed: &mut [u32],
    looked: &mut [u32],
)
    requires visits { AreTwoVisits (P.program program.now) first second }
    requires apart { first.agent ≢ second.agent }
    requires range { AreInRange (P.program program.now) }
    requires needed { AreZeros (length (P.program program.now)) needed.old }
    requires looked { AreZeros (length (P.program program.now)) looked.old }
    ensures { AreNeeded (P.program program.now) first second (slice_index needed.new) }
{
    needed[first.agent as usize] = first.position;
    needed[second.agent as usize] = second.position;
    // The contract of this call says that the program is well-formed, which bounds its moves.
    let _agents = program.agents();
    let most = total_moves(program);
    for _round in 0..most + 1 {
        if !look_at_next(program, needed, looked) {
            return;
        }
    }
    unreachable!()
}

/// Looks at the next needed action of each agent, if it has one, and raises the counts to those that it awaits. Answers
/// whether some agent had one.
fn look_at_next<P: ProgramView>(program: &P, needed: &mut [u32], looked: &mut [u32]) -> bool
    requires range { AreInRange (P.program program.now) }
    requires wide { length needed.old ≡ length (P.program program.now) }
    requires long { length looked.old ≡ length (P.program program.now) }
    requires actions { (j : ℕ) → slice_index needed.old j ≤ moves (P.program program.now) j }
    ensures { HasLookedOn (P.program program.now) needed.old looked.old needed.new looked.new
        result }
{
    let mut some = false;
    for j in 0..program.agents() {
        let i = j as usize;
        let seen = looked[i];
        let is_unseen = seen < needed[i];
        if is_unseen {
            raise(program, j, seen + 1, needed);
            looked[i] = seen + 1;
            some = true;
        }
    }
    some
}

/// Raises the counts to those that an action awaits.
fn raise<P: ProgramView>(program: &P, agent: u16, number: u32, row: &mut [u32])
    requires row { length row.old ≡ length (P.program program.now) }
    requires well_formed { IsWellFormed (P.program program.now) }
    requires agent { agent < length (P.program program.now) }
    requires first { 1 ≤ number }
    requires last { number ≤ moves (P.program program.now) agent }
    ensures { IsRaised (P.program program.now) agent number row.old row.new }
{
    let agents = program.agents();
    for k in 0..program.await_count(agent, number) {
        let awaited = program.await_at(agent, number, k);
        prove!(awaited.agent < agents);
        let i = awaited.agent as usize;
        let is_short = row[i] < awaited.count;
        if is_short {
            row[i] = awaited.count;
        }
    }
}
