//! Awaits that others imply: what is left open of them after a few steps back is flagged by rows, in which the agents
//! that are asked for alone have a column. An action without a row awaits nothing or has flags that are set already.

ghost use Rattle.std.specs.Prelude.{◌≡◌, ◌<◌, ◌+◌, Some, length, slice_get, IfOk, OnOk};
ghost use Rattle.fleet_model.specs.{declared.program.ActionId.ActionId, declared.program.Await.Await, Program.awaits_of, Program.total_awaits, Chain.IsAction};
ghost use Rattle.fleet_needs.specs.{Critical.AreLevels, Critical.IsNumberedTo, Implied.IsImpliedFlag, Schedule.AreRowsTo, Flags.AreImplied, Flags.AreSettledBy, Flags.AreFlaggedIn, Flags.AreFlaggedTo, JoinPass.AreOfSame, JoinPass.IsHalfMade};

use crate::await_places::AwaitPlaces;
use crate::critical::CriticalCosts;
use crate::join_pass::SlotRows;
use crate::level_order::LevelOrder;
use crate::settled::{count_asked, settle_all};
use fleet_model::{ActionId, OutOfMemory, ProgramView};
use std::alloc::Global;

/// Which awaits of a program others imply.
#[derive(Drop)]
pub struct ImpliedAwaits {
    pub(crate) places: AwaitPlaces,
    /// For each await, by its place, whether others imply it.
    pub(crate) flags: Vec<bool>,
}

impl ImpliedAwaits {
    /// Whether others imply await `k` of the action. Takes no memory.
    pub fn is_implied<P: ProgramView>(&self, program: &P, action: ActionId, k: u16) -> bool
        requires implied { AreImplied (P.program program.now) self.now }
        requires action { IsAction (P.program program.now) action }
        requires place { k < length (awaits_of (P.program program.now) action.agent action.number) }
        ensures { (w : Await)
            → slice_get (awaits_of (P.program program.now) action.agent action.number) k ≡ Some w
            → IsImpliedFlag (P.program program.now) action w result }
    {
        self.flags[self.places.first(program, action) + usize::from(k)]
    }
}

/// Which awaits of the program others imply: those whose awaited action begins a chain of needs that ends with another
/// action which the same action directly needs. No level is greater than `most`. Rows flag what steps back leave open.
pub fn implied_awaits<P: ProgramView>(
    alloc: Global,
    program: &P,
    most: u32,
) -> Result<ImpliedAwaits, OutOfMemory>
    requires { IsNumberedTo (P.program program.now) most }
    ensures { IfOk result (AreImplied (P.program program.now)) }
{
    let levels = CriticalCosts::levels(alloc, program, most)?;
    let (mut implied, asked) = settle_all(alloc, program, &levels)?;
    flag_left(alloc, program, levels, asked, &mut implied)?;
    Ok(implied)
}

/// Flags by rows the awaits that are left open, which are for the asked agents, if any is: block by block. The levels
/// are let go.
fn flag_left<P: ProgramView>(
    alloc: Global,
    program: &P,
    levels: CriticalCosts,
    asked: Vec<bool>,
    implied: &mut ImpliedAwaits,
) -> Result<(), OutOfMemory>
    requires levels { AreLevels (P.program program.now) levels }
    requires settled { AreSettledBy (P.program program.now) asked
        (total_awaits (P.program program.now)) implied.old }
    ensures { OnOk result (AreImplied (P.program program.now) implied.new) }
{
    if count_asked(&asked) == 0 {
        return Ok(());
    }
    let order = LevelOrder::by_levels(alloc, program, &levels, &implied.flags)?;
    // Rows need their room.
    drop(levels);
    let mut rows = SlotRows::by_order(alloc, program, order, &implied.flags, asked)?;
    while rows.next_block(alloc, program)? {
        flag_block(program, &mut rows, implied);
    }
    Ok(())
}

/// Flags the awaits for the asked agents of a block, row by row.
fn flag_block<P: ProgramView>(program: &P, rows: &mut SlotRows, implied: &mut ImpliedAwaits)
    requires begun { AreRowsTo (P.program program.now) rows.old 0 }
    requires flags { AreFlaggedTo
        (P.program program.now) rows.old rows.old.columns.first implied.old }
    ensures same { AreOfSame rows.old rows.new }
    ensures flags { AreFlaggedTo
        (P.program program.now) rows.new rows.new.columns.end implied.new }
{
    for n in 0..rows.schedule.rows() {
        rows.join_others(program, n);
        flag_row(program, rows, n, implied);
        rows.finish_row(program, n);
    }
}

/// Flags the awaits of an action whose agents have a column: whether others imply them.
fn flag_row<P: ProgramView>(program: &P, rows: &SlotRows, n: usize, implied: &mut ImpliedAwaits)
    requires joined { IsHalfMade (P.program program.now) rows.now n }
    requires flags { AreFlaggedIn (P.program program.now) rows.now n 0 implied.old }
    ensures { AreFlaggedIn (P.program program.now) rows.now (n + 1) 0 implied.new }
{
    let _ = program.agents();
    let join = rows.schedule.join_after(program, n);
    for k in 0..join.count {
        let wait = rows.schedule.need(program, n, &join, k).wait;
        let Some(column) = rows.columns.of(wait.agent) else {
            continue;
        };
        let place = implied.places.first(program, join.action) + k;
        implied.flags[place] = wait.count <= rows.counts.get(usize::from(column));
    }
}
