//! The rows of a schedule, which has the room of one block of columns after another, and the pass over them in a block:
//! each is made of rows whose counts are still in their slots, and kept in its own slot.

ghost use Rattle.std.specs.Prelude.{◌≡◌, ◌<◌, ◌≤◌, length, vec_len, max, IfOk, Some};
ghost use Rattle.fleet_model.specs.{declared.limits.TheConstants.MAX_AGENTS};
ghost use Rattle.fleet_needs.specs.{Columns.AreApart, Columns.AreColumns, Columns.agents_in, Columns.column_of, Order.IsLevelOrder, Counts.made_row, Counts.CanHold, Schedule.AreRows, Schedule.AreOfProgram, Schedule.AreRowsFor, Schedule.AreRowsUnless, Schedule.AreRowsTo, Schedule.joins_in, JoinPass.AreOfSame, JoinPass.HasOwnSet, JoinPass.IsHalfMade, JoinPass.IsMade, JoinPass.IsNextBlock};

use crate::counts::Counts;
use crate::level_order::LevelOrder;
use crate::schedule::{Joins, Schedule, Slots, is_narrow};
use fleet_model::{MAX_AGENTS, OutOfMemory, ProgramView};
use std::alloc::Global;

/// Which column of a block belongs to an agent.
#[derive(Drop)]
pub struct Columns {
    of_agent: Vec<Option<u16>>,
    /// How many columns the block has.
    pub(crate) width: u16,
    /// All asked agents from this one on have a column ..
    pub(crate) first: u16,
    /// .. that are below this one.
    pub end: u16,
}

impl Columns {
    /// Columns for the next agents from this one on that are flagged in `asked`, at most `most`.
    pub fn choose(
        alloc: Global,
        asked: &[bool],
        from: u16,
        most: u16,
    ) -> Result<Columns, OutOfMemory>
        requires agents { length asked.now ≤ MAX_AGENTS }
        requires from { from < length asked.now }
        requires some { 1 ≤ most }
        ensures columns { IfOk result (AreColumns asked.now from) }
        ensures few { IfOk result (λ columns. columns.width ≤ most) }
    {
        let mut of_agent = vec![in alloc; None; asked.len()]?;
        let mut width = 0;
        let mut end = from;
        while usize::from(end) < asked.len() && width < most {
            if asked[usize::from(end)] {
                of_agent[usize::from(end)] = Some(width);
                width += 1;
            }
            end += 1;
        }
        Ok(Columns {
            of_agent,
            width,
            first: from,
            end,
        })
    }

    /// The column of an agent, if it has one.
    pub fn of(&self, agent: u16) -> Option<u16>
        requires { agent < agents_in self.now }
        ensures { result ≡ column_of self.now agent }
    {
        self.of_agent[usize::from(agent)]
    }
}

/// Raises the row's count in the agent's own column, if it has one, to the number of an action.
fn raise_own(columns: &Columns, counts: &mut Counts, agent: u16, number: u32)
    requires agent { agent < agents_in columns.now }
    requires columns { AreApart columns.now (length (made_row counts.old)) }
    requires hold { CanHold counts.old number }
    ensures { HasOwnSet columns.now agent (λ count. max count number) counts.old counts.new }
{
    if let Some(k) = columns.of(agent) {
        let k = usize::from(k);
        let is_less = counts.get(k) < number;
        if is_less {
            counts.set(k, number);
        }
    }
}

/// Clears the row's count in the agent's own column, if it has one.
fn clear_own(columns: &Columns, counts: &mut Counts, agent: u16)
    requires agent { agent < agents_in columns.now }
    requires columns { AreApart columns.now (length (made_row counts.old)) }
    ensures { HasOwnSet columns.now agent (λ count. 0) counts.old counts.new }
{
    if let Some(k) = columns.of(agent) {
        counts.set(usize::from(k), 0);
    }
}

/// The rows of a schedule in the columns of one block after another, slot by slot.
pub struct SlotRows {
    pub(crate) schedule: Schedule,
    /// For each agent whether its columns are asked for.
    asked: Vec<bool>,
    /// Those of the block that has come.
    pub(crate) columns: Columns,
    pub(crate) counts: Counts,
}

impl Drop for SlotRows {
    fn drop(self) {
        let SlotRows {
            schedule,
            asked,
            columns,
            counts,
        } = self;
        drop(schedule);
        drop(asked);
        drop(columns);
        drop(counts);
    }
}

impl SlotRows {
    /// The rows of a program whose actions have this order. Those whose awaits are all `implied` may have none.
    pub(crate) fn by_order<P: ProgramView>(
        alloc: Global,
        program: &P,
        order: LevelOrder,
        implied: &[bool],
        asked: Vec<bool>,
    ) -> Result<SlotRows, OutOfMemory>
        requires order { IsLevelOrder (P.program program.now) implied.now order }
        requires asked { vec_len asked ≡ length (P.program program.now) }
        ensures { IfOk result (AreRowsUnless (P.program program.now) implied.now asked) }
    {
        let (joins, standing) = Joins::of(alloc, program, order, implied)?;
        drop(standing);
        SlotRows::of(alloc, program, joins, asked)
    }

    /// These rows, each with a slot, before the first block.
    pub(crate) fn of<P: ProgramView>(
        alloc: Global,
        program: &P,
        joins: Joins,
        asked: Vec<bool>,
    ) -> Result<SlotRows, OutOfMemory>
        requires joins { AreRows (P.program program.now) joins }
        requires asked { vec_len asked ≡ length (P.program program.now) }
        ensures { IfOk result (AreRowsFor (P.program program.now) joins asked) }
    {
        let (outs, slots) = Slots::of(alloc, &joins)?;
        Ok(SlotRows {
            schedule: Schedule {
                joins,
                outs,
                slots,
                is_narrow: is_narrow(program),
            },
            asked,
            columns: Columns {
                of_agent: Vec::new(alloc),
                width: 0,
                first: 0,
                end: 0,
            },
            counts: Counts::Wide {
                all: Vec::new(alloc),
                row: Vec::new(alloc),
            },
        })
    }

    /// Takes the columns of the next block, as many as there is room for, of which no row is made yet; or says that the
    /// one before was the last.
    pub(crate) fn next_block<P: ProgramView>(
        &mut self,
        alloc: Global,
        program: &P,
    ) -> Result<bool, OutOfMemory>
        requires { AreOfProgram (P.program program.now) self.old }
        ensures { IfOk result (IsNextBlock (P.program program.now) self.old self.new) }
    {
        let _ = program.agents();
        let from = self.columns.end;
        let was_last = usize::from(from) >= self.asked.len();
        if was_last {
            return Ok(false);
        }
        // The room of the block before is let go first.
        self.counts = Counts::Wide {
            all: Vec::new(alloc),
            row: Vec::new(alloc),
        };
        self.columns = Columns::choose(alloc, &self.asked, from, self.schedule.columns_at_once())?;
        let width = usize::from(self.columns.width);
        let room = self.schedule.slots as usize * width;
        self.counts = Counts::zeros(alloc, room, width, self.schedule.is_narrow)?;
        Ok(true)
    }

    /// Makes the row of all that the join after n others directly needs, but for the count of each awaited agent.
    pub(crate) fn join_others<P: ProgramView>(&mut self, program: &P, n: usize)
        requires rows { AreRowsTo (P.program program.now) self.old n }
        requires next { n < joins_in self.old.schedule }
        ensures same { AreOfSame self.old self.new }
        ensures joined { IsHalfMade (P.program program.now) self.new n }
    {
        let counts = &mut self.counts;
        let schedule = &self.schedule;
        let width = self.columns.width;
        let join = schedule.join_after(program, n);
        let base = schedule.place(program, join.base as usize, width);
        let first = schedule.need(program, n, &join, 0);
        let other = schedule.place(program, first.row as usize, width);
        counts.read_joined(base, other);
        for k in 1..join.count {
            let need = schedule.need(program, n, &join, k);
            counts.join(schedule.place(program, need.row as usize, width));
        }
    }

    /// Makes the row of the action of what `join_others` has left, and keeps it in its slot.
    pub(crate) fn finish_row<P: ProgramView>(&mut self, program: &P, n: usize)
        requires { IsHalfMade (P.program program.now) self.old n }
        ensures same { AreOfSame self.old self.new }
        ensures made { IsMade (P.program program.now) self.new n }
    {
        let counts = &mut self.counts;
        let schedule = &self.schedule;
        let columns = &self.columns;
        let join = schedule.join_after(program, n);
        for k in 0..join.count {
            let wait = schedule.need(program, n, &join, k).wait;
            raise_own(columns, counts, wait.agent, wait.count);
        }
        clear_own(columns, counts, join.action.agent);
        counts.write(schedule.place(program, n + 1, columns.width));
    }
}
