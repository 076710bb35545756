//! A schedule of rows, made once for all blocks of columns: which rows are made, in which order, which stand for other
//! actions, of which rows each is joined, and the slot in which it is kept.

ghost use Rattle.std.specs.Prelude.{◌≡◌, ◌+◌, ◌*◌, ◌<◌, ◌≤◌, ℕ, true, length, vec_len, IfOk, OnOk};
ghost use Rattle.fleet_model.specs.{declared.limits.TheConstants.MAX_AGENTS, declared.program.ActionId.ActionId, Program.AreInRange, Program.moves};
ghost use Rattle.fleet_needs.specs.{Implied.AreAwaitPlaces, Joins.AreAllListed, Joins.AreListedTo, Joins.AreStanding, Joins.HasAllRows, Joins.HasRoom, Joins.IsFilled, Joins.IsUpToLast, Joins.action_at, Joins.base_of, Joins.end_of, Joins.need_at, Joins.row_of, Joins.rows_of, Order.AreKeys, Joins.IsAwaiting, Order.IsLevelOrder, Order.named_in, Schedule.AreInOrder, Schedule.AreRowsBut, Schedule.IsSchedule, Schedule.IsNextJoin, Schedule.IsNextNeed, Schedule.joins_in, Schedule.next_action, Schedule.AreAllSlotted, Schedule.AreSlottedFrom, Schedule.counts_at_once, Schedule.slot_of, Slots.IsFree, Slots.IsHeld, Slots.rows_in};

use crate::await_places::{AwaitPlaces, awaited_at};
use crate::level_order::{LevelOrder, action_in, key_of, value_in};
use fleet_model::{ActionId, Await, MAX_AGENTS, OutOfMemory, ProgramView, total_awaits};
use std::alloc::Global;
use std::marker::Model;

/// There is room for so many counts of rows at once, of four bytes each, or twice as many of two: 2.5 MiB.
const COUNTS: u32 = 655_360;

/// The least number of columns of a block.
const LEAST_COLUMNS: u32 = 8;

/// So many counts of two bytes the compiled loop joins at once: `columns_at_once` is less, or a multiple of this.
const WHOLE_COLUMNS: u32 = 16;

/// A row that is made: that of an action, joined of the row that stands for the agent's action before (`base`) and of
/// those that stand for the actions that it awaits. Rows count from 1, as they are made; row 0 is that of no action.
#[derive(Clone, Copy)]
pub(crate) struct Join {
    pub(crate) action: ActionId,
    pub(crate) base: u32,
    /// Where its awaits begin.
    first: usize,
    /// How many awaits the action has, at least one.
    pub(crate) count: usize,
}

/// What a join needs by one await: the row that stands for the action that is waited for.
#[derive(Clone, Copy)]
pub(crate) struct Need {
    pub(crate) row: u32,
    pub(crate) wait: Await,
}

/// The rows of a program: those of the actions that add a chain, each after all rows that it is joined of.
#[derive(Drop)]
pub(crate) struct Joins {
    /// For each row a key: its action, and beside it the row that stands for the agent's action before.
    keys: Vec<u64>,
    /// A key for each await of these actions, row after row: the awaited action, and the row that stands for it.
    awaits: Vec<u64>,
    /// Where the awaits of each row end, from row 0 on, which has none.
    ends: Vec<u32>,
}

impl Joins {
    /// The rows of a program whose actions have this order, and which of them stand for the actions. Those may be
    /// passed in it whose awaits are flagged in `implied`.
    pub(crate) fn of<P: ProgramView>(
        alloc: Global,
        program: &P,
        order: LevelOrder,
        implied: &[bool],
    ) -> Result<(Joins, Standing), OutOfMemory>
        requires { IsLevelOrder (P.program program.now) implied.now order }
        ensures { IfOk result (λ made.
            AreRowsBut (P.program program.now) implied.now made.0 made.1) }
    {
        // Of what is flagged the contract alone speaks.
        let _ = implied;
        let LevelOrder { places, mut keys } = order;
        keys.sort_unstable();
        if keys.len() >= u32::MAX as usize {
            return Err(OutOfMemory);
        }
        let standing = Standing::of(alloc, program, places, &keys)?;
        let joins = Joins::listed(alloc, program, &standing, keys)?;
        Ok((joins, standing))
    }

    /// The rows of the actions that these keys name, with what they are joined of.
    fn listed<P: ProgramView>(
        alloc: Global,
        program: &P,
        standing: &Standing,
        keys: Vec<u64>,
    ) -> Result<Joins, OutOfMemory>
        requires range { AreInRange (P.program program.now) }
        requires room { HasRoom (P.program program.now) standing.now }
        requires keys { AreKeys (P.program program.now) keys }
        ensures { IfOk result (AreAllListed (P.program program.now) (named_in keys) standing.now) }
    {
        let count = keys.len();
        let mut joins = Joins {
            keys,
            awaits: Vec::with_capacity(alloc, total_awaits(program) as usize)?,
            ends: vec![in alloc; 0; count + 1]?,
        };
        for n in 0..count {
            joins.list(program, standing, n)?;
        }
        Ok(joins)
    }

    /// Lists what the row after n others is joined of: the row for the action before, and those for its awaits.
    fn list<P: ProgramView>(
        &mut self,
        program: &P,
        standing: &Standing,
        n: usize,
    ) -> Result<(), OutOfMemory>
        requires within { n < length (rows_of self.old) }
        requires listed { AreListedTo
            (P.program program.now) (rows_of self.old) standing.now n self.old }
        ensures { OnOk result (AreListedTo
            (P.program program.now) (rows_of self.old) standing.now (n + 1) self.new) }
    {
        let _ = program.agents();
        let action = named(program, &self.keys, n);
        let before = ActionId {
            agent: action.agent,
            number: action.number - 1,
        };
        self.keys[n] = key_of(action, standing.row_of(program, before));
        let awaits = &mut self.awaits;
        for k in 0..program.await_count(action.agent, action.number) {
            let awaited = awaited_at(program, action, k);
            awaits.push(key_of(awaited, standing.row_of(program, awaited)))?;
        }
        let end = awaits.len();
        if end > u32::MAX as usize {
            return Err(OutOfMemory);
        }
        self.ends[n + 1] = end as u32;
        Ok(())
    }

    /// The row for the action before that the one after n others is joined of.
    fn base(&self, n: usize) -> u32
        requires { n < length (rows_of self.now) }
        ensures { result ≡ base_of self.now n }
    {
        value_in(self.keys[n])
    }

    /// Where the awaits of row n end.
    fn end(&self, n: usize) -> usize
        requires { n < vec_len self.now.ends }
        ensures { result ≡ end_of self.now n }
    {
        self.ends[n] as usize
    }

    /// What is needed by the await at a place.
    fn need(&self, place: usize) -> Need
        requires { place < vec_len self.now.awaits }
        ensures { result ≡ need_at self.now place }
    {
        let key = self.awaits[place];
        let ActionId { agent, number } = action_in(key);
        Need {
            row: value_in(key),
            wait: Await {
                agent,
                count: number,
            },
        }
    }
}

/// The action that a key names, in the order of these keys.
fn named<P: ProgramView>(program: &P, keys: &Vec<u64>, n: usize) -> ActionId
    requires keys { AreKeys (P.program program.now) keys.now }
    requires within { n < length (named_in keys.now) }
    ensures at { result ≡ action_at (named_in keys.now) n }
    ensures is { IsAwaiting (P.program program.now) result }
{
    // Of the program the contract alone speaks.
    let _ = program;
    action_in(keys[n])
}

/// The rows of a program, with the slots in which they are kept.
#[derive(Drop)]
pub struct Schedule {
    pub(crate) joins: Joins,
    /// For each row, from row 0 on, its slot.
    pub(crate) outs: Vec<u32>,
    /// How many slots there are.
    pub(crate) slots: u32,
    /// Whether counts take two bytes each.
    pub(crate) is_narrow: bool,
}

impl Schedule {
    /// How many rows are made.
    pub(crate) fn rows(&self) -> usize
        ensures { result ≡ joins_in self.now }
    {
        self.joins.keys.len()
    }

    /// The action of the join after n others.
    pub(crate) fn action(&self, n: usize) -> ActionId
        requires { n < joins_in self.now }
        ensures { result ≡ next_action self.now n }
    {
        action_in(self.joins.keys[n])
    }

    /// The join after n others.
    pub(crate) fn join_after<P: ProgramView>(&self, program: &P, n: usize) -> Join
        requires schedule { IsSchedule (P.program program.now) self.now }
        requires within { n < joins_in self.now }
        ensures { IsNextJoin (P.program program.now) self.now n (next_action self.now n) result }
    {
        // Of the program the contract alone speaks.
        let _ = program;
        let first = self.joins.end(n);
        Join {
            action: self.action(n),
            base: self.joins.base(n),
            first,
            count: self.joins.end(n + 1) - first,
        }
    }

    /// Need `k` of the join after n others.
    pub(crate) fn need<P: ProgramView>(&self, program: &P, n: usize, join: &Join, k: usize) -> Need
        requires join { IsNextJoin (P.program program.now)
            self.now n (next_action self.now n) join.now }
        requires place { k < join.now.count }
        ensures { IsNextNeed (P.program program.now) self.now n (next_action self.now n) k result }
    {
        // Of the program, and of how many rows are made, the contract alone speaks.
        let _ = program;
        let _ = n;
        self.joins.need(join.first + k)
    }

    /// Where the counts of a row stand in its slot, where rows are so wide.
    pub(crate) fn place<P: ProgramView>(&self, program: &P, r: usize, width: u16) -> usize
        requires schedule { IsSchedule (P.program program.now) self.now }
        requires within { r ≤ joins_in self.now }
        ensures is { result ≡ slot_of self.now r * width }
        ensures within { result + width ≤ self.now.slots * width }
    {
        // Of the program the contract alone speaks.
        let _ = program;
        self.outs[r] as usize * usize::from(width)
    }

    /// How many columns a block has at most: as many as all slots have room for, but at least 8.
    pub(crate) fn columns_at_once(&self) -> u16
        ensures least { LEAST_COLUMNS ≤ result }
        ensures most { result ≤ MAX_AGENTS }
        ensures room { LEAST_COLUMNS < result → result * self.now.slots ≤ counts_at_once self.now }
    {
        let counts = if self.is_narrow { 2 * COUNTS } else { COUNTS };
        let room = counts / self.slots.max(1);
        let most = room.clamp(LEAST_COLUMNS, MAX_AGENTS as u32);
        let over = most % WHOLE_COLUMNS;
        if most < WHOLE_COLUMNS {
            return most as u16;
        }
        (most - over) as u16
    }
}

/// Whether counts take two bytes each: if these hold the number of each action.
pub(crate) fn is_narrow<P: ProgramView>(program: &P) -> bool
    ensures { result ≡ true → (i : ℕ) → i < length (P.program program.now)
        → moves (P.program program.now) i ≤ u16.MAX }
{
    for i in 0..program.agents() {
        if program.moves(i) > u32::from(u16::MAX) {
            return false;
        }
    }
    true
}

/// For each action of a program the row that stands for it.
#[derive(Drop)]
pub(crate) struct Standing {
    places: AwaitPlaces,
    /// By the place of an action among rows, one more than its row.
    rows: Vec<u32>,
}

impl Model for Standing {
    ghost use Rattle.fleet_needs.specs.Joins.{RowTable};

    ghost Value = { RowTable };

    ghost view = { λ m. record { places = m.places; rows = m.rows.items } };
}

impl Standing {
    /// The rows that stand for the actions, if those have rows that these keys name, in their order.
    fn of<P: ProgramView>(
        alloc: Global,
        program: &P,
        places: AwaitPlaces,
        keys: &Vec<u64>,
    ) -> Result<Standing, OutOfMemory>
        requires places { AreAwaitPlaces (P.program program.now) places }
        requires keys { AreKeys (P.program program.now) keys.now }
        requires few { vec_len keys.now < u32.MAX }
        requires rows { HasAllRows (P.program program.now) (named_in keys.now) }
        ensures { IfOk result (AreStanding (P.program program.now) (named_in keys.now)) }
    {
        let agents = usize::from(program.agents());
        let mut rows = vec![in alloc; 0; total_awaits(program) as usize + agents]?;
        // Row 0 stands before the first action of each agent.
        for n in 0..agents + keys.len() {
            let is_none = n < agents;
            let place = if is_none {
                let agent = n as u16;
                places.row_place(program, ActionId { agent, number: 0 })
            } else {
                places.row_place(program, named(program, keys, n - agents))
            };
            let row = (n + 1).saturating_sub(agents);
            rows[place] = row as u32 + 1;
        }
        fill(&mut rows);
        Ok(Standing { places, rows })
    }

    /// The row that stands for an action, or, with the number 0, for none of its agent.
    pub(crate) fn row_of<P: ProgramView>(&self, program: &P, action: ActionId) -> u32
        requires room { HasRoom (P.program program.now) self.now }
        requires action { IsUpToLast (P.program program.now) action }
        ensures { result ≡ row_of (P.program program.now) self.now action }
    {
        self.rows[self.places.row_place(program, action)].saturating_sub(1)
    }
}

/// Gives to each place that has 0 what the one before has.
fn fill(noted: &mut Vec<u32>)
    ensures all { vec_len noted.new ≡ vec_len noted.old }
    ensures filled { (x : ℕ) → x < vec_len noted.old → IsFilled noted.old noted.new x }
{
    for place in 1..noted.len() {
        if noted[place] == 0 {
            noted[place] = noted[place - 1];
        }
    }
}

/// Slots for rows, which are given from the last row back to the first: what takes a row is made after it, so a row
/// that has no slot yet when another takes it is taken there for the last time. Row 0, never made, always has one.
#[derive(Drop)]
pub(crate) struct Slots {
    /// For each row, from row 0 on, its slot, once it has one.
    outs: Vec<u32>,
    /// For each slot, the row that has it.
    owners: Vec<Option<u32>>,
    free: Vec<u32>,
}

impl Model for Slots {
    ghost use Rattle.fleet_needs.specs.Slots.{SlotTable};

    ghost Value = { SlotTable };

    ghost view = { λ m. record { outs = m.outs.items; owners = m.owners.items } };
}

impl Slots {
    /// The slots of all rows of these joins, and how many slots there are.
    pub(crate) fn of(alloc: Global, joins: &Joins) -> Result<(Vec<u32>, u32), OutOfMemory>
        requires { AreInOrder joins.now }
        ensures { IfOk result (λ made. AreAllSlotted joins.now made.0 made.1) }
    {
        let rows = joins.keys.len();
        let mut slots = Slots {
            outs: vec![in alloc; 0; rows + 1]?,
            owners: Vec::new(alloc),
            free: Vec::new(alloc),
        };
        for n in (0..rows).rev() {
            slots.settle(joins, n)?;
        }
        slots.hold(0)?;
        let count = slots.owners.len();
        if count > u32::MAX as usize {
            return Err(OutOfMemory);
        }
        Ok((slots.outs, count as u32))
    }

    /// Gives a slot to the row of the join after n others, if no later one took it, and frees the slot: before the row
    /// is made another one may have it. Then gives slots to the rows that the join takes.
    fn settle(&mut self, joins: &Joins, n: usize) -> Result<(), OutOfMemory>
        requires { AreSlottedFrom joins.now (n + 1) self.old }
        ensures { OnOk result (AreSlottedFrom joins.now n self.new) }
    {
        self.hold(n as u32 + 1)?;
        let slot = self.outs[n + 1];
        self.owners[slot as usize] = None;
        self.free.push(slot)?;
        self.hold(joins.base(n))?;
        for x in joins.end(n)..joins.end(n + 1) {
            self.hold(joins.need(x).row)?;
        }
        Ok(())
    }

    /// Gives a slot to a row, if it has none: a free one, or a new one if none is left.
    fn hold(&mut self, row: u32) -> Result<(), OutOfMemory>
        requires { row < rows_in self.old }
        ensures { OnOk result (IsHeld row self.old self.new) }
    {
        let held = self.outs[row as usize] as usize;
        if held < self.owners.len() && self.owners[held] == Some(row) {
            return Ok(());
        }
        let slot = self.take_free()?;
        self.owners[slot as usize] = Some(row);
        self.outs[row as usize] = slot;
        Ok(())
    }

    /// A slot that no row has, which is new if no free one is left.
    fn take_free(&mut self) -> Result<u32, OutOfMemory>
        ensures { IfOk result (λ slot. IsFree slot self.old self.new) }
    {
        if let Some(slot) = self.free.pop() {
            if (slot as usize) < self.owners.len() && self.owners[slot as usize].is_none() {
                return Ok(slot);
            }
        }
        let slot = self.owners.len();
        if slot > u32::MAX as usize {
            return Err(OutOfMemory);
        }
        self.owners.push(None)?;
        Ok(slot as u32)
    }
}
