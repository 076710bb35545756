//! The times at which a cell is occupied, the safe intervals between them, and the labels of these.

ghost use Rattle.std.specs.Prelude.{◌↔◌, ◌≤◌, ◌<◌, ◌+◌, ◌-◌, ℕ, length, IsTrue, IfSome, IfNone, ◌≡◌, get_or, OnOk, OnErr, suc, None};
ghost use Rattle.fleet_search.specs.Occupancies.{occupancy_at, IsPutIn, AreInOrder};
ghost use Rattle.fleet_search.specs.Intervals.{AreSuccessive, AreBegun, IsInInterval, IsEarliestWithin, IsEndAfter};
ghost use Rattle.std.specs.List.Sorted.{IsPartitionPoint};
ghost use Rattle.fleet_search.specs.declared.intervals.Occupancy.{Occupancy};
ghost use Rattle.fleet_search.specs.Labels.{no_interval_label, interval_label, earliest_in, IsLabelPut, IsLabelSet, IsSeen};

use fleet_grid::{Key, Lists, Table, set_in};
use fleet_model::OutOfMemory;
use std::alloc::Global;
use std::marker::Model;

/// Whether the time is in the safe interval of this number.
fn is_in_interval(occupancies: &[Occupancy], interval: usize, time: u32) -> bool
    requires order { AreSuccessive occupancies.now }
    requires bound { interval ≤ length occupancies.now }
    ensures { IsTrue result ↔ IsInInterval occupancies.now interval time }
{
    if interval > 0 && time <= occupancies[interval - 1].until {
        return false;
    }
    interval == occupancies.len() || time < occupancies[interval].from
}

/// The first time, from this one on, after the occupancy before the safe interval, if that has an end.
fn past_occupancy(occupancies: &[Occupancy], interval: usize, from: u32) -> Option<u32>
    requires bound { interval ≤ length occupancies.now }
    ensures later { IfSome result (λ t. from ≤ t) }
    ensures past { IfSome result (λ t. 1 ≤ interval
        → (occupancy_at occupancies.now (interval - 1)).until < t) }
    ensures first { IfSome result (λ t. (s : ℕ) → from ≤ s
        → IsInInterval occupancies.now interval s → t ≤ s) }
    ensures none { IfNone result ((s : ℕ) → IsInInterval occupancies.now interval s → ⊥) }
{
    if interval == 0 {
        return Some(from);
    }
    let until = occupancies[interval - 1].until;
    if until == FOREVER {
        return None;
    }
    Some(from.max(until + 1))
}

/// The first time, from this one on, that is in the safe interval, if there is one.
fn earliest_within(occupancies: &[Occupancy], interval: usize, from: u32) -> Option<u32>
    requires order { AreSuccessive occupancies.now }
    requires bound { interval ≤ length occupancies.now }
    ensures some { IfSome result (IsEarliestWithin occupancies.now interval from) }
    ensures none { IfNone result ((s : ℕ) → from ≤ s
        → IsInInterval occupancies.now interval s → ⊥) }
{
    let time = past_occupancy(occupancies, interval, from)?;
    if is_in_interval(occupancies, interval, time) {
        Some(time)
    } else {
        None
    }
}

/// The first time after this one that is in the safe interval, if there is one.
#[inline(always)]
pub fn earliest_after(occupancies: &[Occupancy], interval: usize, time: u16) -> Option<u32>
    requires order { AreSuccessive occupancies.now }
    requires bound { interval ≤ length occupancies.now }
    ensures some { IfSome result (IsEarliestWithin occupancies.now interval (time + 1)) }
    ensures none { IfNone result ((s : ℕ) → time + 1 ≤ s
        → IsInInterval occupancies.now interval s → ⊥) }
{
    let from = u32::from(time) + 1;
    earliest_within(occupancies, interval, from)
}

/// Whether the occupancy before the safe interval begins after the time.
pub fn begins_after(occupancies: &[Occupancy], interval: usize, time: u32) -> bool
    requires some { 1 ≤ interval }
    requires bound { interval ≤ length occupancies.now }
    ensures { IsTrue result ↔ (time < (occupancy_at occupancies.now (interval - 1)).from) }
{
    time < occupancies[interval - 1].from
}

/// A safe interval of a cell: how many occupancies there are before it, and when the next one begins (`FOREVER` if none
/// does).
#[derive(Clone, Copy)]
pub struct SafeInterval {
    pub number: usize,
    pub until: u32,
}

/// How many of the occupancies have begun by the time, and when the next one begins: `FOREVER` if none does.
pub fn interval_after(occupancies: &[Occupancy], time: u32) -> SafeInterval
    requires order { AreSuccessive occupancies.now }
    ensures begun { AreBegun occupancies.now time result.number }
    ensures end { IsEndAfter occupancies.now time result.until }
{
    let number = count_begun(occupancies, time);
    let until = if number < occupancies.len() {
        occupancies[number].from
    } else {
        FOREVER
    };
    SafeInterval { number, until }
}

/// The time that is never reached: the end of what has none.
pub const FOREVER: u32 = u32::MAX;

/// An agent's time on a cell: from the time at which it comes, to the last at which it is there. The last occupancy of
/// an agent is until `FOREVER`.
#[derive(Clone, Copy)]
pub struct Occupancy {
    pub from: u32,
    pub until: u32,
    pub agent: usize,
}

/// Whether all of the occupancies have begun by the time.
fn have_all_begun(occupancies: &[Occupancy], time: u32) -> bool
    requires { AreInOrder occupancies.now }
    ensures { IsTrue result → (i : ℕ) (d : Occupancy) → i < length occupancies.now
        → (get_or occupancies.now i d).from ≤ time }
{
    match occupancies.last() {
        None => true,
        Some(last) => last.from <= time,
    }
}

/// How many of the occupancies have begun by the time.
pub fn count_begun(occupancies: &[Occupancy], time: u32) -> usize
    requires { AreInOrder occupancies.now }
    ensures point { IsPartitionPoint (λ s. s.from ≤ time) (λ s. time < s.from)
        occupancies.now result }
    ensures bound { result ≤ length occupancies.now }
{
    // On a busy cell most occupancies are over, which the last one shows.
    if have_all_begun(occupancies, time) {
        return occupancies.len();
    }
    occupancies.partition_point(|occupancy| occupancy.from <= time)
}

/// Puts the occupancy where it belongs in the order of time. A refusal changes nothing.
pub fn place(occupancies: &mut Vec<Occupancy>, occupancy: Occupancy) -> Result<(), OutOfMemory>
    requires { AreInOrder occupancies.old.items }
    ensures ok { OnOk result (IsPutIn occupancies.old.items occupancies.new.items occupancy) }
    ensures err { OnErr result (occupancies.new.items ≡ occupancies.old.items) }
{
    let index = count_begun(occupancies.as_slice(), occupancy.from);
    occupancies.insert(index, occupancy)?;
    Ok(())
}

// Labels of safe intervals: when a search has come there at the earliest.

/// The earliest time, in steps, at which the search of this number comes to a safe interval.
#[derive(Clone, Copy)]
pub struct IntervalLabel {
    pub search: u16,
    pub time: u16,
}

/// No search has come to the interval.
const NONE: IntervalLabel = IntervalLabel { search: 0, time: 0 };

/// For each safe interval of each cell its label.
#[derive(Drop)]
pub struct LabelTable {
    pub alloc: Global,
    /// For each cell the label of its first interval.
    pub first: Table<IntervalLabel>,
    /// For each cell the labels of its later intervals.
    pub later: Lists<IntervalLabel>,
}

impl LabelTable {
    /// No interval has a label. Takes no memory.
    fn new(alloc: Global) -> LabelTable
        ensures { (cell : ℕ) (interval : ℕ) → interval_label result cell interval ≡ no_interval_label }
    {
        LabelTable {
            alloc,
            first: Table::new(alloc, NONE),
            later: Lists::new(alloc),
        }
    }

    /// The label of this interval.
    fn label(&self, cell: usize, interval: usize) -> IntervalLabel
        ensures { result ≡ interval_label self.now cell interval }
    {
        if interval == 0 {
            self.first.get(cell)
        } else {
            self.later(cell, interval - 1)
        }
    }

    /// The label at a place of the cell's list.
    fn later(&self, cell: usize, place: usize) -> IntervalLabel
        ensures { result ≡ interval_label self.now cell (suc place) }
    {
        label_at(self.later.list(Key::of_number(cell)), place)
    }

    /// Puts the label of this interval.
    fn put(&mut self, cell: usize, interval: usize, label: IntervalLabel) -> Result<(), OutOfMemory>
        requires { interval < 4294967295 }
        ensures { OnOk result (IsLabelPut self.old self.new cell interval label) }
    {
        if interval == 0 {
            self.put_first(cell, label)
        } else {
            self.put_later(cell, interval - 1, label)
        }
    }

    /// Puts the label of the cell's first interval.
    fn put_first(&mut self, cell: usize, label: IntervalLabel) -> Result<(), OutOfMemory>
        ensures { OnOk result (IsLabelPut self.old self.new cell 0 label) }
    {
        self.first.set(cell, label)?;
        Ok(())
    }

    /// Puts the label at a place of the cell's list.
    fn put_later(
        &mut self,
        cell: usize,
        place: usize,
        label: IntervalLabel,
    ) -> Result<(), OutOfMemory>
        requires { place < 4294967295 }
        ensures { OnOk result (IsLabelPut self.old self.new cell (suc place) label) }
    {
        let key = Key::of_number(cell);
        self.later
            .change(key, |labels| set_in(labels, place, label, NONE))?
    }
}

/// The label at a place of the row.
fn label_at(row: &[IntervalLabel], place: usize) -> IntervalLabel
    ensures { result ≡ get_or row.now place no_interval_label }
{
    match row.get(place) {
        Some(label) => *label,
        None => NONE,
    }
}

/// For each safe interval of each cell the earliest time at which the latest search has come there. Labels of earlier
/// searches stay in the table, where their numbers tell them apart.
#[derive(Drop)]
pub struct Labels {
    search: u16,
    table: LabelTable,
}

impl Model for Labels {
    ghost use Rattle.fleet_search.specs.Labels.{LabelState, AreLabels};

    ghost Value = { LabelState };

    ghost view = { λ l. record { search = l.search; table = l.table } };

    ghost invariant = { λ l. AreLabels (record { search = l.search; table = l.table }) };
}

impl Labels {
    /// No search has begun. What is answered before the first one begins is of no use. Takes no memory.
    pub fn new(alloc: Global) -> Labels {
        Labels {
            search: 0,
            table: LabelTable::new(alloc),
        }
    }

    /// The earliest time at which the search has come to this safe interval of the cell.
    fn earliest(&self, cell: usize, interval: usize) -> Option<u16>
        ensures { result ≡ earliest_in self.now cell interval }
    {
        let label = self.table.label(cell, interval);
        if label.search == self.search {
            Some(label.time)
        } else {
            None
        }
    }

    /// Whether the search has come to this safe interval of the cell by the time.
    pub fn is_reached(&self, cell: usize, interval: usize, time: u32) -> bool
        ensures { IsTrue result ↔ IsSeen (earliest_in self.now cell interval) time }
    {
        match self.earliest(cell, interval) {
            Some(earliest) => u32::from(earliest) <= time,
            None => false,
        }
    }

    /// Notes that the search comes to this safe interval of the cell at the time. If memory is refused, all labels are
    /// taken off, and another search has to begin.
    pub fn note(&mut self, cell: usize, interval: usize, time: u16) -> Result<(), OutOfMemory>
        requires { interval < 4294967295 }
        ensures { OnOk result
            (IsLabelSet (earliest_in self.old) (earliest_in self.new) cell interval time) }
    {
        let search = self.search;
        let noted = self
            .table
            .put(cell, interval, IntervalLabel { search, time });
        if noted.is_err() {
            self.table = LabelTable::new(self.table.alloc);
        }
        noted
    }

    /// Begins a search, which has come nowhere. After the greatest number all labels are taken off.
    pub fn begin(&mut self)
        ensures { (cell : ℕ) (interval : ℕ) → earliest_in self.new cell interval ≡ None }
    {
        let is_last = self.search == u16::MAX;
        if is_last {
            self.table = LabelTable::new(self.table.alloc);
            self.search = 0;
        }
        self.search += 1;
    }
}
