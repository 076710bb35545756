//! The counts of rows, kept in two bytes each if all of a schedule fit in these, and else in four. Those of two bytes
//! are joined in a plain loop, those of four by lanes of eight (`std::simd`, in its own function), the rest singly.

ghost use Rattle.std.specs.Prelude.{◌≡◌, ◌+◌, ◌<◌, ◌≤◌, ℕ, length, max, slice_index, IfOk, get_or};
ghost use Rattle.fleet_needs.specs.{Counts.AreGreater, Counts.AreMost, Counts.AreWritten, Counts.AreZeros, Counts.CanHold, Counts.IsPut, Counts.IsSet, Counts.count_from, Counts.counts_of, Counts.from_place, Counts.made_row, Kernels.AreJoined};

use fleet_model::OutOfMemory;
use std::alloc::Global;
use std::simd::prelude::*;

/// The counts of all rows that are kept, one row after another, and of the row that is made.
pub(crate) enum Counts {
    Narrow { all: Vec<u16>, row: Vec<u16> },
    Wide { all: Vec<u32>, row: Vec<u32> },
}

impl Drop for Counts {
    fn drop(self) {
        match self {
            Counts::Narrow { all, row } => {
                drop(all);
                drop(row);
            }
            Counts::Wide { all, row } => {
                drop(all);
                drop(row);
            }
        }
    }
}

impl Counts {
    /// So many zeros, and a row of zeros that is so wide.
    pub(crate) fn zeros(
        alloc: Global,
        len: usize,
        width: usize,
        is_narrow: bool,
    ) -> Result<Counts, OutOfMemory>
        ensures { IfOk result (AreZeros len width is_narrow) }
    {
        if is_narrow {
            let all = vec![in alloc; 0; len]?;
            let row = vec![in alloc; 0; width]?;
            return Ok(Counts::Narrow { all, row });
        }
        let all = vec![in alloc; 0; len]?;
        let row = vec![in alloc; 0; width]?;
        Ok(Counts::Wide { all, row })
    }

    /// The count of the row at a place.
    pub(crate) fn get(&self, k: usize) -> u32
        requires { k < length (made_row self.now) }
        ensures { result ≡ slice_index (made_row self.now) k }
    {
        match self {
            Counts::Narrow { row, .. } => u32::from(row[k]),
            Counts::Wide { row, .. } => row[k],
        }
    }

    /// Sets the count of the row at a place.
    pub(crate) fn set(&mut self, k: usize, count: u32)
        requires within { k < length (made_row self.old) }
        requires hold { CanHold self.old count }
        ensures { IsSet k count self.old self.new }
    {
        match self {
            Counts::Narrow { row, .. } => row[k] = count as u16,
            Counts::Wide { row, .. } => row[k] = count,
        }
    }

    /// Reads the row: at each place the greater one of the counts from two places on.
    pub(crate) fn read_joined(&mut self, first: usize, second: usize)
        requires first { first + length (made_row self.old) ≤ length (counts_of self.old) }
        requires second { second + length (made_row self.old) ≤ length (counts_of self.old) }
        ensures { AreGreater (count_from self.old first) (count_from self.old second)
            self.old self.new }
    {
        match self {
            Counts::Narrow { all, row } => read_narrow(row, all, first, second),
            Counts::Wide { all, row } => read_wide(row, all, first, second),
        }
    }

    /// Joins the counts from this place on into the row.
    pub(crate) fn join(&mut self, from: usize)
        requires { from + length (made_row self.old) ≤ length (counts_of self.old) }
        ensures { AreGreater (slice_index (made_row self.old)) (count_from self.old from)
            self.old self.new }
    {
        match self {
            Counts::Narrow { all, row } => join_narrow(row, all, from),
            Counts::Wide { all, row } => join_wide(row, all, from),
        }
    }

    /// Keeps the row, from this place on.
    pub(crate) fn write(&mut self, from: usize)
        requires { from + length (made_row self.old) ≤ length (counts_of self.old) }
        ensures { AreWritten from self.old self.new }
    {
        match self {
            Counts::Narrow { all, row } => write_row(all, from, row),
            Counts::Wide { all, row } => write_row(all, from, row),
        }
    }
}

/// Reads the counts of `row` from others: at each place the greater one of those from two places on.
fn read_narrow(row: &mut [u16], counts: &[u16], first: usize, second: usize)
    requires first { first + length row.old ≤ length counts.now }
    requires second { second + length row.old ≤ length counts.now }
    ensures { AreMost (from_place counts.now first) (from_place counts.now second) row.old row.new }
{
    let one = &counts[first..first + row.len()];
    let other = &counts[second..second + row.len()];
    for k in 0..row.len() {
        row[k] = one[k].max(other[k]);
    }
}

/// The same of counts in four bytes each.
fn read_wide(row: &mut [u32], counts: &[u32], first: usize, second: usize)
    requires first { first + length row.old ≤ length counts.now }
    requires second { second + length row.old ≤ length counts.now }
    ensures { AreMost (from_place counts.now first) (from_place counts.now second) row.old row.new }
{
    let end = first + row.len();
    row.copy_from_slice(&counts[first..end]);
    join_wide(row, counts, second);
}

/// Joins counts from a place on into those of `row`: at each place the greater one.
fn join_narrow(row: &mut [u16], counts: &[u16], from: usize)
    requires { from + length row.old ≤ length counts.now }
    ensures { AreMost (slice_index row.old) (from_place counts.now from) row.old row.new }
{
    let other = &counts[from..from + row.len()];
    for k in 0..row.len() {
        row[k] = row[k].max(other[k]);
    }
}

/// The same of counts in four bytes each.
fn join_wide(row: &mut [u32], counts: &[u32], from: usize)
    requires { from + length row.old ≤ length counts.now }
    ensures { AreMost (slice_index row.old) (from_place counts.now from) row.old row.new }
{
    let end = from + row.len();
    join_rows(row, &counts[from..end]);
}

/// Writes a row from this place on.
fn write_row<T: Copy>(counts: &mut [T], from: usize, row: &[T])
    requires { from + length row.now ≤ length counts.old }
    ensures { IsPut from row.now counts.old counts.new }
{
    counts[from..from + row.len()].copy_from_slice(row);
}

/// How many counts are joined at once.
const LANES: usize = 8;

/// Leaves in `row`, at each place, the greater count of the two rows, which are equally long. Takes no memory.
pub fn join_rows(row: &mut [u32], other: &[u32])
    requires { length other.now ≡ length row.old }
    ensures { (k : ℕ) → k < length row.old
        → get_or row.new k 0 ≡ max (get_or row.old k 0) (get_or other.now k 0) }
{
    let whole = join_lanes(row, other);
    for k in whole..row.len() {
        row[k] = row[k].max(other[k]);
    }
}

/// The same up to the end of the last whole lane, which it answers.
fn join_lanes(row: &mut [u32], other: &[u32]) -> usize
    requires { length other.now ≡ length row.old }
    ensures within { result ≤ length row.old }
    ensures whole { length row.old < result + LANES }
    ensures joined { AreJoined row.old other.now row.new 0 result }
    ensures rest { (k : ℕ) → result ≤ k → get_or row.new k 0 ≡ get_or row.old k 0 }
{
    let mut from = 0;
    while row.len() - from >= LANES {
        join_lane(row, other, from);
        from += LANES;
    }
    from
}

/// The same for one lane, from this place on.
fn join_lane(row: &mut [u32], other: &[u32], from: usize)
    requires same { length other.now ≡ length row.old }
    requires lane { from + LANES ≤ length row.old }
    ensures joined { AreJoined row.old other.now row.new from (from + LANES) }
    ensures before { (k : ℕ) → k < from → get_or row.new k 0 ≡ get_or row.old k 0 }
    ensures after { (k : ℕ) → from + LANES ≤ k → get_or row.new k 0 ≡ get_or row.old k 0 }
{
    let joined = u32x8::from_slice(&row[from..]).simd_max(u32x8::from_slice(&other[from..]));
    joined.copy_to_slice(&mut row[from..]);
}
