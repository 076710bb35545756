//! Rows of counts, of four bytes each, that are compared eight counts at a time.

ghost use Rattle.std.specs.Prelude.{◌≡◌, ◌+◌, ◌≤◌, length, ◌↔◌, IsTrue};
ghost use Rattle.fleet_verify.specs.Covers.{AreCovered};

use std::simd::prelude::*;

/// How many counts are compared at once.
const LANES: usize = 8;

/// Whether at each place the count of `row` is at least that of `other`, which is equally long. Takes no memory.
pub fn row_covers(row: &[u32], other: &[u32]) -> bool
    requires { length other.now ≡ length row.now }
    ensures { IsTrue result ↔ AreCovered row.now other.now 0 (length row.now) }
{
    let mut from = 0;
    while row.len() - from >= LANES {
        if !lane_covers(row, other, from) {
            return false;
        }
        from += LANES;
    }
    rest_covers(row, other, from)
}

/// The same for one lane, from this place on.
fn lane_covers(row: &[u32], other: &[u32], from: usize) -> bool
    requires same { length other.now ≡ length row.now }
    requires lane { from + LANES ≤ length row.now }
    ensures { IsTrue result ↔ AreCovered row.now other.now from (from + LANES) }
{
    let less = u32x8::from_slice(&row[from..]).simd_lt(u32x8::from_slice(&other[from..]));
    less.to_bitmask() == 0
}

/// The same from this place to the end.
fn rest_covers(row: &[u32], other: &[u32], from: usize) -> bool
    requires same { length other.now ≡ length row.now }
    ensures { IsTrue result ↔ AreCovered row.now other.now from (length row.now) }
{
    for k in from..row.len() {
        if row[k] < other[k] {
            return false;
        }
    }
    true
}
