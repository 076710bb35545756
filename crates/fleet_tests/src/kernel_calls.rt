//! Rows of counts that are joined and compared, of lengths around those of whole lanes.

use crate::due::due_numbers;
use fleet_verify::{join_rows, row_covers};
use std::alloc::{AllocError, Global};
use std::test::Fail;

/// So many counts, that of place k by this step.
fn counts(alloc: Global, len: usize, step: u32) -> Result<Vec<u32>, AllocError> {
    let mut row = Vec::new(alloc);
    let mut count = 3u32;
    for _ in 0..len {
        row.push(count)?;
        count = count.wrapping_mul(step) % 11;
    }
    Ok(row)
}

/// Whether two rows of these steps are joined place by place.
fn joins(alloc: Global, len: usize, steps: (u32, u32)) -> Result<bool, AllocError> {
    let one = counts(alloc, len, steps.0)?;
    let other = counts(alloc, len, steps.1)?;
    let mut joined = counts(alloc, len, steps.0)?;
    if other.len() != joined.len() {
        return Ok(false);
    }
    join_rows(&mut joined, &other);
    for (count, (one, other)) in joined.iter().zip(one.iter().zip(other.iter())) {
        if *count != *one.max(other) {
            return Ok(false);
        }
    }
    Ok(joined.len() == len)
}

/// Whether a row of fives is found to cover its like, and none that has a greater count at one place.
fn compares(alloc: Global, len: usize) -> Result<bool, AllocError> {
    let fives = vec![in alloc; 5u32; len]?;
    let mut others = vec![in alloc; 5u32; len]?;
    if !row_covers(&fives, &others) {
        return Ok(false);
    }
    for k in 0..len {
        others[k] = 6;
        if row_covers(&fives, &others) || !row_covers(&others, &fives) {
            return Ok(false);
        }
        others[k] = 5;
    }
    Ok(true)
}

#[test]
fn rows_are_joined_and_compared(rt: HostRuntime) -> Result<(), Fail> {
    for len in [0, 1, 3, 4, 7, 8, 9, 1024] {
        assert!(rt;
            joins(rt.alloc(), len, (7, 5))? && joins(rt.alloc(), len, (6, 10))?,
            "{len}"
        );
        assert!(rt; compares(rt.alloc(), len)?, "{len}");
    }
    let mut row = [3, 0, 5];
    let other = [1, 4, 5];
    assert!(rt; !row_covers(&row, &other) && !row_covers(&other, &row));
    join_rows(&mut row, &other);
    due_numbers(&rt, &row, &[3, 4, 5]);
    assert!(rt; row_covers(&row, &other) && !row_covers(&other, &row));
    Ok(())
}
