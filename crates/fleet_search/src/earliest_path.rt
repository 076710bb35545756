//! The earliest path of one agent past the reserved ones.

ghost use Rattle.std.specs.Prelude.{◌≡◌, ◌≤◌, IfOk, IfErr, IfSome, IfNone};
ghost use Rattle.fleet_grid.specs.Ground.{is_passable};
ghost use Rattle.fleet_search.specs.Search.{IsPosed, IsOpen};
ghost use Rattle.fleet_search.specs.Earliest.{IsEarliest, IsInfeasible};

use crate::distances::{Distances, Effort};
use crate::fault::SearchFault;
use crate::frontier::{BucketEnd, Frontier, Query};
use crate::reservations::Reservations;
use fleet_grid::Grid;
use fleet_model::Cell;
use fleet_plan::Path;
use std::alloc::Global;

/// The earliest path of the query: the buckets are expanded from the least on; after a bucket in which a node was added
/// the one before it is next.
fn search(frontier: &mut Frontier, query: &Query) -> Result<Path, SearchFault>
    requires asked { IsPosed query.now }
    requires goal_free_from { query.now.goal_free_from ≤ query.now.horizon }
    ensures ok { IfOk result (IsEarliest (is_passable query.now.grid.now) query.now.reserved.now
        query.now.start query.now.goal query.now.horizon) }
    ensures no_path { IfErr result (λ e. e ≡ SearchFault.NoPath
        → IsInfeasible (is_passable query.now.grid.now) query.now.reserved.now
        query.now.start query.now.goal query.now.horizon) }
{
    let heuristic = query.heuristic(query.start);
    let is_too_far = heuristic > query.horizon;
    if is_too_far {
        return Err(SearchFault::NoPath);
    }
    frontier.begin(query)?;
    let mut bucket = 0;
    while bucket <= query.horizon {
        match frontier.expand_bucket(query, bucket)? {
            BucketEnd::Goal(last) => return Ok(frontier.path_to(last)?),
            BucketEnd::Grew => bucket = bucket.saturating_sub(1),
            BucketEnd::Empty => bucket += 1,
        }
    }
    Err(SearchFault::NoPath)
}

/// The time from which on the goal is free, if that is by the horizon, both cells are passable, and nobody stands on
/// the start at time 0.
fn open_from(
    grid: &Grid,
    reserved: &Reservations,
    start: Cell,
    goal: Cell,
    horizon: u16,
) -> Option<u32>
    ensures some { IfSome result (IsOpen (is_passable grid.now) reserved.now start goal horizon) }
    ensures none { IfNone result
        (IsInfeasible (is_passable grid.now) reserved.now start goal horizon) }
{
    if !grid.passable(start) {
        return None;
    }
    if !grid.passable(goal) {
        return None;
    }
    if reserved.occupant(0, start).is_some() {
        return None;
    }
    let from = reserved.free_from(goal)?;
    let is_in_time = from <= u32::from(horizon);
    if is_in_time { Some(from) } else { None }
}

/// What `earliest` answers, on the map of the distances, with tables that earlier searches may have used.
pub fn earliest_over(
    reserved: &Reservations,
    distances: &mut Distances<'_>,
    frontier: &mut Frontier,
    start: Cell,
    goal: Cell,
    horizon: u16,
) -> Result<Path, SearchFault>
    ensures grid { distances.new.grid ≡ distances.old.grid }
    ensures ok { IfOk result
        (IsEarliest (is_passable distances.old.grid) reserved.now start goal horizon) }
    ensures no_path { IfErr result (λ e. e ≡ SearchFault.NoPath
        → IsInfeasible (is_passable distances.old.grid) reserved.now start goal horizon) }
{
    let grid = distances.grid();
    let Some(goal_free_from) = open_from(grid, reserved, start, goal, horizon) else {
        return Err(SearchFault::NoPath);
    };
    distances.compute(start, goal, goal_free_from, horizon)?;
    let query = Query {
        grid,
        reserved,
        table: reserved.table(),
        distances,
        start,
        goal,
        horizon: u32::from(horizon),
        goal_free_from,
    };
    let least = query.heuristic(start);
    let path = search(frontier, &query)?;
    distances.learn(Effort {
        delay: path.steps().saturating_sub(least),
        nodes: frontier.len(),
    });
    Ok(path)
}

/// A path from `start` at time 0 to `goal` that fits the reserved ones and arrives by the horizon, a time in steps, as
/// early as any that does (by safe intervals: Phillips & Likhachev 2011). Which of several such paths it is, is not
/// promised.
///
/// Errors: `NoPath` if there is no such path; `OutOfMemory`.
pub fn earliest(
    alloc: Global,
    grid: &Grid,
    reserved: &Reservations,
    start: Cell,
    goal: Cell,
    horizon: u16,
) -> Result<Path, SearchFault>
    ensures ok { IfOk result (IsEarliest (is_passable grid.now) reserved.now start goal horizon) }
    ensures no_path { IfErr result (λ e. e ≡ SearchFault.NoPath
        → IsInfeasible (is_passable grid.now) reserved.now start goal horizon) }
{
    let mut distances = Distances::new(alloc, grid)?;
    let mut frontier = Frontier::new(alloc);
    earliest_over(
        reserved,
        &mut distances,
        &mut frontier,
        start,
        goal,
        horizon,
    )
}
