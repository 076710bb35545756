//! The search over states, that is cells at times: the nodes that were made, their places in the list of all, and those
//! that are still to be expanded.
//!
//! An agent that comes to a cell may wait there for as long as nobody else comes. So of the times in a safe interval,
//! between the occupancies of a cell by others, only the earliest counts (safe intervals: Phillips & Likhachev 2011).

ghost use Rattle.std.specs.Prelude.{◌≡◌, ◌+◌, ◌-◌, ◌<◌, ◌≤◌, ◌↔◌, ℕ, IsTrue, IfSome, IfNone, IfOk, OnOk, Some, None, [], length, get_or, ◌≢◌, ◌++◌, ◌∷◌, OnErr};
ghost use Rattle.fleet_model.specs.Geometry.{place_of};
ghost use Rattle.fleet_grid.specs.Ground.{is_passable};
ghost use Rattle.fleet_grid.specs.Table.{items_at};
ghost use Rattle.fleet_model.specs.declared.geometry.Cell.{Cell};
ghost use Rattle.fleet_model.specs.declared.limits.TheConstants.{MAX_HORIZON};
ghost use Rattle.fleet_search.specs.Reserved.{IsUnoccupied};
ghost use Rattle.fleet_search.specs.Way.{StepFits};
ghost use Rattle.fleet_search.specs.Intervals.{IsInInterval};
ghost use Rattle.fleet_search.specs.Labels.{earliest_in, IsSeen};
ghost use Rattle.fleet_search.specs.Rows.{bucket_of, lists_of, IsPut};
ghost use Rattle.fleet_search.specs.Frontier.{IsAdded, IsNodeTaken, IsBucketDone};
ghost use Rattle.fleet_search.specs.Search.{heuristic_of, no_node, occupancies_on, IsMeasured, IsGoalState, IsBucket, WasOpen, IsExpansion, Finds, IsFrontierOf, HasExpanded, IsPosed, IsSearched, IsTrailOf, IsFreeUntil, IsFoundAt, IsFoundIn, IsFoundFrom, IsFoundInDir, IsNeighbour, HasEnded, IsSuperseded};
ghost use Rattle.fleet_search.specs.Links.{place_in};

use crate::distances::Distances;
use crate::intervals::{
    FOREVER, Labels, Occupancy, SafeInterval, begins_after, count_begun, earliest_after,
    interval_after,
};
use crate::reservations::{ReservationTable, Reservations};
use fleet_grid::{Grid, extend_to};
use fleet_model::{Cell, Dir, OutOfMemory};
use fleet_plan::Path;
use std::alloc::Global;
use std::marker::Model;

/// A cell at a time, which is no later than a horizon may be.
#[derive(Clone, Copy)]
pub struct State {
    pub time: u16,
    pub cell: Cell,
}

/// The query of a search: for a path from `start` to `goal` that arrives by the horizon, and not before
/// `goal_free_from`.
#[derive(Drop)]
pub struct Query<'a> {
    pub grid: &'a Grid,
    pub reserved: &'a Reservations,
    /// For each cell the occupancies of the reserved agents there.
    pub table: &'a ReservationTable,
    pub distances: &'a Distances<'a>,
    pub start: Cell,
    pub goal: Cell,
    pub horizon: u32,
    pub goal_free_from: u32,
}

impl Query<'_> {
    /// How many moves lead from the cell to the goal at least.
    pub fn heuristic(&self, cell: Cell) -> u32
        requires measured { IsMeasured self.now }
        requires cell { IsTrue (is_passable self.now.grid.now (place_of cell)) }
        ensures value { result ≡ heuristic_of self.now cell }
        ensures limit { result ≤ MAX_HORIZON + 1 }
    {
        self.distances.heuristic(cell)
    }

    /// The occupancies of the reserved agents on the cell, in the order of time.
    fn occupancies(&self, cell: Cell) -> &[Occupancy]
        ensures { result.now ≡ occupancies_on self.now cell }
    {
        self.table.occupancies(cell)
    }

    /// The safe interval in which the state is: until its end the agent may wait there.
    fn interval(&self, state: State) -> SafeInterval
        requires measured { IsMeasured self.now }
        requires free { IsUnoccupied self.now.reserved.now state.time state.cell }
        ensures inside { IsInInterval (occupancies_on self.now state.cell)
            result.number state.time }
        ensures until { IsFreeUntil self.now state result.until }
    {
        interval_after(self.occupancies(state.cell), u32::from(state.time))
    }

    /// Whether the step to the cell that begins at the time fits, if nobody is on the cell at its end.
    fn fits(&self, left: Expansion, cell: Cell, begin: u32) -> bool
        requires few { begin < FOREVER }
        requires until { IsFreeUntil self.now left.state left.until }
        requires waits { left.state.time ≤ begin }
        requires free { IsUnoccupied self.now.reserved.now (begin + 1) cell }
        ensures { IsTrue result ↔ StepFits self.now.reserved.now begin left.state.cell cell }
    {
        // At the end of the step nobody is on the cell that it leaves.
        let is_free_on = begin + 1 < left.until;
        if is_free_on {
            return true;
        }
        self.reserved.step_fits(begin, left.state.cell, cell)
    }

    /// Whether the agent may come to rest at the state.
    #[inline(always)]
    fn is_goal(&self, state: State) -> bool
        ensures { IsTrue result ↔ IsGoalState self.now state }
    {
        state.cell == self.goal && self.goal_free_from <= u32::from(state.time)
    }

    /// The bucket of a state at this time, from whose cell so many moves lead to the goal at least.
    fn bucket(&self, time: u32, heuristic: u32) -> u32
        requires horizon { time + heuristic ≤ MAX_HORIZON }
        ensures { (cell : Cell) → heuristic ≡ heuristic_of self.now cell
            → IsBucket self.now (record { time = time; cell = cell }) result }
    {
        if time + heuristic <= self.goal_free_from {
            heuristic
        } else {
            time + heuristic
        }
    }
}

/// A state that was reached, and the node from which it was reached (the first one for the start).
#[derive(Clone, Copy)]
pub struct Node {
    pub state: State,
    pub parent: Link,
}

/// A node that is being expanded: its place in the list, and until when the agent may wait there.
#[derive(Clone, Copy)]
pub struct Expansion {
    pub place: u32,
    pub state: State,
    pub until: u32,
}

/// A cell beside that of the node that is expanded, with the occupancies of the reserved agents there.
#[derive(Clone, Copy)]
pub struct Neighbour<'a> {
    pub cell: Cell,
    pub occupancies: &'a [Occupancy],
}

/// How the expansion of a bucket has ended.
#[derive(Clone, Copy)]
pub enum BucketEnd {
    /// The node at this place is at the goal, and may stay there.
    Goal(u32),
    /// A node was added.
    Grew,
    /// Nothing is left in the bucket.
    Empty,
}

/// The nodes of a search, and those of them that are open.
#[derive(Drop)]
pub struct Frontier {
    alloc: Global,
    nodes: Vec<Node>,
    /// For each safe interval of a cell the earliest time at which a node was made in it.
    labels: Labels,
    /// The places of the nodes that are still to be expanded, bucket by bucket.
    open_list: Vec<Vec<u32>>,
}

impl Model for Frontier {
    ghost use Rattle.fleet_search.specs.Rows.{lists_of};
    ghost use Rattle.fleet_search.specs.Frontier.{Exploration, AreNodePlaces};

    ghost Value = { Exploration };

    ghost view = { λ f. record {
      nodes = f.nodes.items;
      labels = f.labels;
      open_list = lists_of f.open_list.items;
    } };

    ghost invariant = { λ f. AreNodePlaces f.nodes.items (lists_of f.open_list.items) };
}

impl Frontier {
    /// No nodes. Takes no memory.
    pub fn new(alloc: Global) -> Frontier
        ensures { result.nodes ≡ [] }
    {
        Frontier {
            alloc,
            nodes: Vec::new(alloc),
            labels: Labels::new(alloc),
            open_list: Vec::new(alloc),
        }
    }

    /// How many nodes were made.
    pub fn len(&self) -> usize
        ensures { result ≡ length self.now.nodes }
    {
        self.nodes.len()
    }

    /// The node at the place.
    #[inline(always)]
    fn node(&self, place: u32) -> Node
        requires { place < length self.now.nodes }
        ensures { result ≡ get_or self.now.nodes place no_node }
    {
        self.nodes[place as usize]
    }

    /// Whether the search has come to this safe interval of the cell by the time.
    #[inline(always)]
    fn is_reached(&self, cell: usize, interval: usize, time: u32) -> bool
        ensures { IsTrue result ↔ IsSeen (earliest_in self.now.labels cell interval) time }
    {
        self.labels.is_reached(cell, interval, time)
    }

    /// Adds the node, which is open in the bucket, and notes its time for the safe interval of the cell.
    #[inline(always)]
    fn add(
        &mut self,
        node: Node,
        cell: usize,
        interval: usize,
        bucket: u32,
    ) -> Result<(), OutOfMemory>
        requires interval { interval < 4294967295 }
        requires bucket { bucket < 4294967295 }
        ensures { OnOk result (IsAdded self.old self.new node cell interval bucket) }
    {
        let place = self.nodes.len();
        if place > u32::MAX as usize {
            return Err(OutOfMemory);
        }
        self.nodes.push(node)?;
        self.labels.note(cell, interval, node.state.time)?;
        put_in_row(self.alloc, &mut self.open_list, bucket, place as u32)?;
        Ok(())
    }

    /// Takes off the bucket the node that was put there last, and answers its place.
    #[inline(always)]
    fn take(&mut self, bucket: u32) -> Option<u32>
        ensures some { IfSome result (IsNodeTaken self.old self.new bucket) }
        ensures none { IfNone result (IsBucketDone self.old self.new bucket) }
    {
        take_from_row(&mut self.open_list, bucket)
    }

    /// Forgets all nodes.
    fn clear(&mut self)
        ensures nodes { self.new.nodes ≡ [] }
        ensures labels { (cell : ℕ) (interval : ℕ)
            → earliest_in self.new.labels cell interval ≡ None }
        ensures open_list { (k : ℕ) → bucket_of self.new.open_list k ≡ [] }
    {
        self.nodes.clear();
        self.labels.begin();
        clear_rows(&mut self.open_list);
    }

    /// Adds a node for the cell in the safe interval, reached by the step that begins at the time, if that fits and is
    /// not too late, and the interval was not reached by then.
    #[inline(always)]
    fn push_successor(
        &mut self,
        query: &Query,
        bucket: u32,
        left: Expansion,
        neighbour: &Neighbour,
        interval: usize,
        begin: u32,
    ) -> Result<(), OutOfMemory>
        requires leaving { IsExpansion query.now bucket left self.old }
        requires waits { left.state.time ≤ begin }
        requires free { begin < left.until }
        requires interval { IsInInterval neighbour.now.occupancies.now interval (begin + 1) }
        requires neighbour { IsNeighbour query.now left.state.cell neighbour.now }
        ensures { OnOk result (Finds query.now bucket left
            (IsFoundAt query.now left.state neighbour.now.cell begin) self.old self.new) }
    {
        if begin >= query.horizon {
            return Ok(());
        }
        let time = begin + 1;
        let cell = neighbour.cell;
        let number = query.grid.cell_index(cell);
        if self.is_reached(number, interval, time) {
            return Ok(());
        }
        let heuristic = query.heuristic(cell);
        if time + heuristic > query.horizon {
            return Ok(());
        }
        if !query.fits(left, cell, begin) {
            return Ok(());
        }
        let state = State {
            time: time as u16,
            cell,
        };
        let node = Node {
            state,
            parent: Link::to(left.place),
        };
        self.add(node, number, interval, query.bucket(time, heuristic))?;
        Ok(())
    }

    /// The same for the earliest time in the safe interval at which the agent may come to the cell.
    #[inline(always)]
    fn successor_in(
        &mut self,
        query: &Query,
        bucket: u32,
        left: Expansion,
        neighbour: &Neighbour,
        interval: usize,
    ) -> Result<(), OutOfMemory>
        requires leaving { IsExpansion query.now bucket left self.old }
        requires interval { interval ≤ length neighbour.now.occupancies.now }
        requires neighbour { IsNeighbour query.now left.state.cell neighbour.now }
        ensures { OnOk result (Finds query.now bucket left
            (IsFoundIn query.now left.state neighbour.now.cell interval) self.old self.new) }
    {
        let Some(time) = earliest_after(neighbour.occupancies, interval, left.state.time) else {
            return Ok(());
        };
        let is_late = time > left.until;
        if is_late {
            return Ok(());
        }
        self.push_successor(query, bucket, left, neighbour, interval, time - 1)?;
        Ok(())
    }

    /// The same for each safe interval in which the agent may come to the cell.
    fn successors_at(
        &mut self,
        query: &Query,
        bucket: u32,
        left: Expansion,
        neighbour: &Neighbour,
    ) -> Result<(), OutOfMemory>
        requires leaving { IsExpansion query.now bucket left self.old }
        requires neighbour { IsNeighbour query.now left.state.cell neighbour.now }
        ensures { OnOk result (Finds query.now bucket left
            (IsFoundFrom query.now left.state neighbour.now.cell) self.old self.new) }
    {
        if neighbour.occupancies.is_empty() {
            return self.successor_in(query, bucket, left, neighbour, 0);
        }
        let first = count_begun(neighbour.occupancies, u32::from(left.state.time) + 1);
        for interval in first..neighbour.occupancies.len() + 1 {
            if interval > first && begins_after(neighbour.occupancies, interval, left.until) {
                return Ok(());
            }
            self.successor_in(query, bucket, left, neighbour, interval)?;
        }
        Ok(())
    }

    /// The same for the neighbour in one direction.
    fn successors_towards(
        &mut self,
        query: &Query,
        bucket: u32,
        left: Expansion,
        dir: Dir,
    ) -> Result<(), OutOfMemory>
        requires leaving { IsExpansion query.now bucket left self.old }
        ensures { OnOk result (Finds query.now bucket left
            (IsFoundInDir query.now left.state dir) self.old self.new) }
    {
        match query.grid.neighbour(left.state.cell, dir) {
            None => Ok(()),
            Some(cell) => {
                let occupancies = query.occupancies(cell);
                self.successors_at(query, bucket, left, &Neighbour { cell, occupancies })
            }
        }
    }

    /// Whether the cell was reached sooner in the safe interval of this number, in which the state at this place is.
    fn is_superseded(
        &self,
        query: &Query,
        bucket: u32,
        place: u32,
        state: State,
        interval: usize,
    ) -> bool
        requires frontier { IsFrontierOf query.now (bucket - 1) (Some place) self.now }
        requires left { WasOpen query.now bucket self.now place state }
        requires inside { IsInInterval (occupancies_on query.now state.cell) interval state.time }
        ensures { IsTrue result ↔ IsSuperseded query.now self.now.nodes state }
    {
        let is_start = state.time == 0;
        if is_start {
            return false;
        }
        let number = query.grid.cell_index(state.cell);
        self.is_reached(number, interval, u32::from(state.time) - 1)
    }

    /// Adds the successors of the node, unless its safe interval was reached sooner: then the sooner node has them.
    fn expand(
        &mut self,
        query: &Query,
        bucket: u32,
        place: u32,
        state: State,
    ) -> Result<(), OutOfMemory>
        requires horizon { query.now.horizon ≤ MAX_HORIZON }
        requires frontier { IsFrontierOf query.now (bucket - 1) (Some place) self.old }
        requires left { WasOpen query.now bucket self.old place state }
        requires not_end { IsGoalState query.now state → ⊥ }
        ensures { OnOk result (HasExpanded query.now bucket self.old self.new) }
    {
        let interval = query.interval(state);
        if self.is_superseded(query, bucket, place, state, interval.number) {
            return Ok(());
        }
        let left = Expansion {
            place,
            state,
            until: interval.until,
        };
        self.successors_towards(query, bucket, left, Dir::South)?;
        self.successors_towards(query, bucket, left, Dir::North)?;
        self.successors_towards(query, bucket, left, Dir::East)?;
        self.successors_towards(query, bucket, left, Dir::West)?;
        Ok(())
    }

    /// Expands the nodes of the bucket, the one that was put there last first, until one is at the goal and may stay, a
    /// node was added, or the bucket is empty.
    pub fn expand_bucket(&mut self, query: &Query, bucket: u32) -> Result<BucketEnd, OutOfMemory>
        requires horizon { query.now.horizon ≤ MAX_HORIZON }
        requires frontier { IsFrontierOf query.now bucket None self.old }
        ensures { IfOk result (HasEnded query.now bucket self.old self.new) }
    {
        let before = self.len();
        while let Some(place) = self.take(bucket) {
            let state = self.node(place).state;
            if query.is_goal(state) {
                return Ok(BucketEnd::Goal(place));
            }
            self.expand(query, bucket, place, state)?;
            let has_grown = self.len() > before;
            if has_grown {
                return Ok(BucketEnd::Grew);
            }
        }
        Ok(BucketEnd::Empty)
    }

    /// Begins a search: the start is reached, and nothing else.
    pub fn begin(&mut self, query: &Query) -> Result<(), OutOfMemory>
        requires asked { IsPosed query.now }
        requires in_time { heuristic_of query.now query.now.start ≤ query.now.horizon }
        ensures { OnOk result (IsFrontierOf query.now 0 None self.new) }
    {
        self.clear();
        let start = query.start;
        let state = State {
            time: 0,
            cell: start,
        };
        let parent = Link::to(0);
        let interval = count_begun(query.occupancies(start), 0);
        let number = query.grid.cell_index(start);
        let bucket = query.bucket(0, query.heuristic(start));
        self.add(Node { state, parent }, number, interval, bucket)?;
        Ok(())
    }

    /// The path that leads to the node at this place.
    pub fn path_to(&self, last: u32) -> Result<Path, OutOfMemory>
        requires within { last < length self.now.nodes }
        requires searched { IsSearched self.now last }
        ensures { IfOk result (IsTrailOf self.now last) }
    {
        let end = self.node(last).state;
        let mut cells = Vec::new(self.alloc);
        let mut visit = last;
        cells.push(end.cell)?;
        for back in 0..end.time {
            let node = self.node(visit);
            // Until the time of a node the agent waits on the cell of its parent.
            let is_moving = node.state.time == end.time - back;
            if is_moving {
                visit = node.parent.place();
            }
            cells.push(self.node(visit).state.cell)?;
        }
        cells.reverse();
        Ok(Path::new(cells))
    }
}

/// The place of a node, in two halves: so a node takes 10 bytes, and not the 12 to which a number of 32 bits would
/// align it.
#[derive(Clone, Copy)]
pub struct Link {
    pub high: u16,
    pub low: u16,
}

impl Link {
    /// The link to the node at this place.
    #[inline(always)]
    pub fn to(place: u32) -> Link
        ensures { place_in result ≡ place }
    {
        Link {
            high: (place / 65536) as u16,
            low: (place % 65536) as u16,
        }
    }

    /// The place of the node.
    #[inline(always)]
    pub fn place(self) -> u32
        ensures { result ≡ place_in self }
    {
        u32::from(self.high) * 65536 + u32::from(self.low)
    }
}

/// Puts the number last in the row. A refusal changes no row.
fn put_in_row(
    alloc: Global,
    rows: &mut Vec<Vec<u32>>,
    key: u32,
    number: u32,
) -> Result<(), OutOfMemory>
    requires { key < 4294967295 }
    ensures ok { OnOk result
        (IsPut (lists_of rows.old.items) (lists_of rows.new.items) key number) }
    ensures err { OnErr result ((k : ℕ) → items_at rows.new.items k ≡ items_at rows.old.items k) }
{
    let key = key as usize;
    extend_to(alloc, rows, key)?;
    rows[key].push(number)?;
    Ok(())
}

/// Takes off the last number of the row, if it has one.
fn take_from_row(rows: &mut Vec<Vec<u32>>, key: u32) -> Option<u32>
    ensures some { IfSome result (λ m. items_at rows.old.items key
        ≡ items_at rows.new.items key ++ m ∷ []) }
    ensures none { IfNone result (items_at rows.new.items key ≡ []) }
    ensures others { (k : ℕ) → k ≢ key → items_at rows.new.items k ≡ items_at rows.old.items k }
    ensures kept { IfNone result (items_at rows.old.items key ≡ []) }
{
    let key = key as usize;
    let is_past = key >= rows.len();
    if is_past {
        return None;
    }
    rows[key].pop()
}

/// How many rows `clear_rows` keeps at most.
const KEPT_ROWS: usize = 8_192;

/// Takes all numbers out of the rows, and drops the rows after the first `KEPT_ROWS`.
fn clear_rows(rows: &mut Vec<Vec<u32>>)
    ensures { (k : ℕ) → items_at rows.new.items k ≡ [] }
{
    rows.truncate(KEPT_ROWS);
    for row in rows.iter_mut() {
        row.clear();
    }
}
