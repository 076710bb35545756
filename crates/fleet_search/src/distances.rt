//! How far the cells of a map are from a goal, over passable cells.

ghost use Rattle.std.specs.Prelude.{◌≡◌, ◌+◌, ◌*◌, ◌<◌, ◌≤◌, ◌↔◌, ◌++◌, ◌∷◌, ◌⊎◌, ℕ, IsTrue, IfOk, OnOk, IfSome, IfNone, Some, None, [], length, get_or};
ghost use Rattle.fleet_model.specs.Geometry.{place_of, moved};
ghost use Rattle.fleet_model.specs.declared.geometry.Cell.{Cell};
ghost use Rattle.fleet_model.specs.declared.limits.TheConstants.{MAX_COORDINATE, MAX_HORIZON};
ghost use Rattle.fleet_grid.specs.Ground.{IsGround, cell_index};
ghost use Rattle.fleet_search.specs.Distance.{no_label, label_in, manhattan, least_moves, heuristic, AreDistances, IsOnGround, IsSpreadOf, IsSearchFor, IsLayerDone, IsOnBound, IsLabelledTowards, IsSameSearch, HasSpread, IsLabelNear, IsPutFrom, with_label};

use fleet_grid::Grid;
use fleet_model::{Cell, Dir, MAX_HORIZON, OutOfMemory};
use std::alloc::Global;
use std::marker::Model;
use std::mem;

/// The outcome of a search: by how many steps its path is longer than the heuristic of the start, and how many nodes it
/// made.
#[derive(Clone, Copy)]
pub struct Effort {
    pub delay: u32,
    pub nodes: usize,
}

/// For how many cells at most a list keeps room from one search to the next.
const KEPT_CELLS: usize = 16_384;

/// How many moves a cell is from the goal, noted by the search of this number.
#[derive(Clone, Copy)]
pub struct Label {
    pub search: u16,
    pub distance: u16,
}

/// No search has labelled the cell.
const NONE: Label = Label {
    search: 0,
    distance: 0,
};

/// How many moves lead at least from each cell of a map to the goal of the latest search. Labels of earlier searches
/// stay in the table, where their numbers tell them apart, so one search in 65,535 clears it.
#[derive(Drop)]
pub struct Distances<'g> {
    grid: &'g Grid,
    labels: Vec<Label>,
    search: u16,
    start: Cell,
    goal: Cell,
    /// Cells over which a path of fewer moves from the start to the goal leads have been expanded.
    f_bound: u32,
    /// Cells whose neighbours are being labelled: those over which a path of `f_bound` moves leads.
    layer: Vec<Cell>,
    /// Cells over which a path of two moves more leads. A move changes that number by nothing or by two.
    next: Vec<Cell>,
    /// The outcome of the last search with these distances.
    last: Effort,
}

impl<'g> Model for Distances<'g> {
    ghost use Rattle.fleet_search.specs.Distance.{DistanceTable, IsReady};

    ghost Value = { DistanceTable };

    ghost view = { λ d. record {
      grid = d.grid.now;
      labels = d.labels.items;
      search = d.search;
      start = d.start;
      goal = d.goal;
      f_bound = d.f_bound;
      layer = d.layer.items;
      next = d.next.items;
      last = d.last;
    } };

    ghost invariant = { λ d. IsReady d.grid.now d.labels.items d.search };
}

/// How many columns and rows lie between two cells.
#[tactic(auto, unfolding(crate::specs::Distance::manhattan))]
fn manhattan(a: Cell, b: Cell) -> u32
    ensures value { result ≡ manhattan a b }
    ensures limit { result ≤ 2 * MAX_COORDINATE }
{
    u32::from(a.x.abs_diff(b.x)) + u32::from(a.y.abs_diff(b.y))
}

/// Whether a step from the cell in the direction leads nearer to the other cell.
#[inline(always)]
fn leads_nearer(from: Cell, dir: Dir, to: Cell) -> bool
    ensures { (beside : Cell) → place_of beside ≡ moved (place_of from) dir
        → (IsTrue result ↔ (manhattan beside to < manhattan from to)) }
{
    match dir {
        Dir::North => to.y < from.y,
        Dir::East => from.x < to.x,
        Dir::South => from.y < to.y,
        Dir::West => to.x < from.x,
    }
}

impl<'g> Distances<'g> {
    /// A table for the map, before any search.
    pub fn new(alloc: Global, grid: &'g Grid) -> Result<Self, OutOfMemory>
        ensures { IfOk result (λ d. d.grid ≡ grid.now) }
    {
        let cells = usize::from(grid.width()) * usize::from(grid.height());
        let corner = Cell { x: 0, y: 0 };
        Ok(Distances {
            grid,
            labels: vec![in alloc; NONE; cells]?,
            search: 0,
            start: corner,
            goal: corner,
            f_bound: 0,
            layer: Vec::new(alloc),
            next: Vec::new(alloc),
            last: Effort { delay: 0, nodes: 0 },
        })
    }

    /// The map.
    pub fn grid(&self) -> &'g Grid
        ensures { result.now ≡ self.now.grid }
    {
        self.grid
    }

    /// How many moves lead from the cell to the goal at least, whatever its label: as many as columns and rows lie
    /// between the two or, if that is more, as `f_bound` leaves after the columns and rows from the start.
    #[tactic(auto, unfolding(crate::specs::Distance::least_moves))]
    fn least_moves(&self, cell: Cell) -> u32
        requires cell { IsOnGround self.now.grid cell }
        requires goal { IsOnGround self.now.grid self.now.goal }
        requires few { self.now.f_bound ≤ MAX_HORIZON + 1 }
        ensures value { result ≡ least_moves self.now cell }
        ensures limit { result ≤ MAX_HORIZON + 1 }
    {
        let behind = self.f_bound.saturating_sub(manhattan(cell, self.start));
        manhattan(cell, self.goal).max(behind)
    }

    /// How many moves lead from the cell to the goal at least.
    #[tactic(auto, unfolding(crate::specs::Distance::heuristic))]
    pub fn heuristic(&self, cell: Cell) -> u32
        requires cell { IsOnGround self.now.grid cell }
        requires goal { IsOnGround self.now.grid self.now.goal }
        requires few { self.now.f_bound ≤ MAX_HORIZON + 1 }
        ensures value { result ≡ heuristic self.now cell }
        ensures limit { result ≤ MAX_HORIZON + 1 }
    {
        let least = self.least_moves(cell);
        match self.label(cell) {
            None => least,
            Some(distance) => least.min(u32::from(distance)),
        }
    }

    /// Where the label of the cell stands.
    #[inline(always)]
    fn place(&self, cell: Cell) -> usize
        requires { IsOnGround self.now.grid cell }
        ensures value { result ≡ cell_index self.now.grid cell }
        ensures within { result < length self.now.labels }
        ensures sizes { IsGround self.now.grid }
    {
        self.grid.cell_index(cell)
    }

    /// The label there.
    #[inline(always)]
    fn label_at(&self, place: usize) -> Label
        requires { place < length self.now.labels }
        ensures { result ≡ get_or self.now.labels place no_label }
    {
        self.labels[place]
    }

    /// The number of moves with which the cell is labelled in this search.
    #[inline(always)]
    fn label(&self, cell: Cell) -> Option<u16>
        requires { IsOnGround self.now.grid cell }
        ensures { result ≡ label_in self.now.grid self.now.labels self.now.search cell }
    {
        let label = self.label_at(self.place(cell));
        let is_current = label.search == self.search;
        if is_current {
            Some(label.distance)
        } else {
            None
        }
    }

    /// Whether the label there is one of this search, and says no more moves than this.
    #[inline(always)]
    fn is_near(&self, place: usize, distance: u16) -> bool
        requires { place < length self.now.labels }
        ensures { IsTrue result
            ↔ IsLabelNear self.now.search (get_or self.now.labels place no_label) distance }
    {
        let label = self.label_at(place);
        label.search == self.search && label.distance <= distance
    }

    /// Labels the cell whose label stands there with so many moves.
    #[inline(always)]
    fn set_label(&mut self, place: usize, distance: u16)
        requires { place < length self.old.labels }
        ensures { self.new ≡ with_label self.old place distance }
    {
        self.labels[place] = Label {
            search: self.search,
            distance,
        };
    }

    /// Puts a cell on the layer.
    #[inline(always)]
    fn push(&mut self, cell: Cell) -> Result<(), OutOfMemory>
        ensures same { IsSameSearch self.old self.new }
        ensures put { OnOk result (self.new
            ≡ record self.old { layer = self.old.layer ++ cell ∷ [] }) }
    {
        self.layer.push(cell)?;
        Ok(())
    }

    /// Puts a cell on the next list.
    #[inline(always)]
    fn push_next(&mut self, cell: Cell) -> Result<(), OutOfMemory>
        ensures same { IsSameSearch self.old self.new }
        ensures put { OnOk result (self.new
            ≡ record self.old { next = self.old.next ++ cell ∷ [] }) }
    {
        self.next.push(cell)?;
        Ok(())
    }

    /// Takes off the layer the cell that was put there last.
    #[inline(always)]
    fn pop(&mut self) -> Option<Cell>
        ensures some { IfSome result (λ left.
            self.old ≡ record self.new { layer = self.new.layer ++ left ∷ [] }) }
        ensures none { IfNone result ((self.old.layer ≡ []) × (self.new ≡ self.old)) }
    {
        self.layer.pop()
    }

    /// Puts a cell that was labelled from the one that is left, its neighbour in the direction, on the layer or on the
    /// next list.
    #[inline(always)]
    fn put(&mut self, left: Cell, dir: Dir, cell: Cell) -> Result<(), OutOfMemory>
        requires { place_of cell ≡ moved (place_of left) dir }
        ensures same { IsSameSearch self.old self.new }
        ensures put { OnOk result (IsPutFrom left cell self.old self.new) }
    {
        if leads_nearer(left, dir, self.start) {
            self.push(cell)
        } else {
            self.push_next(cell)
        }
    }

    /// Labels the neighbour in one direction, unless it has a label of so few moves already.
    #[inline(always)]
    fn label_towards(&mut self, distance: u16, left: Cell, dir: Dir) -> Result<(), OutOfMemory>
        requires few { distance < MAX_HORIZON }
        requires left { IsOnBound distance left self.old }
        ensures same { IsSameSearch self.old self.new }
        ensures labelled { OnOk result (IsLabelledTowards distance left dir self.old self.new) }
    {
        let Some(beside) = self.grid().neighbour(left, dir) else {
            return Ok(());
        };
        let place = self.place(beside);
        if self.is_near(place, distance + 1) {
            return Ok(());
        }
        self.set_label(place, distance + 1);
        self.put(left, dir, beside)?;
        Ok(())
    }

    /// Labels the neighbours of a cell, if a path of `f_bound` moves leads over it; if not, it was expanded before, by
    /// a lesser label.
    fn expand(&mut self, left: Cell) -> Result<(), OutOfMemory>
        requires few { self.old.f_bound < MAX_HORIZON }
        requires spread { IsSpreadOf (Some left) self.old }
        requires cell { IsOnGround self.old.grid left }
        ensures same { IsSameSearch self.old self.new }
        ensures spread { OnOk result (HasSpread self.old self.new) }
    {
        let Some(distance) = self.label(left) else {
            return Ok(());
        };
        let was_expanded = u32::from(distance) + manhattan(left, self.start) != self.f_bound;
        if was_expanded {
            return Ok(());
        }
        self.label_around(distance, left)
    }

    /// Labels the neighbours of a cell over which a path of `f_bound` moves leads.
    #[inline(always)]
    fn label_around(&mut self, distance: u16, left: Cell) -> Result<(), OutOfMemory>
        requires few { distance < MAX_HORIZON }
        requires left { IsOnBound distance left self.old }
        ensures same { IsSameSearch self.old self.new }
        ensures spread { OnOk result (HasSpread self.old self.new) }
    {
        self.label_towards(distance, left, Dir::North)?;
        self.label_towards(distance, left, Dir::East)?;
        self.label_towards(distance, left, Dir::South)?;
        self.label_towards(distance, left, Dir::West)?;
        Ok(())
    }

    /// Expands the cells of the layer, and those that come onto it meanwhile.
    fn expand_layer(&mut self) -> Result<(), OutOfMemory>
        requires few { self.old.f_bound < MAX_HORIZON }
        requires spread { IsSpreadOf None self.old }
        ensures same { IsSameSearch self.old self.new }
        ensures done { OnOk result (IsLayerDone self.new) }
    {
        while let Some(left) = self.pop() {
            self.expand(left)?;
        }
        Ok(())
    }

    /// Turns to the cells over which a path of two moves more leads.
    fn next_layer(&mut self)
        requires few { self.old.f_bound < MAX_HORIZON }
        requires layer { self.old.layer ≡ [] }
        ensures { self.new ≡ record self.old {
          f_bound = self.old.f_bound + 2;
          layer = self.old.next;
          next = [];
        } }
    {
        mem::swap(&mut self.layer, &mut self.next);
        self.f_bound += 2;
    }

    /// Labels the goal, and nothing else in this search.
    fn begin(&mut self, start: Cell, goal: Cell) -> Result<(), OutOfMemory>
        requires { IsOnGround self.old.grid goal }
        ensures grid { self.new.grid ≡ self.old.grid }
        ensures search { OnOk result (IsSearchFor start goal self.new) }
    {
        self.renumber();
        self.aim(start, goal);
        let place = self.place(goal);
        self.set_label(place, 0);
        self.push(goal)?;
        Ok(())
    }

    /// Takes the next number, of which no cell has a label. After the greatest number all labels are taken off.
    fn renumber(&mut self)
        ensures same { self.new
            ≡ record self.old { labels = self.new.labels; search = self.new.search } }
        ensures some { 0 < self.new.search }
        ensures fresh { (i : ℕ) → i < length self.new.labels
            → (get_or self.new.labels i no_label).search < self.new.search }
    {
        if self.search == u16::MAX {
            self.labels.fill(NONE);
            self.search = 0;
        }
        self.search += 1;
    }

    /// Sets start and goal, and empties the lists.
    fn aim(&mut self, start: Cell, goal: Cell)
        ensures { self.new ≡ record self.old {
          start = start;
          goal = goal;
          f_bound = manhattan goal start;
          layer = [];
          next = [];
        } }
    {
        self.start = start;
        self.goal = goal;
        self.f_bound = manhattan(goal, start);
        self.layer.clear();
        self.next.clear();
    }

    /// Whether more cells are to be labelled, after so many: until the start has its label, and then, as long as they
    /// are fewer than the nodes of the last search, those over which paths lead that are no more delayed than the last
    /// one, or arrive before the goal is free. An agent is often delayed by as much as the one before it.
    fn is_wanted(&self, horizon: u16, goal_free_from: u32, labelled: usize) -> bool
        requires { IsOnGround self.now.grid self.now.start }
        ensures { IsTrue result → (self.now.f_bound < MAX_HORIZON) }
    {
        if self.layer.is_empty() || self.f_bound > u32::from(horizon).min(MAX_HORIZON - 1) {
            return false;
        }
        match self.label(self.start) {
            None => true,
            Some(distance) => {
                let least = u32::from(distance);
                self.f_bound <= least
                    || labelled < self.last.nodes
                        && self.f_bound <= goal_free_from.max(least.saturating_add(self.last.delay))
            }
        }
    }

    /// Labels cells as far as that is wanted.
    fn expand_layers(&mut self, horizon: u16, goal_free_from: u32) -> Result<(), OutOfMemory>
        requires spread { IsSpreadOf None self.old }
        requires start { IsOnGround self.old.grid self.old.start }
        requires next { self.old.next ≡ [] }
        ensures grid { self.new.grid ≡ self.old.grid }
        ensures search { OnOk result (IsSearchFor self.old.start self.old.goal self.new) }
    {
        let mut labelled = 0usize;
        for _round in 0..horizon {
            if !self.is_wanted(horizon, goal_free_from, labelled) {
                return Ok(());
            }
            labelled = labelled.saturating_add(self.layer.len());
            self.expand_layer()?;
            self.next_layer();
        }
        Ok(())
    }

    /// Keeps the bound within this number of moves, the first beyond the horizon. If no cell is left to be expanded, no
    /// path from the start to the goal leads over a cell without a label: such cells count as beyond the horizon.
    fn bound(&mut self, beyond: u32)
        ensures same { self.new ≡ record self.old { f_bound = self.new.f_bound } }
        ensures few { self.new.f_bound ≤ beyond }
        ensures low { (self.old.layer ≡ []) ⊎ (self.new.f_bound ≤ self.old.f_bound) }
    {
        if self.layer.is_empty() {
            self.f_bound = beyond;
        } else {
            self.f_bound = self.f_bound.min(beyond);
        }
    }

    /// Forgets which cells are still to be expanded, and gives memory of long lists back: the search that follows needs
    /// it.
    fn forget_lists(&mut self)
        ensures { self.new ≡ record self.old { layer = []; next = [] } }
    {
        self.layer.clear();
        self.next.clear();
        self.layer.shrink_to(KEPT_CELLS);
        self.next.shrink_to(KEPT_CELLS);
    }

    /// Takes note of the outcome of the search. It decides how far the next one labels cells, and nothing else.
    pub fn learn(&mut self, last: Effort)
        ensures { self.new ≡ record self.old { last = last } }
    {
        self.last = last;
    }

    /// Labels the cells over which the shortest paths from the start to the goal lead, and those over which paths lead
    /// that are delayed as the last one was or arrive before the goal is free, up to the horizon.
    pub fn compute(
        &mut self,
        start: Cell,
        goal: Cell,
        goal_free_from: u32,
        horizon: u16,
    ) -> Result<(), OutOfMemory>
        requires start { IsOnGround self.old.grid start }
        requires goal { IsOnGround self.old.grid goal }
        ensures grid { self.new.grid ≡ self.old.grid }
        ensures distances { OnOk result (AreDistances self.old.grid self.new goal) }
    {
        self.begin(start, goal)?;
        self.expand_layers(horizon, goal_free_from)?;
        self.bound(u32::from(horizon) + 1);
        self.forget_lists();
        // Reading a field brings the invariant, which is part of the promise.
        let _ = &self.grid;
        Ok(())
    }
}
