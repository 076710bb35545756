//! Reserved paths, the occupancies of their agents cell by cell, and whether steps and paths fit beside them.

ghost use Rattle.std.specs.Prelude.{◌≡◌, ◌<◌, ◌≤◌, ◌↔◌, ◌++◌, ◌∷◌, [], ℕ, IsTrue, IfSome, IfNone, IfOk, OnOk, OnErr};
ghost use Rattle.fleet_model.specs.declared.geometry.Cell.{Cell};
ghost use Rattle.fleet_search.specs.Way.{Fits, StepFits};
ghost use Rattle.fleet_search.specs.Occupancies.{HaveOccupancies};
ghost use Rattle.fleet_search.specs.Reserved.{StandsOn, IsUnoccupied, IsFreeFrom, LeadsBack};

use crate::intervals::{FOREVER, Occupancy, count_begun, place};
use fleet_grid::{Key, Lists};
use fleet_model::{Cell, OutOfMemory};
use fleet_plan::Path;
use std::alloc::Global;
use std::marker::Model;

/// Paths that are free of conflict with one another (Silver 2005), with a table in which the agent that stands on a
/// cell at a time is found by a binary search.
#[derive(Drop)]
pub struct Reservations {
    alloc: Global,
    paths: Vec<Path>,
    table: ReservationTable,
}

impl Model for Reservations {
    ghost use Rattle.std.specs.Prelude.{List};
    ghost use Rattle.fleet_model.specs.declared.geometry.Cell.{Cell};
    ghost use Rattle.fleet_search.specs.Occupancies.{AreReserved};

    ghost Value = { List (List Cell) };

    ghost view = { λ r. r.paths.items };

    ghost invariant = { λ r. AreReserved r.paths.items r.table };
}

/// The same path.
pub(crate) fn copy_path(alloc: Global, path: &Path) -> Result<Path, OutOfMemory>
    ensures { IfOk result (λ p. p ≡ path.now) }
{
    let cells = Vec::from_slice(alloc, path.cells())?;
    Ok(Path::new(cells))
}

impl Reservations {
    /// No path is reserved. Takes no memory.
    pub fn new(alloc: Global) -> Reservations
        ensures { result ≡ [] }
    {
        Reservations {
            alloc,
            paths: Vec::new(alloc),
            table: ReservationTable::new(alloc),
        }
    }

    /// For each cell the occupancies on it.
    pub(crate) fn table(&self) -> &ReservationTable
        ensures { HaveOccupancies self.now result.now }
    {
        &self.table
    }

    /// An agent that stands on the cell at the time, if one does.
    pub(crate) fn occupant(&self, time: u32, cell: Cell) -> Option<usize>
        ensures some { IfSome result (StandsOn self.now time cell) }
        ensures none { IfNone result (IsUnoccupied self.now time cell) }
    {
        let occupancies = self.table().occupancies(cell);
        let count = count_begun(occupancies, time);
        let is_before_all = count == 0;
        if is_before_all {
            return None;
        }
        let occupancy = occupancies[count - 1];
        let is_there = time <= occupancy.until;
        if is_there {
            Some(occupancy.agent)
        } else {
            None
        }
    }

    /// Whether the agents that make room in the step, one for the other, end at the one that leaves `from` for `to`.
    fn leads_back(&self, time: u32, from: Cell, to: Cell) -> bool
        requires { time < FOREVER }
        ensures { IsTrue result ↔ LeadsBack self.now time from to }
    {
        let mut cell = to;
        for _turn in 0..self.paths.len() {
            if cell == from {
                return true;
            }
            match self.occupant(time, cell) {
                None => return false,
                Some(agent) => {
                    let entered = self.paths[agent].cell(time + 1);
                    let stays = entered == cell;
                    if stays {
                        return false;
                    }
                    cell = entered;
                }
            }
        }
        cell == from
    }

    /// Whether an agent may go from the one cell to the other in the step that begins at the time.
    pub(crate) fn step_fits(&self, time: u32, from: Cell, to: Cell) -> bool
        requires { time < FOREVER }
        ensures { IsTrue result ↔ StepFits self.now time from to }
    {
        if self.occupant(time + 1, to).is_some() {
            return false;
        }
        if from == to {
            return true;
        }
        if self.occupant(time + 1, from).is_none() {
            return true;
        }
        !self.leads_back(time, from, to)
    }

    /// Whether the path takes part in no conflict with the reserved ones. Takes no memory.
    pub fn fits(&self, path: &Path) -> bool
        ensures { IsTrue result ↔ Fits self.now path.now }
    {
        // From its end on the agent stays, so no step after that is looked at.
        let end = path.steps();
        if !self.is_free_from(path.cell(end), end) {
            return false;
        }
        if self.occupant(0, path.cell(0)).is_some() {
            return false;
        }
        for time in 0..end {
            if !self.step_fits(time, path.cell(time), path.cell(time + 1)) {
                return false;
            }
        }
        true
    }

    /// The least time from which on nobody stands on the cell, if there is one.
    pub(crate) fn free_from(&self, cell: Cell) -> Option<u32>
        ensures some { IfSome result (λ s. (t : ℕ) → IsFreeFrom self.now cell t ↔ (s ≤ t)) }
        ensures none { IfNone result ((t : ℕ) → IsFreeFrom self.now cell t → ⊥) }
    {
        match self.table().occupancies(cell).last() {
            None => Some(0),
            Some(occupancy) => {
                let is_forever = occupancy.until == FOREVER;
                if is_forever {
                    None
                } else {
                    Some(occupancy.until + 1)
                }
            }
        }
    }

    /// Whether nobody stands on the cell from the time on.
    fn is_free_from(&self, cell: Cell, time: u32) -> bool
        ensures { IsTrue result ↔ IsFreeFrom self.now cell time }
    {
        match self.free_from(cell) {
            None => false,
            Some(from) => from <= time,
        }
    }

    /// Reserves a copy of one more path, that of the agent whose number is the number of paths before.
    ///
    /// Errors: `OutOfMemory`, and then nothing has changed.
    pub fn reserve(&mut self, path: &Path) -> Result<(), OutOfMemory>
        requires { Fits self.old path.now }
        ensures ok { OnOk result (self.new ≡ self.old ++ path.now ∷ []) }
        ensures err { OnErr result (self.new ≡ self.old) }
    {
        let copy = copy_path(self.alloc, path)?;
        self.paths.reserve(1)?;
        self.table.insert(self.paths.as_slice(), path)?;
        self.paths.push(copy)?;
        Ok(())
    }

    /// The reserved paths.
    pub(crate) fn into_paths(self) -> Vec<Path>
        ensures { result.items ≡ self }
    {
        let Reservations {
            alloc: _,
            paths,
            table: _,
        } = self;
        paths
    }
}

// Reservation tables: for each cell the occupancies on it, in the order of time.

/// The occupancies on each cell.
#[derive(Drop)]
pub struct ReservationTable {
    lists: Lists<Occupancy>,
}

impl ReservationTable {
    ghost use Rattle.std.specs.Prelude.{◌≡◌, [], length, OnOk, OnErr};
    ghost use Rattle.fleet_model.specs.declared.geometry.Cell.{Cell};
    ghost use Rattle.fleet_search.specs.Way.{Fits, with_path};
    ghost use Rattle.fleet_search.specs.Occupancies.{AreInOrder, IsOccupancyAdded, occupancies_of, without, HaveOccupancies};

    /// Nobody is anywhere. Takes no memory.
    pub fn new(alloc: Global) -> ReservationTable
        ensures { (c : Cell) → occupancies_of result c ≡ [] }
    {
        ReservationTable {
            lists: Lists::new(alloc),
        }
    }

    /// The occupancies on the cell.
    #[inline(always)]
    pub fn occupancies(&self, cell: Cell) -> &[Occupancy]
        ensures { result.now ≡ occupancies_of self.now cell }
    {
        self.lists.list(Key::of_cell(cell))
    }

    /// Adds the occupancy on the cell. A refusal changes no list.
    fn add(&mut self, cell: Cell, occupancy: Occupancy) -> Result<(), OutOfMemory>
        requires { AreInOrder (occupancies_of self.old cell) }
        ensures ok { OnOk result (IsOccupancyAdded self.old self.new cell occupancy) }
        ensures err { OnErr result ((c : Cell)
            → occupancies_of self.new c ≡ occupancies_of self.old c) }
    {
        let key = Key::of_cell(cell);
        self.lists.change(key, |list| place(list, occupancy))?
    }

    /// Adds all occupancies of the path's agent, whose number is the number of paths before it.
    fn add_all(&mut self, paths: &[Path], path: &Path) -> Result<(), OutOfMemory>
        requires occupancies { HaveOccupancies paths.now self.old }
        requires fits { Fits paths.now path.now }
        ensures ok { OnOk result (HaveOccupancies (with_path paths.now path.now) self.new) }
        ensures rest { (c : Cell) → without (length paths.now) (occupancies_of self.new c)
            ≡ occupancies_of self.old c }
    {
        let agent = paths.len();
        let end = path.steps();
        let mut from = 0;
        for time in 0..end {
            let cell = path.cell(time);
            if cell != path.cell(time + 1) {
                let until = time;
                self.add(cell, Occupancy { from, until, agent })?;
                from = time + 1;
            }
        }
        let until = FOREVER;
        self.add(path.cell(end), Occupancy { from, until, agent })
    }

    /// Takes the occupancies of the agent out.
    fn remove_agent(&mut self, agent: usize)
        ensures { (c : Cell) → occupancies_of self.new c
            ≡ without agent (occupancies_of self.old c) }
    {
        self.lists.retain(|occupancy| occupancy.agent != agent);
    }

    /// Enters one more path. A refusal changes no list.
    pub fn insert(&mut self, paths: &[Path], path: &Path) -> Result<(), OutOfMemory>
        requires occupancies { HaveOccupancies paths.now self.old }
        requires fits { Fits paths.now path.now }
        ensures ok { OnOk result (HaveOccupancies (with_path paths.now path.now) self.new) }
        ensures err { OnErr result (HaveOccupancies paths.now self.new) }
    {
        let entered = self.add_all(paths, path);
        if entered.is_err() {
            self.remove_agent(paths.len());
        }
        entered
    }
}
