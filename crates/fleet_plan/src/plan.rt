//! Paths, plans, the steps between their cells, and the numbers that are printed of a plan.

ghost use Rattle.std.specs.Prelude.{◌≡◌, ◌+◌, ◌≤◌, ◌<◌, length, min, slice_get, filter, All, Some, IfSome, IfNone, IsTrue, ◌↔◌, EachIndex};
ghost use Rattle.fleet_model.specs.declared.limits.TheConstants.{MAX_HORIZON};
ghost use Rattle.fleet_model.specs.Program.{IsCell};
ghost use Rattle.fleet_plan.specs.Plan.{IsPath, IsFleet, IsWithinLimits, cell_at, cell_of, last_cell, steps, AreBeside};
ghost use Rattle.fleet_plan.specs.UnderWay.{is_under_way};
ghost use Rattle.fleet_grid.specs.Ground.{is_passable};
ghost use Rattle.fleet_plan.specs.FirstFault.{IsFirstTime, GoesOver, GoesRight, IsFirstStep};
ghost use Rattle.fleet_plan.specs.Numbers.{end_of, cost_of, moves_before, moves_of, waits_of, sum_of_costs, moves_in_plan, waits_in_plan};

use fleet_grid::Grid;
use fleet_model::Cell;
use std::marker::Model;

/// The cells of one agent at times 0, 1, 2 and so on, 1 to 65,536 of them. After the last one it stays.
///
/// No method takes memory.
#[derive(Drop)]
pub struct Path {
    cells: Vec<Cell>,
}

impl Model for Path {
    ghost use Rattle.std.specs.Prelude.{List};
    ghost use Rattle.fleet_model.specs.declared.geometry.Cell.{Cell};
    ghost use Rattle.fleet_plan.specs.Plan.{IsPath};

    ghost Value = { List Cell };

    ghost view = { λ p. p.cells.items };

    ghost invariant = { λ p. IsPath p.cells.items };
}

impl Path {
    /// The path over these cells.
    pub fn new(cells: Vec<Cell>) -> Path
        requires some { 1 ≤ length cells.items }
        requires few { length cells.items ≤ MAX_HORIZON + 1 }
        ensures { result ≡ cells.items }
    {
        for cell in &cells {
            numbers_fit(cell);
        }
        Path { cells }
    }

    /// The time of the last cell, in steps.
    pub fn steps(&self) -> u32
        ensures time { result + 1 ≡ length self.now }
        ensures limits { IsPath self.now }
    {
        (self.cells.len() - 1) as u32
    }

    /// The cell at time `t`.
    pub fn cell(&self, t: u32) -> Cell
        ensures { result ≡ cell_at self.now t }
    {
        let last = self.steps();
        let at = earlier(t, last);
        self.cells[at as usize]
    }

    /// The cells at times 0 to `steps()`.
    pub fn cells(&self) -> &[Cell]
        ensures value { result.now ≡ self.now }
        ensures limits { IsPath self.now }
    {
        &self.cells
    }
}

/// The earlier of two times.
#[inline(always)]
fn earlier(t: u32, last: u32) -> u32
    ensures time { result ≡ min t last }
    ensures bound { result ≤ last }
{
    if t < last { t } else { last }
}

/// Column and row of a cell fit two bytes, by their type. It does nothing.
fn numbers_fit(cell: &Cell)
    ensures { IsCell cell.now }
{
    // What is read is known to be in its type's range.
    let Cell { x: _x, y: _y } = *cell;
}

/// A path for each agent, 1 to 1,024 of them.
///
/// No method takes memory.
#[derive(Drop)]
pub struct Plan {
    paths: Vec<Path>,
    steps: u32,
}

impl Model for Plan {
    ghost use Rattle.std.specs.Prelude.{List};
    ghost use Rattle.fleet_model.specs.declared.geometry.Cell.{Cell};
    ghost use Rattle.std.specs.Prelude.{◌≡◌};
    ghost use Rattle.fleet_plan.specs.Plan.{IsWithinLimits, steps as steps_of};

    ghost Value = { List (List Cell) };

    ghost view = { λ p. p.paths.items };

    ghost invariant = { λ p. IsWithinLimits p.paths.items × (p.steps ≡ steps_of p.paths.items) };
}

impl Plan {
    /// The plan in which agent `i` has path `i`.
    pub fn new(paths: Vec<Path>) -> Plan
        requires { IsFleet paths.items }
        ensures { result ≡ paths.items }
    {
        let mut steps = 0;
        for path in &paths {
            let time = path.steps();
            let is_longer = steps < time;
            if is_longer {
                steps = time;
            }
        }
        Plan { paths, steps }
    }

    /// The greatest time of a last cell: the makespan (Stern et al. 2019), in steps.
    pub fn steps(&self) -> u32
        ensures time { result ≡ steps self.now }
        ensures limits { IsWithinLimits self.now }
    {
        self.steps
    }

    /// How many agents there are.
    pub fn agents(&self) -> u16
        ensures count { result ≡ length self.now }
        ensures limits { IsWithinLimits self.now }
    {
        self.paths.len() as u16
    }

    /// The path of agent `i`.
    pub fn path(&self, i: u16) -> &Path
        requires { i < length self.now }
        ensures { slice_get self.now i ≡ Some result.now }
    {
        &self.paths[usize::from(i)]
    }

    /// The cell of agent `i` at time `t`.
    #[tactic(auto, unfolding(crate::specs::Plan::cell_of))]
    pub fn cell(&self, i: u16, t: u32) -> Cell
        requires { i < length self.now }
        ensures { result ≡ cell_of self.now i t }
    {
        self.paths[usize::from(i)].cell(t)
    }

    /// The last cell of agent `i`, on which it stays.
    #[tactic(auto, using(crate::proofs::PathLaws::last_is))]
    pub(crate) fn last_cell(&self, i: u16) -> Cell
        requires { i < length self.now }
        ensures { result ≡ last_cell self.now i }
    {
        self.path(i).end()
    }

    /// Keeps those of the agents whose paths go on after `time`, in their order.
    pub fn keep_under_way(&self, agents: &mut Vec<u16>, time: u32)
        requires { All (λ i. i < length self.now) agents.old.items }
        ensures { agents.new.items ≡ filter (is_under_way self.now time) agents.old.items }
    {
        let mut kept = 0;
        for next in 0..agents.len() {
            let i = agents[next];
            let is_moving = time < self.path(i).steps();
            if is_moving {
                agents[kept] = i;
                kept += 1;
            }
        }
        agents.truncate(kept);
    }
}

/// Whether the two numbers are the same, or follow one another.
fn is_near(a: u16, b: u16) -> bool
    ensures { IsTrue result ↔ ((a ≤ b + 1) × (b ≤ a + 1)) }
{
    (u32::from(a) + 1).wrapping_sub(u32::from(b)) <= 2
}

/// Whether the second cell is the first one or one of its four neighbours.
fn is_beside(from: Cell, to: Cell) -> bool
    ensures { IsTrue result ↔ AreBeside from to }
{
    let is_in_column = from.x == to.x;
    let is_in_row = from.y == to.y;
    if is_in_column {
        is_near(from.y, to.y)
    } else {
        is_in_row && is_near(from.x, to.x)
    }
}

/// The first time at which a path does not go on over passable cells.
#[inline(never)]
fn first_wrong_time(path: &Path, grid: &Grid) -> Option<u32>
    ensures some { IfSome result (IsFirstTime (is_passable grid.now) path.now) }
    ensures none { IfNone result (GoesOver (is_passable grid.now) path.now) }
{
    let mut before = path.cell(0);
    for (time, cell) in path.cells().iter().enumerate() {
        if !grid.passable(*cell) || !is_beside(before, *cell) {
            return Some(time as u32);
        }
        before = *cell;
    }
    None
}

/// The least agent that goes wrong, and the first time at which it does.
pub(crate) fn first_wrong_step(plan: &Plan, grid: &Grid) -> Option<(u16, u32)>
    ensures some { IfSome result (λ step. IsFirstStep
        (is_passable grid.now) plan.now step.0 step.1) }
    ensures none { IfNone result (EachIndex plan.now (GoesRight (is_passable grid.now) plan.now)) }
{
    for i in 0..plan.agents() {
        if let Some(time) = first_wrong_time(plan.path(i), grid) {
            return Some((i, time));
        }
    }
    None
}

// The numbers that are printed of a plan: the sum of costs, the moves and the waits (Stern et al. 2019).

impl Path {
    /// The time from which on the agent stays on its last cell, in steps: its cost.
    #[tactic(auto, using(crate::proofs::Counted::cost_is))]
    pub fn cost(&self) -> u32
        ensures time { result ≡ cost_of self.now }
        ensures within { result + 1 ≤ length self.now }
        ensures limit { result ≤ MAX_HORIZON }
    {
        let goal = self.end();
        let mut time = self.steps();
        while time > 0 {
            let is_there = goal == self.cell(time - 1);
            if !is_there {
                return time;
            }
            time -= 1;
        }
        0
    }

    /// The last cell, on which the agent stays.
    #[tactic(auto, using(crate::proofs::Counted::end_is))]
    pub(crate) fn end(&self) -> Cell
        ensures { result ≡ end_of self.now }
    {
        self.cell(self.steps())
    }

    /// In how many steps before `time` the agent changes its cell.
    #[tactic(auto, using(crate::proofs::Counted::moves_none, crate::proofs::Counted::moves_more, crate::proofs::Counted::moves_same))]
    fn moves_before(&self, time: u32) -> u32
        requires { time + 1 ≤ length self.now }
        ensures count { result ≡ moves_before self.now time }
        ensures limit { result ≤ time }
    {
        let mut moves = 0;
        for t in 0..time {
            let stays = self.cell(t) == self.cell(t + 1);
            if !stays {
                moves += 1;
            }
        }
        moves
    }

    /// In how many steps the agent changes its cell.
    pub fn moves(&self) -> u32
        ensures count { result ≡ moves_of self.now }
        ensures limit { result ≤ MAX_HORIZON }
    {
        self.moves_before(self.steps())
    }

    /// In how many steps the agent stays on its cell before it has come to rest on its last one.
    #[tactic(auto, using(crate::proofs::Counted::stays_left))]
    pub fn waits(&self) -> u32
        ensures count { result ≡ waits_of self.now }
        ensures limit { result ≤ MAX_HORIZON }
    {
        let cost = self.cost();
        cost - self.moves_before(cost)
    }
}

impl Plan {
    /// The sum of costs: the sum of the times from which on the agents stay on their last cells, in steps.
    #[tactic(auto, using(crate::proofs::Counted::summed_all))]
    pub fn sum_of_costs(&self) -> u32
        ensures { result ≡ sum_of_costs self.now }
    {
        let mut costs = 0;
        for i in 0..self.agents() {
            costs += self.path(i).cost();
        }
        costs
    }

    /// In how many steps an agent changes its cell, of all agents.
    #[tactic(auto, using(crate::proofs::Counted::summed_all))]
    pub fn moves(&self) -> u32
        ensures { result ≡ moves_in_plan self.now }
    {
        let mut moves = 0;
        for i in 0..self.agents() {
            moves += self.path(i).moves();
        }
        moves
    }

    /// In how many steps an agent stays on its cell before it has come to rest on its last one, of all agents.
    #[tactic(auto, using(crate::proofs::Counted::summed_all))]
    pub fn waits(&self) -> u32
        ensures { result ≡ waits_in_plan self.now }
    {
        let mut waits = 0;
        for i in 0..self.agents() {
            waits += self.path(i).waits();
        }
        waits
    }
}
