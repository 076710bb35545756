//! The cost of the critical path of each action: the greatest cost of a chain of needs that ends with it. An action
//! may cost its time (Kelley and Walker 1959), or one if it matters, else nothing. If each costs one, it is the level.

ghost use Rattle.std.specs.Prelude.{◌≡◌, ℕ, ◌<◌, ◌≤◌, ◌-◌, ◌++◌, ◌∷◌, [], IfOk, IfNone, IfSome, OnOk, length, set};
ghost use Rattle.fleet_model.specs.{declared.program.ActionId.ActionId, Chain.IsAction, Chain.awaited};
ghost use Rattle.fleet_needs.specs.{Critical.IsNumberedTo, Critical.HasEntries, Critical.AreCriticalCosts, Critical.AreLevels, Critical.critical_cost, Critical.noted_in, Critical.row_in, CostWalk.IsCostWalk, CostWalk.IsOpen};

use crate::cost_walk::reach;
use crate::level_order::{LevelOrder, OrderSource};
use fleet_model::{ActionId, Await, OutOfMemory, ProgramView};
use std::alloc::{AllocError, Global};
use std::marker::Model;

/// The most that an action may cost, in any unit. Of so many actions as a chain may have the sum fits 64 bits.
pub const MAX_COST: u32 = 1_000_000_000;

/// No level is greater.
pub const MAX_LEVEL: u32 = u32::MAX;

/// What each action costs, in any unit, up to `MAX_COST`.
pub trait ActionCosts {
    /// The cost of an action.
    ghost cost: { Self → ActionId → ℕ };

    /// What the action costs.
    fn cost(&self, action: ActionId) -> u32
        ensures cost { result ≡ cost self.now action }
        ensures most { result ≤ MAX_COST };
}

/// Each action costs one.
pub struct OneEach;

impl ActionCosts for OneEach {
    ghost use Rattle.fleet_model.specs.Chain.{unit_cost};

    ghost cost = { λ _. unit_cost };

    fn cost(&self, _action: ActionId) -> u32 {
        1
    }
}

/// How far an agent has come with its next action.
#[derive(Clone, Copy)]
pub struct Stage {
    /// How many of its awaits are met, from the first on.
    pub met: u16,
    /// Where the instruction after these stands.
    pub at: usize,
    /// The greatest cost of the critical paths of the actions that these name and of the action before, or 0.
    pub greatest: u64,
}

/// The costs of the critical paths of the actions that an agent has finished, in eight bytes each, and its stage.
#[derive(Drop)]
pub struct CostRow {
    costs: Vec<u64>,
    stage: Stage,
}

impl Model for CostRow {
    ghost use Rattle.fleet_needs.specs.Critical.{Finished};

    ghost Value = { Finished };

    ghost view = { λ r. record { costs = r.costs.items; stage = r.stage } };
}

/// For each agent what it has finished, as far as its awaits allow, and what the critical paths of these actions cost.
#[derive(Drop)]
pub struct CriticalCosts {
    rows: Vec<CostRow>,
}

impl Model for CriticalCosts {
    ghost use Rattle.std.specs.Prelude.{List};
    ghost use Rattle.fleet_needs.specs.Critical.{Finished};

    ghost Value = { List Finished };

    ghost view = { λ m. m.rows.items };
}

impl CriticalCosts {
    /// Nothing is finished.
    fn begin<P: ProgramView>(alloc: Global, program: &P) -> Result<CriticalCosts, OutOfMemory>
        requires { IsNumberedTo (P.program program.now) MAX_LEVEL }
        ensures { IfOk result (λ walk. (cost : ActionId → ℕ)
            → IsCostWalk (P.program program.now) cost (P.offset program.now) walk) }
    {
        let agents = program.agents();
        let mut rows = Vec::with_capacity(alloc, usize::from(agents))?;
        for i in 0..agents {
            rows.push(CostRow {
                costs: Vec::with_capacity(alloc, program.moves(i) as usize)?,
                stage: Stage {
                    met: 0,
                    at: program.offset(i, 0, 0),
                    greatest: 0,
                },
            })?;
        }
        Ok(CriticalCosts { rows })
    }

    /// How many actions an agent has finished.
    pub(crate) fn finished(&self, agent: u16) -> usize
        requires { agent < length self.now }
        ensures { result ≡ noted_in self.now agent }
    {
        self.rows[usize::from(agent)].costs.len()
    }

    /// How far an agent has come.
    pub(crate) fn stage(&self, agent: u16) -> Stage
        requires { agent < length self.now }
        ensures { result ≡ (row_in self.now agent).stage }
    {
        self.rows[usize::from(agent)].stage
    }

    /// The cost that is noted of the action that an await names, if that is finished.
    pub(crate) fn noted(&self, goal: Await) -> Option<u64>
        requires { (goal.agent < length self.now) × (1 ≤ goal.count) }
        ensures last { IfSome result (λ _. goal.count ≤ noted_in self.now goal.agent) }
        ensures cost { IfSome result (λ m. m ≡ critical_cost self.now (awaited goal)) }
        ensures open { IfNone result (IsOpen self.now goal) }
    {
        let costs = &self.rows[usize::from(goal.agent)].costs;
        costs.get(goal.count as usize - 1).copied()
    }

    /// An agent waits, and has come so far.
    pub(crate) fn stop(&mut self, agent: u16, stage: Stage)
        requires { agent < length self.old }
        ensures { self.new ≡ set self.old agent (record {
          costs = (row_in self.old agent).costs;
          stage = stage;
        }) }
    {
        self.rows[usize::from(agent)].stage = stage;
    }

    /// An agent has finished its next action, which costs so much, and the one after it stands there.
    pub(crate) fn finish(&mut self, agent: u16, cost: u64, at: usize) -> Result<(), AllocError>
        requires { agent < length self.old }
        ensures { OnOk result (self.new ≡ set self.old agent (record {
          costs = (row_in self.old agent).costs ++ cost ∷ [];
          stage = record { met = 0; at = at; greatest = cost };
        })) }
    {
        let row = &mut self.rows[usize::from(agent)];
        row.costs.push(cost)?;
        row.stage = Stage {
            met: 0,
            at,
            greatest: cost,
        };
        Ok(())
    }

    /// The costs of a program whose actions have numbers that rise along chains.
    pub fn of<P: ProgramView, C: ActionCosts>(
        alloc: Global,
        program: &P,
        costs: &C,
    ) -> Result<CriticalCosts, OutOfMemory>
        requires { IsNumberedTo (P.program program.now) MAX_LEVEL }
        ensures { IfOk result (AreCriticalCosts (P.program program.now) (C.cost costs.now)) }
    {
        let mut walk = CriticalCosts::begin(alloc, program)?;
        for agent in 0..program.agents() {
            let count = program.moves(agent);
            if count > 0 {
                reach(alloc, program, costs, &mut walk, Await { agent, count })?;
            }
        }
        Ok(walk)
    }

    /// The levels of a program, of which none is greater than this.
    pub(crate) fn levels<P: ProgramView>(
        alloc: Global,
        program: &P,
        most: u32,
    ) -> Result<CriticalCosts, OutOfMemory>
        requires { IsNumberedTo (P.program program.now) most }
        ensures levels { IfOk result (AreLevels (P.program program.now)) }
        ensures most { IfOk result (λ m. (a : ActionId) → IsAction (P.program program.now) a
            → critical_cost m a ≤ most) }
    {
        // Of the greatest one the contract alone speaks.
        let _ = most;
        let levels = CriticalCosts::of(alloc, program, &OneEach)?;
        Ok(levels)
    }

    /// The cost of the critical path of an action. Takes no memory.
    pub fn cost<P: ProgramView>(&self, program: &P, action: ActionId) -> u64
        requires entries { HasEntries (P.program program.now) self.now }
        requires action { IsAction (P.program program.now) action }
        ensures { result ≡ critical_cost self.now action }
    {
        let _ = program;
        self.rows[usize::from(action.agent)].costs[action.number as usize - 1]
    }
}

/// Gives the order of a program by the levels of its actions, of which none is greater than `most`.
#[derive(Clone, Copy)]
pub struct LevelsTo {
    pub most: u32,
}

impl OrderSource for LevelsTo {
    ghost use Rattle.fleet_needs.specs.Critical.{IsNumberedTo};

    ghost gives = { λ p levels. IsNumberedTo p levels.most };

    fn order<P: ProgramView>(self, alloc: Global, program: &P) -> Result<LevelOrder, OutOfMemory> {
        let levels = CriticalCosts::levels(alloc, program, self.most)?;
        LevelOrder::by_levels(alloc, program, &levels, &[])
    }
}
