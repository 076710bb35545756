//! When the actions of an accepted program end at the soonest, if each takes a time of its own: the critical path
//! method (Kelley and Walker 1959).

ghost use Rattle.std.specs.Prelude.{◌≡◌, ℕ, ◌+◌, ◌-◌, ◌<◌, ◌≤◌, IfOk, IfSome, IfNone, IsOk, IsTrue, length, max};
ghost use Rattle.fleet_model.specs.declared.program.ActionId.{ActionId};
ghost use Rattle.fleet_verify.specs.declared.times.TheConstants.{LONGEST};
ghost use Rattle.fleet_model.specs.Program.{moves, AreInRange};
ghost use Rattle.fleet_model.specs.Chain.{IsAction, IsCriticalCost};
ghost use Rattle.fleet_verify.specs.Times.{ArrivesAt, EachArrivesAt, HaveArrivedAt, IsCriticalPath, IsLatest, IsLater, LeadsBack, IsAwaitedUntil, IsOwnUntil, FollowsOwn, IsNeedUntil, IsFreeTo, EachFreeTo, IsWayTo, IsStretchTo, IsWholeTo, IsOwnBefore};
ghost use Rattle.fleet_verify.specs.Stretch.{first_of, stretch_actions, path_actions};

use crate::level_row::Levels;
use crate::stretch::Stretch;
use crate::verifier::Accepted;
use fleet_model::{ActionId, Instruction, OutOfMemory, ProgramView};
use fleet_needs::{ActionCosts, CriticalCosts, OneEach};
use std::alloc::Global;
use std::marker::Model;

/// How many actions a stretch has at most.
const LONGEST: u32 = u16::MAX as u32;

/// When each action ends.
#[derive(Drop)]
enum Ends<'a> {
    /// As its place says.
    Costs(CriticalCosts),
    /// At its level, since each costs one.
    Levels(&'a Levels),
}

/// When the actions of a program end, if each begins as soon as all that it needs has ended, and takes the time that it
/// costs. Times count from 0, in the unit of the costs. By `schedules_end_in_time` no action ends sooner if each takes
/// at least its cost, and none later if each ends within its cost once nothing keeps it.
#[derive(Drop)]
pub struct Times<'a, P: ProgramView, C: ActionCosts> {
    program: &'a P,
    costs: &'a C,
    ends: Ends<'a>,
}

impl<'a, P: ProgramView, C: ActionCosts> Model for Times<'a, P, C> {
    ghost use Rattle.fleet_verify.specs.Times.{TimesParts, AreTimes};

    ghost Value = { TimesParts P C };

    ghost view = { λ t. record {
      program = t.program.now;
      costs = t.costs.now;
    } };

    ghost invariant = { λ t. AreTimes (P.program t.program.now) (C.cost t.costs.now) t.ends };
}

impl<'a, P: ProgramView> Times<'a, P, OneEach> {
    /// The times of an accepted program, whose actions cost one each: the levels that the verifier has counted, if it
    /// has kept them; then it takes no memory. It fails only if memory is refused.
    pub fn by_levels(
        alloc: Global,
        accepted: &'a Accepted<'_, P>,
        costs: &'a OneEach,
    ) -> Result<Times<'a, P, OneEach>, OutOfMemory>
        ensures program { IfOk result (λ t. t.program ≡ accepted.now.program) }
        ensures costs { IfOk result (λ t. t.costs ≡ costs.now) }
        ensures kept { IsTrue accepted.now.has_levels → IsOk result }
    {
        match accepted.levels() {
            Some(levels) => Ok(Times {
                program: accepted.program(),
                costs,
                ends: Ends::Levels(levels),
            }),
            None => Times::of(alloc, accepted, costs),
        }
    }
}

impl<'a, P: ProgramView, C: ActionCosts> Times<'a, P, C> {
    /// The times of an accepted program, whose actions cost so much. It goes once over the program, and fails only if
    /// memory is refused.
    pub fn of(
        alloc: Global,
        accepted: &'a Accepted<'_, P>,
        costs: &'a C,
    ) -> Result<Times<'a, P, C>, OutOfMemory>
        ensures program { IfOk result (λ t. t.program ≡ accepted.now.program) }
        ensures costs { IfOk result (λ t. t.costs ≡ costs.now) }
    {
        let _ = accepted.chain();
        let program = accepted.program();
        let ends = CriticalCosts::of(alloc, program, costs)?;
        Ok(Times {
            program,
            costs,
            ends: Ends::Costs(ends),
        })
    }

    /// When an action ends. Takes no memory.
    #[inline(always)]
    pub fn end(&self, action: ActionId) -> u64
        requires { IsAction (P.program self.now.program) action }
        ensures { IsCriticalCost (P.program self.now.program) (C.cost self.now.costs) action
            result }
    {
        match &self.ends {
            Ends::Costs(costs) => costs.cost(self.program, action),
            Ends::Levels(levels) => levels.level(action),
        }
    }

    /// When agent `i` arrives. Takes no memory.
    pub fn arrival(&self, i: u16) -> u64
        requires { i < length (P.program self.now.program) }
        ensures { ArrivesAt (P.program self.now.program) (C.cost self.now.costs) i result }
    {
        let moves = self.program.moves(i);
        if moves == 0 {
            return 0;
        }
        self.end(ActionId {
            agent: i,
            number: moves,
        })
    }

    /// When each agent arrives. It fails only if memory is refused.
    pub fn arrivals(&self, alloc: Global) -> Result<Vec<u64>, OutOfMemory>
        ensures { IfOk result (λ arrivals. EachArrivesAt
            (P.program self.now.program) (C.cost self.now.costs) arrivals.items) }
    {
        let agents = self.program.agents();
        let mut arrivals = Vec::with_capacity(alloc, usize::from(agents))?;
        for i in 0..agents {
            arrivals.push(self.arrival(i))?;
        }
        Ok(arrivals)
    }

    /// An action that ends last of all, if there are any. Takes no memory.
    pub fn latest(&self) -> Option<ActionId>
        ensures some { IfSome result
            (IsLatest (P.program self.now.program) (C.cost self.now.costs)) }
        ensures none { IfNone result ((i : ℕ) → moves (P.program self.now.program) i ≡ 0) }
    {
        self.known();
        let mut latest = None;
        for agent in 0..self.program.agents() {
            let number = self.program.moves(agent);
            if number > 0 {
                latest = Some(self.later(latest, ActionId { agent, number }));
            }
        }
        latest
    }

    /// The action that ends later, if there are two, and else the second.
    fn later(&self, first: Option<ActionId>, second: ActionId) -> ActionId
        requires first { IfSome first (IsAction (P.program self.now.program)) }
        requires second { IsAction (P.program self.now.program) second }
        ensures { IsLater (P.program self.now.program) (C.cost self.now.costs) first second result }
    {
        let Some(action) = first else {
            return second;
        };
        let own = self.end(second);
        let other = self.end(action);
        if own <= other { action } else { second }
    }

    /// What the actions need is there, and each has a critical path. This does nothing: its contract is the law.
    fn known(&self)
        ensures in_range { AreInRange (P.program self.now.program) }
        ensures critical { (b : ActionId) → IsAction (P.program self.now.program) b
            → (m : ℕ) × IsCriticalCost (P.program self.now.program) (C.cost self.now.costs) b m }
    {
        let _ = &self.ends;
    }

    /// How many first actions of agent `i` end at time 0. Takes no memory.
    fn free_count(&self, i: u16) -> u32
        requires { i < length (P.program self.now.program) }
        ensures { IsFreeTo (P.program self.now.program) (C.cost self.now.costs) i result }
    {
        let moves = self.program.moves(i);
        for finished in 0..moves {
            let next = ActionId {
                agent: i,
                number: finished + 1,
            };
            let end = self.end(next);
            let is_late = end > 0;
            if is_late {
                return finished;
            }
        }
        moves
    }

    /// The same of each agent. It fails only if memory is refused.
    pub(crate) fn free_counts(&self, alloc: Global) -> Result<Vec<u32>, OutOfMemory>
        ensures { IfOk result (λ counts. EachFreeTo
            (P.program self.now.program) (C.cost self.now.costs) counts.items) }
    {
        let agents = self.program.agents();
        let mut counts = Vec::with_capacity(alloc, usize::from(agents))?;
        for i in 0..agents {
            counts.push(self.free_count(i))?;
        }
        Ok(counts)
    }

    /// When all agents have arrived. Takes no memory.
    pub fn last_arrival(&self) -> u64
        ensures { HaveArrivedAt (P.program self.now.program) (C.cost self.now.costs) result }
    {
        self.known();
        match self.latest() {
            Some(action) => self.end(action),
            None => 0,
        }
    }

    /// A dearest chain of needs, from its first action to its last, which ends last of all: if any of these takes
    /// longer than it costs, the fleet arrives so much later. Empty if there are no actions. It fails only if memory is
    /// refused.
    pub fn critical_path(&self, alloc: Global) -> Result<Vec<Stretch>, OutOfMemory>
        requires { (a : ActionId) → 1 ≤ C.cost self.now.costs a }
        ensures { IfOk result (λ path. IsCriticalPath
            (P.program self.now.program) (C.cost self.now.costs) (path_actions path.items)) }
    {
        self.known();
        let mut path = Vec::new(alloc);
        let Some(last) = self.latest() else {
            return Ok(path);
        };
        let total = self.end(last);
        let mut way = self.stretch_to(last, total);
        path.push(way.0)?;
        while let Some((before, time)) = self.before(way.0.first_action(), way.1) {
            way = self.stretch_to(before, time);
            path.push(way.0)?;
        }
        path.reverse();
        Ok(path)
    }

    /// A stretch of a dearest chain that ends with this action, which ends then, and when its first action ends.
    #[inline(always)]
    fn stretch_to(&self, action: ActionId, end: u64) -> (Stretch, u64)
        requires action { IsAction (P.program self.now.program) action }
        requires end { IsCriticalCost (P.program self.now.program) (C.cost self.now.costs) action
            end }
        ensures { IsWayTo (P.program self.now.program) (C.cost self.now.costs) action end
            (stretch_actions result.0) (first_of result.0) result.1 }
    {
        let (first, time) = self.way_to(action, end);
        let stretch = Stretch {
            agent: action.agent,
            count: (action.number - first + 1) as u16,
            first,
        };
        (stretch, time)
    }

    /// The number of the first action of such a stretch, and when that action ends: by levels as far back as they rise
    /// by one, and else action by action.
    #[inline(always)]
    fn way_to(&self, action: ActionId, end: u64) -> (u32, u64)
        requires action { IsAction (P.program self.now.program) action }
        requires end { IsCriticalCost (P.program self.now.program) (C.cost self.now.costs) action
            end }
        ensures stretch { IsStretchTo (P.program self.now.program) (C.cost self.now.costs) action
            end result.0 result.1 }
        ensures whole { IsWholeTo (P.program self.now.program) (C.cost self.now.costs) action
            result.0 result.1 }
    {
        match &self.ends {
            Ends::Costs(_) => match self.longer(action, end) {
                Some((before, time)) => self.way_on(action, end, before.number, time),
                None => (action.number, end),
            },
            Ends::Levels(levels) => {
                let least = least_first(action.number);
                let first = levels.climb_begin(action).max(least);
                (first, end - u64::from(action.number - first))
            }
        }
    }

    /// The same, if such a stretch begins with the action of this number, which ends then.
    #[inline(never)]
    fn way_on(&self, action: ActionId, end: u64, number: u32, time: u64) -> (u32, u64)
        requires { IsStretchTo (P.program self.now.program) (C.cost self.now.costs) action end
            number time }
        ensures stretch { IsStretchTo (P.program self.now.program) (C.cost self.now.costs) action
            end result.0 result.1 }
        ensures whole { IsWholeTo (P.program self.now.program) (C.cost self.now.costs) action
            result.0 result.1 }
    {
        let least = least_first(action.number);
        let agent = action.agent;
        let mut first = number;
        let mut time = time;
        while first > least {
            let here = ActionId {
                agent,
                number: first,
            };
            let Some((before, begun)) = self.longer(here, time) else {
                return (first, time);
            };
            first = before.number;
            time = begun;
        }
        (first, time)
    }

    /// The action of the same agent before this one, which ends then, and when that one ends, if this one begins as it
    /// does.
    #[inline(always)]
    fn longer(&self, action: ActionId, end: u64) -> Option<(ActionId, u64)>
        requires action { IsAction (P.program self.now.program) action }
        requires end { IsCriticalCost (P.program self.now.program) (C.cost self.now.costs) action
            end }
        ensures some { IfSome result (λ found. IsOwnBefore
            (P.program self.now.program) (C.cost self.now.costs) action found.0 found.1) }
        ensures none { IfNone result ((a : ActionId) → FollowsOwn
            (P.program self.now.program) (C.cost self.now.costs) action end a → ⊥) }
    {
        let time = self.begin(action, end);
        let before = self.own_until(action, time)?;
        Some((before, time))
    }

    /// When an action begins that ends then.
    #[inline(always)]
    fn begin(&self, action: ActionId, end: u64) -> u64
        requires action { IsAction (P.program self.now.program) action }
        requires end { IsCriticalCost (P.program self.now.program) (C.cost self.now.costs) action
            end }
        ensures { result + C.cost self.now.costs action ≡ end }
    {
        let own = u64::from(self.costs.cost(action));
        end - own
    }

    /// The action right before this one, which ends then, on a dearest chain that ends with it, and when that one ends,
    /// unless the chain is of this one alone.
    fn before(&self, action: ActionId, end: u64) -> Option<(ActionId, u64)>
        requires action { IsAction (P.program self.now.program) action }
        requires end { IsCriticalCost (P.program self.now.program) (C.cost self.now.costs) action
            end }
        ensures some { IfSome result (λ found. LeadsBack
            (P.program self.now.program) (C.cost self.now.costs) action found.0) }
        ensures end { IfSome result (λ found. IsCriticalCost
            (P.program self.now.program) (C.cost self.now.costs) found.0 found.1) }
        ensures none { IfNone result (IsCriticalCost (P.program self.now.program)
            (C.cost self.now.costs) action (C.cost self.now.costs action)) }
    {
        self.known();
        let time = self.begin(action, end);
        match self.need_until(action, time) {
            Some(found) => Some((found, time)),
            None => None,
        }
    }

    /// An action that this one directly needs and that ends at this time, if there is one.
    fn need_until(&self, action: ActionId, time: u64) -> Option<ActionId>
        requires { IsAction (P.program self.now.program) action }
        ensures some { IfSome result
            (IsNeedUntil (P.program self.now.program) (C.cost self.now.costs) action time) }
        ensures none { IfNone result ((a : ActionId) → IsNeedUntil
            (P.program self.now.program) (C.cost self.now.costs) action time a → ⊥) }
    {
        match self.awaited_until(action, time) {
            Some(found) => Some(found),
            None => self.own_until(action, time),
        }
    }

    /// The action of the same agent right before this one, if there is one and it ends at this time.
    #[inline(always)]
    fn own_until(&self, action: ActionId, time: u64) -> Option<ActionId>
        requires { IsAction (P.program self.now.program) action }
        ensures some { IfSome result
            (IsOwnUntil (P.program self.now.program) (C.cost self.now.costs) action time) }
        ensures none { IfNone result ((a : ActionId) → IsOwnUntil
            (P.program self.now.program) (C.cost self.now.costs) action time a → ⊥) }
    {
        if action.number == 1 {
            return None;
        }
        let before = ActionId {
            agent: action.agent,
            number: action.number - 1,
        };
        let end = self.end(before);
        if end == time { Some(before) } else { None }
    }

    /// An action that this one awaits and that ends at this time, if there is one.
    fn awaited_until(&self, action: ActionId, time: u64) -> Option<ActionId>
        requires { IsAction (P.program self.now.program) action }
        ensures some { IfSome result
            (IsAwaitedUntil (P.program self.now.program) (C.cost self.now.costs) action time) }
        ensures none { IfNone result ((a : ActionId) → IsAwaitedUntil
            (P.program self.now.program) (C.cost self.now.costs) action time a → ⊥) }
    {
        self.known();
        let _agents = self.program.agents();
        let ActionId { agent, number } = action;
        let finished = number - 1;
        let mut at = self.program.offset(agent, finished, 0);
        let mut k = 0;
        'instructions: loop {
            let reading = self.program.read(agent, finished, k, at);
            match reading.instruction {
                Instruction::Await(one) => {
                    let awaited = ActionId {
                        agent: one.agent,
                        number: one.count,
                    };
                    let end = self.end(awaited);
                    if end == time {
                        return Some(awaited);
                    }
                    at = reading.after;
                    k += 1;
                }
                Instruction::Step(_) => return None,
            }
        }
    }
}

/// The least number of a first action of a stretch up to the action of this number.
#[inline(always)]
fn least_first(number: u32) -> u32
    ensures { result ≡ max 1 (number + 1 - LONGEST) }
{
    number.saturating_sub(LONGEST - 1).max(1)
}
