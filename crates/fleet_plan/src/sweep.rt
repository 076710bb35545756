//! The sweep over time for conflicts, with a table of cells in which each agent enters itself. Each step looks at the
//! agents under way, and at those that have arrived since the last eighth step: one that has come to its last cell
//! stays entered there. The same sweep finds whether an agent follows another.

ghost use Rattle.std.specs.Prelude.{◌≡◌, ◌≢◌, ℕ, ◌+◌, ◌<◌, ◌≤◌, ◌⊎◌, ◌↔◌, IfOk, IfSome, IfNone, MatchOption, length, slice_index, Some, None, All, IsTrue, false, EachIndex};
ghost use Rattle.fleet_grid.specs.Ground.{is_passable, cell_index};
ghost use Rattle.fleet_model.specs.declared.limits.TheConstants.{MAX_AGENTS, MAX_HORIZON};
ghost use Rattle.fleet_plan.specs.Apart.{IsApart, HasFollowing, IsTakenFrom};
ghost use Rattle.fleet_plan.specs.Plan.{cell_of};
ghost use Rattle.fleet_plan.specs.FirstFault.{GoesRight, IsFirstConflict, HasNoConflict};
ghost use Rattle.fleet_plan.specs.Rings.{IsBlank, NamesAgents, ahead_of, walk_of, IsOnRing, IsLeastOnRing, LeadsTo, AreClosed, HasWalked};
ghost use Rattle.fleet_plan.specs.Sweep.{StandOnMap, StandOnPlaces, IsFirstMeeting, IsEntered, IsAhead, AreAhead, Exchange, IsFirstExchange, HasNone, IsFirstAhead, IsFreeAhead, OthersStandAt, HasIn, EntersAgent, NamesLeavers, NamesMovers, AreAgentsSettled, AreOtherAgentsSettled, AreFresh, IsSweep, HasComeTo, HasLookedAhead, HaveArrived};
ghost use Rattle.fleet_plan.specs.UnderWay.{IsSoForOthers, Covers};

use crate::plan::Plan;
use crate::plan_fault::Conflict;
use fleet_grid::{Grid, Table, cells_have_places_of_their_own};
use fleet_model::agent_numbers;
use std::alloc::{AllocError, Global};
use std::marker::Model;

/// The places in a table of the map's cells on which the agents stand at `time`.
fn fill_places(plan: &Plan, grid: &Grid, time: u32, places: &mut [usize])
    requires on_map { StandOnMap grid.now plan.now }
    requires agents { length places.old ≡ length plan.now }
    ensures { StandOnPlaces grid.now plan.now time places.new }
{
    for i in 0..plan.agents() {
        places[usize::from(i)] = grid.cell_index(plan.cell(i, time));
    }
}

/// The same for the agents of the row alone, if the others stand on their places in `next` already.
fn fill_next(plan: &Plan, grid: &Grid, time: u32, agents: &[u16], next: &mut [usize])
    requires on_map { StandOnMap grid.now plan.now }
    requires agents { All (λ i. i < length plan.now) agents.now }
    requires all { length next.old ≡ length plan.now }
    requires others { OthersStandAt grid.now plan.now time agents.now next.old }
    ensures { StandOnPlaces grid.now plan.now time next.new }
{
    for &i in agents {
        next[usize::from(i)] = grid.cell_index(plan.cell(i, time));
    }
}

/// The first two agents in one place. If there are none, each agent is then entered in its place of the table. What the
/// table held before does not matter, since an entry counts only if that agent stands there.
fn first_meeting(table: &mut Table<u16>, places: &[usize]) -> Result<Option<(u16, u16)>, AllocError>
    requires { length places.now ≤ MAX_AGENTS }
    ensures { IfOk result (λ found. MatchOption found (IsEntered table.new places.now)
        (λ pair. IsFirstMeeting places.now pair.0 pair.1)) }
{
    let mut first = None;
    for (j, place) in places.iter().enumerate() {
        let i = table.get(*place);
        if usize::from(i) < j && places[usize::from(i)] == *place {
            first = Some(first_pair(first, i, j as u16));
        } else {
            table.set(*place, j as u16)?;
        }
    }
    Ok(first)
}

/// The first pair, unless `i` is below its first agent.
fn first_pair(first: Option<(u16, u16)>, i: u16, j: u16) -> (u16, u16)
    ensures { MatchOption first (result ≡ (i, j)) (λ pair. ((pair.0 ≤ i) × (result ≡ pair))
        ⊎ ((i < pair.0) × (result ≡ (i, j)))) }
{
    match first {
        Some(pair) if pair.0 <= i => pair,
        _ => (i, j),
    }
}

/// The agent that stands in a place.
fn occupant(table: &Table<u16>, places: &[usize], place: usize) -> Option<u16>
    requires { IsEntered table.now places.now }
    ensures some { IfSome result (λ j. (j < length places.now)
        × (slice_index places.now j ≡ place)) }
    ensures none { IfNone result ((j : ℕ) → j < length places.now
        → slice_index places.now j ≢ place) }
{
    let j = table.get(place);
    if stands_at(places, j, place) {
        Some(j)
    } else {
        None
    }
}

/// Whether there is such an agent, and it stands in the place.
#[inline]
fn stands_at(places: &[usize], agent: u16, place: usize) -> bool
    ensures { IsTrue result ↔ ((agent < length places.now)
        × (slice_index places.now agent ≡ place)) }
{
    usize::from(agent) < places.len() && places[usize::from(agent)] == place
}

/// Who stands in the place to which agent `i` goes, if it goes to another one.
fn agent_ahead(table: &Table<u16>, places: &[usize], next: &[usize], i: u16) -> Option<u16>
    requires entered { IsEntered table.now places.now }
    requires agent { i < length places.now }
    requires next { length next.now ≡ length places.now }
    ensures { IsAhead places.now next.now i result }
{
    let place = next[usize::from(i)];
    if place == places[usize::from(i)] {
        None
    } else {
        occupant(table, places, place)
    }
}

/// Notes for each agent of the row who is ahead of it; nobody is ahead of the others, who stay. Answers whether no two
/// are ahead of each other.
fn fill_ahead(
    table: &Table<u16>,
    places: &[usize],
    next: &[usize],
    agents: &[u16],
    ahead: &mut [Option<u16>],
) -> bool
    requires entered { IsEntered table.now places.now }
    requires agents { NamesLeavers places.now next.now agents.now }
    requires ahead { IsBlank (length places.now) ahead.old }
    ensures ahead { AreAhead places.now next.now ahead.new }
    ensures apart { IsTrue result → HasNone (Exchange ahead.new) }
{
    let mut apart = true;
    for &i in agents {
        let next_one = agent_ahead(table, places, next, i);
        if is_behind(ahead, next_one, i) {
            apart = false;
        }
        ahead[usize::from(i)] = next_one;
    }
    apart
}

/// Whether agent `i` is ahead of the other one.
fn is_behind(ahead: &[Option<u16>], other: Option<u16>, i: u16) -> bool
    requires { IfSome other (λ j. j < length ahead.now) }
    ensures { IfSome other (λ j. result ≡ false → ahead_of ahead.now j ≢ Some i) }
{
    match other {
        Some(j) => ahead[usize::from(j)] == Some(i),
        None => false,
    }
}

/// The first two agents that are ahead of each other.
fn first_exchange(ahead: &[Option<u16>]) -> Option<(u16, u16)>
    requires agents { NamesAgents ahead.now }
    requires few { length ahead.now ≤ MAX_AGENTS }
    ensures { MatchOption result (HasNone (Exchange ahead.now))
        (λ pair. IsFirstExchange ahead.now pair.0 pair.1) }
{
    for (i, next) in ahead.iter().enumerate() {
        if let Some(j) = *next {
            if ahead[usize::from(j)] == Some(i as u16) {
                return Some((i as u16, j));
            }
        }
    }
    None
}

/// The first conflict in the step after `time`, by who is ahead of whom. `apart` says that no two are ahead of each
/// other; `walks` is working memory.
fn conflict_in(
    time: u32,
    apart: bool,
    agents: &[u16],
    ahead: &[Option<u16>],
    walks: &mut [Option<u16>],
) -> Option<Conflict>
    requires few { length ahead.now ≤ MAX_AGENTS }
    requires apart { IsTrue apart → HasNone (Exchange ahead.now) }
    requires agents { NamesMovers ahead.now agents.now }
    requires walks { IsBlank (length ahead.now) walks.old }
    ensures found { MatchOption result (IsFreeAhead ahead.now) (IsFirstAhead ahead.now time) }
    ensures unwalked { (i : ℕ) → ahead_of ahead.now i ≡ None → walk_of walks.new i ≡ None }
{
    if !apart {
        if let Some((i, j)) = first_exchange(ahead) {
            return Some(Conflict::Swapping { time, i, j });
        }
    }
    let least = least_on_ring(agents, ahead, walks)?;
    Some(Conflict::Cycle { time, least })
}

/// Enters the agents of the row in their places of the table, in which the others are entered already. Answers whether
/// it found none of them in the place of another agent.
#[inline(always)]
fn enter(table: &mut Table<u16>, agents: &[u16], places: &[usize]) -> Result<bool, AllocError>
    requires agents { All (λ i. i < length places.now) agents.now }
    requires others { IsSoForOthers agents.now (length places.now) (HasIn table.old places.now) }
    ensures { IfOk result (λ alone. IsTrue alone → IsEntered table.new places.now) }
{
    for &i in agents {
        if !enter_one(table, i, places)? {
            return Ok(false);
        }
    }
    Ok(true)
}

/// The same for a row of many agents. Out of line the loop keeps its numbers in registers.
#[inline(never)]
fn enter_many(table: &mut Table<u16>, agents: &[u16], places: &[usize]) -> Result<bool, AllocError>
    requires agents { All (λ i. i < length places.now) agents.now }
    requires others { IsSoForOthers agents.now (length places.now) (HasIn table.old places.now) }
    ensures { IfOk result (λ alone. IsTrue alone → IsEntered table.new places.now) }
{
    enter(table, agents, places)
}

/// From how many agents on a row is entered out of line.
const MANY: usize = 8;

/// The same for a row of any length.
#[inline(always)]
fn enter_row(table: &mut Table<u16>, agents: &[u16], places: &[usize]) -> Result<bool, AllocError>
    requires agents { All (λ i. i < length places.now) agents.now }
    requires others { IsSoForOthers agents.now (length places.now) (HasIn table.old places.now) }
    ensures { IfOk result (λ alone. IsTrue alone → IsEntered table.new places.now) }
{
    if agents.len() >= MANY {
        enter_many(table, agents, places)
    } else {
        enter(table, agents, places)
    }
}

/// Enters an agent in its place, unless another one that is entered there stands there. Answers whether none does.
#[inline(always)]
fn enter_one(table: &mut Table<u16>, i: u16, places: &[usize]) -> Result<bool, AllocError>
    requires { i < length places.now }
    ensures { IfOk result (λ alone. IsTrue alone → EntersAgent table.old table.new places.now i) }
{
    let place = places[usize::from(i)];
    let other = table.replace(place, i)?;
    Ok(other == i || !stands_at(places, other, place))
}

/// The first two agents in one place, if the agents that are not in the row are entered in theirs already. If there are
/// none, each agent is then entered.
fn meeting(
    table: &mut Table<u16>,
    agents: &[u16],
    places: &[usize],
) -> Result<Option<(u16, u16)>, AllocError>
    requires few { length places.now ≤ MAX_AGENTS }
    requires agents { All (λ i. i < length places.now) agents.now }
    requires others { IsSoForOthers agents.now (length places.now) (HasIn table.old places.now) }
    ensures { IfOk result (λ found. MatchOption found (IsEntered table.new places.now)
        (λ pair. IsFirstMeeting places.now pair.0 pair.1)) }
{
    if enter_row(table, agents, places)? {
        return Ok(None);
    }
    first_meeting(table, places)
}

/// The agents of the row have come to their next places. Nobody is then ahead of anybody, and the walks are forgotten.
fn settle(
    agents: &[u16],
    next: &[usize],
    places: &mut [usize],
    ahead: &mut [Option<u16>],
    walks: &mut [Option<u16>],
)
    requires agents { All (λ i. i < length next.now) agents.now }
    requires places { length places.old ≡ length next.now }
    requires ahead { length ahead.old ≡ length next.now }
    requires walks { length walks.old ≡ length next.now }
    requires others { AreOtherAgentsSettled agents.now places.old next.now ahead.old walks.old }
    ensures { AreAgentsSettled places.new next.now ahead.new walks.new }
{
    for &i in agents {
        let agent = usize::from(i);
        places[agent] = next[agent];
        ahead[agent] = None;
        walks[agent] = None;
    }
}

/// Every how many steps agents that have arrived are dropped.
const DROPPED_EACH: u32 = 8;

/// Drops the agents that have arrived by the end of the step after `time`, in the first step and in each eighth one: an
/// agent that has arrived and is still looked at stays where it is.
fn drop_arrived(agents: &mut Vec<u16>, plan: &Plan, time: u32)
    requires time { time ≤ MAX_HORIZON }
    requires covers { Covers plan.now time agents.old.items }
    ensures { Covers plan.now (time + 1) agents.new.items }
{
    let is_due = time % DROPPED_EACH == 0;
    if is_due {
        plan.keep_under_way(agents, time + 1);
    }
}

/// What the sweep knows at a time. All rows but the last have an entry for each agent.
#[derive(Drop)]
struct Sweep {
    /// For each place of the map an agent. An entry counts only if that agent stands there.
    table: Table<u16>,
    /// The place of each agent at the time, and at the next one.
    places: Vec<usize>,
    next: Vec<usize>,
    /// Who is ahead of each agent, and whose walk has met it: memory of a step.
    ahead: Vec<Option<u16>>,
    walks: Vec<Option<u16>>,
    /// The agents that are looked at: the others have arrived.
    agents: Vec<u16>,
}

impl Model for Sweep {
    ghost use Rattle.fleet_plan.specs.Sweep.{SweepRows};

    ghost Value = { SweepRows };

    ghost view = { λ s. record {
      table = s.table;
      places = s.places.items;
      next = s.next.items;
      ahead = s.ahead.items;
      walks = s.walks.items;
      agents = s.agents.items;
    } };
}

impl Sweep {
    /// A sweep that has not begun. Takes memory for the agents, and none yet for the map.
    fn new(alloc: Global, plan: &Plan) -> Result<Sweep, AllocError>
        ensures { IfOk result (AreFresh plan.now) }
    {
        let agents = usize::from(plan.agents());
        Ok(Sweep {
            table: Table::new(alloc, 0),
            places: vec![in alloc; 0usize; agents]?,
            next: vec![in alloc; 0usize; agents]?,
            ahead: vec![in alloc; None; agents]?,
            walks: vec![in alloc; None; agents]?,
            agents: agents_of(alloc, plan)?,
        })
    }

    /// The first conflict of a plan. Takes memory for the parts of the map on which the agents stand.
    fn run(&mut self, plan: &Plan, grid: &Grid) -> Result<Option<Conflict>, AllocError>
        requires on_map { StandOnMap grid.now plan.now }
        requires fresh { AreFresh plan.now self.old }
        ensures { IfOk result (λ found. MatchOption found (HasNoConflict plan.now)
            (IsFirstConflict plan.now)) }
    {
        let end = plan.steps() + 1;
        let begun = self.begin(plan, grid)?;
        if begun.is_some() {
            return Ok(begun);
        }
        for time in 0..end {
            let found = self.step(plan, grid, time)?;
            if found.is_some() {
                return Ok(found);
            }
        }
        Ok(None)
    }

    /// The first conflict of a plan, if it is at time 0. If it is not, the sweep has come to that time.
    fn begin(&mut self, plan: &Plan, grid: &Grid) -> Result<Option<Conflict>, AllocError>
        requires on_map { StandOnMap grid.now plan.now }
        requires fresh { AreFresh plan.now self.old }
        ensures { IfOk result (λ found. MatchOption found (HasComeTo grid.now plan.now 0 self.new)
            (IsFirstConflict plan.now)) }
    {
        // Agents in one place are on one cell: a law of the map.
        cells_have_places_of_their_own();
        // The plan that is asked shows that there are few agents.
        let _agents = plan.agents();
        let places = self.places.as_mut_slice();
        fill_places(plan, grid, 0, places);
        self.next.copy_from_slice(places);
        if let Some((i, j)) = first_meeting(&mut self.table, places)? {
            return Ok(Some(Conflict::Vertex { time: 0, i, j }));
        }
        Ok(None)
    }

    /// The first conflict of a plan, if it is in the step after `time`, and the sweep has come to that time. If it is
    /// not, the sweep has come to the next one.
    fn step(&mut self, plan: &Plan, grid: &Grid, time: u32) -> Result<Option<Conflict>, AllocError>
        requires on_map { StandOnMap grid.now plan.now }
        requires few { length plan.now ≤ MAX_AGENTS }
        requires time { time ≤ MAX_HORIZON }
        requires swept { HasComeTo grid.now plan.now time self.old }
        ensures { IfOk result (λ found. MatchOption found
            (HasComeTo grid.now plan.now (time + 1) self.new) (IsFirstConflict plan.now)) }
    {
        // Agents in one place are on one cell: a law of the map.
        cells_have_places_of_their_own();
        if let Some(conflict) = self.look_ahead(plan, grid, time) {
            return Ok(Some(conflict));
        }
        if let Some((i, j)) = self.arrive(plan, time)? {
            let time = time + 1;
            return Ok(Some(Conflict::Vertex { time, i, j }));
        }
        Ok(None)
    }

    /// The first conflict of a plan, if it is on the way to the next time, and the sweep has come to `time`: two agents
    /// that change places, or a ring. Notes where the agents are then, and who is ahead of each.
    fn look_ahead(&mut self, plan: &Plan, grid: &Grid, time: u32) -> Option<Conflict>
        requires on_map { StandOnMap grid.now plan.now }
        requires few { length plan.now ≤ MAX_AGENTS }
        requires time { time ≤ MAX_HORIZON }
        requires swept { HasComeTo grid.now plan.now time self.old }
        ensures found { MatchOption result (IsSweep grid.now plan.now self.new.next (time + 1))
            (IsFirstConflict plan.now) }
        ensures ahead { HasLookedAhead plan.now time self.new }
    {
        // Agents in one place are on one cell: a law of the map.
        cells_have_places_of_their_own();
        let agents = self.agents.as_slice();
        let places = self.places.as_slice();
        let next = self.next.as_mut_slice();
        let ahead = self.ahead.as_mut_slice();
        let walks = self.walks.as_mut_slice();
        fill_next(plan, grid, time + 1, agents, next);
        let apart = fill_ahead(&self.table, places, next, agents, ahead);
        conflict_in(time, apart, agents, ahead, walks)
    }

    /// The first two agents that come to one place at the end of the step after `time`. If there are none, the agents
    /// have come to their next places.
    fn arrive(&mut self, plan: &Plan, time: u32) -> Result<Option<(u16, u16)>, AllocError>
        requires few { length plan.now ≤ MAX_AGENTS }
        requires time { time ≤ MAX_HORIZON }
        requires ahead { HasLookedAhead plan.now time self.old }
        ensures { IfOk result (λ found. MatchOption found
            (HaveArrived plan.now (time + 1) self.old self.new)
            (λ pair. IsFirstMeeting self.old.next pair.0 pair.1)) }
    {
        let agents = self.agents.as_slice();
        let next = self.next.as_slice();
        if let Some(pair) = meeting(&mut self.table, agents, next)? {
            return Ok(Some(pair));
        }
        let places = self.places.as_mut_slice();
        let ahead = self.ahead.as_mut_slice();
        let walks = self.walks.as_mut_slice();
        settle(agents, next, places, ahead, walks);
        drop_arrived(&mut self.agents, plan, time);
        Ok(None)
    }
}

impl Sweep {
    /// Whether no agent follows another, in a plan without conflict. Takes memory for the parts of the map on which the
    /// agents stand.
    fn is_apart(&mut self, plan: &Plan, grid: &Grid) -> Result<bool, AllocError>
        requires on_map { StandOnMap grid.now plan.now }
        requires fresh { AreFresh plan.now self.old }
        requires free { HasNoConflict plan.now }
        ensures { IfOk result (λ apart. IsTrue apart ↔ IsApart plan.now) }
    {
        // There is no conflict, so the sweep begins, and comes to each time.
        self.begin(plan, grid)?;
        for time in 0..plan.steps() {
            if self.has_following(plan, grid, time) {
                return Ok(false);
            }
            self.step(plan, grid, time)?;
        }
        Ok(true)
    }

    /// Whether some agent follows another in the step after `time`, to which the sweep has come.
    fn has_following(&self, plan: &Plan, grid: &Grid, time: u32) -> bool
        requires on_map { StandOnMap grid.now plan.now }
        requires time { time ≤ MAX_HORIZON }
        requires swept { HasComeTo grid.now plan.now time self.now }
        ensures { IsTrue result ↔ HasFollowing plan.now time }
    {
        // Agents in one place are on one cell: a law of the map.
        cells_have_places_of_their_own();
        let places = self.places.as_slice();
        for &i in self.agents.as_slice() {
            let place = next_place(plan, grid, i, time);
            if is_taken_from(&self.table, places, i, place) {
                return true;
            }
        }
        false
    }
}

/// The place of agent `i` at the time after `time`.
fn next_place(plan: &Plan, grid: &Grid, i: u16, time: u32) -> usize
    requires on_map { StandOnMap grid.now plan.now }
    requires agent { i < length plan.now }
    requires time { time ≤ MAX_HORIZON }
    ensures { result ≡ cell_index grid.now (cell_of plan.now i (time + 1)) }
{
    grid.cell_index(plan.cell(i, time + 1))
}

/// Whether an agent other than `i` is in the place.
fn is_taken_from(table: &Table<u16>, places: &[usize], i: u16, place: usize) -> bool
    requires { IsEntered table.now places.now }
    ensures { IsTrue result ↔ IsTakenFrom places.now i place }
{
    match occupant(table, places, place) {
        Some(j) => j != i,
        None => false,
    }
}

/// All agents.
fn agents_of(alloc: Global, plan: &Plan) -> Result<Vec<u16>, AllocError>
    ensures { IfOk result (λ agents. Covers plan.now 0 agents.items) }
{
    let agents = agent_numbers(alloc, plan.agents())?;
    Ok(agents)
}

/// The first conflict of a plan whose agents go over passable cells. Takes memory for the agents, and for the parts of
/// the map on which they stand.
pub(crate) fn first_conflict(
    alloc: Global,
    plan: &Plan,
    grid: &Grid,
) -> Result<Option<Conflict>, AllocError>
    requires { EachIndex plan.now (GoesRight (is_passable grid.now) plan.now) }
    ensures { IfOk result (λ found. MatchOption found (HasNoConflict plan.now)
        (IsFirstConflict plan.now)) }
{
    // What is asked of a map gives its sizes.
    let _width = grid.width();
    let mut sweep = Sweep::new(alloc, plan)?;
    sweep.run(plan, grid)
}

/// Whether no agent follows another, in a plan without conflict whose agents stay on the map. Takes memory for the
/// agents, and for the parts of the map on which they stand.
pub(crate) fn nobody_follows(alloc: Global, plan: &Plan, grid: &Grid) -> Result<bool, AllocError>
    requires on_map { StandOnMap grid.now plan.now }
    requires free { HasNoConflict plan.now }
    ensures { IfOk result (λ apart. IsTrue apart ↔ IsApart plan.now) }
{
    let mut sweep = Sweep::new(alloc, plan)?;
    sweep.is_apart(plan, grid)
}

// Rings of agents in one step, each of which goes to the cell of the next one.

/// The least agent that is on a ring, if each agent has at most one that is ahead of it, and nobody is ahead of the
/// agents that are not in the row. `walks` is working memory: an agent that nobody is ahead of is not noted there.
pub(crate) fn least_on_ring(
    row: &[u16],
    ahead: &[Option<u16>],
    walks: &mut [Option<u16>],
) -> Option<u16>
    requires row { NamesMovers ahead.now row.now }
    requires walks { IsBlank (length ahead.now) walks.old }
    ensures found { MatchOption result ((i : ℕ) → IsOnRing ahead.now i → ⊥)
        (IsLeastOnRing ahead.now) }
    ensures unwalked { (i : ℕ) → ahead_of ahead.now i ≡ None → walk_of walks.new i ≡ None }
{
    let mut least = None;
    for (number, first) in row.iter().enumerate() {
        if let Some(agent) = walk(ahead, walks, number as u16, *first) {
            least = Some(lesser(least, least_around(ahead, agent)));
        }
    }
    least
}

/// The lesser of two agents, or the second if there is no first one.
fn lesser(least: Option<u16>, other: u16) -> u16
    ensures other { result ≤ other }
    ensures least { IfSome least (λ agent. result ≤ agent) }
    ensures one { (result ≡ other) ⊎ (Some result ≡ least) }
{
    match least {
        Some(agent) if agent < other => agent,
        _ => other,
    }
}

/// Walks ahead from an agent to one that was walked on before, or that nobody is ahead of. The answer is the agent at
/// which this walk met itself, if it did.
fn walk(ahead: &[Option<u16>], walks: &mut [Option<u16>], number: u16, first: u16) -> Option<u16>
    requires agents { NamesAgents ahead.now }
    requires closed { AreClosed ahead.now walks.old number }
    requires agent { first < length ahead.now }
    ensures { HasWalked ahead.now walks.old walks.new number first result }
{
    let mut agent = first;
    loop {
        let next = ahead[usize::from(agent)]?;
        if let Some(walk) = walks[usize::from(agent)] {
            let is_own = walk == number;
            return if is_own { Some(agent) } else { None };
        }
        walks[usize::from(agent)] = Some(number);
        agent = next;
    }
}

/// The least agent of the ring on which an agent is.
fn least_around(ahead: &[Option<u16>], first: u16) -> u16
    requires agents { NamesAgents ahead.now }
    requires ring { IsOnRing ahead.now first }
    ensures ring { IsOnRing ahead.now result }
    ensures least { (j : ℕ) → LeadsTo ahead.now first j → result ≤ j }
{
    let mut least = first;
    let mut agent = first;
    for _step in 0..ahead.len() {
        let Some(next) = ahead[usize::from(agent)] else {
            unreachable!();
        };
        let is_back = next == first;
        if is_back {
            return least;
        }
        let is_less = next < least;
        if is_less {
            least = next;
        }
        agent = next;
    }
    unreachable!()
}
