//! Awaits for which a few steps back from their action show whether others imply them. The agents of those left open
//! are asked for; once most are, it is looked back less: that decides how much is left to rows, but no answer.

ghost use Rattle.std.specs.Prelude.{◌≡◌, ◌+◌, ◌<◌, ◌≤◌, true, false, length, vec_len, take, Some, IfOk, IsTrue, count_by};
ghost use Rattle.fleet_model.specs.{Program.AreInRange, Program.awaits_of, Program.total_awaits, Chain.IsAction, Chain.Reaches};
ghost use Rattle.fleet_needs.specs.{Flags.AreSettledBy, Implied.first_await, Critical.AreLevels, Critical.critical_cost, Settled.IsAskedIf, Settled.IsKnown, Settled.IsLook, Settled.ReachesNeed, Settled.IsOpenTo, Settled.HasOpenNeed};

use crate::await_places::{AwaitPlaces, awaited_at};
use crate::critical::CriticalCosts;
use crate::implied::ImpliedAwaits;
use fleet_model::{ActionId, OutOfMemory, ProgramView, total_awaits};
use std::alloc::Global;

/// No step goes back from an action with more awaits.
const AWAITS: u16 = 16;

/// How many actions are looked at for one await, until most agents are asked for.
const LOOKS: u8 = 16;

/// How many at most from then on.
const LESS_LOOKS: usize = 4;

/// To look at one action costs about as much as to join so many counts.
const COUNTS_A_LOOK: usize = 128;

/// Which awaits others imply, as far as a few steps back show it, and a flag for each agent: whether an await that
/// names one of its actions is left open.
pub fn settle_all<P: ProgramView>(
    alloc: Global,
    program: &P,
    levels: &CriticalCosts,
) -> Result<(ImpliedAwaits, Vec<bool>), OutOfMemory>
    requires { AreLevels (P.program program.now) levels.now }
    ensures { IfOk result (λ made. AreSettledBy (P.program program.now)
        made.1 (total_awaits (P.program program.now)) made.0) }
{
    let agents = program.agents();
    let flags = vec![in alloc; false; total_awaits(program) as usize]?;
    let mut asked = vec![in alloc; false; usize::from(agents)]?;
    let places = AwaitPlaces::of(alloc, program)?;
    let mut implied = ImpliedAwaits { places, flags };
    for agent in 0..agents {
        let looks = looks_for(&asked);
        settle_agent(program, levels, looks, agent, &mut implied, &mut asked);
    }
    Ok((implied, asked))
}

/// How many agents are flagged.
#[tactic(auto, using(std::proofs::lemmas::List::Sums::count_by_more_yes, std::proofs::lemmas::List::Sums::count_by_more_no))]
pub fn count_asked(asked: &[bool]) -> usize
    ensures { result ≡ count_by (λ flag. flag) asked.now }
{
    let mut count = 0;
    for flag in asked {
        if *flag {
            count += 1;
        }
    }
    count
}

/// How many actions are looked at for one await: fewer once most agents are asked for, for whom rows answer anyway.
fn looks_for(asked: &[bool]) -> u8
    ensures { result ≤ LOOKS }
{
    if count_asked(asked) > asked.len() / 2 {
        (asked.len() / COUNTS_A_LOOK).min(LESS_LOOKS) as u8
    } else {
        LOOKS
    }
}

/// Settles the awaits of all actions of an agent, with so many looks at actions for each.
fn settle_agent<P: ProgramView>(
    program: &P,
    levels: &CriticalCosts,
    looks: u8,
    agent: u16,
    implied: &mut ImpliedAwaits,
    asked: &mut Vec<bool>,
)
    requires levels { AreLevels (P.program program.now) levels.now }
    requires agent { agent < length (P.program program.now) }
    requires settled { AreSettledBy (P.program program.now) asked.old
        (total_awaits (take agent (P.program program.now))) implied.old }
    ensures { AreSettledBy (P.program program.now) asked.new
        (total_awaits (take (agent + 1) (P.program program.now))) implied.new }
{
    for finished in 0..program.moves(agent) {
        let number = finished + 1;
        let action = ActionId { agent, number };
        settle_action(program, levels, looks, action, implied, asked);
    }
}

/// Flags the awaits of an action that others imply, as far as a few steps back show it, and flags the agents of those
/// that are left open. What the latest awaited action awaits too is implied by that one: this is looked at first.
fn settle_action<P: ProgramView>(
    program: &P,
    levels: &CriticalCosts,
    looks: u8,
    action: ActionId,
    implied: &mut ImpliedAwaits,
    asked: &mut Vec<bool>,
)
    requires levels { AreLevels (P.program program.now) levels.now }
    requires action { IsAction (P.program program.now) action }
    requires settled { AreSettledBy (P.program program.now) asked.old
        (first_await (P.program program.now) action) implied.old }
    ensures { AreSettledBy (P.program program.now) asked.new (first_await (P.program program.now)
        (record { agent = action.agent; number = action.number + 1 })) implied.new }
{
    let _ = program.agents();
    let awaits = program.await_count(action.agent, action.number);
    if awaits == 0 {
        return;
    }
    let place = implied.places.first(program, action);
    let latest = latest_await(program, levels, action);
    let other = awaited_at(program, action, latest);
    let mut from = 0;
    for k in 0..awaits {
        let awaited = awaited_at(program, action, k);
        let is_other = k != latest;
        let is_passed = is_other && is_needed(program, awaited, other, &mut from);
        let known = if is_passed {
            Some(true)
        } else {
            let first = Start {
                action: awaited,
                level: levels.cost(program, awaited),
            };
            let mut steps = looks;
            reaches_need(program, levels, &first, action, k, &mut steps)
        };
        implied.flags[place + usize::from(k)] = known.unwrap_or(false);
        ask_if(known.is_none(), awaited.agent, asked);
    }
}

/// The place, among those of the action, of the await whose awaited action has the greatest level.
fn latest_await<P: ProgramView>(program: &P, levels: &CriticalCosts, action: ActionId) -> u16
    requires levels { AreLevels (P.program program.now) levels.now }
    requires action { IsAction (P.program program.now) action }
    requires some { 1 ≤ length (awaits_of (P.program program.now) action.agent action.number) }
    ensures { result < length (awaits_of (P.program program.now) action.agent action.number) }
{
    let count = program.await_count(action.agent, action.number);
    if count < 2 {
        return 0;
    }
    let mut latest = 0;
    let mut greatest = 0;
    for k in 0..count {
        let level = levels.cost(program, awaited_at(program, action, k));
        if level > greatest {
            latest = k;
            greatest = level;
        }
    }
    latest
}

/// Whether an action awaits the first one, or a later one of that one's agent. It is asked for agents in their order,
/// as its awaits are listed, and looks from the place `from` on, which rises: else it may say no where it is so.
fn is_needed<P: ProgramView>(program: &P, first: ActionId, action: ActionId, from: &mut u16) -> bool
    requires range { AreInRange (P.program program.now) }
    requires first { IsAction (P.program program.now) first }
    requires action { IsAction (P.program program.now) action }
    ensures { IsTrue result → Reaches (P.program program.now) first action }
{
    let count = program.await_count(action.agent, action.number);
    while *from < count {
        let needed = program.await_at(action.agent, action.number, *from);
        let is_at_agent = needed.agent >= first.agent;
        if is_at_agent {
            let is_of_agent = needed.agent == first.agent;
            return is_of_agent && first.number <= needed.count;
        }
        *from += 1;
    }
    false
}

/// Flags an agent, if that is so.
fn ask_if(is_open: bool, agent: u16, asked: &mut Vec<bool>)
    requires { agent < vec_len asked.old }
    ensures { IsAskedIf is_open agent asked.old asked.new }
{
    if is_open {
        asked[usize::from(agent)] = true;
    }
}

/// The action with which a chain is to begin, and its level.
#[derive(Clone, Copy)]
struct Start {
    action: ActionId,
    level: u64,
}

/// Whether a chain of needs begins with the first action and ends with the last, if so many steps back from the last
/// show it. `steps` is one less after each step.
#[cycle(reaches)]
fn reaches<P: ProgramView>(
    program: &P,
    levels: &CriticalCosts,
    first: &Start,
    last: ActionId,
    steps: &mut u8,
) -> Option<bool>
    requires look { IsLook (P.program program.now) levels.now first.now }
    requires last { IsAction (P.program program.now) last }
    ensures known { IsKnown (Reaches (P.program program.now) first.now.action last)
        (IsOpenTo (critical_cost levels.now) first.now.action last) result }
    ensures fewer { steps.new ≤ steps.old }
{
    let is_own = last.agent == first.action.agent;
    if is_own {
        return Some(first.action.number <= last.number);
    }
    if levels.cost(program, last) <= first.level {
        return Some(false);
    }
    let no_await = program.await_count(last.agent, last.number);
    if *steps == 0 || no_await > AWAITS {
        return None;
    }
    *steps -= 1;
    reaches_need(program, levels, first, last, no_await, steps)
}

/// Whether a chain of needs begins with the first action and ends with another that this action directly needs but by
/// await `but`, if so many steps back from them show it. `steps` is one less after each step.
#[cycle(reaches)]
#[inline(always)]
fn reaches_need<P: ProgramView>(
    program: &P,
    levels: &CriticalCosts,
    first: &Start,
    action: ActionId,
    but: u16,
    steps: &mut u8,
) -> Option<bool>
    requires look { IsLook (P.program program.now) levels.now first.now }
    requires action { IsAction (P.program program.now) action }
    ensures known { IsKnown (ReachesNeed (P.program program.now) first.now.action action but)
        (HasOpenNeed (P.program program.now) (critical_cost levels.now)
        first.now.action action but) result }
    ensures fewer { steps.new ≤ steps.old }
{
    let mut known = true;
    for k in 0..program.await_count(action.agent, action.number) {
        let is_other = k != but;
        if is_other {
            let needed = awaited_at(program, action, k);
            match reaches(program, levels, first, needed, steps) {
                Some(true) => return Some(true),
                Some(false) => {}
                None => known = false,
            }
        }
    }
    let is_first = action.number <= 1;
    let own = if is_first {
        Some(false)
    } else {
        let before = ActionId {
            agent: action.agent,
            number: action.number - 1,
        };
        reaches(program, levels, first, before, steps)
    };
    match own {
        Some(false) if !known => None,
        _ => own,
    }
}
