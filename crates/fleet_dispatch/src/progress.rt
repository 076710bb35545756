//! How far each agent has come: what it has carried out, and what it is told.

ghost use Rattle.std.specs.Prelude.{◌≡◌, ◌≢◌, ◌<◌, ◌≤◌, ◌+◌, ◌*◌, ◌++◌, ℕ, length, take, set, get_or, min, true, nat_lt, Some, None, is_some, IfOk, IfSome, IfNone, MatchOption, MatchBool};
ghost use Rattle.fleet_model.specs.Program.{IsWellFormed, moves, path};
ghost use Rattle.fleet_machine.specs.AgentSet.{AreNoneFrom, IsNextFrom};
ghost use Rattle.fleet_machine.specs.Machine.{flag_of};
ghost use Rattle.fleet_machine.specs.WaitLists.{home_of};
ghost use Rattle.fleet_dispatch.specs.Report.{IsRising, count_of, said_of, counts_after, raised, is_repeat};
ghost use Rattle.fleet_dispatch.specs.Ahead.{told_at, IsOrdered, AreOrdered, IsFirstUnordered, is_all_done};
ghost use Rattle.fleet_dispatch.specs.Standings.{next_wait, left_line, standings_text};
ghost use Rattle.fleet_dispatch.specs.Progress.{ArePlacesAfter, HasBegun, IsFirstMissing, HasRows, HasUntold, Leads, LeadsBut, TellsNext, TellsAgent, TellsAll, CarriesOut, AreCounts, AreAgents, AreTold, IsWoken, back, is_woken};

use crate::form::ReportForm;
use crate::orders::{ORDER, Order, add_order};
use crate::pace::Pace;
use crate::report::{Report, Reported};
use crate::standings::{STANDING, Whereabouts, add_standing};
use fleet_machine::{AgentSet, WaitLists};
use fleet_model::{Await, Dir, Place, ProgramView, Step};
use std::alloc::{AllocError, Global};
use std::marker::Model;

/// How far each agent has come. The program is handed to each method, and is the one for which it was made.
#[derive(Drop)]
pub struct Progress {
    /// How many actions each agent has carried out.
    done: Vec<u32>,
    /// How many it is told.
    told: Vec<u32>,
    /// Where those that it is told lead it.
    places: Vec<Place>,
    /// An agent that can be told no more stands in the list of one that has not carried out what it waits for.
    waiting: WaitLists,
    /// The agents that may be told more.
    due: AgentSet,
    /// The agents that have an action left.
    left: AgentSet,
}

impl Model for Progress {
    ghost use Rattle.fleet_dispatch.specs.Progress.{ProgressState};

    ghost Value = { ProgressState };

    ghost view = { λ s. record {
      done = s.done.items;
      told = s.told.items;
      places = s.places.items;
      waiting = s.waiting;
      due = s.due;
      left = s.left;
    } };
}

/// Where the first `count` actions of agent `i` lead it.
pub fn place_after<P: ProgramView>(program: &P, i: u16, count: u32) -> Place
    requires well_formed { IsWellFormed (P.program program.now) }
    requires agent { i < length (P.program program.now) }
    requires within { count ≤ moves (P.program program.now) i }
    ensures { result ≡ path (P.program program.now) i count }
{
    let mut place = Place::from(program.start(i));
    for n in 0..count {
        place = place.after(program.step(i, n + 1));
    }
    place
}

/// The step that leads back.
fn back(step: Step) -> Step
    ensures { result ≡ back step }
{
    match step {
        Step::Go(Dir::North) => Step::Go(Dir::South),
        Step::Go(Dir::East) => Step::Go(Dir::West),
        Step::Go(Dir::South) => Step::Go(Dir::North),
        Step::Go(Dir::West) => Step::Go(Dir::East),
        Step::Dwell => Step::Dwell,
    }
}

/// Where the first `count` actions of agent `i` lead it, by the place to which its first `last` lead: it goes back from
/// there.
fn place_before<P: ProgramView>(program: &P, i: u16, last: u32, place: Place, count: u32) -> Place
    requires well_formed { IsWellFormed (P.program program.now) }
    requires agent { i < length (P.program program.now) }
    requires within { last ≤ moves (P.program program.now) i }
    requires before { count ≤ last }
    requires place { place ≡ path (P.program program.now) i last }
    ensures { result ≡ path (P.program program.now) i count }
{
    let mut place = place;
    let mut at = last;
    'steps: while at > count {
        at -= 1;
        place = place.after(back(program.step(i, at + 1)));
    }
    place
}

/// Where the agents stand that have carried out so many of their actions.
fn places_after<P: ProgramView>(
    alloc: Global,
    program: &P,
    done: &[u32],
) -> Result<Vec<Place>, AllocError>
    requires counts { AreCounts (P.program program.now) done.now }
    ensures { IfOk result (λ places. ArePlacesAfter (P.program program.now) done.now places.items) }
{
    let count = program.agents();
    let mut places = Vec::with_capacity(alloc, count as usize)?;
    for i in 0..count {
        places.push(place_after(program, i, done[i as usize]))?;
    }
    Ok(places)
}

/// The same counts.
fn copy_of(alloc: Global, counts: &[u32]) -> Result<Vec<u32>, AllocError>
    ensures { IfOk result (λ v. v.items ≡ counts.now) }
{
    counts.iter().copied().collect(alloc)
}

impl Progress {
    /// The agents have carried out so much, and are told no more.
    pub fn start<P: ProgramView>(
        alloc: Global,
        program: &P,
        done: &[u32],
    ) -> Result<Progress, AllocError>
        requires counts { AreCounts (P.program program.now) done.now }
        ensures { IfOk result (HasBegun (P.program program.now) done.now) }
    {
        let agents = program.agents();
        let places = places_after(alloc, program, done)?;
        let told = copy_of(alloc, done)?;
        let done = copy_of(alloc, done)?;
        let waiting = WaitLists::new(alloc, agents as usize, agents as usize)?;
        let mut progress = Progress {
            done,
            told,
            places,
            waiting,
            due: AgentSet::new(agents),
            left: AgentSet::new(agents),
        };
        progress.mark_all(program);
        Ok(progress)
    }

    /// Every agent is to be looked at, and flagged if it has an action left.
    fn mark_all<P: ProgramView>(&mut self, program: &P)
        requires rows { HasRows (P.program program.now) self.old }
        ensures same { self.new ≡ record self.old { due = self.new.due; left = self.new.left } }
        ensures rows { HasRows (P.program program.now) self.new }
        ensures due { (i : ℕ) → i < length (P.program program.now)
            → flag_of self.new.due i ≡ true }
        ensures left { (i : ℕ) → i < length (P.program program.now)
            → flag_of self.new.left i
            ≡ nat_lt (count_of self.new.done i) (moves (P.program program.now) i) }
    {
        for i in 0..program.agents() {
            let is_left = self.done_of(i) < program.moves(i);
            self.mark(i, is_left);
        }
    }

    /// How many of its actions agent `i` has carried out.
    fn done_of(&self, i: u16) -> u32
        requires { i < length self.now.done }
        ensures { result ≡ count_of self.now.done i }
    {
        self.done[i as usize]
    }

    /// How many of its actions agent `i` is told.
    fn told_of(&self, i: u16) -> u32
        requires { i < length self.now.told }
        ensures { result ≡ count_of self.now.told i }
    {
        self.told[i as usize]
    }

    /// The action that agent `i` is to be told next.
    fn next_of(&self, i: u16) -> u32
        requires agent { i < length self.now.told }
        requires few { count_of self.now.told i < 4294967295 }
        ensures { result ≡ count_of self.now.told i + 1 }
    {
        let last = self.told_of(i);
        last + 1
    }

    /// Where the actions lead agent `i` that it is told.
    fn place_of(&self, i: u16) -> Place
        requires { i < length self.now.places }
        ensures { result ≡ get_or self.now.places i result }
    {
        self.places[i as usize]
    }

    /// Agent `i` is told its first `n` actions, which lead it there.
    fn advance(&mut self, i: u16, n: u32, place: Place)
        requires told { i < length self.old.told }
        requires places { i < length self.old.places }
        ensures { self.new ≡ record self.old {
          told = set self.old.told i n;
          places = set self.old.places i place;
        } }
    {
        self.told[i as usize] = n;
        self.places[i as usize] = place;
    }

    /// Agent `i` has carried out its first `n` actions, and has one left or not.
    fn finish(&mut self, i: u16, n: u32, is_left: bool)
        requires done { i < length self.old.done }
        requires left { i < length self.old.left }
        ensures { self.new ≡ record self.old {
          done = set self.old.done i n;
          left = set self.old.left i is_left;
        } }
    {
        self.done[i as usize] = n;
        self.left.set(i, is_left);
    }

    /// Agent `i` is to be looked at, and has an action left or not.
    fn mark(&mut self, i: u16, is_left: bool)
        requires due { i < length self.old.due }
        requires left { i < length self.old.left }
        ensures { self.new ≡ record self.old {
          due = set self.old.due i true;
          left = set self.old.left i is_left;
        } }
    {
        self.due.set(i, true);
        self.left.set(i, is_left);
    }

    /// Agent `i` is to be looked at, or not.
    fn set_due(&mut self, i: u16, is_due: bool)
        requires { i < length self.old.due }
        ensures { self.new ≡ record self.old { due = set self.old.due i is_due } }
    {
        self.due.set(i, is_due);
    }

    /// Agent `i`, which stands in no list, waits for the other.
    fn wait_for(&mut self, i: u16, other: u16)
        requires home { i < length self.old.waiting.homes }
        requires nowhere { home_of self.old.waiting.homes i ≡ None }
        requires list { other < self.old.waiting.lists }
        ensures { self.new ≡ record self.old {
          waiting = record self.old.waiting {
            homes = set self.old.waiting.homes i (Some other);
          };
        } }
    {
        self.waiting.push(other, i);
    }

    /// Whether agent `i` stands in a list.
    fn is_waiting(&self, i: u16) -> bool
        requires { i < length self.now.waiting.homes }
        ensures { result ≡ is_some (home_of self.now.waiting.homes i) }
    {
        self.waiting.is_waiting(i)
    }

    /// The first agent from this one on that is to be looked at.
    fn next_due(&self, from: u16) -> Option<u16>
        ensures { MatchOption result
            (AreNoneFrom self.now.due from) (IsNextFrom self.now.due from) }
    {
        self.due.next(from)
    }

    /// The first agent from this one on that has an action left.
    fn next_left(&self, from: u16) -> Option<u16>
        ensures { MatchOption result
            (AreNoneFrom self.now.left from) (IsNextFrom self.now.left from) }
    {
        self.left.next(from)
    }

    /// Takes an agent off the list of those that wait for agent `i`, and has it looked at.
    fn wake_first(&mut self, i: u16) -> Option<u16>
        requires list { i < self.old.waiting.lists }
        requires due { length self.old.due ≡ length self.old.waiting.homes }
        ensures none { IfNone result ((j : ℕ) → home_of self.old.waiting.homes j ≢ Some i) }
        ensures same { IfNone result (self.new ≡ self.old) }
        ensures some { IfSome result (IsWoken self.old self.new i) }
    {
        let j = self.waiting.pop(i)?;
        self.due.set(j, true);
        Some(j)
    }

    /// How many of its actions each agent has carried out.
    pub fn done(&self) -> &[u32]
        ensures { result.now ≡ self.now.done }
    {
        &self.done
    }

    /// Whether no action is left.
    pub fn is_finished<P: ProgramView>(&self, program: &P) -> bool
        requires leads { (k : ℕ) × Leads (P.program program.now) k self.now }
        ensures { result ≡ is_all_done (P.program program.now) self.now.done }
    {
        // The program is of use to the contract alone.
        let _ = program;
        self.next_left(0).is_none()
    }

    /// The first await of action `n` of agent `i` that is not carried out, if it has one.
    fn missing<P: ProgramView>(&self, program: &P, i: u16, n: u32) -> Option<Await>
        requires well_formed { IsWellFormed (P.program program.now) }
        requires rows { HasRows (P.program program.now) self.now }
        requires agent { i < length (P.program program.now) }
        requires first { 1 ≤ n }
        requires last { n ≤ moves (P.program program.now) i }
        ensures { IsFirstMissing (P.program program.now) self.now.done i n result }
    {
        for k in 0..program.await_count(i, n) {
            let awaited = program.await_at(i, n, k);
            let is_missing = self.done_of(awaited.agent) < awaited.count;
            if is_missing {
                return Some(awaited);
            }
        }
        None
    }

    /// Tells agent `i` its next action: writes the order behind those that end at `at`, and answers where it ends.
    fn tell_next<P: ProgramView>(
        &mut self,
        program: &P,
        form: ReportForm,
        i: u16,
        row: &mut [u8],
        at: usize,
    ) -> usize
        requires well_formed { IsWellFormed (P.program program.now) }
        requires rows { HasRows (P.program program.now) self.old }
        requires untold { HasUntold (P.program program.now) self.old i }
        requires room { at + ORDER ≤ length row.old }
        ensures { TellsNext (P.program program.now) form self.old self.new i
            row.old row.new at result }
    {
        let number = self.next_of(i);
        let from = self.place_of(i);
        let to = from.after(program.step(i, number));
        self.advance(i, number, to);
        let order = Order {
            agent: i,
            number,
            from,
            to,
        };
        add_order(form, order, row, at)
    }

    /// Up to which of its actions agent `i` is told, if it need not wait.
    fn last_told<P: ProgramView>(&self, program: &P, ahead: u8, i: u16) -> u32
        requires well_formed { IsWellFormed (P.program program.now) }
        requires rows { HasRows (P.program program.now) self.now }
        requires agent { i < length (P.program program.now) }
        requires few { count_of self.now.done i ≤ moves (P.program program.now) i }
        ensures { result
            ≡ min (moves (P.program program.now) i) (count_of self.now.done i + ahead) }
    {
        let end = self.done_of(i) + u32::from(ahead);
        program.moves(i).min(end)
    }

    /// Tells agent `i`, which is to be looked at, all that it can be told. Writes its orders behind those that end at
    /// `at`, and answers where they end.
    fn tell_agent<P: ProgramView>(
        &mut self,
        program: &P,
        pace: Pace,
        i: u16,
        row: &mut [u8],
        at: usize,
    ) -> usize
        requires well_formed { IsWellFormed (P.program program.now) }
        requires leads { Leads (P.program program.now) pace.ahead self.old }
        requires agent { i < length (P.program program.now) }
        requires due { flag_of self.old.due i ≡ true }
        requires room { at + ORDER * pace.ahead ≤ length row.old }
        ensures { TellsAgent (P.program program.now) pace self.old self.new i
            row.old row.new at result }
    {
        self.set_due(i, false);
        let last = self.last_told(program, pace.ahead, i);
        let mut at = at;
        'actions: while self.told_of(i) < last {
            let next = self.told_of(i) + 1;
            if let Some(awaited) = self.missing(program, i, next) {
                self.wait_for(i, awaited.agent);
                return at;
            }
            at = self.tell_next(program, pace.form, i, row, at);
        }
        at
    }

    /// Tells the agents all that they can be told and are not. Writes the orders into the row from its front, and
    /// answers where they end. It looks only at the agents that have reported, and those that waited for them.
    pub fn tell<P: ProgramView>(&mut self, program: &P, pace: Pace, row: &mut [u8]) -> usize
        requires well_formed { IsWellFormed (P.program program.now) }
        requires leads { Leads (P.program program.now) pace.ahead self.old }
        requires room { length row.old
            ≡ ORDER * pace.ahead * length (P.program program.now) }
        ensures { TellsAll (P.program program.now) pace self.old self.new row.new result }
    {
        let mut at = 0;
        let mut from = 0;
        'agents: while let Some(i) = self.next_due(from) {
            at = self.tell_agent(program, pace, i, row, at);
            from = i + 1;
        }
        at
    }

    /// How many actions its agent has carried out by the word.
    fn said<P: ProgramView>(&self, program: &P, word: Reported) -> u32
        requires well_formed { IsWellFormed (P.program program.now) }
        requires counts { AreCounts (P.program program.now) self.now.done }
        requires agent { word.agent < length (P.program program.now) }
        ensures { result ≡ said_of self.now.done word }
    {
        // The program is of use to the contract alone.
        let _ = program;
        match word.number {
            Some(number) => number,
            None => self.done_of(word.agent as u16) + 1,
        }
    }

    /// Whether the word names an agent of the program, and only actions that the agent is told.
    fn is_ordered<P: ProgramView>(&self, program: &P, word: Reported) -> bool
        requires counts { AreCounts (P.program program.now) self.now.done }
        requires rows { HasRows (P.program program.now) self.now }
        ensures { (k : ℕ) → self.now.told ≡ told_at (P.program program.now) k self.now.done
            → MatchBool result
            (IsOrdered (P.program program.now) k self.now.done word)
            (IsOrdered (P.program program.now) k self.now.done word → ⊥) }
    {
        let agents = u32::from(program.agents());
        let is_nobody = word.agent >= agents;
        if is_nobody {
            return false;
        }
        self.said(program, word) <= self.told_of(word.agent as u16)
    }

    /// The agent of the first word that names no agent of the program, or an action that it is not told.
    pub fn first_unordered<P: ProgramView>(&self, program: &P, report: &Report) -> Option<u32>
        requires counts { AreCounts (P.program program.now) self.now.done }
        requires rows { HasRows (P.program program.now) self.now }
        ensures rising { IsRising report.now }
        ensures first { (k : ℕ) → self.now.told ≡ told_at (P.program program.now) k self.now.done
            → MatchOption result
            (AreOrdered (P.program program.now) k self.now.done report.now)
            (IsFirstUnordered (P.program program.now) k self.now.done report.now) }
    {
        for word in report.words() {
            let is_ordered = self.is_ordered(program, *word);
            if !is_ordered {
                return Some(word.agent);
            }
        }
        None
    }

    /// Whether the report names somebody, and only actions that are carried out already.
    pub fn is_repeat<P: ProgramView>(&self, program: &P, report: &Report) -> bool
        requires well_formed { IsWellFormed (P.program program.now) }
        requires counts { AreCounts (P.program program.now) self.now.done }
        requires agents { AreAgents (P.program program.now) report.now }
        ensures { result ≡ is_repeat self.now.done report.now }
    {
        let words = report.words();
        if words.is_empty() {
            return false;
        }
        for word in words {
            let is_new = self.done_of(word.agent as u16) < self.said(program, *word);
            if is_new {
                return false;
            }
        }
        true
    }

    /// Has agent `i` looked at, unless it waits, and all that waited for it.
    fn wake<P: ProgramView>(&mut self, program: &P, i: u16)
        requires rows { HasRows (P.program program.now) self.old }
        requires agent { i < length (P.program program.now) }
        ensures leads { (k : ℕ) → LeadsBut (is_woken self.old.waiting.homes i)
            (P.program program.now) k self.old → Leads (P.program program.now) k self.new }
        ensures same { self.new ≡ record self.old {
          waiting = self.new.waiting;
          due = self.new.due;
        } }
    {
        // The program is of use to the contract alone.
        let _ = program;
        'woken: while self.wake_first(i).is_some() {}
        let is_waiting = self.is_waiting(i);
        if is_waiting {
            return;
        }
        self.set_due(i, true);
    }

    /// Agent `i` has carried out its first `n` actions, if it had not.
    fn raise<P: ProgramView>(&mut self, program: &P, i: u16, n: u32)
        requires well_formed { IsWellFormed (P.program program.now) }
        requires agent { i < length (P.program program.now) }
        requires told { n ≤ count_of self.old.told i }
        requires leads { (k : ℕ) × Leads (P.program program.now) k self.old }
        ensures { CarriesOut (P.program program.now) self.old self.new
            (raised self.old.done i n) }
    {
        let is_old = n <= self.done_of(i);
        if is_old {
            return;
        }
        let is_left = n < program.moves(i);
        self.finish(i, n, is_left);
        self.wake(program, i);
    }

    /// Takes a report, of which each word names an agent of the program and only actions that it is told.
    pub fn take<P: ProgramView>(&mut self, program: &P, report: &Report)
        requires well_formed { IsWellFormed (P.program program.now) }
        requires leads { (k : ℕ) × Leads (P.program program.now) k self.old }
        requires ordered { AreTold (P.program program.now) self.old report.now }
        ensures { CarriesOut (P.program program.now) self.old self.new
            (counts_after self.old.done report.now) }
    {
        for word in report.words() {
            let said = self.said(program, *word);
            self.raise(program, word.agent as u16, said);
        }
    }

    /// Where agent `i` is, which has an action left.
    fn whereabouts<P: ProgramView>(&self, program: &P, i: u16) -> Whereabouts
        requires well_formed { IsWellFormed (P.program program.now) }
        requires leads { (k : ℕ) × Leads (P.program program.now) k self.now }
        requires agent { i < length (P.program program.now) }
        requires left { count_of self.now.done i < moves (P.program program.now) i }
        ensures { result ≡ record {
          agent = i;
          place = path (P.program program.now) i (count_of self.now.done i);
          done = count_of self.now.done i;
          moves = moves (P.program program.now) i;
          waits = next_wait (P.program program.now) self.now.done i;
        } }
    {
        let done = self.done_of(i);
        Whereabouts {
            agent: i,
            place: place_before(program, i, self.told_of(i), self.place_of(i), done),
            done,
            moves: program.moves(i),
            waits: self.missing(program, i, done + 1),
        }
    }

    /// Writes where agent `i` is, if it has an action left, behind what ends at `at`, and answers where that ends.
    fn add_left<P: ProgramView>(&self, program: &P, i: u16, row: &mut [u8], at: usize) -> usize
        requires well_formed { IsWellFormed (P.program program.now) }
        requires leads { (k : ℕ) × Leads (P.program program.now) k self.now }
        requires agent { i < length (P.program program.now) }
        requires room { at + STANDING ≤ length row.old }
        ensures high { result ≤ at + STANDING }
        ensures written { take result row.new ≡ take at row.old
            ++ left_line (P.program program.now) self.now.done i }
    {
        let is_left = self.done_of(i) < program.moves(i);
        if !is_left {
            return at;
        }
        add_standing(self.whereabouts(program, i), row, at)
    }

    /// Writes where the agents are that have an action left, in rising order, into the row from its front, and answers
    /// where that ends. It goes back from where each agent is told to go, through the actions that are not carried out.
    pub fn write_standings<P: ProgramView>(&self, program: &P, row: &mut [u8]) -> usize
        requires well_formed { IsWellFormed (P.program program.now) }
        requires leads { (k : ℕ) × Leads (P.program program.now) k self.now }
        requires room { length row.old ≡ STANDING * length (P.program program.now) }
        ensures within { result ≤ length row.new }
        ensures written { take result row.new
            ≡ standings_text (P.program program.now) self.now.done }
    {
        let mut at = 0;
        for i in 0..program.agents() {
            at = self.add_left(program, i, row, at);
        }
        at
    }
}
