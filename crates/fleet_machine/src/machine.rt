//! The agents of a program on their way, and one tick of all of them.

ghost use Rattle.std.specs.Prelude.{◌≡◌, ◌≢◌, ◌+◌, ◌-◌, ◌<◌, ◌≤◌, ◌^◌, ◌&&◌, ◌||◌, ◌==◌, ℕ, Bool, true, false, length, set, replicate, Some, None, option_map, IfOk, IfSome, IfNone, MatchOption};
ghost use Rattle.std.specs.List.{list_any};
ghost use Rattle.fleet_model.specs.Machine.{opening, is_finished, next_action, is_ready, is_met, moved_in, is_ready_held, standing_at, count_at, indices};
ghost use Rattle.fleet_model.specs.Claims.{order_of};
ghost use Rattle.fleet_machine.specs.Confirmed.{AreAllReady, IsFirstUnready};
ghost use Rattle.fleet_machine.specs.Looked.{ready_in, LooksAt};
ghost use Rattle.fleet_machine.specs.Near.{IsNear, AreNear};
ghost use Rattle.fleet_machine.specs.Machine.{MachineState, Runs, Fits, HasNext, HasReadOn, CanWait, CanWake, IsRead, IsReadToStep, is_reached, list_of, agent_of, least_of, lowered, passed, after_next, mark_of, flag_of};
ghost use Rattle.fleet_machine.specs.Waking.{IsWoken, is_woken_by, advanced_one, held_back, carried_all, HasWoken, IsCarriedOut, IsPlaced, IsSupposed, CanJudge, HasJudged, Ticks, TicksWith};
ghost use Rattle.fleet_machine.specs.WaitLists.{home_of};

use crate::agent_set::{AgentSet, LISTS_EACH, WaitLists, list_of, next_flag};
use crate::steps::{Mark, after_step, look_count, starts};
use fleet_model::{Await, Instruction, MAX_AGENTS, ProgramView, Standing, Step};
use std::alloc::{AllocError, Global};
use std::marker::Model;

mod sets;

/// The least count of a list in which nobody stands.
const NO_COUNT: u32 = u32::MAX;

/// The outcome of a tick: how many agents finished an action, and whether some ready agent was held.
#[derive(Clone, Copy)]
pub struct Tick {
    pub moved: u16,
    pub ready_held: bool,
}

/// The agents of a program on their way: where each stands, and how many actions it has finished. The program is handed
/// to each method, and is the one with which the machine was started.
#[derive(Drop)]
pub struct Machine {
    agents: Vec<Standing>,
    /// How far each agent has read. An agent that lacks a count goes on from there once it is woken.
    marks: Vec<Mark>,
    /// The agents that the last tick moved, or that the one under way moves.
    moving: AgentSet,
    ready: AgentSet,
    /// The agents that have an action left.
    left: AgentSet,
    /// The agents that the tick under way has to judge anew.
    due: AgentSet,
    /// An agent that is not ready and has an action left stands in a list of one whose count it lacks.
    waiting: WaitLists,
    /// For each list the least count for which an agent in it waits, or a lesser one. Nobody in the list is looked at
    /// before its agent has finished so many actions.
    least: Vec<u32>,
    looked: u64,
}

impl Model for Machine {
    ghost use Rattle.fleet_machine.specs.Machine.{MachineState};
    ghost use Rattle.fleet_machine.specs.Near.{AreNear};

    ghost Value = { MachineState };

    ghost view = { λ m. record {
      configuration = m.agents.items;
      marks = m.marks.items;
      moving = m.moving;
      ready = m.ready;
      left = m.left;
      due = m.due;
      waiting = m.waiting;
      least = m.least.items;
      looked = m.looked;
    } };

    ghost invariant = { λ m. AreNear m.agents.items };
}

impl Machine {
    /// All agents stand on their starts and have finished nothing.
    pub fn start<P: ProgramView>(alloc: Global, program: &P) -> Result<Machine, AllocError>
        ensures runs { IfOk result (Runs (P.program program.now)) }
        ensures opening { IfOk result (λ m. m.configuration ≡ opening (P.program program.now)) }
        ensures looked { IfOk result (λ m. m.looked ≡ 0) }
    {
        let agents = starts(alloc, program)?;
        let count = program.agents();
        let marks = vec![in alloc; Mark::unread(); count as usize]?;
        let lists = count as usize * LISTS_EACH as usize;
        let waiting = WaitLists::new(alloc, lists, count as usize)?;
        let least = vec![in alloc; NO_COUNT; lists]?;
        let mut machine = Machine::with_agents(agents, marks, count, waiting, least);
        machine.judge_supposed(program);
        Ok(machine)
    }

    /// So many agents, which stand there and in these lists, and have read so far. Each is due, and flagged as ready
    /// and as one with an action left; none moves.
    fn with_agents(
        agents: Vec<Standing>,
        marks: Vec<Mark>,
        count: u16,
        waiting: WaitLists,
        least: Vec<u32>,
    ) -> Machine
        requires near { AreNear agents.items }
        requires few { count ≤ MAX_AGENTS }
        ensures { result ≡ record {
          configuration = agents.items;
          marks = marks.items;
          moving = replicate count false;
          ready = replicate count true;
          left = replicate count true;
          due = replicate count true;
          waiting = waiting;
          least = least.items;
          looked = 0;
        } }
    {
        Machine {
            agents,
            marks,
            moving: AgentSet::new(count),
            ready: AgentSet::of_all(count),
            left: AgentSet::of_all(count),
            due: AgentSet::of_all(count),
            waiting,
            least,
            looked: 0,
        }
    }

    /// Where each agent stands, and how many actions it has finished.
    pub fn agents(&self) -> &[Standing]
        ensures { result.now ≡ self.now.configuration }
    {
        &self.agents
    }

    /// Where agent `i` stands, and how many actions it has finished.
    pub fn agent(&self, i: u16) -> Standing
        requires { i < length self.now.configuration }
        ensures standing { result ≡ standing_at self.now.configuration i }
        ensures near { IsNear result }
    {
        self.agents[i as usize]
    }

    /// Whether no action is left.
    pub fn is_finished<P: ProgramView>(&self, program: &P) -> bool
        requires runs { Runs (P.program program.now) self.now }
        ensures { result ≡ is_finished (P.program program.now) self.now.configuration }
    {
        // Of the program the contract alone speaks.
        let _ = program;
        self.next_left(0).is_none()
    }

    /// Whether some agent may finish its next action.
    pub fn is_any_ready<P: ProgramView>(&self, program: &P) -> bool
        requires runs { Runs (P.program program.now) self.now }
        ensures { result ≡ list_any (is_ready (P.program program.now) self.now.configuration)
            (indices (length (P.program program.now))) }
    {
        // Of the program the contract alone speaks.
        let _ = program;
        self.next_ready(&mut self.ready_cursor()).is_some()
    }

    /// Whether agent `i` may finish its next action.
    pub fn is_ready<P: ProgramView>(&self, program: &P, i: u16) -> bool
        requires runs { Runs (P.program program.now) self.now }
        requires agent { i < length (P.program program.now) }
        ensures { result ≡ is_ready (P.program program.now) self.now.configuration i }
    {
        // Of the program the contract alone speaks.
        let _ = program;
        self.ready.contains(i)
    }

    /// How many agents the ticks have looked at so far. The count stays at the greatest value once there.
    pub fn looked(&self) -> u64
        ensures { result ≡ self.now.looked }
    {
        self.looked
    }

    /// Reads on through the awaits of the next action of agent `i`, which has one, and answers how far: up to the first
    /// one that is not met, which it answers too, or through the step.
    #[inline(always)]
    fn read_on<P: ProgramView>(&self, program: &P, i: u16) -> (Mark, Option<Await>)
        requires next { HasNext (P.program program.now) self.now i }
        requires agents { length self.now.configuration ≡ length (P.program program.now) }
        requires read { IsRead (P.program program.now) self.now.configuration i (mark_of self.now.marks i) }
        ensures { HasReadOn (P.program program.now) self.now i result.0 result.1 }
    {
        let finished = self.agent(i).count;
        let mark = self.mark(i);
        let before = mark.before;
        let mut met = mark.met;
        'awaits: loop {
            match program.instruction(i, finished, before, met) {
                Instruction::Step(step) => return (Mark { before, met, step }, None),
                Instruction::Await(awaited) => {
                    if !self.has_met(awaited) {
                        return (Mark { met, ..mark }, Some(awaited));
                    }
                    met += 1;
                }
            }
        }
    }

    /// How far agent `i` has read.
    fn mark(&self, i: u16) -> Mark
        requires { i < length self.now.marks }
        ensures { result ≡ mark_of self.now.marks i }
    {
        self.marks[i as usize]
    }

    /// Whether the awaited agent has finished what is awaited of it.
    fn has_met(&self, awaited: Await) -> bool
        requires { awaited.agent < length self.now.configuration }
        ensures { result ≡ is_met self.now.configuration awaited }
    {
        awaited.count <= self.agent(awaited.agent).count
    }

    /// The step of the next action of agent `i`, which has one and has read up to it.
    fn next_step<P: ProgramView>(&self, program: &P, i: u16) -> Step
        requires next { HasNext (P.program program.now) self.now i }
        requires read { IsReadToStep (P.program program.now) self.now.configuration i
            (mark_of self.now.marks i) }
        ensures { option_map (λ a. a.step)
            (next_action (P.program program.now) self.now.configuration i) ≡ Some result }
    {
        // Of the program the contract alone speaks.
        let _ = program;
        self.mark(i).step
    }

    /// The step of the next action of agent `i`, if it is ready.
    #[tactic(auto, using(fleet_model::proofs::Tick::ready_left, crate::proofs::Marks::read_to_step))]
    pub fn order<P: ProgramView>(&self, program: &P, i: u16) -> Option<Step>
        requires runs { Runs (P.program program.now) self.now }
        requires agent { i < length (P.program program.now) }
        ensures { result ≡ order_of (P.program program.now) self.now.configuration i }
    {
        if !self.is_ready(program, i) {
            return None;
        }
        Some(self.next_step(program, i))
    }

    /// The first flagged agent that is not ready, if there is one.
    pub fn first_unready<P: ProgramView>(&self, program: &P, done: &[bool]) -> Option<u16>
        requires runs { Runs (P.program program.now) self.now }
        requires done { length done.now ≡ length (P.program program.now) }
        ensures { MatchOption result
            (AreAllReady (P.program program.now) self.now.configuration (flag_of done.now))
            (IsFirstUnready (P.program program.now) self.now.configuration (flag_of done.now)) }
    {
        let mut from = 0;
        while let Some(i) = next_flag(done, from) {
            let is_ready = self.is_ready(program, i);
            if !is_ready {
                return Some(i);
            }
            from = i + 1;
        }
        None
    }

    /// Agent `i`, which stands in no list, waits for what is awaited.
    fn wait_for(&mut self, i: u16, awaited: Await)
        requires { CanWait self.old i awaited }
        ensures { self.new ≡ record self.old {
          waiting = record self.old.waiting {
            homes = set self.old.waiting.homes i (Some (list_of awaited));
          };
          least = lowered self.old.least (Some awaited);
        } }
    {
        let list = list_of(awaited);
        self.waiting.push(list, i);
        let least = self.least[list as usize];
        self.least[list as usize] = least.min(awaited.count);
    }

    /// Agent `i`, of whose next action so many awaits are met, is not ready, and waits for what is awaited.
    #[inline(never)]
    fn wait(&mut self, i: u16, met: u16, awaited: Await)
        requires marks { i < length self.old.marks }
        requires ready { i < length self.old.ready }
        requires can { CanWait self.old i awaited }
        ensures { self.new ≡ record self.old {
          marks = set self.old.marks i (record (mark_of self.old.marks i) { met = met });
          ready = set self.old.ready i false;
          waiting = record self.old.waiting {
            homes = set self.old.waiting.homes i (Some (list_of awaited));
          };
          least = lowered self.old.least (Some awaited);
        } }
    {
        self.marks[i as usize].met = met;
        self.ready.set(i, false);
        self.wait_for(i, awaited);
    }

    /// Agent `i` has no action left.
    #[inline(never)]
    fn rest(&mut self, i: u16)
        requires ready { i < length self.old.ready }
        requires left { i < length self.old.left }
        ensures { self.new ≡ record self.old {
          ready = set self.old.ready i false;
          left = set self.old.left i false;
        } }
    {
        self.ready.set(i, false);
        self.left.set(i, false);
    }

    /// Agent `i` has read so far.
    fn set_mark(&mut self, i: u16, mark: Mark)
        requires { i < length self.old.marks }
        ensures { self.new ≡ record self.old { marks = set self.old.marks i mark } }
    {
        self.marks[i as usize] = mark;
    }

    /// Flags agent `i` anew, which is flagged as ready and stands in no list, and puts it into the one in which it
    /// belongs.
    #[inline(always)]
    fn judge<P: ProgramView>(&mut self, program: &P, i: u16)
        requires fits { Fits (P.program program.now) self.old }
        requires agent { i < length (P.program program.now) }
        requires supposed { IsSupposed (P.program program.now) self.old i }
        ensures { IsPlaced (P.program program.now) self.old self.new i }
    {
        let has_finished = self.agent(i).count >= program.moves(i);
        if has_finished {
            self.rest(i);
            return;
        }
        let (mark, lacked) = self.read_on(program, i);
        match lacked {
            None => self.set_mark(i, mark),
            Some(awaited) => self.wait(i, mark.met, awaited),
        }
    }

    /// Judges the agents that are due, each of which is flagged as ready, and answers how many they are.
    fn judge_supposed<P: ProgramView>(&mut self, program: &P) -> u16
        requires can { CanJudge (P.program program.now) self.old }
        requires ready { (i : ℕ) → flag_of self.old.due i ≡ true → flag_of self.old.ready i ≡ true }
        ensures { HasJudged (P.program program.now) self.old self.new result }
    {
        let mut cursor = self.due_cursor();
        let mut count = 0;
        while let Some(i) = self.next_due(&mut cursor) {
            self.judge(program, i);
            count += 1;
        }
        count
    }

    /// The agents that are due are flagged as ready, as most of them are, until they are judged.
    fn suppose_ready(&mut self)
        requires { length self.old.ready ≡ length self.old.due }
        ensures same { self.new ≡ record self.old { ready = self.new.ready } }
        ensures long { length self.new.ready ≡ length self.old.ready }
        ensures ready { (i : ℕ) → flag_of self.new.ready i
            ≡ (flag_of self.old.ready i || flag_of self.old.due i) }
    {
        self.ready.add(&self.due);
    }

    /// Judges the agents that are due, and answers how many they are.
    fn judge_due<P: ProgramView>(&mut self, program: &P) -> u16
        requires { CanJudge (P.program program.now) self.old }
        ensures { HasJudged (P.program program.now) self.old self.new result }
    {
        self.suppose_ready();
        self.judge_supposed(program)
    }

    /// Takes the first agent off list `j`, if one stands there. It is due.
    fn wake_first(&mut self, j: u16) -> Option<u16>
        requires list { j < self.old.waiting.lists }
        requires due { length self.old.due ≡ length self.old.waiting.homes }
        ensures none { IfNone result ((i : ℕ) → home_of self.old.waiting.homes i ≢ Some j) }
        ensures same { IfNone result (self.new ≡ self.old) }
        ensures some { IfSome result (λ i. (i < length self.old.waiting.homes)
            × (home_of self.old.waiting.homes i ≡ Some j)
            × (self.new ≡ record self.old {
              due = set self.old.due i true;
              waiting = record self.old.waiting { homes = set self.old.waiting.homes i None };
            })) }
    {
        let i = self.waiting.pop(j)?;
        self.due.set(i, true);
        Some(i)
    }

    /// List `j`, in which nobody stands any more, has no least count.
    fn forget(&mut self, j: u16)
        requires { j < length self.old.least }
        ensures { self.new ≡ record self.old { least = set self.old.least j NO_COUNT } }
    {
        self.least[j as usize] = NO_COUNT;
    }

    /// Takes all agents off list `j`. They are due.
    fn wake(&mut self, j: u16)
        requires list { j < self.old.waiting.lists }
        requires least { j < length self.old.least }
        requires due { length self.old.due ≡ length self.old.waiting.homes }
        ensures { IsWoken (λ k. k == j) self.old self.new }
    {
        while self.wake_first(j).is_some() {}
        self.forget(j);
    }

    /// The least count for which one in list `j` waits, or a lesser one.
    fn least_count(&self, j: u16) -> u32
        requires { j < length self.now.least }
        ensures { result ≡ least_of self.now.least j }
    {
        self.least[j as usize]
    }

    /// Takes all agents off the list of agent `j` in which those stand that wait for its count, which is this one, if
    /// the list's least count is reached. They are due.
    fn wake_if_reached(&mut self, j: u16, count: u32)
        requires count { count ≡ count_at self.old.configuration j }
        requires few { j < MAX_AGENTS }
        requires agent { j < length self.old.configuration }
        requires lists { CanWake self.old j }
        ensures { IsWoken (λ k. (agent_of k == j) && is_reached self.old k) self.old self.new }
    {
        let list = list_of(Await { agent: j, count });
        let is_early = count < self.least_count(list);
        if is_early {
            return;
        }
        self.wake(list);
    }

    /// Agent `i` stands there now, with so many actions finished.
    #[tactic(auto, using(crate::proofs::Ready::near_set))]
    fn set_agent(&mut self, i: u16, standing: Standing)
        requires agent { i < length self.old.configuration }
        requires near { IsNear standing }
        ensures { self.new ≡ record self.old {
          configuration = set self.old.configuration i standing;
        } }
    {
        self.agents[i as usize] = standing;
    }

    /// Agent `i` begins to read its next action.
    fn pass(&mut self, i: u16)
        requires agent { i < length self.old.marks }
        requires few { (mark_of self.old.marks i).before + (mark_of self.old.marks i).met < 2 ^ 32 }
        ensures { self.new ≡ record self.old {
          marks = set self.old.marks i (passed (mark_of self.old.marks i));
        } }
    {
        let Mark { before, met, step } = self.mark(i);
        self.marks[i as usize] = Mark {
            before: before + u32::from(met),
            met: 0,
            step,
        };
    }

    /// Agent `i` finishes its next action, up to whose step it has read. Answers how many it has finished then.
    #[inline(always)]
    fn finish_action<P: ProgramView>(&mut self, program: &P, i: u16) -> u32
        requires next { HasNext (P.program program.now) self.old i }
        requires read { IsReadToStep (P.program program.now) self.old.configuration i
            (mark_of self.old.marks i) }
        ensures count { result ≡ count_at self.new.configuration i }
        ensures finished { self.new ≡ record self.old {
          configuration =
              set self.old.configuration i (after_next
              (P.program program.now) self.old.configuration i);
          marks = set self.old.marks i (passed (mark_of self.old.marks i));
        } }
    {
        let step = self.next_step(program, i);
        let finished = after_step(self.agent(i), step);
        self.pass(i);
        self.set_agent(i, finished);
        finished.count
    }

    /// The agents that are ready are to move and are due, and no others.
    fn begin_tick(&mut self)
        requires moving { length self.old.moving ≡ length self.old.ready }
        requires due { length self.old.due ≡ length self.old.ready }
        ensures { self.new ≡ record self.old { moving = self.old.ready; due = self.old.ready } }
    {
        self.moving.copy_from(&self.ready);
        self.due.copy_from(&self.ready);
    }

    /// Agent `i` is held: it does not move, and is not due.
    fn hold_back(&mut self, i: u16)
        requires moving { i < length self.old.moving }
        requires due { i < length self.old.due }
        ensures { self.new ≡ held_back self.old i }
    {
        self.moving.set(i, false);
        self.due.set(i, false);
    }

    /// Agent `i` finishes its next action, up to whose step it has read, and all are taken off the list in which those
    /// stand that wait for its count, if the list's least count is reached. They are due.
    #[inline(always)]
    fn advance_one<P: ProgramView>(&mut self, program: &P, i: u16)
        requires next { HasNext (P.program program.now) self.old i }
        requires read { IsReadToStep (P.program program.now) self.old.configuration i
            (mark_of self.old.marks i) }
        requires lists { CanWake self.old i }
        ensures { IsWoken
            (λ k. (agent_of k == i) && is_reached (advanced_one (P.program program.now) self.old i) k)
            (advanced_one (P.program program.now) self.old i) self.new }
    {
        let count = self.finish_action(program, i);
        self.wake_if_reached(i, count);
    }

    /// Each agent that is ready and not held finishes an action, and is due, as are those that it wakes. Answers also
    /// how many were ready.
    fn advance<P: ProgramView>(&mut self, program: &P, held: &[bool]) -> (Tick, u16)
        requires runs { Runs (P.program program.now) self.old }
        requires held { length held.now ≡ length (P.program program.now) }
        ensures woken { HasWoken (P.program program.now) (flag_of held.now) self.old self.new }
        ensures moved { result.0.moved
            ≡ moved_in (P.program program.now) (flag_of held.now) self.old.configuration }
        ensures held { result.0.ready_held
            ≡ is_ready_held (P.program program.now) (flag_of held.now) self.old.configuration }
        ensures ready { result.1 ≡ ready_in (P.program program.now) self.old.configuration }
    {
        self.begin_tick();
        let mut moved = 0;
        let mut kept = 0;
        let mut ready_held = false;
        let mut cursor = self.ready_cursor();
        while let Some(i) = self.next_ready(&mut cursor) {
            if held[i as usize] {
                self.hold_back(i);
                ready_held = true;
                kept += 1;
            } else {
                self.advance_one(program, i);
                moved += 1;
            }
        }
        (Tick { moved, ready_held }, moved + kept)
    }

    /// So many agents more have been looked at.
    fn count_looked(&mut self, agents: u16)
        ensures same { self.new ≡ record self.old { looked = self.new.looked } }
        ensures looked { LooksAt agents 0 self.old.looked self.new.looked }
    {
        self.looked = self.looked.saturating_add(u64::from(agents));
    }

    /// Judges those that a tick moved, and those that it took off the lists of these. Answers how many it judged.
    fn judge_woken<P: ProgramView>(&mut self, program: &P) -> u16
        requires woken { (before : MachineState) × (held : ℕ → Bool)
            × HasWoken (P.program program.now) held before self.old }
        ensures { (before : MachineState) → (held : ℕ → Bool)
            → HasWoken (P.program program.now) held before self.old
            → IsCarriedOut (P.program program.now) held before self.new result }
    {
        self.judge_due(program)
    }

    /// One tick, in which the flagged agents are held. It looks at those that are ready, and at those in the list of an
    /// agent that it moves, if the least count of the list is reached. An agent that moves was judged before the tick,
    /// and one that is ready and held stays ready.
    #[tactic(auto, using(crate::proofs::Judging::counted_le, crate::proofs::Ticking::runs_looked, crate::proofs::Ticking::looked_at))]
    pub fn tick<P: ProgramView>(&mut self, program: &P, held: &[bool]) -> Tick
        requires runs { Runs (P.program program.now) self.old }
        requires held { length held.now ≡ length (P.program program.now) }
        ensures { Ticks (P.program program.now) (flag_of held.now) self.old self.new result }
    {
        let (tick, ready) = self.advance(program, held);
        let judged = self.judge_woken(program);
        self.count_looked(look_count(ready, tick.moved, judged));
        tick
    }

    /// The flagged agents move and are due, and no others.
    fn choose(&mut self, flags: &[bool])
        requires few { length flags.now ≤ MAX_AGENTS }
        requires moving { length self.old.moving ≡ length flags.now }
        requires due { length self.old.due ≡ length flags.now }
        ensures { self.new ≡ record self.old { moving = flags.now; due = flags.now } }
    {
        self.moving.set_to(flags);
        self.due.copy_from(&self.moving);
    }

    /// The agents that move, all of which are ready, finish their next actions, and those that they wake are due.
    fn move_all<P: ProgramView>(&mut self, program: &P)
        requires fits { Fits (P.program program.now) self.old }
        requires moving { length self.old.moving ≡ length (P.program program.now) }
        requires due { self.old.due ≡ self.old.moving }
        requires sent { AreAllReady (P.program program.now) self.old.configuration
            (flag_of self.old.moving) }
        requires read { (i : ℕ) → i < length (P.program program.now)
            → flag_of self.old.moving i ≡ true
            → IsReadToStep (P.program program.now) self.old.configuration i
            (mark_of self.old.marks i) }
        ensures { IsWoken (is_woken_by (carried_all (P.program program.now) self.old))
            (carried_all (P.program program.now) self.old) self.new }
    {
        let mut cursor = self.moved_cursor();
        while let Some(i) = self.moved_at(&mut cursor) {
            self.advance_one(program, i);
        }
    }

    /// The flagged agents, all of which are ready, finish their next actions: one tick, in which all others are held.
    /// It looks at those, and at the agents in their lists whose least counts are reached, and at no others.
    pub fn carry_out<P: ProgramView>(&mut self, program: &P, done: &[bool])
        requires runs { Runs (P.program program.now) self.old }
        requires done { length done.now ≡ length (P.program program.now) }
        requires sent { AreAllReady (P.program program.now) self.old.configuration
            (flag_of done.now) }
        ensures { TicksWith (P.program program.now) done.now self.old self.new }
    {
        self.choose(done);
        self.move_all(program);
        let judged = self.judge_woken(program);
        self.count_looked(judged);
    }
}
