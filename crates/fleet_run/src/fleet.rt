//! A fleet that runs an accepted program, tick by tick or in one call.

ghost use Rattle.std.specs.Prelude.{◌≡◌, ℕ, ◌<◌, ◌≤◌, length, IfOk, IfErr, OnOk, OnErr, All, IsTrue, false};
ghost use Rattle.fleet_grid.specs.Ground.{is_passable};
ghost use Rattle.fleet_model.specs.Machine.{opening, tick, is_finished, is_ready, IsReached, place_at, count_at};
ghost use Rattle.fleet_model.specs.Run.{AreOnGoals, IsSafeStep};
ghost use Rattle.fleet_model.specs.Claims.{order_of, AreApart, KeepsOrder};
ghost use Rattle.fleet_run.specs.Drive.{DrivesFleet};
ghost use Rattle.fleet_run.specs.Fleet.{HaveCarriedOut, IsOutcomeOf};
ghost use Rattle.fleet_text.specs.Sink.{IsWorking};
ghost use Rattle.fleet_run.specs.Source.{HasNotFailed};
ghost use Rattle.fleet_machine.specs.Confirmed.{IsFirstUnready};
ghost use Rattle.fleet_machine.specs.Machine.{flag_of};
ghost use Rattle.fleet_run.specs.Trace.{Traces};

use crate::run::{Report, RunFault, run_trace};
use crate::source::{HoldSource, HoldText};
use fleet_machine::{Machine, Tick};
use fleet_model::{Place, ProgramView, Standing, Step};
use fleet_text::TraceOut;
use fleet_verify::{Accepted, ready_moves_are_apart, runs_arrive, runs_end, ticks_are_safe};
use std::alloc::Global;
use std::marker::Model;
use thiserror::Error;

/// The agents of an accepted program, on their way. As a value it is the accepted program, the configuration, in which
/// each agent has a place and a number of finished actions, and how many agents ticks have looked at.
#[derive(Drop)]
pub struct Fleet<'g, P: ProgramView> {
    accepted: Accepted<'g, P>,
    machine: Machine,
}

impl<'g, P: ProgramView> Model for Fleet<'g, P> {
    ghost use Rattle.fleet_run.specs.Fleet.{FleetState, IsRunning};

    ghost Value = { FleetState P };

    ghost view = { λ f. record {
      accepted = f.accepted;
      configuration = f.machine.configuration;
      looked = f.machine.looked;
    } };

    ghost invariant = { λ f. IsRunning (P.program f.accepted.program) f.accepted f.machine };
}

/// A fleet that did not start, for want of memory.
#[derive(Drop)]
pub struct StartRefusal<'g, P: ProgramView> {
    pub accepted: Accepted<'g, P>,
}

/// An agent that is reported to have carried out an order, and had none.
#[derive(Clone, Copy, Debug, Error)]
#[error("agent {agent} had no order")]
pub struct NotSent {
    pub agent: u16,
}

impl<'g, P: ProgramView> Fleet<'g, P> {
    /// A fleet whose agents stand on their starts and have finished nothing. It fails only if memory is refused, and
    /// hands the accepted program back then.
    pub fn start(
        alloc: Global,
        accepted: Accepted<'g, P>,
    ) -> Result<Fleet<'g, P>, StartRefusal<'g, P>>
        ensures started { IfOk result (λ f. f ≡ record {
          accepted = accepted.entry;
          configuration = opening (P.program accepted.entry.program);
          looked = 0;
        }) }
        ensures counts { IfOk result (λ f. All (λ s. s.count ≡ 0) f.configuration) }
        ensures refused { IfErr result (λ r. r.accepted ≡ accepted.entry) }
    {
        ticks_are_safe();
        let Ok(machine) = Machine::start(alloc, accepted.program()) else {
            return Err(StartRefusal { accepted });
        };
        Ok(Fleet { accepted, machine })
    }

    /// One tick: every ready agent that is not held finishes one action, and all others stay. `held` has a flag for
    /// each agent. It looks at the ready agents, and at no others but agents that are not ready and await one that it
    /// moves. A tick of a finished fleet changes nothing. Takes no memory.
    pub fn tick(&mut self, held: &[bool]) -> Tick
        requires { length held.now ≡ length (P.program self.old.accepted.program) }
        ensures after { self.new ≡ record self.old {
          configuration = tick (P.program self.old.accepted.program)
              (flag_of held.now) self.old.configuration;
          looked = self.new.looked;
        } }
        ensures outcome { IsOutcomeOf (P.program self.old.accepted.program) (flag_of held.now)
            self.old self.new result }
        // All places are passable and differ, and no agent stands where another stood before.
        ensures safe { IsSafeStep (is_passable self.old.accepted.grid)
            (length (P.program self.old.accepted.program))
            self.old.configuration self.new.configuration }
        // An agent that is held keeps its order.
        ensures kept { (i : ℕ) → i < length (P.program self.old.accepted.program)
            → IsTrue (flag_of held.now i) → KeepsOrder
            (P.program self.old.accepted.program) self.old.configuration self.new.configuration i }
        ensures rest { IsTrue (is_finished
            (P.program self.old.accepted.program) self.old.configuration) → (self.new ≡ self.old)
            × (result.moved ≡ 0) × (result.ready_held ≡ false) }
    {
        ticks_are_safe();
        ready_moves_are_apart();
        self.machine.tick(self.accepted.program(), held)
    }

    /// The flagged agents have carried out their orders, and all others are still on their way or wait: a tick in which
    /// all others are held. It looks at the flagged agents, and at no others but agents that are not ready and await
    /// one of these. If one of them had no order, the first such agent is refused, and nothing changes. `done` has a
    /// flag for each agent. Takes no memory.
    pub fn confirm(&mut self, done: &[bool]) -> Result<(), NotSent>
        requires { length done.now ≡ length (P.program self.old.accepted.program) }
        ensures accepted { self.new.accepted ≡ self.old.accepted }
        ensures looked { self.old.looked ≤ self.new.looked }
        ensures carried_out { OnOk result (HaveCarriedOut (P.program self.old.accepted.program)
            (flag_of done.now) self.old self.new) }
        ensures refused { IfErr result (λ e. IsFirstUnready
            (P.program self.old.accepted.program) self.old.configuration
            (flag_of done.now) e.agent) }
        ensures unchanged { OnErr result (self.new ≡ self.old) }
    {
        ticks_are_safe();
        ready_moves_are_apart();
        if let Some(agent) = self.machine.first_unready(self.accepted.program(), done) {
            return Err(NotSent { agent });
        }
        self.machine.carry_out(self.accepted.program(), done);
        Ok(())
    }

    /// Whether no action is left. Then every agent stands on its goal.
    pub fn finished(&self) -> bool
        ensures finished { result ≡ is_finished
            (P.program self.now.accepted.program) self.now.configuration }
        ensures arrived { IsTrue result → AreOnGoals
            (P.program self.now.accepted.program) self.now.configuration }
    {
        runs_arrive();
        self.machine.is_finished(self.accepted.program())
    }

    /// How many agents the ticks have looked at so far. The count stays at the greatest value once there.
    pub fn looked(&self) -> u64
        ensures { result ≡ self.now.looked }
    {
        self.machine.looked()
    }

    /// Where the agents stand, and how many actions each has finished, as it is in a run.
    pub fn standings(&self) -> &[Standing]
        ensures standings { result.now ≡ self.now.configuration }
        ensures reached { IsReached
            (P.program self.now.accepted.program) self.now.configuration }
    {
        self.machine.agents()
    }

    /// Where agent `i` stands.
    pub fn place(&self, i: u16) -> Place
        requires { i < length (P.program self.now.accepted.program) }
        ensures { result ≡ place_at self.now.configuration i }
    {
        self.machine.agent(i).place
    }

    /// How many actions agent `i` has finished.
    pub fn count(&self, i: u16) -> u32
        requires { i < length (P.program self.now.accepted.program) }
        ensures { result ≡ count_at self.now.configuration i }
    {
        self.machine.agent(i).count
    }

    /// Whether agent `i` has an action left, all of whose awaits are met.
    pub fn ready(&self, i: u16) -> bool
        requires { i < length (P.program self.now.accepted.program) }
        ensures { result ≡ is_ready (P.program self.now.accepted.program) self.now.configuration i }
    {
        self.machine.is_ready(self.accepted.program(), i)
    }

    /// The order that agent `i` may be given: the step of its next action, if it is ready. It stays the same until it
    /// is carried out.
    pub fn order(&self, i: u16) -> Option<Step>
        requires { i < length (P.program self.now.accepted.program) }
        ensures { result ≡ order_of (P.program self.now.accepted.program) self.now.configuration i }
    {
        self.machine.order(self.accepted.program(), i)
    }

    /// However long the agents take for their orders, no two of them meet: the places on which they stand and those to
    /// which their orders lead are passable, and no two agents have one in common. This does nothing: its contract is
    /// the law.
    pub fn apart(&self)
        ensures { AreApart (is_passable self.now.accepted.grid)
            (P.program self.now.accepted.program) self.now.configuration }
    {
        ready_moves_are_apart();
        // The fleet that is read shows its invariant.
        let _ = &self.machine;
    }

    /// How many agents there are.
    pub fn agents(&self) -> u16
        ensures { result ≡ length (P.program self.now.accepted.program) }
    {
        self.accepted.program().agents()
    }

    /// The accepted program that was started.
    pub fn accepted(&self) -> &Accepted<'g, P>
        ensures { result.now ≡ self.now.accepted }
    {
        &self.accepted
    }

    /// Ends the fleet, and hands its accepted program back.
    pub fn into_accepted(self) -> Accepted<'g, P>
        ensures { result ≡ self.entry.accepted }
    {
        let Fleet {
            accepted,
            machine: _,
        } = self;
        accepted
    }
}

/// Runs a fleet from its start until it is finished, asks `source` who is held in each tick, and writes the trace text
/// to `out`: a line for each time, and then how many agents, ticks, actions of the longest chain, and ticks in which a
/// ready agent was held there were. Takes no memory by itself. After a refusal the fleet may be ticked further.
///
/// Errors: `Source` and `Hold` if the source fails, `Write` if `out` does, `HoldLimit` if the source gives more than
/// `MAX_RUN_TICKS` ticks before the run is over.
pub fn drive<P: ProgramView, S: HoldSource, O: TraceOut>(
    fleet: &mut Fleet<'_, P>,
    source: &mut S,
    out: &mut O,
) -> Result<Report, RunFault>
    requires counts { All (λ s. s.count ≡ 0) fleet.old.configuration }
    requires source { HasNotFailed (S.state source.old) }
    requires sink { IsWorking (O.state out.old) }
    ensures { DrivesFleet (P.program fleet.old.accepted.program) fleet.old fleet.new
        (S.state source.old) (S.state source.new) (O.state out.old) (O.state out.new) result }
{
    runs_arrive();
    runs_end();
    let chain = fleet.accepted.chain();
    run_trace(
        fleet.accepted.program(),
        chain,
        &mut fleet.machine,
        source,
        out,
    )
}

// The run of an accepted program under a text of holds, in one call.

/// Runs an accepted program, under the holds for which the bytes stand, and writes its trace to `out`, which is not
/// flushed. The report has the trace's numbers.
///
/// Errors: `OutOfMemory` before anything is written, and those of `drive` except `Source`.
pub fn run_accepted<P: ProgramView + Drop, O: TraceOut>(
    alloc: Global,
    accepted: Accepted<'_, P>,
    holds: &[u8],
    out: &mut O,
) -> Result<Report, RunFault>
    requires { IsWorking (O.state out.old) }
    ensures { Traces (P.program accepted.entry.program) accepted.entry.chain holds.now
        (O.state out.old) (O.state out.new) result }
{
    let mut source = HoldText::new(holds, accepted.program().agents());
    let Ok(mut fleet) = Fleet::start(alloc, accepted) else {
        return Err(RunFault::OutOfMemory);
    };
    drive(&mut fleet, &mut source, out)
}
