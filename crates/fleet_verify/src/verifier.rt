//! The verifier: all that is judged of a program, in the order of the faults, and its answers: an accepted program, or
//! a refused one.

ghost use Rattle.std.specs.Prelude.{◌≡◌, IfOk, IfErr, IfSome};
ghost use Rattle.fleet_model.specs.Program.{IsWellFormed};
ghost use Rattle.fleet_grid.specs.Ground.{is_passable};
ghost use Rattle.fleet_verify.specs.Chained.{AreKnown};
ghost use Rattle.fleet_verify.specs.Faults.{HasStarts, IsFault};
ghost use Rattle.fleet_verify.specs.Walk.{IsAtStart, IsStop, IsRunOnGround, HasArrived};
ghost use Rattle.fleet_verify.specs.LevelRows.{HasLevels};
ghost use Rattle.fleet_verify.specs.Parts.{IsAcceptedFor};
ghost use Rattle.fleet_verify.specs.Promises.{Promises, IsRefusedRightly};

use crate::agents::{check_paths, check_starts, has_arrived};
use crate::ahead::{Outlook, look_ahead};
use crate::chained::Answers;
use crate::fault::VerifyFault;
use crate::level_row::Levels;
use crate::order::check_order;
use crate::unheld_run::{Stop, UnheldRun, find_ring, run_unheld};
use fleet_grid::Grid;
use fleet_model::ProgramView;
use fleet_scen::Instance;
use std::alloc::Global;
use std::marker::Model;

/// Whether the program is accepted for the map and the instance: as many agents, starts and goals those of the
/// instance, all paths on passable cells, each await of another agent and of 1 to as many actions as it has, a
/// numbering of the actions, and an order of the visits of each cell in which each is a later one by the same agent, or
/// a chain of needs leads from the action that leaves the one before to the action that enters it.
///
/// If so, then whatever agents are held for however long, the run stays on passable cells without a vertex, following,
/// swapping or cycle conflict (Stern et al. 2019), the visits of each cell come in their order, each after the one
/// before it has been left, and the run finishes after no fewer ticks than the longest chain has actions and no more
/// than those and the ticks in which a ready agent was held. From then on all agents stand on their goals. And if
/// robots begin each action once all that it needs has ended, and take any time for it, no two of them are ever on one
/// cell, and each action ends by the sum of times along its critical path; one that never ends stops only those that
/// need it.
///
/// A refusal gives the program back with its first fault. Lack of memory aside, some run of a program that is refused
/// leaves passable cells, has a conflict or does not arrive, if the program has the agents, starts and goals of the
/// instance.
pub fn verify<'g, P: ProgramView>(
    alloc: Global,
    program: P,
    grid: &'g Grid,
    instance: &'g Instance,
) -> Result<Accepted<'g, P>, Refused<P>>
    // What is accepted is handed on as it was given, with the number of actions of its longest chain.
    ensures kept { IfOk result (λ a. (a.program ≡ program) × (a.grid ≡ grid.now)
        × (a.instance ≡ instance.now)) }
    ensures accepted { IfOk result (λ a. IsAcceptedFor grid.now instance.now
        (P.program program) a.chain) }
    ensures promised { IfOk result (λ a. Promises (is_passable grid.now) (P.program program)
        a.chain) }
    ensures returned { IfErr result (λ r. r.program ≡ program) }
    ensures refused { IfErr result (λ r. IsRefusedRightly (is_passable grid.now) instance.now
        (P.program program) r.fault) }
{
    match judge(alloc, &program, grid, instance) {
        Ok(judged) => Ok(Accepted::new(program, grid, instance, judged)),
        Err(fault) => Err(Refused { fault, program }),
    }
}

/// What is known of a program that is accepted: how many actions its longest chain has, and the levels of its actions,
/// unless they were let go.
#[derive(Drop)]
struct Judged {
    chain: u32,
    levels: Option<Levels>,
}

/// What is known of the program, if it is accepted. A run in which nobody is held passes each action of such a program
/// once. If that run goes wrong, the first fault is searched for in the order of the faults. Before it the agents are
/// let run ahead, which is faster, and finds most accepted programs right. What is answered there is not asked again.
fn judge<P: ProgramView>(
    alloc: Global,
    program: &P,
    grid: &Grid,
    instance: &Instance,
) -> Result<Judged, VerifyFault>
    ensures ok { IfOk result (λ j. IsAcceptedFor grid.now instance.now
        (P.program program.now) j.chain) }
    ensures levels { IfOk result (λ j. IfSome j.levels (HasLevels (P.program program.now))) }
    ensures err { IfErr result (λ f. IsFault (is_passable grid.now) instance.now
        (P.program program.now) f) }
    ensures formed { IsWellFormed (P.program program.now) }
{
    check_starts(program, instance)?;
    match look_ahead(alloc, program, grid, instance)? {
        Outlook::Accepted(chain, levels) => Ok(Judged { chain, levels }),
        Outlook::Unknown(known) => judge_unheld(alloc, program, grid, instance, &known),
    }
}

/// What is known of the program by the run in which nobody is held: its longest chain has as many actions as that has
/// ticks.
fn judge_unheld<P: ProgramView>(
    alloc: Global,
    program: &P,
    grid: &Grid,
    instance: &Instance,
    known: &Answers,
) -> Result<Judged, VerifyFault>
    requires starts { HasStarts instance.now (P.program program.now) }
    requires known { AreKnown (P.program program.now) known.now }
    ensures ok { IfOk result (λ j. IsAcceptedFor grid.now instance.now
        (P.program program.now) j.chain) }
    ensures levels { IfOk result (λ j. IfSome j.levels (HasLevels (P.program program.now))) }
    ensures err { IfErr result (λ f. IsFault (is_passable grid.now) instance.now
        (P.program program.now) f) }
{
    let mut run = UnheldRun::start(alloc, program)?;
    judge_run(alloc, program, grid, instance, &mut run, known)
}

/// The same, by that run, which is at its start.
fn judge_run<P: ProgramView>(
    alloc: Global,
    program: &P,
    grid: &Grid,
    instance: &Instance,
    run: &mut UnheldRun,
    known: &Answers,
) -> Result<Judged, VerifyFault>
    requires starts { HasStarts instance.now (P.program program.now) }
    requires run { IsAtStart (P.program program.now) run.old }
    requires known { AreKnown (P.program program.now) known.now }
    ensures ok { IfOk result (λ j. IsAcceptedFor grid.now instance.now
        (P.program program.now) j.chain) }
    ensures levels { IfOk result (λ j. IfSome j.levels (HasLevels (P.program program.now))) }
    ensures err { IfErr result (λ f. IsFault (is_passable grid.now) instance.now
        (P.program program.now) f) }
{
    if let Err(stop) = run_unheld(program, grid, run) {
        return Err(stop_fault(program, grid, instance, stop));
    }
    if has_arrived(program, instance, &run.machine) {
        check_order(alloc, program, grid, instance, run, known)?;
        Ok(Judged {
            chain: run.ticks,
            levels: None,
        })
    } else {
        Err(fault_if_stuck(alloc, program, grid, instance, run))
    }
}

/// The fault of a program whose run with nobody held was stopped: if a path leaves passable ground, the first one of
/// the paths.
fn stop_fault<P: ProgramView>(
    program: &P,
    grid: &Grid,
    instance: &Instance,
    stop: Stop,
) -> VerifyFault
    requires starts { HasStarts instance.now (P.program program.now) }
    requires stop { IsStop (is_passable grid.now) (P.program program.now) stop }
    ensures { IsFault (is_passable grid.now) instance.now (P.program program.now) result }
{
    match stop {
        Stop::OutOfMemory => VerifyFault::OutOfMemory,
        Stop::OffGround => match check_paths(program, grid, instance) {
            Ok(()) => unreachable!(),
            Err(fault) => fault,
        },
    }
}

/// The first fault of a program whose run with nobody held does not arrive.
fn fault_if_stuck<P: ProgramView>(
    alloc: Global,
    program: &P,
    grid: &Grid,
    instance: &Instance,
    run: &UnheldRun,
) -> VerifyFault
    requires starts { HasStarts instance.now (P.program program.now) }
    requires run { IsRunOnGround (is_passable grid.now) (P.program program.now) run.now }
    requires lost { HasArrived instance.now (P.program program.now) run.now.machine.configuration
        → ⊥ }
    ensures { IsFault (is_passable grid.now) instance.now (P.program program.now) result }
{
    if let Err(fault) = check_paths(program, grid, instance) {
        return fault;
    }
    match find_ring(alloc, program, &run.machine) {
        Ok(ring) => VerifyFault::Cyclic(ring),
        Err(fault) => VerifyFault::from(fault),
    }
}

/// A program that is accepted for a map and an instance, which it keeps with it. Only `verify` makes one.
#[derive(Drop)]
pub struct Accepted<'g, P: ProgramView> {
    program: P,
    grid: &'g Grid,
    instance: &'g Instance,
    chain: u32,
    levels: Option<Levels>,
}

impl<'g, P: ProgramView> Model for Accepted<'g, P> {
    ghost use Rattle.std.specs.Prelude.{IfSome, is_some};
    ghost use Rattle.fleet_verify.specs.LevelRows.{HasLevels};
    ghost use Rattle.fleet_verify.specs.Parts.{AcceptedParts, IsAcceptedFor};

    ghost Value = { AcceptedParts P };

    ghost view = { λ a. record {
      program = a.program;
      grid = a.grid.now;
      instance = a.instance.now;
      chain = a.chain;
      has_levels = is_some a.levels;
    } };

    ghost invariant = { λ a. IsAcceptedFor a.grid.now a.instance.now
        (P.program a.program) a.chain × IfSome a.levels (HasLevels (P.program a.program)) };
}

impl<'g, P: ProgramView> Accepted<'g, P> {
    ghost use Rattle.std.specs.Prelude.{◌≡◌, IfSome, is_some};
    ghost use Rattle.fleet_verify.specs.LevelRows.{HasLevels};
    ghost use Rattle.fleet_verify.specs.Parts.{IsAcceptedFor};

    fn new(program: P, grid: &'g Grid, instance: &'g Instance, judged: Judged) -> Self
        requires accepted { IsAcceptedFor grid.now instance.now (P.program program) judged.chain }
        requires levels { IfSome judged.levels (HasLevels (P.program program)) }
        ensures { result ≡ record {
          program = program;
          grid = grid.now;
          instance = instance.now;
          chain = judged.chain;
          has_levels = is_some judged.levels;
        } }
    {
        let Judged { chain, levels } = judged;
        Accepted {
            program,
            grid,
            instance,
            chain,
            levels,
        }
    }

    /// The levels of all actions, unless they were let go. Takes no memory.
    pub(crate) fn levels(&self) -> Option<&Levels>
        ensures levels { IfSome result (λ l. HasLevels (P.program self.now.program) l.now) }
        ensures kept { is_some result ≡ self.now.has_levels }
    {
        self.levels.as_ref()
    }

    /// How many actions the longest chain of needs has. Takes no memory.
    pub fn chain(&self) -> u32
        ensures chain { result ≡ self.now.chain }
        ensures accepted { IsAcceptedFor self.now.grid self.now.instance
            (P.program self.now.program) result }
    {
        self.chain
    }

    /// The program, which is accepted. Takes no memory.
    pub fn program(&self) -> &P
        ensures program { result.now ≡ self.now.program }
        ensures accepted { IsAcceptedFor self.now.grid self.now.instance
            (P.program result.now) self.now.chain }
    {
        &self.program
    }

    /// The map. Takes no memory.
    pub fn grid(&self) -> &'g Grid
        ensures { result.now ≡ self.now.grid }
    {
        self.grid
    }

    /// The instance: the tasks of the agents. Takes no memory.
    pub fn instance(&self) -> &'g Instance
        ensures { result.now ≡ self.now.instance }
    {
        self.instance
    }
}

/// A program that was not accepted, as it was given, and why.
#[derive(Drop)]
pub struct Refused<P> {
    pub fault: VerifyFault,
    pub program: P,
}
