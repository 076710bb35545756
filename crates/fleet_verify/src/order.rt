//! The visits in the order in which they begin: of each cell the last one, the pairs of neighbours of which the second
//! does not await that the first is left, and which of these pairs has no order.

ghost use Rattle.std.specs.Prelude.{◌≡◌, ◌<◌, ℕ, nat_eq, length, List, Some, None, OnOk, IfErr, [], ◌≢◌, map, All, IfOk, ◌↔◌, ◌++◌, ◌≤◌, ◌∷◌, IsTrue};
ghost use Rattle.indexmap.specs.IndexMap.{get};
ghost use Rattle.fleet_model.specs.declared.geometry.Cell.{Cell};
ghost use Rattle.fleet_model.specs.declared.program.Visit.{Visit};
ghost use Rattle.fleet_model.specs.Geometry.{place_of};
ghost use Rattle.fleet_model.specs.Machine.{IsFinish};
ghost use Rattle.fleet_model.specs.Program.{moves, path, IsCell, AreInRange};
ghost use Rattle.fleet_model.specs.Visit.{ComesAfter, IsOrderly, leaving, IsVisit, is_entry, ComesAfterByAwait};
ghost use Rattle.fleet_grid.specs.Ground.{is_passable};
ghost use Rattle.fleet_verify.specs.declared.order.OrderViolation.{OrderViolation};
ghost use Rattle.fleet_verify.specs.declared.fault.VerifyFault.TheVariants.{Unordered};
ghost use Rattle.fleet_verify.specs.LastVisits.{kept_at};
ghost use Rattle.fleet_verify.specs.Order.{number_of, AreAddedBy, AreAllAdded, AreAllViolations, IsPathOrderly, IsOpenNext, IsVisitKept};
ghost use Rattle.fleet_verify.specs.Faults.{HasRanges, IsFault};
ghost use Rattle.std.specs.Option.{option_or};
ghost use Rattle.fleet_needs.specs.Asked.{IsQuestion};
ghost use Rattle.fleet_verify.specs.Chained.{AreKnown};
ghost use Rattle.fleet_verify.specs.OpenPairs.{question_of, violation_of, AreVisits, IsChained, IsFlagged, AnswersFirstBad};

use crate::agents::cell_after;
use crate::chained::Answers;
use crate::fault::VerifyFault;
use crate::last_visits::LastVisits;
use crate::unheld_run::UnheldRun;
use fleet_grid::Grid;
use fleet_model::{ActionId, Cell, MAX_COORDINATE, OutOfMemory, ProgramView, Step, Visit};
use fleet_needs::{LevelsTo, Question};
use fleet_scen::Instance;
use indexmap::IndexMap;
use std::alloc::Global;

/// Whether the visits of each cell come one after another. The run has added all visits. Chains are asked for only if
/// some visit does not await that the one before is left, and the answers are not those that are known.
pub fn check_order<P: ProgramView>(
    alloc: Global,
    program: &P,
    grid: &Grid,
    instance: &Instance,
    run: &UnheldRun,
    known: &Answers,
) -> Result<(), VerifyFault>
    requires before { HasRanges (is_passable grid.now) instance.now (P.program program.now) }
    requires added { AreAllAdded (P.program program.now) run.now.visits }
    requires finish { IsFinish (P.program program.now) [] run.now.ticks }
    requires known { AreKnown (P.program program.now) known.now }
    ensures ok { OnOk result (IsOrderly ComesAfter (P.program program.now)) }
    ensures err { IfErr result (λ f. IsFault (is_passable grid.now) instance.now
        (P.program program.now) f) }
{
    let pairs = &run.visits.pairs;
    if pairs.is_empty() {
        return Ok(());
    }
    // The contract of this call says that no two starts are the same.
    let _agents = instance.agents();
    let violations = find_violations(alloc, program, run.ticks, pairs, known)?;
    check_cells(program, grid, instance, &violations)
}

/// Whether no cell has neighbouring visits that break the rule. The cells are looked at by agent and position.
fn check_cells<P: ProgramView>(
    program: &P,
    grid: &Grid,
    instance: &Instance,
    violations: &IndexMap<u32, OrderViolation>,
) -> Result<(), VerifyFault>
    requires before { HasRanges (is_passable grid.now) instance.now (P.program program.now) }
    requires violations { AreAllViolations (P.program program.now)
        (λ (c : Cell). get nat_eq violations.now (number_of c)) }
    ensures ok { OnOk result (IsOrderly ComesAfter (P.program program.now)) }
    ensures err { IfErr result (λ f. IsFault (is_passable grid.now) instance.now
        (P.program program.now) f × (f ≢ VerifyFault.OutOfMemory)) }
{
    if violations.is_empty() {
        return Ok(());
    }
    for agent in 0..program.agents() {
        check_path(program, grid, instance, agent, violations)?;
    }
    Ok(())
}

/// Judges the cells on the agent's path by position, after those on the paths of all agents before it.
///
/// Errors: `Unordered` at the first cell of which two neighbouring visits break the rule.
#[inline]
fn check_path<P: ProgramView>(
    program: &P,
    grid: &Grid,
    instance: &Instance,
    agent: u16,
    violations: &IndexMap<u32, OrderViolation>,
) -> Result<(), VerifyFault>
    requires before { HasRanges (is_passable grid.now) instance.now (P.program program.now) }
    requires agent { agent < length (P.program program.now) }
    requires violations { AreAllViolations (P.program program.now)
        (λ (c : Cell). get nat_eq violations.now (number_of c)) }
    requires sooner { (i : ℕ) → i < agent → IsPathOrderly ComesAfter (P.program program.now) i }
    ensures ok { OnOk result (IsPathOrderly ComesAfter (P.program program.now) agent) }
    ensures err { IfErr result (λ f. IsFault (is_passable grid.now) instance.now
        (P.program program.now) f × (f ≢ VerifyFault.OutOfMemory)) }
{
    let mut cell = program.start(agent);
    check_cell(violations, cell)?;
    for finished in 0..program.moves(agent) {
        cell = cell_after(grid, cell, program.step(agent, finished + 1)).unwrap();
        check_cell(violations, cell)?;
    }
    Ok(())
}

/// Whether no neighbours among the visits of the cell break the rule.
fn check_cell(violations: &IndexMap<u32, OrderViolation>, cell: Cell) -> Result<(), VerifyFault>
    ensures ok { OnOk result (get nat_eq violations.now (number_of cell) ≡ None) }
    ensures err { IfErr result (λ f. (v : OrderViolation)
        × (get nat_eq violations.now (number_of cell) ≡ Some v)
        × (f ≡ Unordered cell v.first v.second)) }
    ensures cell { IsCell cell }
{
    match violations.get(&number_of(cell)) {
        Some(found) => {
            let OrderViolation { first, second } = *found;
            Err(VerifyFault::Unordered {
                cell,
                first,
                second,
            })
        }
        None => Ok(()),
    }
}

/// Visits of a cell, one right after the other, of which the second may not come after the first.
#[derive(Clone, Copy, Drop)]
struct OrderViolation {
    first: Visit,
    second: Visit,
}

/// By the number of each cell its first open pair without a chain from the action that leaves the first visit to the
/// one that enters the second. The program finishes after so many ticks if nobody is held. Nothing is asked if it was
/// asked before.
fn find_violations<P: ProgramView>(
    alloc: Global,
    program: &P,
    ticks: u32,
    pairs: &[OpenPair],
    known: &Answers,
) -> Result<IndexMap<u32, OrderViolation>, OutOfMemory>
    requires range { AreInRange (P.program program.now) }
    requires finish { IsFinish (P.program program.now) [] ticks }
    requires visits { All (AreVisits (P.program program.now)) pairs.now }
    requires questions { All (IsQuestion (P.program program.now))
        (map (question_of (P.program program.now)) pairs.now) }
    requires known { AreKnown (P.program program.now) known.now }
    ensures { IfOk result (λ found. (n : ℕ)
        → AnswersFirstBad (λ _ o. ¬ IsChained (P.program program.now) o)
        pairs.now (length pairs.now) n (get nat_eq found n)) }
{
    let questions = questions_of(alloc, program, pairs)?;
    if let Some(flags) = known.flags_of(alloc, &questions)? {
        return first_flagged(alloc, pairs, &flags);
    }
    let asked = Answers::to(alloc, program, LevelsTo { most: ticks }, questions)?;
    first_flagged(alloc, pairs, &asked.flags)
}

/// The question of each pair.
fn questions_of<P: ProgramView>(
    alloc: Global,
    program: &P,
    pairs: &[OpenPair],
) -> Result<Vec<Question>, OutOfMemory>
    requires { All (AreVisits (P.program program.now)) pairs.now }
    ensures { IfOk result (λ questions.
        questions.items ≡ map (question_of (P.program program.now)) pairs.now) }
{
    let mut questions = Vec::new(alloc);
    for pair in pairs {
        let OpenPair { first, second, .. } = *pair;
        questions.push(Question {
            first: leaving(program, first),
            last: ActionId {
                agent: second.agent,
                number: second.position,
            },
        })?;
    }
    Ok(questions)
}

/// The action that leaves the visit. If none does, its number is one above that of the agent's last action.
pub fn leaving<P: ProgramView>(program: &P, visit: Visit) -> ActionId
    requires { IsVisit (P.program program.now) visit }
    ensures { result ≡ leaving (P.program program.now) visit }
{
    let Visit { agent, position } = visit;
    let _agents = program.agents();
    let moves = program.moves(agent);
    for finished in position..moves {
        match program.step(agent, finished + 1) {
            Step::Go(_) => {
                return ActionId {
                    agent,
                    number: finished + 1,
                };
            }
            Step::Dwell => {}
        }
    }
    ActionId {
        agent,
        number: moves + 1,
    }
}

/// By the number of each cell its first pair that is flagged.
fn first_flagged(
    alloc: Global,
    pairs: &[OpenPair],
    flags: &[bool],
) -> Result<IndexMap<u32, OrderViolation>, OutOfMemory>
    requires { length flags.now ≡ length pairs.now }
    ensures { IfOk result (λ found. (n : ℕ) →
        AnswersFirstBad (IsFlagged flags.now) pairs.now (length pairs.now) n (get nat_eq found n)) }
{
    let mut found = IndexMap::new(alloc);
    for k in 0..pairs.len() {
        let has_no_chain = flags[k];
        if has_no_chain {
            keep_first(&mut found, pairs[k])?;
        }
    }
    Ok(found)
}

/// Keeps the visits of the pair, if none of its cell are kept yet.
fn keep_first(found: &mut IndexMap<u32, OrderViolation>, pair: OpenPair) -> Result<(), OutOfMemory>
    ensures others { OnOk result ((n : ℕ) → n ≢ number_of pair.cell
        → get nat_eq found.new n ≡ get nat_eq found.old n) }
    ensures here { OnOk result (get nat_eq found.new (number_of pair.cell)
        ≡ option_or (get nat_eq found.old (number_of pair.cell)) (Some (violation_of pair))) }
{
    let OpenPair {
        cell,
        first,
        second,
    } = pair;
    let number = number_of(cell);
    if found.contains_key(&number) {
        return Ok(());
    }
    found.insert(number, OrderViolation { first, second })?;
    Ok(())
}

/// An agent after so many of its actions, and the cell that it is on then.
#[derive(Clone, Copy)]
pub struct PlacedVisit {
    pub visit: Visit,
    pub cell: Cell,
}

/// Visits of a cell, one right after the other, of which the second is not by the same agent and does not await that
/// the first is left. A chain of needs may still order them.
#[derive(Clone, Copy, Drop)]
pub struct OpenPair {
    pub cell: Cell,
    pub first: Visit,
    pub second: Visit,
}

/// The visits so far, in the order in which they began: the last one of each cell, and the open pairs in the order in
/// which their second visits began.
#[derive(Drop)]
pub struct VisitOrder {
    pub last: LastVisits,
    pub pairs: Vec<OpenPair>,
}

/// The number of a cell, which no other cell has.
pub fn number_of(cell: Cell) -> u32
    ensures number { result ≡ number_of cell }
    ensures cell { IsCell cell }
{
    let Cell { x, y } = cell;
    u32::from(y) * (MAX_COORDINATE + 1) + u32::from(x)
}

impl VisitOrder {
    ghost use Rattle.fleet_model.specs.Program.{Program};
    ghost use Rattle.fleet_verify.specs.Order.{AreAdded};

    /// No visits. Takes no memory.
    pub fn new(alloc: Global) -> Self
        ensures { (p : Program) → AreAdded p [] result }
    {
        VisitOrder {
            last: LastVisits::new(alloc),
            pairs: Vec::new(alloc),
        }
    }
}

/// Whether the agent does not stay where it was: it is on its start, or its last action is a move.
fn begins_visit<P: ProgramView>(program: &P, visit: Visit) -> bool
    requires agent { visit.agent < length (P.program program.now) }
    requires position { visit.position ≤ moves (P.program program.now) visit.agent }
    ensures { result ≡ is_entry (P.program program.now) visit.agent visit.position }
{
    if visit.position == 0 || program.never_stays() {
        return true;
    }
    match program.step(visit.agent, visit.position) {
        Step::Go(_) => true,
        Step::Dwell => false,
    }
}

/// Adds the position, if it begins a visit.
pub fn add_visit<P: ProgramView>(
    program: &P,
    last: &mut LastVisits,
    pairs: &mut Vec<OpenPair>,
    placed: PlacedVisit,
) -> Result<(), OutOfMemory>
    requires agent { placed.visit.agent < length (P.program program.now) }
    requires position { placed.visit.position ≤ moves (P.program program.now) placed.visit.agent }
    requires here { place_of placed.cell ≡ path (P.program program.now) placed.visit.agent
        placed.visit.position }
    ensures { OnOk result ((visits : List Visit)
        → AreAddedBy (P.program program.now) visits (kept_at last.old) pairs.old.items
        → AreAddedBy (P.program program.now) (visits ++ placed.visit ∷ [])
        (kept_at last.new) pairs.new.items) }
{
    if begins_visit(program, placed.visit) {
        keep_visit(program, last, pairs, placed)?;
    }
    Ok(())
}

/// Keeps the visit as the last one of its cell. Unless it comes after the one before it, the two are an open pair.
fn keep_visit<P: ProgramView>(
    program: &P,
    last: &mut LastVisits,
    pairs: &mut Vec<OpenPair>,
    placed: PlacedVisit,
) -> Result<(), OutOfMemory>
    requires { IsVisit (P.program program.now) placed.visit }
    ensures kept { OnOk result (IsVisitKept (ComesAfterByAwait (P.program program.now)) placed
        (kept_at last.old) (kept_at last.new) pairs.old.items pairs.new.items) }
    ensures cell { IsCell placed.cell }
{
    let _agents = program.agents();
    match last.replace(placed.cell, placed.visit)? {
        Some(first) => open_unless_after(program, first, placed, pairs),
        None => Ok(()),
    }
}

/// Adds the visit and the one before it at the cell as an open pair, unless it is a later one by the same agent, or
/// awaits that the one before is left.
pub fn open_unless_after<P: ProgramView>(
    program: &P,
    first: Visit,
    placed: PlacedVisit,
    pairs: &mut Vec<OpenPair>,
) -> Result<(), OutOfMemory>
    requires { IsVisit (P.program program.now) placed.visit }
    ensures { OnOk result (IsOpenNext (ComesAfterByAwait (P.program program.now)) (Some first)
        placed pairs.old.items pairs.new.items) }
{
    let PlacedVisit {
        visit: second,
        cell,
    } = placed;
    if comes_after(program, first, second) {
        return Ok(());
    }
    pairs.push(OpenPair {
        cell,
        first,
        second,
    })?;
    Ok(())
}

/// Whether the second visit is a later one by the same agent, or entered by an action that awaits that the first is
/// left.
fn comes_after<P: ProgramView>(program: &P, first: Visit, second: Visit) -> bool
    requires { IsVisit (P.program program.now) second }
    ensures { IsTrue result ↔ ComesAfterByAwait (P.program program.now) first second }
{
    if first.agent == second.agent && first.position < second.position {
        return true;
    }
    if second.position == 0 {
        return false;
    }
    let _agents = program.agents();
    for k in 0..program.await_count(second.agent, second.position) {
        let awaited = program.await_at(second.agent, second.position, k);
        if awaited.agent == first.agent && is_left_by(program, first, awaited.count) {
            return true;
        }
    }
    false
}

/// Whether the action that leaves the visit is among so many of its agent's actions.
#[inline(always)]
pub fn is_left_by<P: ProgramView>(program: &P, visit: Visit, count: u32) -> bool
    requires { visit.agent < length (P.program program.now) }
    ensures { IsTrue result ↔ (leaving (P.program program.now) visit).number ≤ count }
{
    if program.never_stays() {
        return visit.position < count;
    }
    is_seen_leaving(program, visit, count)
}

/// The same, by a look at each of these actions from the visit on.
fn is_seen_leaving<P: ProgramView>(program: &P, visit: Visit, count: u32) -> bool
    requires { visit.agent < length (P.program program.now) }
    ensures { IsTrue result ↔ (leaving (P.program program.now) visit).number ≤ count }
{
    let moves = program.moves(visit.agent);
    for finished in visit.position..count {
        let is_at_end = finished >= moves;
        if is_at_end {
            return true;
        }
        match program.step(visit.agent, finished + 1) {
            Step::Go(_) => return true,
            Step::Dwell => {}
        }
    }
    false
}
