//! Whether chains of needs order all open pairs of a program whose levels are known: yes, or what was answered, so that
//! it need not be asked again.

ghost use Rattle.std.specs.Prelude.{◌≡◌, ◌<◌, ◌≤◌, ◌↔◌, ℕ, false, IsTrue, All, IfOk, IfNone, IfSome, get_or, length};
ghost use Rattle.fleet_model.specs.{Program.AreInRange, Chain.IsAction, Chain.Reaches, Chain.awaited};
ghost use Rattle.fleet_needs.specs.Asked.{AreAnswers};
ghost use Rattle.fleet_verify.specs.LevelOrder.{AreAllLevels};
ghost use Rattle.fleet_verify.specs.LevelRows.{HasLevels};
ghost use Rattle.fleet_verify.specs.OpenPairs.{AreVisits, IsChained};
ghost use Rattle.fleet_verify.specs.Chained.{key_of, IsAskedOf, AreAsked, BeginsLate, BeginsLater, EnterApart, IsFoundByAsking, IsFoundOfPairs};

use crate::level_row::{AllLevels, LevelRow, row_of};
use crate::order::{OpenPair, leaving};
use fleet_model::{ActionId, Await, OutOfMemory, ProgramView, Visit};
use fleet_needs::{OrderSource, Question, answer_questions};
use indexmap::IndexMap;
use std::alloc::Global;

/// An action's number has 32 bits, so it is below this.
const NUMBERS: u64 = 4_294_967_296;

/// One number for an action.
fn key(action: ActionId) -> u64
    ensures key { result ≡ key_of action }
    ensures number { action.number < NUMBERS }
{
    u64::from(action.agent) * NUMBERS + u64::from(action.number)
}

/// Questions for chains, and a flag for each: whether no chain of needs begins with its first action and ends with its
/// last.
#[derive(Drop)]
pub struct Answers {
    questions: Vec<Question>,
    pub flags: Vec<bool>,
}

impl Answers {
    ghost use Rattle.std.specs.Prelude.{◌≡◌, ◌<◌, ℕ, [], length, slice_get, nat_eq, All, Some, IfOk, IfSome, IfNone};
    ghost use Rattle.indexmap.specs.IndexMap.{get};
    ghost use Rattle.fleet_model.specs.Program.{Program, AreInRange};
    ghost use Rattle.fleet_needs.specs.Asked.{AreAnswers, IsQuestion};
    ghost use Rattle.fleet_verify.specs.Chained.{EndApart, IsFlagOf, ArePlaced, AreAmong, key_of};

    /// Nothing was asked. Takes no memory.
    pub fn none(alloc: Global) -> Answers
        ensures questions { result.questions.items ≡ [] }
        ensures flags { result.flags.items ≡ [] }
    {
        Answers {
            questions: Vec::new(alloc),
            flags: Vec::new(alloc),
        }
    }

    /// The answers to these questions.
    pub fn to<P: ProgramView, S: OrderSource + Drop>(
        alloc: Global,
        program: &P,
        source: S,
        questions: Vec<Question>,
    ) -> Result<Answers, OutOfMemory>
        requires range { AreInRange (P.program program.now) }
        requires source { S.gives (P.program program.now) source }
        requires questions { All (IsQuestion (P.program program.now)) questions.items }
        ensures questions { IfOk result (λ a. a.questions.items ≡ questions.items) }
        ensures answers { IfOk result (λ a.
            AreAnswers (P.program program.now) a.questions.items a.flags.items) }
    {
        let flags = answer_questions(alloc, program, source, &questions)?;
        Ok(Answers { questions, flags })
    }

    /// The flags of these questions, if each of them was asked.
    pub fn flags_of(
        &self,
        alloc: Global,
        questions: &[Question],
    ) -> Result<Option<Vec<bool>>, OutOfMemory>
        ensures some { IfOk result (λ found. IfSome found (λ flags. (p : Program)
            → AreAnswers p self.now.questions.items self.now.flags.items
            → AreAnswers p questions.now flags.items)) }
        ensures none { IfOk result (λ found. IfNone found (EndApart self.now.questions.items
            → length self.now.flags.items ≡ length self.now.questions.items
            → AreAmong self.now.questions.items questions.now → ⊥)) }
    {
        let places = self.places(alloc)?;
        self.flags_by(alloc, &places, questions)
    }

    /// The same, by the places of the questions that were asked.
    fn flags_by(
        &self,
        alloc: Global,
        places: &IndexMap<u64, usize>,
        questions: &[Question],
    ) -> Result<Option<Vec<bool>>, OutOfMemory>
        requires { ArePlaced self.now.questions.items (get nat_eq places.now) }
        ensures some { IfOk result (λ found. IfSome found (λ flags. (p : Program)
            → AreAnswers p self.now.questions.items self.now.flags.items
            → AreAnswers p questions.now flags.items)) }
        ensures none { IfOk result (λ found. IfNone found (EndApart self.now.questions.items
            → length self.now.flags.items ≡ length self.now.questions.items
            → AreAmong self.now.questions.items questions.now → ⊥)) }
    {
        let mut flags = Vec::with_capacity(alloc, questions.len())?;
        for k in 0..questions.len() {
            let Some(flag) = self.flag_of(places, questions[k]) else {
                return Ok(None);
            };
            flags.push(flag)?;
        }
        Ok(Some(flags))
    }

    /// The places of the questions, by their last actions. Of questions with one last action it is that of the last
    /// one.
    fn places(&self, alloc: Global) -> Result<IndexMap<u64, usize>, OutOfMemory>
        ensures { IfOk result (λ places.
            ArePlaced self.now.questions.items (get nat_eq places)) }
    {
        let mut places = IndexMap::new(alloc);
        for k in 0..self.questions.len() {
            places.insert(key(self.questions[k].last), k)?;
        }
        Ok(places)
    }

    /// The flag of a question, if it stands at the place of its last action.
    fn flag_of(&self, places: &IndexMap<u64, usize>, question: Question) -> Option<bool>
        ensures some { IfSome result (IsFlagOf self.now question) }
        ensures none { IfNone result ((k : ℕ) → k < length self.now.flags.items
            → get nat_eq places.now (key_of question.last) ≡ Some k
            → slice_get self.now.questions.items k ≡ Some question → ⊥) }
    {
        let k = *places.get(&key(question.last))?;
        if k >= self.questions.len() || k >= self.flags.len() {
            return None;
        }
        let Question { first, last } = self.questions[k];
        if first != question.first || last != question.last {
            return None;
        }
        Some(self.flags[k])
    }
}

/// Of an action with more awaits none is looked at.
const FEW: u16 = 8;

/// Whether in each of the open pairs the action that enters the second visit awaits one that awaits that the first is
/// left, as far as a look at few awaits shows it. It ends at the first pair of which that does not, so where chains are
/// longer it costs next to nothing. Takes no memory.
pub fn are_near<P: ProgramView>(program: &P, pairs: &Vec<OpenPair>) -> bool
    requires range { AreInRange (P.program program.now) }
    requires visits { All (AreVisits (P.program program.now)) pairs.now.items }
    ensures { IsTrue result → All (IsChained (P.program program.now)) pairs.now.items }
{
    for k in 0..pairs.len() {
        if !is_near(program, pair_at(pairs, k)) {
            return false;
        }
    }
    true
}

/// Whether the action that enters the second visit of an open pair awaits one that awaits that the first visit is left.
/// Otherwise, and where awaits are many, it says no.
fn is_near<P: ProgramView>(program: &P, pair: OpenPair) -> bool
    requires range { AreInRange (P.program program.now) }
    requires visits { AreVisits (P.program program.now) pair }
    ensures { IsTrue result → IsChained (P.program program.now) pair }
{
    let OpenPair { first, second, .. } = pair;
    let is_start = second.position == 0;
    if is_start {
        return false;
    }
    let count = program.await_count(second.agent, second.position);
    if count > FEW {
        return false;
    }
    let first = leaving(program, first);
    for k in 0..count {
        let awaited = program.await_at(second.agent, second.position, k);
        if awaits(program, awaited, first) {
            return true;
        }
    }
    false
}

/// Whether the action that is waited for awaits this one, or a later one of its agent. Where its awaits are many it
/// says no.
fn awaits<P: ProgramView>(program: &P, wait: Await, first: ActionId) -> bool
    requires range { AreInRange (P.program program.now) }
    requires action { IsAction (P.program program.now) (awaited wait) }
    requires first { 1 ≤ first.number }
    ensures { IsTrue result → Reaches (P.program program.now) first (awaited wait) }
{
    let count = program.await_count(wait.agent, wait.count);
    if count > FEW {
        return false;
    }
    for k in 0..count {
        let needed = program.await_at(wait.agent, wait.count, k);
        let is_of_agent = needed.agent == first.agent;
        let is_late = first.number <= needed.count;
        if is_of_agent && is_late {
            return true;
        }
    }
    false
}

/// Nothing if a chain orders each of the open pairs of a program whose levels these are. Else what was answered: all is
/// asked, unless some pair is surely without a chain.
pub fn unless_chained<P: ProgramView>(
    alloc: Global,
    program: &P,
    levels: AllLevels,
    pairs: Vec<OpenPair>,
) -> Result<Option<Answers>, OutOfMemory>
    requires levels { AreAllLevels (P.program program.now) levels }
    requires visits { All (AreVisits (P.program program.now)) pairs.items }
    requires apart { EnterApart pairs.items }
    ensures { IfOk result
        (IsFoundOfPairs (P.program program.now) levels.rows.items pairs.items) }
{
    match ask_all(alloc, program, &levels.rows, &pairs)? {
        Some(questions) => answer_asked(alloc, program, levels, pairs, questions),
        None => Ok(Some(Answers::none(alloc))),
    }
}

/// Nothing if a chain orders each of the open pairs that were asked for, else what was answered. What is asked takes
/// memory, so all else is given back before, and the levels once the order is made of them.
fn answer_asked<P: ProgramView>(
    alloc: Global,
    program: &P,
    levels: AllLevels,
    pairs: Vec<OpenPair>,
    questions: Vec<Question>,
) -> Result<Option<Answers>, OutOfMemory>
    requires levels { AreAllLevels (P.program program.now) levels }
    requires asked { AreAsked (P.program program.now) pairs.items questions.items }
    ensures { IfOk result
        (IsFoundByAsking (P.program program.now) pairs.items questions.items) }
{
    let_go(pairs);
    let answers = Answers::to(alloc, program, levels, questions)?;
    if is_none(&answers.flags) {
        return Ok(None);
    }
    Ok(Some(answers))
}

/// Gives the memory of the list back, all but that of one item before the list ends: an allocator that gets much back
/// at once may keep as much for itself from then on.
fn let_go<T: Drop>(list: Vec<T>) {
    let mut list = list;
    list.truncate(1);
    list.shrink_to_fit();
}

/// Whether nothing is flagged.
fn is_none(flags: &Vec<bool>) -> bool
    ensures { IsTrue result ↔ ((k : ℕ) → k < length flags.now.items
        → get_or flags.now.items k false ≡ false) }
{
    for k in 0..flags.len() {
        let is_flagged = flags[k];
        if is_flagged {
            return false;
        }
    }
    true
}

/// The question for each open pair, unless one is for a start or surely without a chain.
fn ask_all<P: ProgramView>(
    alloc: Global,
    program: &P,
    rows: &Vec<LevelRow>,
    pairs: &Vec<OpenPair>,
) -> Result<Option<Vec<Question>>, OutOfMemory>
    requires levels { HasLevels (P.program program.now) rows.now.items }
    requires visits { All (AreVisits (P.program program.now)) pairs.now.items }
    ensures asked { IfOk result (λ found. IfSome found (λ asked.
        AreAsked (P.program program.now) pairs.now.items asked.items)) }
    ensures none { IfOk result (λ found. IfNone found
        (¬ All (BeginsLater rows.now.items) pairs.now.items)) }
{
    let mut asked = Vec::with_capacity(alloc, pairs.len())?;
    for k in 0..pairs.len() {
        let Some(question) = ask(program, rows, pair_at(pairs, k)) else {
            return Ok(None);
        };
        asked.push(question)?;
    }
    Ok(Some(asked))
}

/// The pair with this number.
fn pair_at(pairs: &Vec<OpenPair>, k: usize) -> OpenPair
    requires { k < length pairs.now.items }
    ensures { (o : OpenPair) → get_or pairs.now.items k o ≡ result }
{
    pairs[k]
}

/// The question for an open pair, unless its second visit is a start, or begins no later than the first: no chain leads
/// on to such a one.
#[tactic(auto, using(crate::proofs::Asked::asked_of))]
fn ask<P: ProgramView>(program: &P, rows: &Vec<LevelRow>, pair: OpenPair) -> Option<Question>
    requires levels { HasLevels (P.program program.now) rows.now.items }
    requires visits { AreVisits (P.program program.now) pair }
    ensures asked { IfSome result (IsAskedOf (P.program program.now) pair) }
    ensures none { IfNone result (¬ BeginsLater rows.now.items pair) }
{
    let OpenPair { first, second, .. } = pair;
    if second.position == 0 {
        return None;
    }
    let level = row_of(rows, second.agent).level(second.position)?;
    if begins_late(rows, first, level) {
        return None;
    }
    let first = leaving(program, first);
    let last = ActionId {
        agent: second.agent,
        number: second.position,
    };
    Some(Question { first, last })
}

/// Whether the visit does not begin at a level below this one.
fn begins_late(rows: &Vec<LevelRow>, visit: Visit, level: u64) -> bool
    requires { visit.agent < length rows.now.items }
    ensures { IsTrue result ↔ BeginsLate rows.now.items visit level }
{
    if visit.position == 0 {
        return false;
    }
    match row_of(rows, visit.agent).level(visit.position) {
        Some(begun) => begun >= level,
        None => true,
    }
}
