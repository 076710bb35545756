//! Questions for chains, answered agent by agent, by the rows of a block.

ghost use Rattle.std.specs.Prelude.{◌≡◌, ◌≢◌, ◌+◌, ◌<◌, length, slice_index, All, IfOk};
ghost use Rattle.fleet_needs.specs.{Asked.AreAnswersIn, Asked.AreAskedFor, Asked.IsQuestion, Schedule.AreOfProgram, JoinPass.AreOfSame, JoinPass.IsBegun, Answering.AreAnsweredFrom, Answering.IsAnswering, Answering.IsRowAt, Answering.AreListedFor, Answering.questions_in, Counts.made_row, Joins.AreStanding, Joins.rows_of};

use crate::counts::Counts;
use crate::join_pass::SlotRows;
use crate::level_order::OrderSource;
use crate::schedule::{Joins, Standing};
use fleet_model::{ActionId, OutOfMemory, ProgramView};
use std::alloc::Global;

/// The question whether a chain of needs begins with the first action and ends with the last. The first may be beyond
/// the last action of its agent: then none does.
#[derive(Clone, Copy)]
pub struct Question {
    pub first: ActionId,
    pub last: ActionId,
}

/// For each question, in their order, whether no chain of needs begins with its first action and ends with its last.
/// The order of the actions is made only if there is a question. Rows are kept as long as some action takes them.
pub fn answer_questions<P: ProgramView, S: OrderSource + Drop>(
    alloc: Global,
    program: &P,
    source: S,
    questions: &[Question],
) -> Result<Vec<bool>, OutOfMemory>
    requires source { S.gives (P.program program.now) source }
    requires questions { All (IsQuestion (P.program program.now)) questions.now }
    ensures { IfOk result (AreAnswersIn (P.program program.now) questions.now) }
{
    if questions.is_empty() {
        return Ok(Vec::new(alloc));
    }
    let order = source.order(alloc, program)?;
    let (joins, standing) = Joins::of(alloc, program, order, &[])?;
    let answering = Answering::of(alloc, program, &joins, &standing, questions)?;
    drop(standing);
    let asked = first_agents(alloc, program, questions)?;
    let rows = SlotRows::of(alloc, program, joins, asked)?;
    answer_all(alloc, program, rows, answering)
}

/// For each agent of the program whether its columns are asked for: those of the questions' first actions are.
fn first_agents<P: ProgramView>(
    alloc: Global,
    program: &P,
    questions: &[Question],
) -> Result<Vec<bool>, OutOfMemory>
    requires { All (IsQuestion (P.program program.now)) questions.now }
    ensures { IfOk result (AreAskedFor (P.program program.now) questions.now) }
{
    let agents = usize::from(program.agents());
    let mut asked = vec![in alloc; false; agents]?;
    for k in 0..questions.len() {
        let agent = usize::from(questions[k].first.agent);
        asked[agent] = true;
    }
    Ok(asked)
}

/// The answers to the questions, block by block.
fn answer_all<P: ProgramView>(
    alloc: Global,
    program: &P,
    rows: SlotRows,
    answering: Answering<'_>,
) -> Result<Vec<bool>, OutOfMemory>
    requires rows { AreOfProgram (P.program program.now) rows }
    requires answers { AreAnsweredFrom (P.program program.now) rows rows.columns.end answering }
    ensures { IfOk result (AreAnswersIn (P.program program.now) (questions_in answering.entry)) }
{
    let mut answering = answering;
    let mut rows = rows;
    while rows.next_block(alloc, program)? {
        answer_block(program, &mut rows, &mut answering);
    }
    Ok(answering.flags)
}

/// Answers the questions whose first agents have a column in a block, row by row.
fn answer_block<P: ProgramView>(program: &P, rows: &mut SlotRows, answering: &mut Answering<'_>)
    requires begun { IsBegun (P.program program.now) rows.old }
    requires answers { AreAnsweredFrom
        (P.program program.now) rows.old rows.old.columns.first answering.old }
    ensures same { AreOfSame rows.old rows.new }
    ensures answers { AreAnsweredFrom
        (P.program program.now) rows.new rows.new.columns.end answering.new }
    ensures questions { questions_in answering.new ≡ questions_in answering.old }
{
    answering.next = 0;
    answering.answer_row(program, rows, 0);
    for n in 0..rows.schedule.rows() {
        rows.join_others(program, n);
        rows.finish_row(program, n);
        answering.answer_row(program, rows, n + 1);
    }
}

/// A question by its place among all, and the row that stands for its last action.
#[derive(Clone, Copy)]
pub(crate) struct RowQuestion {
    row: u32,
    place: u32,
}

/// Questions in the order of their rows, and a flag for each by its place.
#[derive(Drop)]
pub(crate) struct Answering<'a> {
    questions: &'a [Question],
    rows: Vec<RowQuestion>,
    flags: Vec<bool>,
    /// How many of them have come in this block.
    next: usize,
}

impl<'a> Answering<'a> {
    /// The questions by their rows, none of which is answered.
    pub(crate) fn of<P: ProgramView>(
        alloc: Global,
        program: &P,
        joins: &Joins,
        standing: &Standing,
        questions: &'a [Question],
    ) -> Result<Answering<'a>, OutOfMemory>
        requires standing { AreStanding (P.program program.now) (rows_of joins.now) standing.now }
        requires questions { All (IsQuestion (P.program program.now)) questions.now }
        ensures { IfOk result (AreListedFor
            (P.program program.now) (rows_of joins.now) questions.now) }
    {
        // Of the rows the contract alone speaks.
        let _ = joins;
        let count = questions.len();
        if count > u32::MAX as usize {
            return Err(OutOfMemory);
        }
        let mut rows = vec![in alloc; RowQuestion { row: 0, place: 0 }; count]?;
        for k in 0..count {
            let row = standing.row_of(program, questions[k].last);
            let place = k as u32;
            rows[k] = RowQuestion { row, place };
        }
        rows.sort_unstable_by_key(|question| question.row);
        Ok(Answering {
            questions,
            rows,
            flags: vec![in alloc; false; count]?,
            next: 0,
        })
    }

    /// Answers the questions of the row with this number, which is the one that is made.
    fn answer_row<P: ProgramView>(&mut self, program: &P, rows: &SlotRows, number: usize)
        requires row { IsRowAt (P.program program.now) rows.now number }
        requires answers { IsAnswering (P.program program.now) rows.now number self.old }
        ensures answers { IsAnswering (P.program program.now) rows.now (number + 1) self.new }
        ensures same { questions_in self.new ≡ questions_in self.old }
    {
        // Of the program the contract alone speaks.
        let _ = program;
        while self.next < self.rows.len() && self.rows[self.next].row as usize == number {
            let place = self.rows[self.next].place as usize;
            let question = self.questions[place];
            if let Some(k) = rows.columns.of(question.first.agent) {
                let count = count_for(&rows.counts, usize::from(k), question);
                self.flags[place] = count < question.first.number;
            }
            self.next += 1;
        }
    }
}

/// The count of the question's first agent: that of its column, or its own last action.
fn count_for(counts: &Counts, k: usize, question: Question) -> u32
    requires { k < length (made_row counts.now) }
    ensures own { question.first.agent ≡ question.last.agent → result ≡ question.last.number }
    ensures other { question.first.agent ≢ question.last.agent
        → result ≡ slice_index (made_row counts.now) k }
{
    if question.first.agent == question.last.agent {
        return question.last.number;
    }
    counts.get(k)
}
