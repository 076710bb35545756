//! What the actions of a program cost, by the lines of a text.

ghost use Rattle.std.specs.Prelude.{◌≡◌, [], ◌+◌, ◌<◌, ◌≤◌, ◌^◌, ℕ, length, replicate, get_or, IfOk, IfErr, IfSome, List};
ghost use Rattle.fleet_model.specs.declared.program.ActionId.{ActionId};
ghost use Rattle.fleet_dispatch.specs.Breaks.{named_action};
ghost use Rattle.fleet_dispatch.specs.Costs.{whose_of, cost_of, cost_line_of, is_of, cost_line_in, AreCostsOf, IsCostsFault, entry, cost_in, AreRowsOf, no_rows, noted, noted_by, lists_of, IsCostOf, with_rows};

use crate::number::long_number_of;
use crate::report::Reported;
use crate::report_text::{numbered, unnumbered};
use crate::times_fault::TimesFault;
use fleet_model::{ActionId, OutOfMemory, ProgramView};
use fleet_text::{Cursor, space_in};
use fleet_verify::{ActionCosts, MAX_COST};
use std::alloc::Global;
use std::marker::Model;

/// What a line says: what an action costs, or each action of an agent.
#[derive(Clone, Copy)]
pub struct CostLine {
    pub whose: Reported,
    pub cost: u32,
}

/// The action that a word names, or the agent.
fn whose_of(word: &[u8]) -> Option<Reported>
    ensures { result ≡ whose_of word.now }
{
    match numbered(word) {
        Some(action) => Some(action),
        None => unnumbered(word),
    }
}

/// The cost that a word spells.
fn cost_of(word: &[u8]) -> Option<u32>
    ensures { result ≡ cost_of word.now }
{
    let cost = long_number_of(word)?;
    if 1 <= cost && cost <= MAX_COST {
        Some(cost)
    } else {
        None
    }
}

/// What a line says.
fn cost_line_of(line: &[u8]) -> Option<CostLine>
    ensures { result ≡ cost_line_of line.now }
{
    let end = space_in(line)?;
    let whose = whose_of(&line[..end])?;
    let cost = cost_of(&line[end + 1..])?;
    Some(CostLine { whose, cost })
}

/// Whether the program has the action, or the agent.
fn is_of<P: ProgramView>(program: &P, whose: Reported) -> bool
    ensures { result ≡ is_of (P.program program.now) whose }
{
    if whose.agent >= u32::from(program.agents()) {
        return false;
    }
    let moves = program.moves(whose.agent as u16);
    match whose.number {
        Some(number) => 1 <= number && number <= moves,
        None => true,
    }
}

/// What a line says of the program.
#[tactic(auto, unfolding(crate::specs::Costs::cost_line_in))]
fn cost_line_in<P: ProgramView>(program: &P, line: &[u8]) -> Option<CostLine>
    ensures said { result ≡ cost_line_in (P.program program.now) line.now }
    ensures cost { IfSome result (IsCostOf (P.program program.now)) }
{
    let said = cost_line_of(line)?;
    if is_of(program, said.whose) {
        Some(said)
    } else {
        None
    }
}

/// What the actions of a program cost, in any unit: each what is said of it alone, or else of its agent, or else one.
/// It has a row for each agent, with what is said of all its actions, and then of each one; 0 if nothing is.
#[derive(Drop)]
pub struct CostTable {
    rows: Vec<Vec<u32>>,
}

impl Model for CostTable {
    ghost use Rattle.std.specs.Prelude.{List, ℕ};
    ghost use Rattle.fleet_dispatch.specs.Costs.{lists_of, AreLow};

    ghost Value = { List (List ℕ) };

    ghost view = { λ t. lists_of t.rows.items };

    ghost invariant = { λ t. AreLow (lists_of t.rows.items) };
}

impl CostTable {
    /// What is said of an action, or of all actions of an agent by the number 0.
    fn entry(&self, agent: u16, number: u32) -> u32
        ensures entry { result ≡ entry self.now agent number }
        ensures low { result ≤ MAX_COST }
    {
        let Some(row) = self.rows.get(usize::from(agent)) else {
            return 0;
        };
        match row.get(number as usize) {
            Some(cost) => *cost,
            None => 0,
        }
    }
}

impl ActionCosts for CostTable {
    ghost use Rattle.fleet_dispatch.specs.Costs.{cost_in};

    ghost cost = { cost_in };

    fn cost(&self, action: ActionId) -> u32 {
        let own = self.entry(action.agent, action.number);
        let is_said = own > 0;
        if is_said {
            return own;
        }
        self.entry(action.agent, 0).max(1)
    }
}

/// Nothing is said of an agent with so many actions.
fn first_row(alloc: Global, moves: u32) -> Result<Vec<u32>, OutOfMemory>
    ensures { IfOk result (λ row. row.items ≡ replicate (moves + 1) 0) }
{
    Ok(vec![in alloc; 0; moves as usize + 1]?)
}

/// Nothing is said of any agent.
fn first_rows<P: ProgramView>(alloc: Global, program: &P) -> Result<Vec<Vec<u32>>, OutOfMemory>
    ensures { IfOk result (λ rows. lists_of rows.items ≡ no_rows (P.program program.now)) }
{
    let agents = program.agents();
    let mut rows = Vec::with_capacity(alloc, usize::from(agents))?;
    for i in 0..agents {
        rows.push(first_row(alloc, program.moves(i))?)?;
    }
    Ok(rows)
}

/// Notes what a line says.
fn note(rows: &mut Vec<Vec<u32>>, said: CostLine)
    requires agent { said.whose.agent < length rows.old.items }
    requires number { (named_action said.whose).number
        < length (get_or (lists_of rows.old.items) said.whose.agent []) }
    ensures { lists_of rows.new.items ≡ noted (lists_of rows.old.items) said }
{
    let number = said.whose.number.unwrap_or(0) as usize;
    rows[said.whose.agent as usize][number] = said.cost;
}

/// Notes what all lines say.
fn note_lines<P: ProgramView>(
    program: &P,
    lines: &mut Cursor,
    rows: &mut Vec<Vec<u32>>,
) -> Result<(), TimesFault>
    requires few { length lines.old < 2 ^ 64 }
    requires rows { AreRowsOf (P.program program.now) (lists_of rows.old.items) }
    ensures { noted_by (P.program program.now) 0 (lists_of rows.old.items) lines.old
        ≡ with_rows result (lists_of rows.new.items) }
{
    let mut line = 0;
    while let Some(text) = lines.next_line() {
        line += 1;
        let Some(said) = cost_line_in(program, text) else {
            return Err(TimesFault::Cost { line });
        };
        note(rows, said);
    }
    Ok(())
}

/// What the actions of the program cost, by a text of lines `A X`, each action of agent A costs X, and `A:N X`, action
/// N of agent A does, one space between two words. What is said of an action goes before what is said of its agent, the
/// last line before others; an action of which nothing is said costs one. The text is read once, from the front.
///
/// Errors: `Cost` with the first line that is none of these, that names no agent or action of the program, or a cost
/// that is not 1 to `MAX_COST`; `OutOfMemory`.
pub fn costs_of<P: ProgramView>(
    alloc: Global,
    program: &P,
    text: &[u8],
) -> Result<CostTable, TimesFault>
    ensures costs { IfOk result (λ t. AreCostsOf (P.program program.now) text.now (cost_in t)) }
    ensures least { IfOk result (λ t. (a : ActionId) → 1 ≤ cost_in t a) }
    ensures fault { IfErr result (IsCostsFault (P.program program.now) text.now) }
{
    let Ok(mut rows) = first_rows(alloc, program) else {
        return Err(TimesFault::OutOfMemory);
    };
    let mut lines = Cursor::new(text);
    note_lines(program, &mut lines, &mut rows)?;
    Ok(CostTable { rows })
}
