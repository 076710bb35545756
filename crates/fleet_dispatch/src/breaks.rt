//! In which actions robots break down, by a line of words.

ghost use Rattle.std.specs.Prelude.{◌≡◌, ◌↔◌, length, IfOk, IfErr, IsTrue, MatchBool};
ghost use Rattle.fleet_model.specs.Chain.{IsAction};
ghost use Rattle.fleet_dispatch.specs.Breaks.{NameActions, breaks_from, AreBreaksOf, IsBreaksFault};

use crate::form::ReportForm;
use crate::report::{Report, Reported};
use crate::report_text::read_report;
use crate::times_fault::TimesFault;
use fleet_model::ProgramView;
use std::alloc::Global;

/// Whether this is an action of the program.
fn is_action<P: ProgramView>(program: &P, agent: u32, number: u32) -> bool
    ensures { IsTrue result
        ↔ IsAction (P.program program.now) (record { agent = agent; number = number }) }
{
    if agent >= u32::from(program.agents()) {
        return false;
    }
    let moves = program.moves(agent as u16);
    1 <= number && number <= moves
}

/// Notes for the agent of each word the action that it names. Answers whether all of them are actions of the program;
/// if not, some may be noted.
fn note_breaks<P: ProgramView>(program: &P, words: &[Reported], breaks: &mut Vec<u32>) -> bool
    requires { length breaks.old.items ≡ length (P.program program.now) }
    ensures { MatchBool result
        (NameActions (P.program program.now) words.now
        × (breaks.new.items ≡ breaks_from breaks.old.items words.now))
        (NameActions (P.program program.now) words.now → ⊥) }
{
    for word in words {
        let Reported { agent, number } = *word;
        let number = number.unwrap_or(0);
        if !is_action(program, agent, number) {
            return false;
        }
        breaks[agent as usize] = number;
    }
    true
}

/// For each agent the action in which it breaks down, or 0, by a line that names these actions as words `A:N`, in
/// strictly rising order of agent and with one space between two; `-` names none.
///
/// Errors: `Broken` if it is no such line of actions of the program; `OutOfMemory`.
pub fn breaks_of<P: ProgramView>(
    alloc: Global,
    program: &P,
    line: &[u8],
) -> Result<Vec<u32>, TimesFault>
    ensures named { IfOk result (λ breaks. AreBreaksOf
        (P.program program.now) line.now breaks.items) }
    ensures fault { IfErr result (IsBreaksFault (P.program program.now) line.now) }
{
    let Ok(mut report) = Report::new(alloc) else {
        return Err(TimesFault::OutOfMemory);
    };
    if !read_report(ReportForm::Numbered, line, &mut report) {
        return Err(TimesFault::Broken);
    }
    let agents = usize::from(program.agents());
    let Ok(mut breaks) = vec![in alloc; 0; agents] else {
        return Err(TimesFault::OutOfMemory);
    };
    if note_breaks(program, report.words(), &mut breaks) {
        Ok(breaks)
    } else {
        Err(TimesFault::Broken)
    }
}
