//! What a line says: a report, or the question where the agents are.

ghost use Rattle.std.specs.Prelude.{◌≡◌, [], position, MatchBool, Some, None, option_map};
ghost use Rattle.std.specs.List.{slice_split};
ghost use Rattle.fleet_text.specs.Text.{is_space};
ghost use Rattle.fleet_dispatch.specs.ReportText.{is_colon, word_of, words_of, report_of, is_question, line_of, heard_line};

use crate::form::ReportForm;
use crate::number::long_number_of;
use crate::report::{Report, Reported};
use fleet_model::MAX_AGENTS;
use fleet_text::{cut, is_dash};

/// What a line says that is heard.
#[derive(Clone, Copy)]
pub enum LineKind {
    /// A report.
    Report,
    /// The question where the agents are.
    Question,
}

/// Where the first colon is.
pub fn colon_in(word: &[u8]) -> Option<usize>
    ensures { result ≡ position is_colon word.now }
{
    word.iter().position(|b| *b == b':')
}

/// What a word says that names an agent and the number of its action.
pub fn numbered(word: &[u8]) -> Option<Reported>
    ensures { result ≡ word_of ReportForm.Numbered word.now }
{
    let end = colon_in(word)?;
    let agent = long_number_of(&word[..end])?;
    let number = long_number_of(&word[end + 1..])?;
    Some(Reported {
        agent,
        number: Some(number),
    })
}

/// What a word says that names an agent alone.
pub fn unnumbered(word: &[u8]) -> Option<Reported>
    ensures { result ≡ word_of ReportForm.Unnumbered word.now }
{
    let agent = long_number_of(word)?;
    Some(Reported {
        agent,
        number: None,
    })
}

/// What a word says.
fn word_of(form: ReportForm, word: &[u8]) -> Option<Reported>
    ensures { result ≡ word_of form word.now }
{
    match form {
        ReportForm::Numbered => numbered(word),
        ReportForm::Unnumbered => unnumbered(word),
    }
}

/// Adds what the words between the line's spaces say to the report, which is empty. Answers whether they say it in
/// strictly rising order of agent, and are not too many.
fn add_words(form: ReportForm, line: &[u8], report: &mut Report) -> bool
    requires { report.old ≡ [] }
    ensures { MatchBool result
        (words_of form 0 MAX_AGENTS (slice_split is_space line.now) ≡ Some report.new)
        (words_of form 0 MAX_AGENTS (slice_split is_space line.now) ≡ None) }
{
    let mut rest = line;
    'words: loop {
        let (word, after) = cut(rest);
        let Some(reported) = word_of(form, word) else {
            return false;
        };
        if !report.add(reported) {
            return false;
        }
        let Some(after) = after else {
            return true;
        };
        rest = after;
    }
}

/// Makes the report the one that the line stands for. Answers whether the line stands for one; if it does not, the
/// report may be any.
pub fn read_report(form: ReportForm, line: &[u8], report: &mut Report) -> bool
    ensures { MatchBool result
        (report_of form line.now ≡ Some report.new) (report_of form line.now ≡ None) }
{
    report.clear();
    is_dash(line) || add_words(form, line, report)
}

/// Whether it is the line of the question where the agents are.
fn is_question(line: &[u8]) -> bool
    ensures { result ≡ is_question line.now }
{
    matches!(line, [b'?'])
}

/// What the line says, if it is a report or the question. Makes the report the one that the line stands for; if it
/// stands for none, the report may be any.
pub fn read_line(form: ReportForm, line: &[u8], report: &mut Report) -> Option<LineKind>
    ensures { line_of form line.now ≡ option_map (λ heard. heard_line heard report.new) result }
{
    if is_question(line) {
        return Some(LineKind::Question);
    }
    if read_report(form, line, report) {
        Some(LineKind::Report)
    } else {
        None
    }
}
