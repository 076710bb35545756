//! What a fleet is to do, and reading it from the text of a scenario.

ghost use Rattle.std.specs.Prelude.{◌≡◌, ◌≢◌, ◌<◌, ◌+◌, ◌^◌, ℕ, List, [], true, length, All, Some, IfSome, IfNone, IfOk, IfErr, IsOkUnless, option_map, slice_get};
ghost use Rattle.fleet_model.specs.declared.task.Task.{Task};
ghost use Rattle.fleet_model.specs.Answer.{IsDueUnless};
ghost use Rattle.fleet_text.specs.Text.{Bytes, lines, words, starts_blank};
ghost use Rattle.fleet_scen.specs.ScenText.{is_filled, is_version, HasPassableEnds, IsScenText, IsFirstScenFault};
ghost use Rattle.fleet_scen.specs.ScenReading.{pair_at, numbers_at, task_at, lacks, enough_tasks, tasks_at, after_version, judge_asked, scen_at};
ghost use Rattle.fleet_scen.specs.Fields.{two_words, past_blank, ends_word, next_number, two_numbers, is_one_word, fields_of};
ghost use Rattle.fleet_scen.specs.Instance.{IsInstance};

use crate::fault::ScenFault;
use fleet_grid::Grid;
use fleet_model::{Cell, MAX_AGENTS, Task};
use fleet_text::{Cursor, is_blank, next_word, small_number_front, small_number_of};
use std::alloc::Global;
use std::collections::HashSet;
use std::marker::Model;

const VERSION: &[u8] = b"version";

const ONE: &[u8] = b"1";

const ONE_POINT_ZERO: &[u8] = b"1.0";

/// Whether the line has a word.
fn is_filled(line: &[u8]) -> bool
    ensures { result ≡ is_filled (words line.now) }
{
    next_word(line).is_some()
}

/// Whether the line is the version line.
fn is_version(line: &[u8]) -> bool
    ensures { result ≡ is_version (words line.now) }
{
    let Some((first, second, rest)) = two_words(line) else {
        return false;
    };
    next_word(rest).is_none() && first == VERSION && (second == ONE || second == ONE_POINT_ZERO)
}

/// Passes over the version line and what stands before it, and counts these lines.
#[tactic(auto, unfolding(crate::specs::ScenReading::after_version))]
fn pass_version(lines: &mut Cursor) -> Result<u64, ScenFault>
    requires { length lines.old < 2 ^ 64 }
    ensures value { IsDueUnless (λ before. (before, lines.new)) result
        (after_version 0 lines.old) ScenFault.OutOfMemory }
    ensures count { IfOk result (λ before. before + length lines.new ≡ length lines.old) }
{
    let mut before = 0;
    while let Some(line) = lines.next_line() {
        before += 1;
        if is_filled(line) {
            return if is_version(line) {
                Ok(before)
            } else {
                Err(ScenFault::Version)
            };
        }
    }
    Err(ScenFault::Version)
}

/// Two numbers, which are this field of the line and the next.
fn pair_of(
    line: u64,
    field: u8,
    first: Option<u16>,
    second: Option<u16>,
) -> Result<(u16, u16), ScenFault>
    requires { field < 255 }
    ensures { result ≡ pair_at line field first second }
{
    let Some(first) = first else {
        return Err(ScenFault::Number { line, field });
    };
    let Some(second) = second else {
        let field = field + 1;
        return Err(ScenFault::Number { line, field });
    };
    Ok((first, second))
}

/// The width, the height and the task that an agent's line gives; `number` is that of the line.
fn numbers_of(number: u64, line: &[u8]) -> Result<(u16, u16, Task), ScenFault>
    ensures { result ≡ numbers_at number (words line.now) }
{
    let Some(fields) = fields_of(line) else {
        return Err(ScenFault::Fields { line: number });
    };
    let (width, height) = pair_of(number, 3, fields.width, fields.height)?;
    let (x, y) = pair_of(number, 5, fields.start_x, fields.start_y)?;
    let start = Cell { x, y };
    let (x, y) = pair_of(number, 7, fields.goal_x, fields.goal_y)?;
    let goal = Cell { x, y };
    Ok((width, height, Task { start, goal }))
}

/// The task of an agent's line, if the line is for a map of the grid's sizes and both its cells are passable.
#[tactic(auto, unfolding(crate::specs::ScenReading::task_at))]
fn task_of(grid: &Grid, number: u64, line: &[u8]) -> Result<Task, ScenFault>
    ensures { result ≡ task_at grid.now number (words line.now) }
{
    let (width, height, task) = numbers_of(number, line)?;
    if width != grid.width() || height != grid.height() {
        return Err(ScenFault::OtherMap { line: number });
    }
    if !grid.passable(task.start) || !grid.passable(task.goal) {
        return Err(ScenFault::Blocked { line: number });
    }
    Ok(task)
}

/// Whether more agents are to be read after so many.
fn lacks(asked: Option<u16>, count: usize) -> bool
    ensures { result ≡ lacks asked count }
{
    match asked {
        None => true,
        Some(asked) => count < usize::from(asked),
    }
}

/// How many bytes most lines of an agent have at least. At first there is room for as many agents as the text would
/// have such lines.
const LINE_BYTES: usize = 32;

/// The tasks of the lines that are left, before which `before` lines stand.
fn tasks_of(
    alloc: Global,
    grid: &Grid,
    asked: Option<u16>,
    before: u64,
    lines: &mut Cursor,
) -> Result<Vec<Task>, ScenFault>
    requires { before + length lines.old < 2 ^ 64 }
    ensures { IsDueUnless (λ v. v.items) result
        (tasks_at grid.now asked before [] lines.old) ScenFault.OutOfMemory }
{
    let likely = (lines.bytes_left() / LINE_BYTES).min(MAX_AGENTS);
    let mut tasks = Vec::with_capacity(alloc, likely)?;
    let mut starts = HashSet::with_capacity(alloc, likely)?;
    let mut goals = HashSet::with_capacity(alloc, likely)?;
    let mut number = before;
    while lacks(asked, tasks.len()) {
        let Some(line) = lines.next_line() else {
            return enough_tasks(asked, tasks);
        };
        number += 1;
        if !is_filled(line) {
            continue;
        }
        let is_full = tasks.len() >= MAX_AGENTS;
        if is_full {
            return Err(ScenFault::TooMany);
        }
        let task = task_of(grid, number, line)?;
        if !starts.insert(task.start)? {
            return Err(ScenFault::SharedStart { line: number });
        }
        if !goals.insert(task.goal)? {
            return Err(ScenFault::SharedGoal { line: number });
        }
        tasks.push(task)?;
    }
    enough_tasks(asked, tasks)
}

/// The tasks, if they are enough.
fn enough_tasks(asked: Option<u16>, tasks: Vec<Task>) -> Result<Vec<Task>, ScenFault>
    ensures { IsDueUnless (λ v. v.items) result
        (enough_tasks asked tasks.items) ScenFault.OutOfMemory }
{
    match asked {
        None if tasks.is_empty() => Err(ScenFault::NoAgents),
        Some(asked) if tasks.len() < usize::from(asked) => Err(ScenFault::Fewer),
        _ => Ok(tasks),
    }
}

/// Judges how many agents are asked for.
fn judge_asked(asked: Option<u16>) -> Result<(), ScenFault>
    ensures { result ≡ judge_asked asked }
{
    match asked {
        Some(0) => Err(ScenFault::NoAgents),
        Some(asked) if usize::from(asked) > MAX_AGENTS => Err(ScenFault::TooMany),
        _ => Ok(()),
    }
}

#[tactic(auto, unfolding(crate::specs::ScenReading::scen_at))]
fn scen_of(
    alloc: Global,
    bytes: &[u8],
    grid: &Grid,
    asked: Option<u16>,
) -> Result<Vec<Task>, ScenFault>
    ensures { IsDueUnless (λ v. v.items) result
        (scen_at grid.now asked (lines bytes.now)) ScenFault.OutOfMemory }
{
    judge_asked(asked)?;
    let mut lines = Cursor::new(bytes);
    let before = pass_version(&mut lines)?;
    tasks_of(alloc, grid, asked, before, &mut lines)
}

/// The instance that a text of the MovingAI benchmark's scenario format stands for, on this map (Sturtevant 2012). With
/// `asked`, 1 to 1,024, its agents are the first so many of the text, and what follows them is not read; without it
/// they are all of the text. The text is read once, from the front, and a refusal for another cause than memory is its
/// first fault.
pub fn read_scen(
    alloc: Global,
    bytes: &[u8],
    grid: &Grid,
    asked: Option<u16>,
) -> Result<Instance, ScenFault>
    // The text stands for what is read.
    ensures found { IfOk result (λ tasks. IsScenText bytes.now grid.now asked tasks) }
    ensures cells { IfOk result (All (HasPassableEnds grid.now)) }
    // What stands for tasks is read, unless memory runs out.
    ensures read { (tasks : List Task) → IsScenText bytes.now grid.now asked tasks
        → IsOkUnless result ScenFault.OutOfMemory }
    // Which fault it is.
    ensures fault { IfErr result (λ f. f ≢ ScenFault.OutOfMemory
        → IsFirstScenFault bytes.now grid.now asked f) }
{
    let tasks = scen_of(alloc, bytes, grid, asked)?;
    Ok(Instance::new(tasks))
}

/// The fields that are read, each of which is `None` unless it is a number up to 65,535.
#[derive(Clone, Copy)]
pub struct Fields {
    pub width: Option<u16>,
    pub height: Option<u16>,
    pub start_x: Option<u16>,
    pub start_y: Option<u16>,
    pub goal_x: Option<u16>,
    pub goal_y: Option<u16>,
}

/// The first two words of a line and the line after them, if it has so many.
fn two_words(line: &[u8]) -> Option<(&[u8], &[u8], &[u8])>
    ensures { option_map (λ x. (x.0.now, x.1.now, words x.2.now)) result
        ≡ two_words (words line.now) }
{
    let (first, rest) = next_word(line)?;
    let (second, rest) = next_word(rest)?;
    Some((first, second, rest))
}

/// The line without one blank in front.
#[inline(always)]
fn past_blank(line: &[u8]) -> &[u8]
    ensures line { result.now ≡ past_blank line.now }
    ensures words { words result.now ≡ words line.now }
{
    match line {
        [first, after @ ..] if is_blank(*first) => after,
        _ => line,
    }
}

/// Whether a word ends before these bytes.
#[inline(always)]
fn ends_word(rest: &[u8]) -> bool
    ensures { result ≡ ends_word rest.now }
{
    match rest {
        [next, ..] => is_blank(*next),
        [] => true,
    }
}

/// The number that the first word of a line spells, and the line after it, if one blank at most stands before it. Its
/// end is found as it is read.
#[inline(always)]
fn number_word(line: &[u8]) -> Option<(u16, &[u8])>
    ensures some { IfSome result
        (λ x. next_number (words line.now) ≡ Some (Some x.0, words x.1.now)) }
    ensures none { IfNone result ((n : ℕ) (others : List Bytes)
        → next_number (words line.now) ≡ Some (Some n, others)
        → starts_blank (past_blank line.now) ≡ true) }
{
    let (number, rest) = small_number_front(past_blank(line))?;
    if ends_word(rest) {
        Some((number, rest))
    } else {
        None
    }
}

/// What the first word of a line spells, a number or `None`, and the line after it, if it has a word.
fn next_number(line: &[u8]) -> Option<(Option<u16>, &[u8])>
    ensures { option_map (λ x. (x.0, words x.1.now)) result ≡ next_number (words line.now) }
{
    if let Some((number, rest)) = number_word(line) {
        return Some((Some(number), rest));
    }
    let (word, rest) = next_word(line)?;
    Some((small_number_of(word), rest))
}

/// What the first two words of a line spell, each a number or `None`, and the line after them, if it has so many.
fn two_numbers(line: &[u8]) -> Option<(Option<u16>, Option<u16>, &[u8])>
    ensures { option_map (λ x. (x.0, x.1, words x.2.now)) result ≡ two_numbers (words line.now) }
{
    let (first, rest) = next_number(line)?;
    let (second, rest) = next_number(rest)?;
    Some((first, second, rest))
}

/// Whether the line has one word.
fn is_one_word(line: &[u8]) -> bool
    ensures { result ≡ is_one_word (words line.now) }
{
    match next_word(line) {
        Some((_word, rest)) => next_word(rest).is_none(),
        None => false,
    }
}

/// The fields of a line, if it has nine words.
fn fields_of(line: &[u8]) -> Option<Fields>
    ensures { result ≡ fields_of (words line.now) }
{
    let (_bucket, _name, rest) = two_words(line)?;
    let (width, height, rest) = two_numbers(rest)?;
    let (start_x, start_y, rest) = two_numbers(rest)?;
    let (goal_x, goal_y, rest) = two_numbers(rest)?;
    if !is_one_word(rest) {
        return None;
    }
    Some(Fields {
        width,
        height,
        start_x,
        start_y,
        goal_x,
        goal_y,
    })
}

// What a fleet is to do.

/// The start and the goal of each agent, 1 to 1,024 of them. No two agents share a start or a goal.
#[derive(Drop)]
pub struct Instance {
    tasks: Vec<Task>,
}

impl Model for Instance {
    ghost use Rattle.std.specs.Prelude.{List};
    ghost use Rattle.fleet_model.specs.declared.task.Task.{Task};
    ghost use Rattle.fleet_scen.specs.Instance.{IsInstance};

    ghost Value = { List Task };

    ghost view = { λ i. i.tasks.items };

    ghost invariant = { λ i. IsInstance i.tasks.items };
}

impl Instance {
    /// The instance of these tasks.
    fn new(tasks: Vec<Task>) -> Self
        requires { IsInstance tasks.items }
        ensures { result ≡ tasks.items }
    {
        Instance { tasks }
    }

    /// How many agents there are.
    pub fn agents(&self) -> u16
        ensures count { result ≡ length self.now }
        ensures instance { IsInstance self.now }
    {
        self.tasks.len() as u16
    }

    /// The cell on which agent `i`, counted from 0, begins.
    pub fn start(&self, i: u16) -> Cell
        requires { i < length self.now }
        ensures { option_map (λ t. t.start) (slice_get self.now i) ≡ Some result }
    {
        self.tasks[usize::from(i)].start
    }

    /// The cell on which agent `i`, counted from 0, is to end.
    pub fn goal(&self, i: u16) -> Cell
        requires { i < length self.now }
        ensures { option_map (λ t. t.goal) (slice_get self.now i) ≡ Some result }
    {
        self.tasks[usize::from(i)].goal
    }
}
