//! Programs as text.

ghost use Rattle.std.specs.Prelude.{◌≡◌, ◌<◌, ◌∷◌, [], length};
ghost use Rattle.fleet_model.specs.Program.{IsWellFormed, path};
ghost use Rattle.fleet_model.specs.Chain.{IsAction};
ghost use Rattle.fleet_text.specs.Sink.{IsWorking, TakesAll};
ghost use Rattle.fleet_text.specs.Row.{Gathers};
ghost use Rattle.fleet_text.specs.Words.{place_text, with_spaces, numbered_text};
ghost use Rattle.fleet_run.specs.Listing.{dir_name, step_words, agent_line, action_line, agent_text, program_text};

use fleet_model::{ActionId, Cell, Dir, Place, ProgramView, Step};
use fleet_text::{
    OutFault, PLACE, Row, TraceOut, Word, put_line, put_next_word, put_words, write_place,
};

fn dir_name(dir: Dir) -> &'static str
    ensures { result.now ≡ dir_name dir }
{
    match dir {
        Dir::North => "north",
        Dir::East => "east",
        Dir::South => "south",
        Dir::West => "west",
    }
}

/// The two words that say what a step does, before the place where it ends.
fn step_words(step: Step) -> (&'static str, &'static str)
    ensures { result.0.now ∷ result.1.now ∷ [] ≡ step_words step }
{
    match step {
        Step::Go(dir) => (dir_name(dir), "to"),
        Step::Dwell => ("stays", "at"),
    }
}

/// Adds the name of an action, and what it does.
fn put_step<O: TraceOut>(
    row: &mut Row,
    out: &mut O,
    action: ActionId,
    step: Step,
) -> Result<(), OutFault>
    requires { IsWorking (O.state out.old) }
    ensures { Gathers (O.state out.old) (O.state out.new) result row.old row.new
        (with_spaces (numbered_text action.agent action.number ∷ step_words step)) }
{
    let (first, second) = step_words(step);
    let name = Word::Of(action.agent, action.number);
    put_words(row, out, &[name, Word::Text(first), Word::Text(second)])
}

/// Adds a place, with a space before it.
fn put_place<O: TraceOut>(row: &mut Row, out: &mut O, place: Place) -> Result<(), OutFault>
    requires { IsWorking (O.state out.old) }
    ensures { Gathers (O.state out.old) (O.state out.new) result row.old row.new
        (place_text place) }
{
    let mut text = [0; PLACE];
    let at = write_place(place, &mut text, PLACE);
    row.add(out, &text[at..])
}

/// Writes the line of an action, which leads to this place. What it awaits, if anything, stands at its end: a word, and
/// one for each await.
fn put_action<P: ProgramView, O: TraceOut>(
    out: &mut O,
    program: &P,
    action: ActionId,
    place: Place,
) -> Result<(), OutFault>
    requires working { IsWorking (O.state out.old) }
    requires action { IsAction (P.program program.now) action }
    requires place { place ≡ path (P.program program.now) action.agent action.number }
    ensures { TakesAll (O.state out.old) (O.state out.new) result
        (action_line (P.program program.now) action.agent action.number) }
{
    let ActionId { agent, number } = action;
    let step = program.step(agent, number);
    let mut row = Row::new();
    put_step(&mut row, out, action, step)?;
    put_place(&mut row, out, place)?;
    let awaits = program.await_count(agent, number);
    let has_none = awaits == 0;
    if has_none {
        return row.end_line(out);
    }
    put_next_word(&mut row, out, Word::Text("after"))?;
    for k in 0..awaits {
        let one = program.await_at(agent, number, k);
        row.add_next_two(out, one.agent, b':', one.count)?;
    }
    row.end_line(out)
}

/// Writes the line of agent `i`.
#[tactic(auto, unfolding(crate::specs::Listing::agent_line))]
fn put_agent_line<O: TraceOut>(out: &mut O, i: u16, start: Cell, goal: Cell) -> Result<(), OutFault>
    requires { IsWorking (O.state out.old) }
    ensures { TakesAll (O.state out.old) (O.state out.new) result (agent_line i start goal) }
{
    let from = Word::Pair(start.x, start.y);
    let to = Word::Pair(goal.x, goal.y);
    let label = Word::Label(i as u64);
    put_line(
        out,
        &[Word::Text("agent"), label, from, Word::Text("to"), to],
    )
}

/// Writes the line of agent `i`, and those of its actions.
fn put_agent<P: ProgramView, O: TraceOut>(out: &mut O, program: &P, i: u16) -> Result<(), OutFault>
    requires working { IsWorking (O.state out.old) }
    requires well_formed { IsWellFormed (P.program program.now) }
    requires agent { i < length (P.program program.now) }
    ensures { TakesAll (O.state out.old) (O.state out.new) result
        (agent_text (P.program program.now) i) }
{
    let start = program.start(i);
    put_agent_line(out, i, start, program.goal(i))?;
    let mut place = Place::from(start);
    for n in 0..program.moves(i) {
        let action = ActionId {
            agent: i,
            number: n + 1,
        };
        place = place.after(program.step(i, action.number));
        put_action(out, program, action, place)?;
    }
    Ok(())
}

/// Writes any program as text: for each agent a line with its start and its goal, `agent i: x,y to x,y`, and after it
/// one for each of its actions in order, `i:n east to x,y` or `i:n stays at x,y`. There `x,y` is the place of the agent
/// after the action, which may lie off any map. The line of an action that awaits others ends with ` after j:m ..`, a
/// word for each await: action `m` of agent `j` has to be finished before. Agents count from 0, actions from 1. It
/// takes no memory.
///
/// Errors: `OutFault` if the sink fails; it has then taken a proper prefix of the text.
pub fn put_program<P: ProgramView, O: TraceOut>(out: &mut O, program: &P) -> Result<(), OutFault>
    requires { IsWorking (O.state out.old) }
    ensures { TakesAll (O.state out.old) (O.state out.new) result
        (program_text (P.program program.now)) }
{
    for i in 0..program.agents() {
        put_agent(out, program, i)?;
    }
    Ok(())
}
