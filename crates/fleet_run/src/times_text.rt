//! Times as text.

ghost use Rattle.fleet_text.specs.Sink.{IsWorking, TakesAll};
ghost use Rattle.fleet_run.specs.TimesText.{agent_lines, path_line, times_text, reached_text};
ghost use Rattle.fleet_verify.specs.Stretch.{path_actions};

use fleet_text::{OutFault, Row, TraceOut, Word, put_count, put_line, put_words};
use fleet_verify::{Stretch, put_stretches};

/// Writes for each agent the line of its arrival.
fn put_arrivals<O: TraceOut>(out: &mut O, arrivals: &[u64]) -> Result<(), OutFault>
    requires { IsWorking (O.state out.old) }
    ensures { TakesAll (O.state out.old) (O.state out.new) result (agent_lines arrivals.now) }
{
    for (i, arrival) in arrivals.iter().enumerate() {
        put_line(out, &[Word::Label(i as u64), Word::Number(*arrival)])?;
    }
    Ok(())
}

/// Writes for each agent the line of the last action that it reaches.
fn put_counts<O: TraceOut>(out: &mut O, counts: &[u32]) -> Result<(), OutFault>
    requires { IsWorking (O.state out.old) }
    ensures { TakesAll (O.state out.old) (O.state out.new) result (agent_lines counts.now) }
{
    for (i, count) in counts.iter().enumerate() {
        let number = Word::Number(u64::from(*count));
        put_line(out, &[Word::Label(i as u64), number])?;
    }
    Ok(())
}

/// Writes the line of a path.
fn put_path<O: TraceOut>(out: &mut O, path: &[Stretch]) -> Result<(), OutFault>
    requires { IsWorking (O.state out.old) }
    ensures { TakesAll (O.state out.old) (O.state out.new) result (path_line (path_actions path.now)) }
{
    let mut row = Row::new();
    put_words(&mut row, out, &[Word::Text("path")])?;
    put_stretches(&mut row, out, path)?;
    row.end_line(out)
}

/// Writes when each agent arrives, in a line `i: T`, and then how many agents there are and how many actions they have
/// together, when the last one arrives, and a chain of actions that takes so long, each as `i:n`. It takes no memory.
///
/// Errors: `OutFault` if the sink fails; it has then taken a proper prefix of the text.
pub fn put_times<O: TraceOut>(
    out: &mut O,
    arrivals: &[u64],
    moves: u32,
    last: u64,
    path: &[Stretch],
) -> Result<(), OutFault>
    requires { IsWorking (O.state out.old) }
    ensures { TakesAll (O.state out.old) (O.state out.new) result
        (times_text arrivals.now moves last (path_actions path.now)) }
{
    put_arrivals(out, arrivals)?;
    put_count(out, "agents", arrivals.len() as u64)?;
    put_count(out, "moves", u64::from(moves))?;
    put_count(out, "arrival", last)?;
    put_path(out, path)
}

/// Writes for each agent the number of the last action that it reaches, in a line `i: N`, and then how many agents
/// there are, how many actions they have together, and how many of them do not arrive. It takes no memory.
///
/// Errors: `OutFault` if the sink fails; it has then taken a proper prefix of the text.
pub fn put_reached<O: TraceOut>(
    out: &mut O,
    counts: &[u32],
    moves: u32,
    stopped: u16,
) -> Result<(), OutFault>
    requires { IsWorking (O.state out.old) }
    ensures { TakesAll (O.state out.old) (O.state out.new) result
        (reached_text counts.now moves stopped) }
{
    put_counts(out, counts)?;
    put_count(out, "agents", counts.len() as u64)?;
    put_count(out, "moves", u64::from(moves))?;
    put_count(out, "stopped", u64::from(stopped))
}
