//! Actions of one agent that follow one another, and a row of such stretches as text.

ghost use Rattle.std.specs.Prelude.{◌≡◌, map};
ghost use Rattle.fleet_text.specs.Sink.{IsWorking};
ghost use Rattle.fleet_text.specs.Row.{Gathers};
ghost use Rattle.fleet_text.specs.Words.{next_words};
ghost use Rattle.fleet_verify.specs.RefusalWords.{action_text};
ghost use Rattle.fleet_verify.specs.Stretch.{first_of, path_actions};

use fleet_model::ActionId;
use fleet_text::{OutFault, Row, TraceOut, put_numbered};

/// So many actions of one agent, from this number on.
#[derive(Clone, Copy, Debug)]
pub struct Stretch {
    pub agent: u16,
    pub count: u16,
    pub first: u32,
}

impl Stretch {
    /// The first one of its actions.
    pub(crate) fn first_action(self) -> ActionId
        ensures { result ≡ first_of self }
    {
        ActionId {
            agent: self.agent,
            number: self.first,
        }
    }
}

// A path may have millions of actions, each a stretch of its own.
const _: () = prove!(size_of::<Stretch>() == 8);

/// Adds a space and a word `i:n` for each action of the stretches to the row.
pub fn put_stretches<O: TraceOut>(
    row: &mut Row,
    out: &mut O,
    stretches: &[Stretch],
) -> Result<(), OutFault>
    requires { IsWorking (O.state out.old) }
    ensures { Gathers (O.state out.old) (O.state out.new) result row.old row.new
        (next_words (map action_text (path_actions stretches.now))) }
{
    for stretch in stretches {
        put_numbered(row, out, stretch.agent, stretch.first, stretch.count)?;
    }
    Ok(())
}
