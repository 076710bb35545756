//! Sources of holds, and the one that reads a text.

ghost use Rattle.std.specs.Prelude.{◌≡◌, ℕ, ◌<◌, [], List, ◌↔◌, MatchBool, None, Some};
ghost use Rattle.fleet_run.specs.Source.{HasNotFailed, CanBeAsked, GivesTick, AsksTick, AreFlagsOf};
ghost use Rattle.std.specs.List.{slice_split};
ghost use Rattle.fleet_text.specs.Text.{lines, is_space};
ghost use Rattle.fleet_run.specs.HoldText.{agents_of, tick_of, IsTickLine};

use fleet_text::{cut, is_dash, next_line, plain_number_of};
use std::marker::Model;
use thiserror::Error;

/// How a source failed: it broke off, or the line that was asked for is no tick's.
#[derive(Clone, Copy, Debug, PartialEq, Eq, Error)]
pub enum SourceFault {
    #[error("the holds broke off")]
    Broken,
    #[error("a line of the holds is no tick")]
    Text,
}

/// A source of ticks, each the set of agents that are held in it.
pub trait HoldSource {
    ghost use Rattle.fleet_run.specs.Source.{SourceState};

    /// What is known of the source.
    ghost state: { Self → SourceState };

    /// Sets flag i to whether agent i is held in the next tick, and takes that tick off. `Ok(false)` if there is none.
    /// Numbers past the flags are passed over.
    fn next(&mut self, held: &mut [bool]) -> Result<bool, SourceFault>
        requires { HasNotFailed (state self.old) }
        ensures { GivesTick (state self.old) (state self.new) result held.new };

    /// How the source has failed, if it has.
    fn failed(&self) -> Option<SourceFault>
        ensures { result ≡ (state self.now).fault };
}

/// Unsets all flags.
pub fn clear(flags: &mut [bool])
    ensures { AreFlagsOf [] flags.new }
{
    for flag in flags.iter_mut() {
        *flag = false;
    }
}

/// Asks the source for its next tick and sets the flags of the agents that it holds, unless the source has ended: then
/// no flag is set, and none changes. Answers whether there was a tick.
pub fn ask<S: HoldSource>(
    source: &mut S,
    has_ended: bool,
    flags: &mut [bool],
) -> Result<bool, SourceFault>
    requires { CanBeAsked has_ended (S.state source.old) flags.old }
    ensures { AsksTick has_ended (S.state source.old) (S.state source.new) result flags.new }
{
    if has_ended {
        return Ok(false);
    }
    if source.next(flags)? {
        return Ok(true);
    }
    clear(flags);
    Ok(false)
}

/// A source that gives the ticks of a text of holds: one line for each tick, `-` for nobody, or the numbers of the
/// agents that are held in strictly rising order with one space between two. If the line that is asked for is no
/// tick's, it fails as `Text`.
#[derive(Drop)]
pub struct HoldText<'a> {
    rest: &'a [u8],
    agents: u16,
    failed: bool,
}

impl<'a> Model for HoldText<'a> {
    ghost use Rattle.fleet_text.specs.Text.{lines};
    ghost use Rattle.fleet_run.specs.HoldText.{HoldLines};

    ghost Value = { HoldLines };

    ghost view = { λ s. record {
      lines = lines s.rest.now;
      agents = s.agents;
      has_failed = s.failed;
    } };
}

impl<'a> HoldText<'a> {
    ghost use Rattle.std.specs.Prelude.{false};

    /// A source of the ticks of this text, for so many agents.
    pub fn new(text: &'a [u8], agents: u16) -> Self
        ensures { result ≡ record { lines = lines text.now; agents = agents; has_failed = false } }
    {
        HoldText {
            rest: text,
            agents,
            failed: false,
        }
    }
}

impl<'a> HoldSource for HoldText<'a> {
    ghost use Rattle.fleet_run.specs.HoldText.{source_of};

    ghost state = { source_of };

    fn next(&mut self, held: &mut [bool]) -> Result<bool, SourceFault> {
        let Some((line, rest)) = next_line(self.rest) else {
            return Ok(false);
        };
        clear(held);
        if !set_tick(line, self.agents, held) {
            self.failed = true;
            return Err(SourceFault::Text);
        }
        self.rest = rest;
        Ok(true)
    }

    fn failed(&self) -> Option<SourceFault> {
        if self.failed {
            Some(SourceFault::Text)
        } else {
            None
        }
    }
}

/// Sets the flags of the agents that the line of a tick names; at first no flag is set. Answers whether it is the line
/// of a tick of so many agents; if it is not, some flags may be set.
fn set_tick(line: &[u8], agents: u16, flags: &mut [bool]) -> bool
    requires { AreFlagsOf [] flags.old }
    ensures { MatchBool result
        ((tick : List ℕ) × (tick_of agents line.now ≡ Some tick) × AreFlagsOf tick flags.new)
        (tick_of agents line.now ≡ None) }
{
    is_dash(line) || set_agents(line, agents, flags)
}

/// Sets the flags of the agents that the words between the line's spaces name. Answers whether they do, in strictly
/// rising order.
fn set_agents(line: &[u8], agents: u16, flags: &mut [bool]) -> bool
    requires { AreFlagsOf [] flags.old }
    ensures { MatchBool result
        ((tick : List ℕ) × (agents_of agents 0 (slice_split is_space line.now) ≡ Some tick)
        × AreFlagsOf tick flags.new)
        (agents_of agents 0 (slice_split is_space line.now) ≡ None) }
{
    let mut rest = line;
    let mut least = 0;
    'words: loop {
        let (word, after) = cut(rest);
        let Some(agent) = plain_number_of(word) else {
            return false;
        };
        if agent < least || agent >= u64::from(agents) {
            return false;
        }
        let has_flag = (agent as usize) < flags.len();
        if has_flag {
            flags[agent as usize] = true;
        }
        let Some(after) = after else {
            return true;
        };
        rest = after;
        least = agent + 1;
    }
}

/// A line is read as a tick exactly if it is the line of that tick.
pub fn a_tick_line_is_read()
    ensures { (n : ℕ) (line held : List ℕ) → n < 65536 → (tick_of n line ≡ Some held)
        ↔ IsTickLine n line held }
{}
