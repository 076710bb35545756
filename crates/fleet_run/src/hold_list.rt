//! A source over rows of numbers in memory.

ghost use Rattle.std.specs.Prelude.{◌≡◌, map, All};
ghost use Rattle.fleet_run.specs.Source.{AreFlagsOf};

use crate::source::{HoldSource, SourceFault, clear};
use std::marker::Model;

/// A source that gives its rows one after another, and never fails.
#[derive(Drop)]
pub struct HoldList {
    rows: Vec<Vec<u16>>,
    given: usize,
}

impl Model for HoldList {
    ghost use Rattle.std.specs.Prelude.{map, drop};
    ghost use Rattle.fleet_model.specs.Machine.{Holds};

    ghost Value = { Holds };

    ghost view = { λ s. map (λ row. row.items) (drop s.given s.rows.items) };
}

impl HoldList {
    ghost use Rattle.std.specs.List.Sorted.{IsStrictlyIncreasing};

    /// A source of these rows, each the numbers of the agents that one tick holds, in strictly rising order.
    pub fn new(rows: Vec<Vec<u16>>) -> HoldList
        requires { All (λ row. IsStrictlyIncreasing row.items) rows.items }
        ensures { result ≡ map (λ row. row.items) rows.items }
    {
        HoldList { rows, given: 0 }
    }
}

/// Sets flag i to whether i is among the numbers. Numbers past the flags are passed over.
fn set_flags(numbers: &[u16], flags: &mut [bool])
    ensures { AreFlagsOf numbers.now flags.new }
{
    clear(flags);
    for number in numbers {
        let agent = usize::from(*number);
        let has_flag = agent < flags.len();
        if has_flag {
            flags[agent] = true;
        }
    }
}

impl HoldSource for HoldList {
    ghost use Rattle.fleet_run.specs.Source.{list_source};

    ghost state = { list_source };

    fn next(&mut self, held: &mut [bool]) -> Result<bool, SourceFault> {
        if self.given >= self.rows.len() {
            return Ok(false);
        }
        set_flags(self.rows[self.given].as_slice(), held);
        self.given += 1;
        Ok(true)
    }

    fn failed(&self) -> Option<SourceFault> {
        None
    }
}
