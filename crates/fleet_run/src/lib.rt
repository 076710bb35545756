//! Runs of programs, tick by tick, under holds that a source gives, written as text to a sink: an accepted program that
//! a `Fleet` drives to its goals, and the rehearsal of any program; and programs themselves as text.
//!
//! `source` has the trait of sources of holds, and the one that reads a text, `hold_list` the other one, and
//! `hold_writing` writes the text that `HoldText` reads. A `Fleet` (`fleet`) has a `Machine`, and so has `rehearse`,
//! which runs any program; both go through the one loop of `run`, a `Fleet` by `drive`: at each time `pass_time` writes
//! the line, and then `next_unless_over` asks the source, unless the run has ended there; `tick_row` is the tick.
//! `times_text` writes times; `run_accepted` runs an accepted program in one call. A line of a run is kept from tick to
//! tick in a row of bytes (`line`), of which mostly the last digits change, and handed to the sink whole. A sink may
//! keep back what it took until it is flushed. `listing` is one pass over a program, which gathers its lines in a row
//! of bytes of its own.
#![tactic(auto)]

mod fleet;
mod hold_list;
mod hold_writing;
mod line;
mod listing;
mod run;
mod source;
mod times_text;

pub use fleet::{Fleet, NotSent, StartRefusal, drive, run_accepted};
pub use fleet_machine::Tick;
pub use fleet_text::{OutFault, TraceOut, VecOut, WriteOut};
pub use hold_list::HoldList;
pub use hold_writing::write_holds;
pub use listing::put_program;
pub use run::{End, MAX_RUN_TICKS, Rehearsal, Report, RunFault, rehearse};
pub use source::{HoldSource, HoldText, SourceFault, a_tick_line_is_read, clear};
pub use times_text::{put_reached, put_times};
