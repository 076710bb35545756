//! Dispatch of robots whose moves overlap and take any time: each is told its orders as soon as they are due, some of
//! them ahead, and reports which actions it has carried out.
//!
//! `floor` has the trait of a floor: it takes orders, hears reports and logs them, and keeps all as one talk, in turn,
//! so that a contract says what was said before what was heard, and logged before what was said. `report` has the words
//! of a report, in rising order of agent, `report_text` reads a line, with the numbers of `number`, `log_text` writes
//! the line of a report, and `form` says whether orders and reports name actions by number, `pace` also how many orders
//! go ahead. `report_log` has the trait of a log. `progress` is the heart: of each agent how many actions it has
//! carried out, how many it is told and where these lead it. An agent that can be told no more stands in the list of
//! one that it waits for (`WaitLists` of `fleet_machine`), so a report looks at those alone that it names and at those
//! that waited for them. A word is taken as: carried out up to this number, so a report that comes late or twice is one
//! that is behind. `orders` writes an order, `standings` where an agent is, for the question, and `run` goes from line
//! to line (`Session`), from any counts on. `replay` runs a session over a log, which is a floor to which nothing
//! matters that is told, and opens the one that goes on from there. `dispatch` is the whole, with the promises that
//! hold after any reports (`LeadsWell`). `reports_to` has the trait of an input by which robots report, beside the
//! output over which they are told and the log, and its one impl, for every reader; `hearing` looks for the next line
//! in a `window`, the bytes that were read and not yet passed, and reads on only if no LF is among them. `stream_floor`
//! is the floor that borrows such an input, such an output and a log, and the dispatch over it. `fault` and
//! `times_fault` have the refusals. `led` has the laws: what robots do that carry out the orders is a schedule, k
//! orders ahead or one. `standing` has where they stand after the reports of a log, `breaks` reads in which actions
//! they break down, `costs` what their actions cost, and `dead_robot` which one is dead and where.
#![tactic(auto)]

mod breaks;
mod costs;
mod dead_robot;
mod dispatch;
mod fault;
mod floor;
mod form;
mod hearing;
mod led;
mod log_text;
mod number;
mod orders;
mod pace;
mod progress;
mod replay;
mod report;
mod report_log;
mod report_text;
mod reports_to;
mod run;
mod standing;
mod standings;
mod stream_floor;
mod times_fault;
mod window;

pub use breaks::breaks_of;
pub use costs::{CostLine, CostTable, costs_of};
pub use dead_robot::{DeadRobot, dead_robot_of};
pub use dispatch::dispatch_accepted;
pub use fault::DispatchFault;
pub use floor::{Floor, HearFault};
pub use form::ReportForm;
pub use led::dispatches_lead_safely;
pub use pace::Pace;
pub use replay::lead_on;
pub use report::{Report, Reported};
pub use report_log::{NoLog, ReportLog, SinkLog};
pub use report_text::LineKind;
pub use reports_to::ReportsTo;
pub use run::{DispatchReport, MAX_REPORTS, Session, run_session, start_session};
pub use standing::{MOST_AHEAD, reports_lead_as_runs_do, standings_after};
pub use stream_floor::{Outset, StreamFloor, dispatch_led, dispatch_logged, dispatch_over};
pub use times_fault::TimesFault;
pub use window::{LINE_ROOM, Window};
