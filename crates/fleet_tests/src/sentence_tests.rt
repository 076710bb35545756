//! The sentences of faults. The lines that commands make of them are in `tests/texts.sh` and docs/REFUSALS.md.

use crate::due::due_bytes;
use fleet_adg::{CompileFault, ThinFault};
use fleet_cli::{AutoFault, Fault, FileFault};
use fleet_code::{EncodeFault, HexFault, LoadFault};
use fleet_dispatch::{DispatchFault, TimesFault};
use fleet_grid::MapFault;
use fleet_model::{Cell, OutOfMemory, Visit};
use fleet_plan::{Conflict, PlanFault, TextFault};
use fleet_run::{NotSent, RunFault, SourceFault};
use fleet_scen::ScenFault;
use fleet_search::{PlanStop, SearchFault};
use fleet_verify::VerifyFault;
use std::alloc::{AllocError, Global};
use std::fmt::Display;
use std::test::Fail;

/// The sentences of the faults, a line each.
fn put_all<F: Display>(text: &mut String, faults: &[F]) -> Result<(), AllocError> {
    for fault in faults {
        write!(text, "{fault}\n")?;
    }
    Ok(())
}

/// .. of all faults of maps, scenarios and plans.
fn put_text_faults(text: &mut String) -> Result<(), AllocError> {
    put_all(
        text,
        &[
            MapFault::OutOfMemory,
            MapFault::Header { line: 1 },
            MapFault::Size,
            MapFault::RowCount,
            MapFault::RowLength { row: 0 },
            MapFault::Glyph { row: 0, column: 2 },
            MapFault::Trailing,
        ],
    )?;
    put_all(
        text,
        &[
            ScenFault::OutOfMemory,
            ScenFault::Version,
            ScenFault::Fields { line: 2 },
            ScenFault::Number { line: 2, field: 3 },
            ScenFault::OtherMap { line: 2 },
            ScenFault::Blocked { line: 2 },
            ScenFault::SharedStart { line: 3 },
            ScenFault::SharedGoal { line: 3 },
            ScenFault::NoAgents,
            ScenFault::TooMany,
            ScenFault::Fewer,
        ],
    )?;
    put_all(
        text,
        &[
            TextFault::OutOfMemory,
            TextFault::Form { line: 1 },
            TextFault::Length { line: 2 },
            TextFault::AgentCount,
        ],
    )
}

/// .. of programs.
fn put_program_faults(text: &mut String) -> Result<(), AllocError> {
    put_all(
        text,
        &[
            LoadFault::OutOfMemory,
            LoadFault::Magic,
            LoadFault::Truncated,
            LoadFault::AgentCount,
            LoadFault::Total,
            LoadFault::Opcode { at: 16 },
            LoadFault::AwaitAgent { at: 16 },
            LoadFault::AwaitOrder { at: 21 },
            LoadFault::AwaitCount { at: 16 },
            LoadFault::Trailing { at: 16 },
        ],
    )?;
    put_all(
        text,
        &[
            HexFault::OutOfMemory,
            HexFault::Digit { at: 4 },
            HexFault::Odd,
        ],
    )?;
    put_all(
        text,
        &[
            EncodeFault::OutOfMemory,
            EncodeFault::TooLong,
            EncodeFault::Dwell,
        ],
    )
}

/// .. of plans, and of what is made of them.
fn put_plan_faults(text: &mut String) -> Result<(), AllocError> {
    put_all(
        text,
        &[
            PlanFault::OutOfMemory,
            PlanFault::Agents,
            PlanFault::Start { agent: 1 },
            PlanFault::Goal { agent: 2 },
            PlanFault::Step { agent: 3, time: 4 },
            PlanFault::Conflict(Conflict::Cycle { time: 5, least: 6 }),
        ],
    )?;
    put_all(
        text,
        &[
            Conflict::Vertex {
                time: 9,
                i: 7,
                j: 8,
            },
            Conflict::Swapping {
                time: 9,
                i: 7,
                j: 8,
            },
        ],
    )?;
    put_all(text, &[SearchFault::OutOfMemory, SearchFault::NoPath])?;
    put_all(
        text,
        &[PlanStop::OutOfMemory, PlanStop::NoPath { agent: 1 }],
    )?;
    put_all(text, &[CompileFault::OutOfMemory, CompileFault::TooLong])?;
    put_all(text, &[ThinFault::OutOfMemory])
}

/// .. of programs that are not accepted.
fn put_verify_faults(alloc: Global, text: &mut String) -> Result<(), AllocError> {
    put_all(
        text,
        &[
            VerifyFault::OutOfMemory,
            VerifyFault::OtherFleet,
            VerifyFault::Start { agent: 1 },
            VerifyFault::Goal { agent: 2 },
            VerifyFault::Step {
                agent: 3,
                action: 4,
            },
            VerifyFault::AwaitRange {
                agent: 5,
                action: 6,
            },
            VerifyFault::Cyclic(Vec::new(alloc)),
            VerifyFault::Unordered {
                cell: Cell { x: 0, y: 0 },
                first: Visit {
                    agent: 0,
                    position: 0,
                },
                second: Visit {
                    agent: 1,
                    position: 0,
                },
            },
        ],
    )
}

/// .. of runs and of files.
fn put_run_faults(text: &mut String) -> Result<(), AllocError> {
    put_all(text, &[OutOfMemory])?;
    put_all(
        text,
        &[
            RunFault::OutOfMemory,
            RunFault::Source { tick: 1 },
            RunFault::Hold { line: 2 },
            RunFault::Write,
            RunFault::HoldLimit,
        ],
    )?;
    put_all(text, &[SourceFault::Broken, SourceFault::Text])?;
    put_all(text, &[NotSent { agent: 1 }])?;
    put_all(
        text,
        &[
            AutoFault::OutOfMemory,
            AutoFault::Map(MapFault::Size),
            AutoFault::Scen(ScenFault::Version),
            AutoFault::Plan(PlanStop::NoPath { agent: 1 }),
            AutoFault::Compile(CompileFault::TooLong),
            AutoFault::Run(RunFault::Write),
        ],
    )?;
    put_all(text, &[FileFault::OutOfMemory, FileFault::Failed])
}

/// .. of dispatches, of times and of rests.
fn put_dispatch_faults(text: &mut String) -> Result<(), AllocError> {
    put_all(
        text,
        &[
            DispatchFault::OutOfMemory,
            DispatchFault::Form { line: 1 },
            DispatchFault::NotOrdered { line: 2, agent: 3 },
            DispatchFault::Ended { line: 4 },
            DispatchFault::Write,
            DispatchFault::ReportLimit,
            DispatchFault::Log { line: 5 },
            DispatchFault::LogWrite { line: 6 },
            DispatchFault::OtherLog,
            DispatchFault::Input,
        ],
    )?;
    put_all(
        text,
        &[
            TimesFault::OutOfMemory,
            TimesFault::Broken,
            TimesFault::Cost { line: 1 },
            TimesFault::Dead,
        ],
    )
}

/// .. of commands, which say what refused them.
fn put_command_faults(text: &mut String) -> Result<(), AllocError> {
    put_all(
        text,
        &[
            Fault::Map(MapFault::RowCount),
            Fault::Times(TimesFault::Dead),
            Fault::Memory,
            Fault::File("out"),
        ],
    )
}

/// .. of all of these.
fn put_faults(alloc: Global, text: &mut String) -> Result<(), AllocError> {
    put_text_faults(text)?;
    put_program_faults(text)?;
    put_plan_faults(text)?;
    put_verify_faults(alloc, text)?;
    put_run_faults(text)?;
    put_dispatch_faults(text)?;
    put_command_faults(text)
}

const SENTENCES: &[u8] = b"out of memory
line 1 of the header is missing or has another form
a side of the map is 0 or above 4096
there are fewer rows than the header says
row 0 is not as wide as the header says
the byte in row 0, column 2 is no glyph
something follows the last row
out of memory
the first line that is not empty is no version line
line 2 has not nine fields
field 3 of line 2 is no number up to 65535
line 2 is for a map of other sizes
the start or the goal of line 2 is not passable
the start of line 3 is that of an earlier agent
the goal of line 3 is that of an earlier agent
there are no agents
there are more than 1024 agents
there are fewer agents than were asked for
out of memory
line 1 is no list of cells
line 2 has more than 65536 cells
there are not 1 to 1024 agents
out of memory
the bytes begin neither with MPF1 nor with MPF2
the bytes end within the program
the number of agents is 0 or above 1024
an agent has more than 1000000 actions, or the agents have more than 4194304 together
the byte at offset 16 is no opcode
the await at offset 16 names no other agent of the program
the await at offset 21 names no higher agent than the one before it
the await at offset 16 has a count of 0
bytes follow the last agent, from offset 16 on
out of memory
the byte at offset 4 is no hexadecimal digit
the last digit has no partner
out of memory
an agent has more than 65535 actions, or the count of an await is above 65535
an action of the program stays on its cell
out of memory
the plan has another number of agents than the instance
agent 1 does not begin on its start
agent 2 does not end on its goal
agent 3 goes wrong at time 4
agent 6 and others go round in a ring after time 5
agents 7 and 8 are on one cell at time 9
agents 7 and 8 change places after time 9
out of memory
no path arrives by the horizon
out of memory
no path of agent 1 arrives by the horizon, past those of the agents before it
out of memory
an agent has more than 1000000 actions, or the agents have more than 4194304 together
out of memory
out of memory
the program and the instance have different numbers of agents
agent 1 does not begin on its start
agent 2 does not end on its goal
action 4 of agent 3 leads off the passable cells
action 6 of agent 5 awaits more actions than there are
some actions need each other
a visit of a cell does not wait for the one before to be left
out of memory
out of memory
the holds broke off at tick 1
line 2 of the holds is no tick
the text cannot be written
the holds have more ticks than a run takes
the holds broke off
a line of the holds is no tick
agent 1 had no order
out of memory
the map: a side of the map is 0 or above 4096
the scenario: the first line that is not empty is no version line
the plan: no path of agent 1 arrives by the horizon, past those of the agents before it
the program: an agent has more than 1000000 actions, or the agents have more than 4194304 together
the run: the text cannot be written
out of memory
the file cannot be read or written
out of memory
line 1 is no report
line 2 reports an action of agent 3 that is not ordered
the reports ended before line 4, and actions are left
the orders cannot be told
there are more reports than are taken
line 5 of the log is no report of this dispatch
the report of line 6 cannot be logged
the log holds other bytes than the reports after which the dispatch goes on
the reports cannot be read
out of memory
what is broken is no list of actions of the program
line 1 says no cost of an agent or an action of the program
what is dead is no agent and its cells
there are fewer rows than the header says
what is dead is no agent and its cells
out of memory
the file out cannot be read or written
";

#[test]
fn faults_have_sentences(rt: HostRuntime) -> Result<(), Fail> {
    let mut text = String::new(rt.alloc());
    put_faults(rt.alloc(), &mut text)?;
    due_bytes(&rt, text.as_bytes(), SENTENCES);
    Ok(())
}
