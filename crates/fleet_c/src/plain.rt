//! Refusals as plain structs, which a caller in another language reads.

ghost use Rattle.std.specs.Prelude.{◌≡◌};
ghost use Rattle.fleet_c.specs.Plain.{named, at, by, memory_plain, map_plain, scen_plain, text_plain, pair_plain, conflict_plain, check_plain, search_plain, compile_plain, load_plain, agent_at, number_at, ring_plain, unordered_plain, verify_plain, run_plain, plain_of};

use crate::fault::CallFault;
use fleet_adg::CompileFault;
use fleet_code::LoadFault;
use fleet_grid::MapFault;
use fleet_model::{ActionId, Cell, Visit};
use fleet_plan::{Conflict, PlanFault, TextFault};
use fleet_run::RunFault;
use fleet_scen::ScenFault;
use fleet_search::PlanStop;
use fleet_verify::VerifyFault;

// The parts of the work that refuse, by the numbers that callers in C know them by.

/// Want of memory.
pub const MEMORY: u32 = 1;

/// The text of a map.
pub const MAP: u32 = 2;

/// The text of a scenario.
pub const SCEN: u32 = 3;

/// The text of a plan.
pub const TEXT: u32 = 4;

/// A plan.
pub const CHECK: u32 = 5;

/// The planner.
pub const SEARCH: u32 = 6;

/// The compiler.
pub const COMPILE: u32 = 7;

/// The bytes of a program.
pub const LOAD: u32 = 8;

/// A program.
pub const VERIFY: u32 = 9;

/// A run.
pub const RUN: u32 = 10;

// The kinds of conflict, in the order in which they are judged.

/// Two agents on one cell.
pub const VERTEX: u64 = 0;

/// Two agents that change places.
pub const SWAPPING: u64 = 1;

/// A ring of agents, each of which goes to the cell of the next.
pub const CYCLE: u64 = 2;

/// How many values of a refusal a plain one has room for.
pub const FIELDS: usize = 6;

/// A refusal: its part, its number, how many values its line has, and the first of these, followed by zeros.
#[repr(C)]
#[derive(Clone, Copy)]
pub struct FleetFault {
    pub part: u32,
    pub number: u32,
    pub count: u64,
    pub fields: [u64; FIELDS],
}

/// A refusal without values.
fn named(part: u32, number: u32) -> FleetFault
    ensures { result ≡ named part number }
{
    FleetFault {
        part,
        number,
        count: 0,
        fields: [0; FIELDS],
    }
}

/// A refusal with one value.
fn at(part: u32, number: u32, value: u64) -> FleetFault
    ensures { result ≡ at part number value }
{
    FleetFault {
        part,
        number,
        count: 1,
        fields: [value, 0, 0, 0, 0, 0],
    }
}

/// A refusal with two values.
fn by(part: u32, number: u32, first: u64, second: u64) -> FleetFault
    ensures { result ≡ by part number first second }
{
    FleetFault {
        part,
        number,
        count: 2,
        fields: [first, second, 0, 0, 0, 0],
    }
}

/// Want of memory.
fn memory_plain() -> FleetFault
    ensures { result ≡ memory_plain }
{
    named(MEMORY, 1)
}

fn map_plain(fault: MapFault) -> FleetFault
    ensures { result ≡ map_plain fault }
{
    match fault {
        MapFault::OutOfMemory => memory_plain(),
        MapFault::Header { line } => at(MAP, 2, line),
        MapFault::Size => named(MAP, 3),
        MapFault::RowCount => named(MAP, 4),
        MapFault::RowLength { row } => at(MAP, 5, u64::from(row)),
        MapFault::Glyph { row, column } => by(MAP, 6, u64::from(row), u64::from(column)),
        MapFault::Trailing => named(MAP, 7),
    }
}

fn scen_plain(fault: ScenFault) -> FleetFault
    ensures { result ≡ scen_plain fault }
{
    match fault {
        ScenFault::OutOfMemory => memory_plain(),
        ScenFault::Version => named(SCEN, 2),
        ScenFault::Fields { line } => at(SCEN, 3, line),
        ScenFault::Number { line, field } => by(SCEN, 4, line, u64::from(field)),
        ScenFault::OtherMap { line } => at(SCEN, 5, line),
        ScenFault::Blocked { line } => at(SCEN, 6, line),
        ScenFault::SharedStart { line } => at(SCEN, 7, line),
        ScenFault::SharedGoal { line } => at(SCEN, 8, line),
        ScenFault::NoAgents => named(SCEN, 9),
        ScenFault::TooMany => named(SCEN, 10),
        ScenFault::Fewer => named(SCEN, 11),
    }
}

fn text_plain(fault: TextFault) -> FleetFault
    ensures { result ≡ text_plain fault }
{
    match fault {
        TextFault::OutOfMemory => memory_plain(),
        TextFault::Form { line } => at(TEXT, 2, line),
        TextFault::Length { line } => at(TEXT, 3, line),
        TextFault::AgentCount => named(TEXT, 4),
    }
}

/// A conflict of two agents.
fn pair_plain(kind: u64, time: u32, i: u16, j: u16) -> FleetFault
    ensures { result ≡ pair_plain kind time i j }
{
    FleetFault {
        part: CHECK,
        number: 6,
        count: 4,
        fields: [kind, u64::from(time), u64::from(i), u64::from(j), 0, 0],
    }
}

fn conflict_plain(conflict: Conflict) -> FleetFault
    ensures { result ≡ conflict_plain conflict }
{
    match conflict {
        Conflict::Vertex { time, i, j } => pair_plain(VERTEX, time, i, j),
        Conflict::Swapping { time, i, j } => pair_plain(SWAPPING, time, i, j),
        Conflict::Cycle { time, least } => FleetFault {
            part: CHECK,
            number: 6,
            count: 3,
            fields: [CYCLE, u64::from(time), u64::from(least), 0, 0, 0],
        },
    }
}

fn check_plain(fault: PlanFault) -> FleetFault
    ensures { result ≡ check_plain fault }
{
    match fault {
        PlanFault::OutOfMemory => memory_plain(),
        PlanFault::Agents => named(CHECK, 2),
        PlanFault::Start { agent } => at(CHECK, 3, u64::from(agent)),
        PlanFault::Goal { agent } => at(CHECK, 4, u64::from(agent)),
        PlanFault::Step { agent, time } => by(CHECK, 5, u64::from(agent), u64::from(time)),
        PlanFault::Conflict(conflict) => conflict_plain(conflict),
    }
}

fn search_plain(stop: PlanStop) -> FleetFault
    ensures { result ≡ search_plain stop }
{
    match stop {
        PlanStop::OutOfMemory => memory_plain(),
        PlanStop::NoPath { agent } => at(SEARCH, 2, u64::from(agent)),
    }
}

fn compile_plain(fault: CompileFault) -> FleetFault
    ensures { result ≡ compile_plain fault }
{
    match fault {
        CompileFault::OutOfMemory => memory_plain(),
        CompileFault::TooLong => named(COMPILE, 2),
    }
}

fn load_plain(fault: LoadFault) -> FleetFault
    ensures { result ≡ load_plain fault }
{
    match fault {
        LoadFault::OutOfMemory => memory_plain(),
        LoadFault::Magic => named(LOAD, 2),
        LoadFault::Truncated => named(LOAD, 3),
        LoadFault::AgentCount => named(LOAD, 4),
        LoadFault::Total => named(LOAD, 5),
        LoadFault::Opcode { at: offset } => at(LOAD, 6, offset),
        LoadFault::AwaitAgent { at: offset } => at(LOAD, 7, offset),
        LoadFault::AwaitOrder { at: offset } => at(LOAD, 8, offset),
        LoadFault::AwaitCount { at: offset } => at(LOAD, 9, offset),
        LoadFault::Trailing { at: offset } => at(LOAD, 10, offset),
    }
}

/// The agent of the action at an index of a ring, or 0 past its end.
fn agent_at(ring: &[ActionId], i: usize) -> u64
    ensures { result ≡ agent_at ring.now i }
{
    match ring.get(i) {
        Some(action) => u64::from(action.agent),
        None => 0,
    }
}

/// The number of the action at an index of a ring, or 0 past its end.
fn number_at(ring: &[ActionId], i: usize) -> u64
    ensures { result ≡ number_at ring.now i }
{
    match ring.get(i) {
        Some(action) => u64::from(action.number),
        None => 0,
    }
}

/// A ring of actions, of which a plain refusal has room for three.
fn ring_plain(ring: &[ActionId]) -> FleetFault
    ensures { result ≡ ring_plain ring.now }
{
    FleetFault {
        part: VERIFY,
        number: 7,
        count: ring.len() as u64 * 2,
        fields: [
            agent_at(ring, 0),
            number_at(ring, 0),
            agent_at(ring, 1),
            number_at(ring, 1),
            agent_at(ring, 2),
            number_at(ring, 2),
        ],
    }
}

/// Two visits of a cell that no chain orders.
fn unordered_plain(cell: Cell, first: Visit, second: Visit) -> FleetFault
    ensures { result ≡ unordered_plain cell first second }
{
    FleetFault {
        part: VERIFY,
        number: 8,
        count: 6,
        fields: [
            u64::from(cell.x),
            u64::from(cell.y),
            u64::from(first.agent),
            u64::from(first.position),
            u64::from(second.agent),
            u64::from(second.position),
        ],
    }
}

fn verify_plain(fault: &VerifyFault) -> FleetFault
    ensures { result ≡ verify_plain fault.now }
{
    match fault {
        VerifyFault::OutOfMemory => memory_plain(),
        VerifyFault::OtherFleet => named(VERIFY, 2),
        VerifyFault::Start { agent } => at(VERIFY, 3, u64::from(*agent)),
        VerifyFault::Goal { agent } => at(VERIFY, 4, u64::from(*agent)),
        VerifyFault::Step { agent, action } => {
            by(VERIFY, 5, u64::from(*agent), u64::from(*action))
        }
        VerifyFault::AwaitRange { agent, action } => {
            by(VERIFY, 6, u64::from(*agent), u64::from(*action))
        }
        VerifyFault::Cyclic(ring) => ring_plain(ring),
        VerifyFault::Unordered {
            cell,
            first,
            second,
        } => unordered_plain(*cell, *first, *second),
    }
}

fn run_plain(fault: RunFault) -> FleetFault
    ensures { result ≡ run_plain fault }
{
    match fault {
        RunFault::OutOfMemory => memory_plain(),
        RunFault::Source { tick } => at(RUN, 2, u64::from(tick)),
        RunFault::Hold { line } => at(RUN, 3, line),
        RunFault::Write => named(RUN, 4),
        RunFault::HoldLimit => named(RUN, 5),
    }
}

impl CallFault {
    /// The refusal as a plain struct, with the part, the number and the values of the line that the program prints.
    pub fn plain(&self) -> FleetFault
        ensures { result ≡ plain_of self.now }
    {
        match self {
            CallFault::OutOfMemory => memory_plain(),
            CallFault::Map(fault) => map_plain(*fault),
            CallFault::Scen(fault) => scen_plain(*fault),
            CallFault::Text(fault) => text_plain(*fault),
            CallFault::Check(fault) => check_plain(*fault),
            CallFault::Search(stop) => search_plain(*stop),
            CallFault::Compile(fault) => compile_plain(*fault),
            CallFault::Load(fault) => load_plain(*fault),
            CallFault::Verify(fault) => verify_plain(fault),
            CallFault::Run(fault) => run_plain(*fault),
        }
    }
}
