//! Fleets that are worked out by hand: maps, scenarios, plans, programs in bytes and in hexadecimal, traces and orders.
//! `tests/worked.txt` says what each is.

ghost use Rattle.std.specs.Prelude.{◌≡◌, All, IfOk, length};

use fleet_code::load;
use fleet_grid::{Grid, read_map};
use fleet_model::{Program, ProgramView};
use fleet_plan::{Checked, check, read_plan};
use fleet_run::{Fleet, StartRefusal};
use fleet_scen::{Instance, read_scen};
use fleet_verify::{Accepted, verify};
use std::alloc::{AllocError, Global};
use std::test::Fail;

pub const PAIR_MAP: &[u8] = b"type octile\nheight 1\nwidth 4\nmap\n....\n";

pub const PAIR_SCEN: &[u8] =
    b"version 1\n0\tpair.map\t4\t1\t1\t0\t3\t0\t2.00000000\n0\tpair.map\t4\t1\t0\t0\t2\t0\t2.00000000\n";

pub const PAIR_PLAN: &[u8] = b"1,0 2,0 3,0\n0,0 1,0 2,0\n";

pub const PAIR_HEX: &[u8] = b"4D504631 0002 0001 0000 0003 0000 0002 01 01
    0000 0000 0002 0000 0002 10 0000 0001 01 10 0000 0002 01
";

pub const PAIR_BYTES: &[u8] = b"MPF1\0\x02\0\x01\0\0\0\x03\0\0\0\x02\x01\x01\
\0\0\0\0\0\x02\0\0\0\x02\x10\0\0\0\x01\x01\x10\0\0\0\x02\x01";

/// The pair in version 2.
pub const PAIR_BYTES_2: &[u8] = b"MPF2\0\x02\0\x01\0\0\0\x03\0\0\0\0\0\x02\x01\x01\
\0\0\0\0\0\x02\0\0\0\0\0\x02\x10\0\0\0\0\0\x01\x01\x10\0\0\0\0\0\x02\x01";

/// .. with two stays of each agent after its moves.
pub const STAYING_BYTES: &[u8] = b"MPF2\0\x02\0\x01\0\0\0\x03\0\0\0\0\0\x04\x01\x01\x04\x04\
\0\0\0\0\0\x02\0\0\0\0\0\x04\x10\0\0\0\0\0\x01\x01\x10\0\0\0\0\0\x02\x01\x04\x04";

/// .. with a last action of agent 1 that awaits more actions than any agent has.
pub const VAIN_BYTES: &[u8] = b"MPF2\0\x02\0\x01\0\0\0\x03\0\0\0\0\0\x02\x01\x01\
\0\0\0\0\0\x02\0\0\0\0\0\x02\x10\0\0\0\0\0\x01\x01\x10\0\0\xFF\xFF\xFF\xFF\x01";

/// Each agent awaits the other.
pub const DEADLOCK_BYTES: &[u8] = b"MPF1\0\x02\0\x01\0\0\0\x03\0\0\0\x02\x10\0\x01\0\x01\x01\x01\
\0\0\0\0\0\x02\0\0\0\x02\x10\0\0\0\x01\x01\x01";

/// The pair's trace with agent 0 held in the first tick.
pub const HELD_TRACE: &[u8] = b"0: 1,0 0,0
1: 1,0 0,0
2: 2,0 0,0
3: 3,0 1,0
4: 3,0 2,0
agents 2
ticks 4
chain 3
held 1
";

/// .. and its rehearsal under the same holds.
pub const HELD_TEXT: &[u8] = b"0: 1,0 0,0
1: 1,0 0,0
2: 2,0 0,0
3: 3,0 1,0
4: 3,0 2,0
agents 2
ticks 4
held 1
finished
";

/// The pair's rehearsal with nobody held.
pub const PAIR_TEXT: &[u8] = b"0: 1,0 0,0
1: 2,0 0,0
2: 3,0 1,0
3: 3,0 2,0
agents 2
ticks 3
held 0
finished
";

/// .. and its trace.
pub const PAIR_TRACE: &[u8] = b"0: 1,0 0,0
1: 2,0 0,0
2: 3,0 1,0
3: 3,0 2,0
agents 2
ticks 3
chain 3
held 0
";

/// The orders of its dispatch, one at a time.
pub const PAIR_ORDERS: &[u8] = b"go 0:1 1,0 2,0
go 0:2 2,0 3,0
go 1:1 0,0 1,0
go 1:2 1,0 2,0
arrived
agents 2
moves 4
reports 3
";

/// Three agents in a row, each on the heels of the one before it.
pub const ROW_MAP: &[u8] = b"type octile\nheight 1\nwidth 5\nmap\n.....\n";

pub const ROW_SCEN: &[u8] = b"version 1\n0 m 5 1 2 0 4 0 2\n0 m 5 1 1 0 3 0 2\n0 m 5 1 0 0 2 0 2\n";

/// Its program with all awaits, and with the last ones alone.
pub const ALL_BYTES: &[u8] = b"MPF1\0\x03\0\x02\0\0\0\x04\0\0\0\x02\x01\x01\
\0\x01\0\0\0\x03\0\0\0\x02\x10\0\0\0\x01\x01\x10\0\0\0\x02\x01\
\0\0\0\0\0\x02\0\0\0\x02\x10\0\x01\0\x01\x01\x10\0\0\0\x01\x10\0\x01\0\x02\x01";

pub const LAST_BYTES: &[u8] = b"MPF1\0\x03\0\x02\0\0\0\x04\0\0\0\x02\x01\x01\
\0\x01\0\0\0\x03\0\0\0\x02\x10\0\0\0\x01\x01\x10\0\0\0\x02\x01\
\0\0\0\0\0\x02\0\0\0\x02\x10\0\x01\0\x01\x01\x10\0\x01\0\x02\x01";

/// Four agents that would go round in a ring.
pub const SQUARE_MAP: &[u8] = b"type octile\nheight 2\nwidth 2\nmap\n..\n..\n";

pub const SQUARE_SCEN: &[u8] =
    b"version 1\n0 m 2 2 0 0 1 0 1\n0 m 2 2 1 0 1 1 1\n0 m 2 2 1 1 0 1 1\n0 m 2 2 0 1 0 0 1\n";

/// A row of 256 cells. Each agent of the train is behind the one before it, and all go 128 cells east.
pub const TRAIN_MAP: &[u8] = b"type octile
height 1
width 256
map
................................................................................................................................\
................................................................................................................................
";

/// Agent k of the 128 goes from column 127 - k to column 255 - k.
pub fn train_scen(alloc: Global) -> Result<Vec<u8>, AllocError> {
    let mut text = String::from_str(alloc, "version 1\n")?;
    for k in 0..128u16 {
        write!(text, "0 m 256 1 {} 0 {} 0 128\n", 127 - k, 255 - k)?;
    }
    Ok(text.into_bytes())
}

/// A map and the instance of a scenario on it.
pub fn problem(alloc: Global, map: &[u8], scen: &[u8]) -> Result<(Grid, Instance), Fail> {
    let grid = read_map(alloc, map)?;
    let instance = read_scen(alloc, scen, &grid, None)?;
    Ok((grid, instance))
}

/// The pair's map, instance and program.
pub fn pair(alloc: Global) -> Result<(Grid, Instance, Program), Fail> {
    let (grid, instance) = problem(alloc, PAIR_MAP, PAIR_SCEN)?;
    Ok((grid, instance, load(alloc, PAIR_BYTES)?))
}

/// A plan that is read, and free of conflict.
pub fn checked_of<'g>(
    alloc: Global,
    text: &[u8],
    grid: &'g Grid,
    instance: &'g Instance,
) -> Result<Checked<'g>, Fail> {
    match check(alloc, read_plan(alloc, text)?, grid, instance) {
        Ok(checked) => Ok(checked),
        Err(_) => Err(Fail::from("refused")),
    }
}

/// A program that is accepted.
pub fn accepted_of<'g, P: ProgramView + Drop>(
    alloc: Global,
    program: P,
    grid: &'g Grid,
    instance: &'g Instance,
) -> Result<Accepted<'g, P>, Fail> {
    match verify(alloc, program, grid, instance) {
        Ok(accepted) => Ok(accepted),
        Err(_) => Err(Fail::from("refused")),
    }
}

/// .. and has two agents.
pub fn accepted_pair<'g, P: ProgramView + Drop>(
    alloc: Global,
    program: P,
    grid: &'g Grid,
    instance: &'g Instance,
) -> Result<Accepted<'g, P>, Fail>
    ensures { IfOk result (λ a. length (P.program a.program) ≡ 2) }
{
    let accepted = accepted_of(alloc, program, grid, instance)?;
    if accepted.program().agents() == 2 {
        Ok(accepted)
    } else {
        Err(Fail::from("another fleet"))
    }
}

/// A fleet that is started, unless memory runs out.
pub fn started<P: ProgramView + Drop>(
    alloc: Global,
    accepted: Accepted<'_, P>,
) -> Result<Fleet<'_, P>, Fail>
    ensures accepted { IfOk result (λ f. f.accepted ≡ accepted.entry) }
    ensures counts { IfOk result (λ f. All (λ s. s.count ≡ 0) f.configuration) }
{
    match Fleet::start(alloc, accepted) {
        Ok(fleet) => Ok(fleet),
        Err(StartRefusal { accepted: _ }) => Err(Fail::from("memory")),
    }
}

/// A fleet of the pair's program, which is started.
pub fn pair_fleet<'g, P: ProgramView + Drop>(
    alloc: Global,
    program: P,
    grid: &'g Grid,
    instance: &'g Instance,
) -> Result<Fleet<'g, P>, Fail>
    ensures agents { IfOk result (λ f. length (P.program f.accepted.program) ≡ 2) }
    ensures counts { IfOk result (λ f. All (λ s. s.count ≡ 0) f.configuration) }
{
    started(alloc, accepted_pair(alloc, program, grid, instance)?)
}
