//! The fixed bytes of the format, what its versions have of their own, and the fields, read one by one.

ghost use Rattle.std.specs.Prelude.{◌≡◌, ◌≤◌, Some, ◌<◌, length, IfOk, ◌+◌};
ghost use Rattle.fleet_model.specs.declared.geometry.Step.TheVariants.{Go};
ghost use Rattle.fleet_code.specs.Spelling.{opcode, count_len};
ghost use Rattle.fleet_code.specs.Reading.{step_at, magic_at, number_at, long_number_at, count_from, version_in, cell_from, await_at};
ghost use Rattle.fleet_model.specs.Answer.{IsDueUnless};

use crate::fault::LoadFault;
use fleet_model::{Await, Cell, Dir, MAX_MOVES, MAX_MOVES_V1, Step};

/// What the bytes of version 1 begin with.
pub const MAGIC_V1: &[u8] = b"MPF1";

/// What the bytes of version 2 begin with.
pub const MAGIC_V2: &[u8] = b"MPF2";

/// How many bytes the magic of either version has.
pub const MAGIC_LEN: usize = 4;

/// The opcode of an await. An agent and a count follow it.
pub const AWAIT: u8 = 0x10;

/// The greatest opcode of a move.
pub const LAST_MOVE: u8 = 3;

/// The opcode of a stay.
pub const DWELL: u8 = 4;

/// How many bytes stand before the first agent: the magic and the number of agents.
pub const HEAD_LEN: usize = 6;

/// How many bytes each number takes that is equally wide in both versions: of agents, an agent, a column or a row.
pub const NUMBER_LEN: usize = 2;

/// How many bytes a cell takes.
pub const CELL_LEN: usize = 2 * NUMBER_LEN;

/// How many bytes an agent takes at least: one without actions, in version 1.
pub const LEAST_AGENT_LEN: usize = 10;

/// A version of the bytes. The versions differ in the magic, in how wide a number of actions and a count are, in the
/// most actions of an agent, and in that version 2 alone has a byte for a stay.
#[derive(Clone, Copy)]
pub enum Version {
    One,
    Two,
}

impl Version {
    ghost use Rattle.std.specs.Prelude.{◌≡◌};
    ghost use Rattle.fleet_code.specs.Spelling.{magic, count_len, most_moves};
    ghost use Rattle.fleet_code.specs.Offsets.{head_len, await_len};

    /// What the bytes begin with.
    pub fn magic(self) -> &'static [u8]
        ensures { result.now ≡ magic self }
    {
        match self {
            Version::One => MAGIC_V1,
            Version::Two => MAGIC_V2,
        }
    }

    /// How many bytes a number of actions takes, and how many a count.
    pub fn count_len(self) -> usize
        ensures { result ≡ count_len self }
    {
        match self {
            Version::One => 2,
            Version::Two => 4,
        }
    }

    /// The most actions of one agent.
    pub fn most_moves(self) -> u32
        ensures { result ≡ most_moves self }
    {
        match self {
            Version::One => MAX_MOVES_V1,
            Version::Two => MAX_MOVES,
        }
    }

    /// How many bytes an agent takes besides its actions: two cells and the number of actions.
    pub fn head_len(self) -> usize
        ensures { result ≡ head_len self }
    {
        2 * CELL_LEN + self.count_len()
    }

    /// How many bytes an await takes.
    pub fn await_len(self) -> usize
        ensures { result ≡ await_len self }
    {
        1 + NUMBER_LEN + self.count_len()
    }
}

/// The opcode of a step. That of a stay is written in version 2 alone.
pub fn opcode_of(step: Step) -> u8
    ensures { result ≡ opcode step }
{
    match step {
        Step::Go(Dir::North) => 0,
        Step::Go(Dir::East) => 1,
        Step::Go(Dir::South) => 2,
        Step::Go(Dir::West) => 3,
        Step::Dwell => DWELL,
    }
}

/// The step that has this opcode in the version, if one has it. The opcode chooses a direction and no way through the
/// code, since a processor foresees no step.
#[inline(always)]
pub fn step_of(version: Version, opcode: u8) -> Option<Step>
    ensures { result ≡ step_at version opcode }
{
    if opcode <= LAST_MOVE {
        return Some(Step::Go(dir_of(opcode)));
    }
    match (version, opcode) {
        (Version::Two, DWELL) => Some(Step::Dwell),
        _ => None,
    }
}

/// The direction of a move that has this opcode.
#[inline(always)]
fn dir_of(opcode: u8) -> Dir
    requires { opcode ≤ LAST_MOVE }
    ensures { step_at Version.One opcode ≡ Some (Go result) }
{
    match opcode {
        0 => Dir::North,
        1 => Dir::East,
        2 => Dir::South,
        _ => Dir::West,
    }
}

// The fields of the bytes, each read from the front of what is left, which is answered with it.

/// The version in which the bytes are to be read: version 2 if its magic stands in front, and otherwise version 1.
pub fn version_of(bytes: &[u8]) -> Version
    ensures { result ≡ version_in bytes.now }
{
    if bytes.starts_with(MAGIC_V2) {
        Version::Two
    } else {
        Version::One
    }
}

/// The bytes after the magic of the version.
#[tactic(auto, unfolding(crate::specs::Reading::magic_at))]
pub fn after_magic(version: Version, bytes: &[u8]) -> Result<&[u8], LoadFault>
    ensures value { IsDueUnless (λ x. x.now) result
        (magic_at version bytes.now) LoadFault.OutOfMemory }
    ensures long { IfOk result (λ x. length bytes.now ≡ length x.now + 4) }
{
    let magic = version.magic();
    if bytes.starts_with(magic) {
        Ok(&bytes[MAGIC_LEN..])
    } else if magic.starts_with(bytes) {
        Err(LoadFault::Truncated)
    } else {
        Err(LoadFault::Magic)
    }
}

/// A number of two bytes.
pub fn number_of(bytes: &[u8]) -> Result<(u16, &[u8]), LoadFault>
    ensures value { IsDueUnless (λ x. (x.0, x.1.now)) result
        (number_at bytes.now) LoadFault.OutOfMemory }
    ensures long { IfOk result (λ x. length bytes.now ≡ length x.1.now + 2) }
{
    if bytes.len() < 2 {
        return Err(LoadFault::Truncated);
    }
    let (front, rest) = bytes.split_at(2);
    Ok((u16::from_be_bytes([front[0], front[1]]), rest))
}

/// A number of four bytes.
pub fn long_number_of(bytes: &[u8]) -> Result<(u32, &[u8]), LoadFault>
    ensures value { IsDueUnless (λ x. (x.0, x.1.now)) result
        (long_number_at bytes.now) LoadFault.OutOfMemory }
    ensures long { IfOk result (λ x. length bytes.now ≡ length x.1.now + 4) }
{
    if bytes.len() < 4 {
        return Err(LoadFault::Truncated);
    }
    let (front, rest) = bytes.split_at(4);
    Ok((
        u32::from_be_bytes([front[0], front[1], front[2], front[3]]),
        rest,
    ))
}

/// A number of actions or a count, as wide as the version has it.
pub fn count_of(version: Version, bytes: &[u8]) -> Result<(u32, &[u8]), LoadFault>
    ensures value { IsDueUnless (λ x. (x.0, x.1.now)) result
        (count_from version bytes.now) LoadFault.OutOfMemory }
    ensures long { IfOk result (λ x. length bytes.now ≡ length x.1.now + count_len version) }
{
    match version {
        Version::One => {
            let (count, rest) = number_of(bytes)?;
            Ok((u32::from(count), rest))
        }
        Version::Two => long_number_of(bytes),
    }
}

/// A cell: its column, and then its row.
#[tactic(auto, unfolding(crate::specs::Reading::cell_from))]
pub fn cell_of(bytes: &[u8]) -> Result<(Cell, &[u8]), LoadFault>
    ensures value { IsDueUnless (λ x. (x.0, x.1.now)) result
        (cell_from bytes.now) LoadFault.OutOfMemory }
    ensures long { IfOk result (λ x. length bytes.now ≡ length x.1.now + 4) }
{
    let (x, rest) = number_of(bytes)?;
    let (y, rest) = number_of(rest)?;
    Ok((Cell { x, y }, rest))
}

/// An await without its opcode, which stands at `at`. `least` is the first agent that it may name.
#[tactic(auto, unfolding(crate::specs::Reading::await_at))]
pub fn await_of(
    version: Version,
    at: u64,
    agents: u16,
    own: u16,
    least: u16,
    bytes: &[u8],
) -> Result<(Await, &[u8]), LoadFault>
    ensures value { IsDueUnless (λ x. (x.0, x.1.now)) result
        (await_at version at agents own least bytes.now) LoadFault.OutOfMemory }
    ensures agent { IfOk result (λ x. x.0.agent < agents) }
    ensures least { IfOk result (λ x. least ≤ x.0.agent) }
    ensures long { IfOk result (λ x. length bytes.now ≡ length x.1.now + 2 + count_len version) }
{
    let (agent, rest) = number_of(bytes)?;
    if agent >= agents || agent == own {
        return Err(LoadFault::AwaitAgent { at });
    }
    if agent < least {
        return Err(LoadFault::AwaitOrder { at });
    }
    let (count, rest) = count_of(version, rest)?;
    if count == 0 {
        return Err(LoadFault::AwaitCount { at });
    }
    Ok((Await { agent, count }, rest))
}
