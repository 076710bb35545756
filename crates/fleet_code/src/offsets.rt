//! Where the actions of an agent stand in the bytes.

ghost use Rattle.std.specs.Prelude.{◌≡◌, ◌≢◌, ◌<◌, ◌≤◌, ◌+◌, ◌-◌, ◌/◌, ◌∷◌, [], min, replicate, length, take, vec_len, vec_capacity, IfOk, IfSome, IfNone, IsTrue, ◌↔◌, nat_lt, ℕ, Ok, List, ◌^◌, All, slice_index_or};
ghost use Rattle.fleet_model.specs.Answer.{IsDueUnless};
ghost use Rattle.fleet_model.specs.declared.program.Action.{Action};
ghost use Rattle.fleet_code.specs.declared.format.Version.TheVariants.{One};
ghost use Rattle.fleet_code.specs.Spelling.{action, agent};
ghost use Rattle.fleet_code.specs.Heads.{head_at, agent_head_at};
ghost use Rattle.fleet_code.specs.Reading.{action_at, actions_at, agent_at, agents_at, program_as};
ghost use Rattle.fleet_code.specs.Offsets.{Finds, last_step, AreBare, head_len, opcodes, ends_of, part_of, parts_of, IsEvenFrom};
ghost use Rattle.std.specs.List.{range_with_len};

use crate::fault::LoadFault;
use crate::format::{
    AWAIT, DWELL, HEAD_LEN, LAST_MOVE, LEAST_AGENT_LEN, Version, after_magic, await_of, cell_of,
    count_of, number_of, step_of,
};
use fleet_model::{Cell, MAX_AGENTS, MAX_MOVES, MAX_MOVES_IN_ALL, OutOfMemory};
use fleet_text::{ByteClass, first_of};
use std::alloc::Global;
use std::marker::Model;
use std::simd::prelude::*;

/// Where the actions of an agent stand in the bytes of a program.
#[derive(Drop)]
pub struct Part {
    begin: usize,
    offsets: ActionOffsets,
}

impl Model for Part {
    ghost use Rattle.fleet_code.specs.Offsets.{PartOffsets};

    ghost Value = { PartOffsets };

    ghost view = { λ p. record { begin = p.begin; offsets = p.offsets } };
}

impl Part {
    ghost use Rattle.std.specs.Prelude.{slice_index_or};

    /// The offset in the bytes at which the actions begin.
    pub fn begin(&self) -> usize
        ensures { result ≡ self.now.begin }
    {
        self.begin
    }

    /// How many actions there are.
    pub fn moves(&self) -> u32
        ensures { length self.now.offsets ≡ result + 1 }
    {
        self.offsets.actions()
    }

    /// How many opcodes stand before action `n + 1`, counted from the first action, and after the last how many there
    /// are.
    pub fn offset(&self, n: u32) -> u32
        requires { n < length self.now.offsets }
        ensures { result ≡ slice_index_or self.now.offsets n 0 }
    {
        self.offsets.get(n)
    }
}

/// An empty list with room for `count` items of at least `item_len` bytes each, but for no more than the bytes can
/// hold, and for one item more.
fn list_for<T>(
    alloc: Global,
    count: u32,
    item_len: usize,
    bytes: &[u8],
) -> Result<Vec<T>, OutOfMemory>
    requires { 0 < item_len }
    ensures items { IfOk result (λ v. v.items ≡ []) }
    ensures len { IfOk result (λ v. vec_len v ≡ 0) }
    ensures room { IfOk result (λ v. vec_capacity v ≡ min count (length bytes.now / item_len) + 1) }
{
    Ok(Vec::with_capacity(alloc, (count as usize).min(bytes.len() / item_len) + 1)?)
}

/// So many zeros.
fn zeros(alloc: Global, count: usize) -> Result<Vec<u32>, OutOfMemory>
    ensures items { IfOk result (λ v. v.items ≡ replicate count 0) }
    ensures len { IfOk result (λ v. vec_len v ≡ count) }
{
    Ok(vec![in alloc; 0; count]?)
}

/// What is known of the bytes before the first agent is read: their version, how many they are, and how many agents
/// there are.
#[derive(Clone, Copy)]
struct Head {
    version: Version,
    whole: usize,
    agents: u16,
}

/// The bytes after the next action of agent `own`, if it has one await, in version 1: it is seen at one look to be
/// right.
#[inline(always)]
fn after_short_action(head: Head, own: u16, bytes: &[u8]) -> Option<&[u8]>
    ensures found { IfSome result (λ after. (a : Action) × (opcodes a ≡ 2)
        × (action_at head.version (length bytes.now) head.whole head.agents own 0 bytes.now
        ≡ Ok (a, after.now))) }
    ensures shorter { IfSome result (λ after. length bytes.now ≡ 6 + length after.now) }
    ensures none { IfNone result (head.version ≡ One → (x : Action × List ℕ)
        → action_at One (length bytes.now) head.whole head.agents own 0 bytes.now ≡ Ok x
        → opcodes x.0 ≢ 2) }
{
    let Version::One = head.version else {
        return None;
    };
    let [opcode, a, b, c, d, step, after @ ..] = bytes else {
        return None;
    };
    if *opcode != AWAIT || *step > LAST_MOVE {
        return None;
    }
    let agent = u16::from_be_bytes([*a, *b]);
    let count = u16::from_be_bytes([*c, *d]);
    if agent < head.agents && agent != own && count != 0 {
        return Some(after);
    }
    None
}

/// Judges the awaits and the step of an action of agent `own`, and answers how many opcodes the action has, and the
/// bytes after it.
#[inline(always)]
fn after_action(head: Head, own: u16, bytes: &[u8]) -> Result<(u32, &[u8]), LoadFault>
    requires whole { length bytes.now ≤ head.whole }
    requires few { head.agents ≤ MAX_AGENTS }
    ensures value { Finds
        (λ x due. (x.0 ≡ opcodes due.0) × (x.1.now ≡ due.1)
        × (length bytes.now ≡ length (action head.version due.0) + length x.1.now))
        result (action_at head.version (length bytes.now) head.whole head.agents own 0 bytes.now) }
    ensures few { IfOk result (λ x. x.0 ≤ MAX_AGENTS + 1) }
    ensures shorter { IfOk result (λ x. length x.1.now < length bytes.now) }
{
    if let Some(after) = after_short_action(head, own, bytes) {
        return Ok((2, after));
    }
    // The others are judged opcode by opcode.
    let mut least = 0;
    let mut opcodes = 1;
    let mut rest = bytes;
    while let Some((&opcode, after)) = rest.split_first() {
        let at = (head.whole - rest.len()) as u64;
        if let Some(_) = step_of(head.version, opcode) {
            return Ok((opcodes, after));
        }
        let is_unknown = opcode != AWAIT;
        if is_unknown {
            return Err(LoadFault::Opcode { at });
        }
        let (one, after) = await_of(head.version, at, head.agents, own, least, after)?;
        least = one.agent + 1;
        opcodes += 1;
        rest = after;
    }
    Err(LoadFault::Truncated)
}

/// How many opcodes stand before each of the next `count` actions of agent `own`, counted from here, and last how many
/// they have together. A number that the bytes announce takes no more memory than the bytes that are there can fill.
fn actions_after(
    alloc: Global,
    head: Head,
    own: u16,
    count: u32,
    bytes: &[u8],
) -> Result<(Vec<u32>, &[u8]), LoadFault>
    requires whole { length bytes.now ≤ head.whole }
    requires few { head.agents ≤ MAX_AGENTS }
    requires count { count ≤ MAX_MOVES }
    ensures value { Finds (λ x due. (x.0.items ≡ 0 ∷ ends_of 0 due.0) × (x.1.now ≡ due.1))
        result (actions_at head.version count head.whole head.agents own bytes.now) }
    ensures count { IfOk result (λ x. vec_len x.0 ≡ count + 1) }
{
    let mut offsets = zeros(alloc, (count as usize).min(bytes.len()) + 1)?;
    let mut end = 0;
    let mut rest = bytes;
    for done in 0..count {
        let (opcodes, after) = after_action(head, own, rest)?;
        end += opcodes;
        offsets[done as usize + 1] = end;
        rest = after;
    }
    Ok((offsets, rest))
}

/// The bytes above this one.
struct Above<const MOST: u8>;

impl<const MOST: u8> ByteClass for Above<MOST> {
    ghost test = { λ b. nat_lt MOST b };

    fn has(byte: u8) -> bool {
        byte > MOST
    }

    fn mask(block: u8x64) -> u64 {
        block.simd_gt(u8x64::splat(MOST)).to_bitmask()
    }
}

/// Whether each byte is a step.
fn are_steps(version: Version, actions: &[u8]) -> bool
    ensures { IsTrue result ↔ All (λ b. b ≤ last_step version) actions.now }
{
    match version {
        Version::One => matches!(first_of::<Above<LAST_MOVE>>(actions), None),
        Version::Two => matches!(first_of::<Above<DWELL>>(actions), None),
    }
}

/// Whether each of the next `count` bytes is there and a step.
fn are_bare(version: Version, count: u32, bytes: &[u8]) -> bool
    ensures { IsTrue result ↔ AreBare version count bytes.now }
{
    match bytes.get(..count as usize) {
        Some(actions) => are_steps(version, actions),
        None => false,
    }
}

/// The same as `actions_after`, with no more offsets kept than are needed to find all.
fn actions_in(
    alloc: Global,
    head: Head,
    own: u16,
    count: u32,
    bytes: &[u8],
) -> Result<(ActionOffsets, &[u8]), LoadFault>
    requires whole { length bytes.now ≤ head.whole }
    requires few { head.agents ≤ MAX_AGENTS }
    requires count { count ≤ MAX_MOVES }
    ensures value { Finds (λ x due. (x.0 ≡ 0 ∷ ends_of 0 due.0) × (x.1.now ≡ due.1))
        result (actions_at head.version count head.whole head.agents own bytes.now) }
    ensures count { IfOk result (λ x. length x.0 ≡ count + 1) }
{
    if are_bare(head.version, count, bytes) {
        let (_, rest) = bytes.split_at(count as usize);
        return Ok((ActionOffsets::bare(alloc, count), rest));
    }
    if let Some(found) = bare_after_first(alloc, head, own, count, bytes)? {
        return Ok(found);
    }
    let (offsets, rest) = actions_after(alloc, head, own, count, bytes)?;
    Ok((ActionOffsets::of(count, offsets), rest))
}

/// The same, if only the first of the actions has awaits.
#[inline(never)]
fn bare_after_first(
    alloc: Global,
    head: Head,
    own: u16,
    count: u32,
    bytes: &[u8],
) -> Result<Option<(ActionOffsets, &[u8])>, OutOfMemory>
    requires whole { length bytes.now ≤ head.whole }
    requires few { head.agents ≤ MAX_AGENTS }
    requires count { count ≤ MAX_MOVES }
    ensures value { IfOk result (λ found. IfSome found (λ x. (actions : List Action)
        × (actions_at head.version count head.whole head.agents own bytes.now
        ≡ Ok (actions, x.1.now)) × (x.0 ≡ 0 ∷ ends_of 0 actions))) }
    ensures count { IfOk result (λ found. IfSome found (λ x. length x.0 ≡ count + 1)) }
    ensures none { IfOk result (λ found. IfNone found ((first : Action) (rest : List ℕ) → 1 ≤ count
        → action_at head.version (length bytes.now) head.whole head.agents own 0 bytes.now
        ≡ Ok (first, rest) → AreBare head.version (count - 1) rest → ⊥)) }
{
    if count == 0 {
        return Ok(None);
    }
    let (opcodes, after) = match after_action(head, own, bytes) {
        Ok(found) => found,
        Err(LoadFault::OutOfMemory) => return Err(OutOfMemory),
        Err(_) => return Ok(None),
    };
    if !are_bare(head.version, count - 1, after) {
        return Ok(None);
    }
    let (_, rest) = after.split_at(count as usize - 1);
    Ok(Some((ActionOffsets::bare_after(alloc, count, opcodes)?, rest)))
}

/// How many actions an agent has, its start and its goal, if the agents before it have `total` actions together.
#[tactic(auto, unfolding(crate::specs::Heads::agent_head_at))]
fn agent_head(
    version: Version,
    total: u32,
    bytes: &[u8],
) -> Result<(u32, Cell, Cell, &[u8]), LoadFault>
    requires { total ≤ MAX_MOVES_IN_ALL }
    ensures value { IsDueUnless (λ x. ((x.1, x.2, x.0), x.3.now)) result
        (agent_head_at version total bytes.now) LoadFault.OutOfMemory }
    ensures each { IfOk result (λ x. x.0 ≤ MAX_MOVES) }
    ensures all { IfOk result (λ x. total + x.0 ≤ MAX_MOVES_IN_ALL) }
    ensures long { IfOk result (λ x. length bytes.now ≡ length x.3.now + head_len version) }
{
    let (start, rest) = cell_of(bytes)?;
    let (goal, rest) = cell_of(rest)?;
    let (count, rest) = count_of(version, rest)?;
    let is_long = count > version.most_moves();
    if is_long || total + count > MAX_MOVES_IN_ALL {
        return Err(LoadFault::Total);
    }
    Ok((count, start, goal, rest))
}

/// The part of agent `own`, if the agents before it have `total` actions together, and the bytes after it.
fn agent_after(
    alloc: Global,
    head: Head,
    own: u16,
    total: u32,
    bytes: &[u8],
) -> Result<(Part, &[u8]), LoadFault>
    requires whole { length bytes.now ≤ head.whole }
    requires few { head.agents ≤ MAX_AGENTS }
    requires total { total ≤ MAX_MOVES_IN_ALL }
    ensures value { Finds
        (λ x due. (x.0 ≡ part_of head.version (head.whole - length bytes.now) due.0)
        × (x.1.now ≡ due.1)
        × (length bytes.now ≡ length (agent head.version due.0) + length x.1.now))
        result (agent_at head.version head.whole head.agents own total bytes.now) }
    ensures total { IfOk result (λ x. total + length x.0.offsets ≤ MAX_MOVES_IN_ALL + 1) }
{
    let (count, _, _, rest) = agent_head(head.version, total, bytes)?;
    let begin = head.whole - rest.len();
    let (offsets, rest) = actions_in(alloc, head, own, count, rest)?;
    Ok((Part { begin, offsets }, rest))
}

/// The parts of all agents, and the bytes after the last one.
fn agents_after(alloc: Global, head: Head, bytes: &[u8]) -> Result<(Vec<Part>, &[u8]), LoadFault>
    requires whole { length bytes.now ≤ head.whole }
    requires few { head.agents ≤ MAX_AGENTS }
    ensures value { Finds
        (λ x due. (x.0.items ≡ parts_of head.version (head.whole - length bytes.now) due.0)
        × (x.1.now ≡ due.1))
        result (agents_at head.version head.agents head.whole head.agents 0 0 bytes.now) }
    ensures shorter { IfOk result (λ x. length x.1.now ≤ length bytes.now) }
{
    let mut parts = list_for(alloc, u32::from(head.agents), LEAST_AGENT_LEN, bytes)?;
    let mut total = 0;
    let mut rest = bytes;
    for own in 0..head.agents {
        let (part, after) = agent_after(alloc, head, own, total, rest)?;
        total += part.moves();
        parts.push(part).map_err(OutOfMemory::from)?;
        rest = after;
    }
    Ok((parts, rest))
}

/// How many agents there are, after the magic.
#[tactic(auto, unfolding(crate::specs::Heads::head_at))]
fn agents_of(version: Version, bytes: &[u8]) -> Result<(u16, &[u8]), LoadFault>
    ensures value { IsDueUnless (λ x. (x.0, x.1.now)) result
        (head_at version bytes.now) LoadFault.OutOfMemory }
    ensures few { IfOk result (λ x. x.0 ≤ MAX_AGENTS) }
    ensures long { IfOk result (λ x. length bytes.now ≡ length x.1.now + 6) }
{
    let rest = after_magic(version, bytes)?;
    let (agents, rest) = number_of(rest)?;
    if agents == 0 || usize::from(agents) > MAX_AGENTS {
        return Err(LoadFault::AgentCount);
    }
    Ok((agents, rest))
}

/// The parts of the program that the bytes spell in that version, all of the bytes.
///
/// A number that the bytes announce reserves no more than the bytes that are there can fill.
pub fn parts_in(alloc: Global, version: Version, bytes: &[u8]) -> Result<Vec<Part>, LoadFault>
    ensures { Finds (λ v due. v.items ≡ parts_of version HEAD_LEN due) result
        (program_as version bytes.now) }
{
    let (agents, rest) = agents_of(version, bytes)?;
    let head = Head {
        version,
        whole: bytes.len(),
        agents,
    };
    let (parts, rest) = agents_after(alloc, head, rest)?;
    if !rest.is_empty() {
        let at = (bytes.len() - rest.len()) as u64;
        return Err(LoadFault::Trailing { at });
    }
    Ok(parts)
}

/// How many opcodes stand before each of so many actions, counted from the first, and last how many they have together:
/// an action has one for each await and one for its step. If from one action on all have as many as each other, the
/// offsets after its own are not kept.
#[derive(Drop)]
pub struct ActionOffsets {
    actions: u32,
    kept: Vec<u32>,
    stride: u32,
}

impl Model for ActionOffsets {
    ghost use Rattle.std.specs.Prelude.{ℕ, List};
    ghost use Rattle.fleet_code.specs.Offsets.{offsets_of, AreOffsets};

    ghost Value = { List ℕ };

    ghost view = { λ o. offsets_of o.actions o.stride o.kept.items };

    ghost invariant = { λ o. AreOffsets o.actions (offsets_of o.actions o.stride o.kept.items) };
}

impl ActionOffsets {
    /// The offsets of actions without awaits, of which none is kept.
    pub fn bare(alloc: Global, actions: u32) -> Self
        requires { actions < 2 ^ 32 - 1 }
        ensures { result ≡ range_with_len 0 (actions + 1) }
    {
        ActionOffsets {
            actions,
            kept: Vec::new(alloc),
            stride: 1,
        }
    }

    /// The offsets of actions of which the first has so many opcodes, and the others no awaits: two are kept.
    pub fn bare_after(alloc: Global, actions: u32, first: u32) -> Result<Self, OutOfMemory>
        requires some { 1 ≤ actions }
        requires few { first + actions < 2 ^ 32 }
        ensures { IfOk result (λ o. o ≡ 0 ∷ range_with_len first actions) }
    {
        let mut kept = Vec::with_capacity(alloc, 2)?;
        kept.push(0)?;
        kept.push(first)?;
        Ok(ActionOffsets {
            actions,
            kept,
            stride: 1,
        })
    }

    /// These offsets of so many actions.
    pub fn of(actions: u32, offsets: Vec<u32>) -> Self
        requires { length offsets.items ≡ actions + 1 }
        ensures { result ≡ offsets.items }
    {
        let (last, stride) = even_from(offsets.as_slice());
        let kept = front_of(offsets, last + 1);
        ActionOffsets {
            actions,
            kept,
            stride,
        }
    }

    /// How many actions there are.
    pub fn actions(&self) -> u32
        ensures { length self.now ≡ result + 1 }
    {
        self.actions
    }

    /// How many opcodes stand before action `n + 1`, and after the last how many there are.
    pub fn get(&self, n: u32) -> u32
        requires { n < length self.now }
        ensures { result ≡ slice_index_or self.now n 0 }
    {
        let kept = self.kept.len();
        let keeps_none = kept == 0;
        if keeps_none {
            return n;
        }
        let is_kept = (n as usize) < kept;
        if is_kept {
            return self.kept[n as usize];
        }
        let last = kept - 1;
        self.kept[last] + (n - last as u32) * self.stride
    }
}

/// So many of the first offsets. Memory is given back where that is a quarter or more of theirs.
fn front_of(offsets: Vec<u32>, count: usize) -> Vec<u32>
    requires { count ≤ length offsets.items }
    ensures { result.items ≡ take count offsets.items }
{
    let all = offsets.len();
    let mut kept = offsets;
    kept.truncate(count);
    let is_near_all = count > all - all / 4;
    if is_near_all {
        return kept;
    }
    kept.shrink_to_fit();
    kept
}

/// The place of the first offset from which on all are equally far from the one before, and how far that is.
fn even_from(offsets: &[u32]) -> (usize, u32)
    requires { 1 ≤ length offsets.now }
    ensures first { result.0 < length offsets.now }
    ensures even { IsEvenFrom offsets.now result.0 result.1 }
    ensures fit { All (λ o. o < 2 ^ 32) offsets.now }
{
    let last = offsets.len() - 1;
    let is_first = last == 0;
    if is_first {
        return (0, 0);
    }
    let stride = offsets[last].saturating_sub(offsets[last - 1]);
    (first_even(offsets, stride), stride)
}

/// The place of the first offset from which on each is so far from the one before it.
fn first_even(offsets: &[u32], stride: u32) -> usize
    requires { 1 ≤ length offsets.now }
    ensures first { result < length offsets.now }
    ensures even { IsEvenFrom offsets.now result stride }
{
    let last = offsets.len() - 1;
    for back in 0..last {
        let at = last - back;
        let is_uneven = u64::from(offsets[at - 1]) + u64::from(stride) != u64::from(offsets[at]);
        if is_uneven {
            return at;
        }
    }
    0
}
