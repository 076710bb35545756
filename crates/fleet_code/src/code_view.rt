//! Programs in place: a view of the bytes that spell one, which knows whether its actions are all moves.

ghost use Rattle.std.specs.Prelude.{◌≢◌, ◌≡◌, ◌≤◌, ◌<◌, ◌+◌, ◌++◌, ◌^◌, ◌↔◌, ℕ, true, List, length, IfOk, IfErr, IsTrue, Some};
ghost use Rattle.fleet_model.specs.declared.geometry.Cell.{Cell};
ghost use Rattle.fleet_model.specs.declared.program.Await.{Await};
ghost use Rattle.fleet_model.specs.declared.program.AgentProgram.{AgentProgram};
ghost use Rattle.fleet_model.specs.Answer.{IsDueUnless};
ghost use Rattle.fleet_model.specs.Program.{IsCell, IsWellFormed, NeverStays, moves, awaits_before, step_of};
ghost use Rattle.fleet_code.specs.Spelling.{Spells, SpellsNothing, two_bytes, count, most_count, cell, await};
ghost use Rattle.fleet_code.specs.LoadFaults.{IsFirstLoadFault};
ghost use Rattle.fleet_code.specs.Offsets.{Viewed, program_in, StandsAt, await_len, after_opcodes, begin_of, end_of, part_at};
ghost use Rattle.fleet_model.specs.Geometry.{is_move};
ghost use Rattle.fleet_code.specs.Stays.{MovesAlways};

use crate::fault::LoadFault;
use crate::format::{AWAIT, CELL_LEN, NUMBER_LEN, Version, step_of, version_of};
use crate::offsets::{Part, parts_in};
use fleet_model::{Await, Cell, Instruction, ProgramView, Reading, Step};
use std::alloc::Global;
use std::marker::Model;

/// A program in the bytes that spell it, which are lent. Beside them it keeps where each agent's part and each action
/// begins, so an answer reads a few bytes and takes no memory; and whether each action is known to be a move.
#[derive(Drop)]
pub struct CodeView<'a> {
    bytes: &'a [u8],
    version: Version,
    parts: Vec<Part>,
    all_move: bool,
    ghost move_always: { all_move ≡ true → NeverStays (program_in bytes.now) },
}

impl<'a> Model for CodeView<'a> {
    ghost use Rattle.fleet_code.specs.Offsets.{Viewed, program_in, IsViewOf};

    ghost Value = { Viewed };

    ghost view = { λ v. record {
      version = v.version;
      program = program_in v.bytes.now;
      all_move = v.all_move;
    } };

    ghost invariant = { λ v. IsViewOf v.version v.bytes.now
        (program_in v.bytes.now) v.parts.items };
}

/// The program that the bytes spell, all of the bytes (this project's own format, version 1 or 2), read in place.
/// Errors: the first fault from the front, or `OutOfMemory` in place of any answer.
///
/// A number that the bytes announce reserves no more than the bytes that are there can fill.
pub fn view(alloc: Global, bytes: &[u8]) -> Result<CodeView<'_>, LoadFault>
    // What is viewed is well formed, and is spelled so.
    ensures found { IfOk result (λ v. Spells bytes.now v.program) }

    // What is spelled so is viewed, unless memory runs out.
    ensures only { (p : List AgentProgram) → Spells bytes.now p
        → IsDueUnless (λ v. v.program) result (Ok p) LoadFault.OutOfMemory }

    // Which fault it is: the first one from the front.
    ensures fault { IfErr result (λ e. e ≢ LoadFault.OutOfMemory → IsFirstLoadFault bytes.now e) }

    // Bytes that are refused for another cause than memory spell no program.
    ensures refused { IfErr result (λ e. e ≢ LoadFault.OutOfMemory → SpellsNothing bytes.now) }

    // The view knows whether each action is a move.
    ensures known { IfOk result (λ v. IsTrue v.all_move ↔ NeverStays v.program) }
{
    let version = version_of(bytes);
    let parts = parts_in(alloc, version, bytes)?;
    let unknown = CodeView {
        bytes,
        version,
        parts,
        all_move: false,
    };
    Ok(with_stays_known(unknown))
}

/// The same view, which knows whether each action is a move.
fn with_stays_known(view: CodeView<'_>) -> CodeView<'_>
    ensures version { result.version ≡ view.entry.version }
    ensures program { result.program ≡ view.entry.program }
    ensures known { IsTrue result.all_move ↔ NeverStays view.entry.program }
{
    let all_move = moves_always(&view);
    let CodeView {
        bytes,
        version,
        parts,
        ..
    } = view;
    CodeView {
        bytes,
        version,
        parts,
        all_move,
    }
}

/// Whether each action is a move. Version 1 has no byte for a stay.
#[tactic(auto, using(crate::proofs::Written::never_stays))]
fn moves_always(view: &CodeView<'_>) -> bool
    ensures { IsTrue result ↔ NeverStays view.now.program }
{
    match view.version {
        Version::One => true,
        Version::Two => never_stays(view),
    }
}

/// The number of two bytes at the offset `at`.
fn number_in(bytes: &[u8], at: usize) -> u16
    requires { at + 2 ≤ length bytes.now }
    ensures { (n : ℕ) → n < 65536 → StandsAt bytes.now at (two_bytes n) → result ≡ n }
{
    u16::from_be_bytes([bytes[at], bytes[at + 1]])
}

/// The number of four bytes at the offset `at`.
fn long_number_in(bytes: &[u8], at: usize) -> u32
    requires { at + 4 ≤ length bytes.now }
    ensures { (n : ℕ) → n < 4294967296 → StandsAt bytes.now at (count Version.Two n) → result ≡ n }
{
    let mut four = [0; 4];
    four.copy_from_slice(&bytes[at..at + 4]);
    u32::from_be_bytes(four)
}

/// The cell at the offset `at`.
fn cell_in(bytes: &[u8], at: usize) -> Cell
    requires { at + 4 ≤ length bytes.now }
    ensures { (c : Cell) → IsCell c → StandsAt bytes.now at (cell c) → result ≡ c }
{
    Cell {
        x: number_in(bytes, at),
        y: number_in(bytes, at + NUMBER_LEN),
    }
}

/// The await whose agent and count, of two bytes each, stand at the offset `at`. They are read as one number.
fn short_await_in(bytes: &[u8], at: usize) -> Await
    requires { at + 4 ≤ length bytes.now }
    ensures { (w : Await) → w.agent < 65536 → w.count < 65536
        → StandsAt bytes.now at (two_bytes w.agent ++ two_bytes w.count) → result ≡ w }
{
    let both = long_number_in(bytes, at);
    Await {
        agent: (both / 65_536) as u16,
        count: both % 65_536,
    }
}

/// The await whose opcode is at the offset `at`.
fn await_in(version: Version, bytes: &[u8], at: usize) -> Await
    requires { at + await_len version ≤ length bytes.now }
    ensures { (w : Await) → w.agent < 65536 → w.count ≤ most_count version
        → StandsAt bytes.now at (await version w) → result ≡ w }
{
    match version {
        Version::One => short_await_in(bytes, at + 1),
        Version::Two => Await {
            agent: number_in(bytes, at + 1),
            count: long_number_in(bytes, at + 1 + NUMBER_LEN),
        },
    }
}

impl<'a> CodeView<'a> {
    /// The part of agent `i`.
    fn part(&self, i: u16) -> &Part
        requires { i < length self.now.program }
        ensures value { result.now ≡ part_at self.now.version self.now.program i }
        ensures well_formed { IsWellFormed self.now.program }
        ensures short { (n : ℕ) → end_of self.now.version self.now.program i n < 2 ^ 64 }
    {
        &self.parts[usize::from(i)]
    }

    /// The offset in the bytes at which the part of agent `i` begins.
    fn begin(&self, i: u16) -> usize
        requires { i < length self.now.program }
        ensures value { result ≡ begin_of self.now.version self.now.program i }
    {
        self.part(i).begin() - self.version.head_len()
    }

    /// How many awaits the first `n` actions of agent `i` have together.
    fn awaits_up_to(&self, i: u16, n: u32) -> u32
        requires agent { i < length self.now.program }
        requires actions { n ≤ moves self.now.program i }
        ensures value { result ≡ awaits_before self.now.program i n }
        ensures well_formed { IsWellFormed self.now.program }
    {
        self.part(i).offset(n) - n
    }

    /// The offset in the bytes at which so many steps and awaits of agent `i` end, counted from its first action.
    fn after(&self, i: u16, steps: u32, awaits: usize) -> usize
        requires agent { i < length self.now.program }
        requires within { (n : ℕ) × (after_opcodes self.now.version self.now.program i steps awaits
            ≤ end_of self.now.version self.now.program i n) }
        ensures { result ≡ after_opcodes self.now.version self.now.program i steps awaits }
    {
        self.part(i).begin() + steps as usize + self.version.await_len() * awaits
    }

    /// The offset in the bytes at which the first `n` actions of agent `i` end.
    fn end(&self, i: u16, n: u32) -> usize
        requires agent { i < length self.now.program }
        requires actions { n ≤ moves self.now.program i }
        ensures { result ≡ end_of self.now.version self.now.program i n }
    {
        self.after(i, n, self.awaits_up_to(i, n) as usize)
    }
}

impl<'a> ProgramView for CodeView<'a> {
    ghost program = { λ v. v.program };

    // The offset in the bytes.
    ghost offset = { λ v i finished k. after_opcodes v.version v.program i finished
        (awaits_before v.program i finished + k) };

    fn agents(&self) -> u16 {
        self.parts.len() as u16
    }

    fn start(&self, i: u16) -> Cell {
        cell_in(self.bytes, self.begin(i))
    }

    fn goal(&self, i: u16) -> Cell {
        cell_in(self.bytes, self.begin(i) + CELL_LEN)
    }

    fn moves(&self, i: u16) -> u32 {
        self.part(i).moves()
    }

    fn step(&self, i: u16, p: u32) -> Step {
        match step_of(self.version, self.bytes[self.end(i, p) - 1]) {
            Some(step) => step,
            None => unreachable!(),
        }
    }

    fn never_stays(&self) -> bool
        ensures known { result ≡ self.now.all_move }
        ensures moves { result ≡ true → NeverStays self.now.program }
    {
        self.all_move
    }

    fn await_count(&self, i: u16, p: u32) -> u16 {
        (self.awaits_up_to(i, p) - self.awaits_up_to(i, p - 1)) as u16
    }

    fn await_at(&self, i: u16, p: u32, k: u16) -> Await {
        let at = self.end(i, p - 1) + self.version.await_len() * usize::from(k);
        await_in(self.version, self.bytes, at)
    }

    fn awaits_before(&self, i: u16, finished: u32) -> u32 {
        self.awaits_up_to(i, finished)
    }

    fn instruction(&self, i: u16, finished: u32, before: u32, k: u16) -> Instruction {
        let at = self.after(i, finished, before as usize + usize::from(k));
        self.read(i, finished, k, at).instruction
    }

    fn offset(&self, i: u16, finished: u32, k: u16) -> usize {
        let awaits = self.awaits_up_to(i, finished) as usize + usize::from(k);
        self.after(i, finished, awaits)
    }

    fn read(&self, i: u16, finished: u32, k: u16, at: usize) -> Reading {
        // The bytes say all.
        let _ = (i, finished, k);
        let opcode = self.bytes[at];
        if opcode == AWAIT {
            return Reading {
                instruction: Instruction::Await(await_in(self.version, self.bytes, at)),
                after: at + self.version.await_len(),
            };
        }
        match step_of(self.version, opcode) {
            Some(step) => Reading {
                instruction: Instruction::Step(step),
                after: at + 1,
            },
            None => unreachable!(),
        }
    }
}

// Whether the actions of a program are all moves, however it is kept.

/// Whether every action of every agent is a move. It looks at the actions only if the view does not know.
pub fn never_stays<P: ProgramView>(program: &P) -> bool
    ensures { IsTrue result ↔ NeverStays (P.program program.now) }
{
    program.never_stays() || all_move(program)
}

/// Whether so it is, by a look at each action.
#[tactic(auto, using(crate::proofs::Stays::none_stays))]
fn all_move<P: ProgramView>(program: &P) -> bool
    ensures { IsTrue result ↔ NeverStays (P.program program.now) }
{
    for i in 0..program.agents() {
        if !are_moves(program, i) {
            return false;
        }
    }
    true
}

/// Whether every action of agent `i` is a move. They are read from front to back.
fn are_moves<P: ProgramView>(program: &P, i: u16) -> bool
    requires { i < length (P.program program.now) }
    ensures { IsTrue result ↔ MovesAlways (P.program program.now) i }
{
    let mut at = program.offset(i, 0, 0);
    for finished in 0..program.moves(i) {
        let (step, after) = next_step(program, i, finished, at);
        if !is_move(step) {
            return false;
        }
        at = after;
    }
    true
}

/// The step of the next action of agent `i`, which stands there, and where the action after it stands.
#[inline(always)]
fn next_step<P: ProgramView>(program: &P, i: u16, finished: u32, at: usize) -> (Step, usize)
    requires agent { i < length (P.program program.now) }
    requires left { finished < moves (P.program program.now) i }
    requires at { at ≡ P.offset program.now i finished 0 }
    ensures step { step_of (P.program program.now) i (finished + 1) ≡ Some result.0 }
    ensures after { result.1 ≡ P.offset program.now i (finished + 1) 0 }
{
    let _agents = program.agents();
    let mut at = at;
    let mut k = 0;
    'instructions: loop {
        let reading = program.read(i, finished, k, at);
        at = reading.after;
        match reading.instruction {
            Instruction::Await(_) => k += 1,
            Instruction::Step(step) => return (step, at),
        }
    }
}

fn is_move(step: Step) -> bool
    ensures { result ≡ is_move step }
{
    match step {
        Step::Go(_) => true,
        Step::Dwell => false,
    }
}
