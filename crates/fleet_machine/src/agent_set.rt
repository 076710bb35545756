//! Sets of agents, a bit for each agent, and lists of agents, linked by their numbers. The next member of a set is
//! found at a look at three words.

ghost use Rattle.std.specs.Prelude.{◌≡◌, ◌≢◌, ◌<◌, ◌≤◌, ◌+◌, ◌^◌, ◌||◌, ℕ, bit_or, length, set, slice_index, replicate, true, false, MatchOption, IfSome, Some, None, is_some, IfNone, IfOk};
ghost use Rattle.std.specs.Int.{bit_at};
ghost use Rattle.fleet_machine.specs.Machine.{flag_of, list_of};
ghost use Rattle.fleet_machine.specs.AgentSet.{bit_if, IsLowest, IsNextFrom, AreNoneFrom, AreNoneIn, AreMarks, IsCursorOf};
ghost use Rattle.fleet_machine.specs.WaitLists.{home_of};

use fleet_model::{Await, MAX_AGENTS};
use std::alloc::{AllocError, Global};
use std::marker::Model;

/// How many agents have their bits in one word.
const WORD: usize = 64;

/// How many words there are.
const WORDS: usize = MAX_AGENTS / WORD + 1;

/// A set of agents below some number. It takes no memory beside itself.
#[derive(Drop)]
pub struct AgentSet {
    words: [u64; WORDS],
    /// A bit for each word: whether some bit of the word is set.
    filled: u64,
    agents: u16,
}

impl Model for AgentSet {
    ghost use Rattle.std.specs.Prelude.{List, Bool};
    ghost use Rattle.fleet_machine.specs.AgentSet.{flags_in, AreBitsMarked};

    ghost Value = { List Bool };

    ghost view = { λ s. flags_in s.words s.agents };

    ghost invariant = { λ s. AreBitsMarked s.words s.filled s.agents };
}

/// The place of the lowest bit that is set.
#[tactic(auto, using(crate::proofs::Bits::lowest_set))]
fn lowest(word: u64) -> Option<usize>
    ensures { MatchOption result (word ≡ 0) (IsLowest word) }
{
    if word == 0 {
        return None;
    }
    Some(word.trailing_zeros() as usize)
}

/// The word without this bit.
fn without_bit(word: u64, place: u16) -> u64
    requires { place < 64 }
    ensures here { bit_at result place ≡ 0 }
    ensures others { (k : ℕ) → k < 64 → k ≢ place → bit_at result k ≡ bit_at word k }
    ensures less { bit_at word place ≡ 1 → result < word }
{
    word & !(1 << place)
}

/// The bit of a member, or of none.
fn bit(is_set: bool) -> u64
    ensures { result ≡ bit_if is_set }
{
    u64::from(is_set)
}

/// The word with this bit set, or not. No way through the code hangs on the bit, which no processor foresees.
fn with_bit(word: u64, place: u16, is_set: bool) -> u64
    requires { place < 64 }
    ensures here { bit_at result place ≡ bit_if is_set }
    ensures others { (k : ℕ) → k < 64 → k ≢ place → bit_at result k ≡ bit_at word k }
{
    without_bit(word, place) | bit(is_set) << place
}

/// Writes 0 to the words that are marked, which are all that have a bit.
fn clear_words(words: &mut [u64], marks: u64)
    requires few { length words.old ≤ 64 }
    requires marked { AreMarks words.old marks }
    ensures { words.new ≡ replicate (length words.old) 0 }
{
    let mut left = marks;
    while let Some(at) = lowest(left) {
        words[at] = 0;
        left = without_bit(left, at as u16);
    }
}

/// Copies the words that are marked, which are all that have a bit, to words that have none.
fn copy_words(words: &mut [u64], others: &[u64], marks: u64)
    requires few { length others.now ≤ 64 }
    requires marked { AreMarks others.now marks }
    requires empty { words.old ≡ replicate (length others.now) 0 }
    ensures { words.new ≡ others.now }
{
    let mut left = marks;
    while let Some(at) = lowest(left) {
        words[at] = others[at];
        left = without_bit(left, at as u16);
    }
}

/// Adds the bits of the words that are marked, which are all that have a bit.
fn add_words(words: &mut [u64], others: &[u64], marks: u64)
    requires few { length others.now ≤ 64 }
    requires long { length words.old ≡ length others.now }
    requires marked { AreMarks others.now marks }
    ensures long { length words.new ≡ length words.old }
    ensures added { (k : ℕ) → slice_index words.new k
        ≡ bit_or (slice_index words.old k) (slice_index others.now k) }
{
    let mut left = marks;
    while let Some(at) = lowest(left) {
        words[at] |= others[at];
        left = without_bit(left, at as u16);
    }
}

/// Whether one of the flags of a stretch is set. It looks at all of them, since many processors look at several at
/// once.
fn is_any_set(flags: &[bool], from: usize, end: usize) -> bool
    requires { end ≤ length flags.now }
    ensures { result ≡ false → AreNoneIn flags.now from end }
{
    let mut is_any = false;
    for i in from..end {
        is_any |= flags[i];
    }
    is_any
}

/// The place after the stretches without a set flag that follow one another from this place on.
fn past_clear(flags: &[bool], from: usize) -> usize
    requires { from + length flags.now < 2 ^ 32 }
    ensures later { from ≤ result }
    ensures clear { AreNoneIn flags.now from result }
{
    let mut at = from;
    while at + WORD <= flags.len() && !is_any_set(flags, at, at + WORD) {
        at += WORD;
    }
    at
}

/// The first flag from this one on that is set.
pub fn next_flag(flags: &[bool], from: u16) -> Option<u16>
    requires { length flags.now ≤ MAX_AGENTS }
    ensures { MatchOption result (AreNoneFrom flags.now from) (IsNextFrom flags.now from) }
{
    let mut at = past_clear(flags, from as usize);
    while at < flags.len() {
        if flags[at] {
            return Some(at as u16);
        }
        at += 1;
    }
    None
}

impl AgentSet {
    /// No agent of so many.
    pub fn new(agents: u16) -> AgentSet
        requires { agents ≤ MAX_AGENTS }
        ensures { result ≡ replicate agents false }
    {
        AgentSet {
            words: [0; WORDS],
            filled: 0,
            agents,
        }
    }

    /// All agents of so many.
    pub fn of_all(agents: u16) -> AgentSet
        requires { agents ≤ MAX_AGENTS }
        ensures { result ≡ replicate agents true }
    {
        let mut all = AgentSet::new(agents);
        all.set_to(&[true; MAX_AGENTS][..agents as usize]);
        all
    }

    /// Whether agent `i` is a member.
    pub fn contains(&self, i: u16) -> bool
        requires { i < length self.now }
        ensures { result ≡ flag_of self.now i }
    {
        (self.words[i as usize / WORD] >> (i % 64)) & 1 == 1
    }

    /// Agent `i` is a member from now on, or is not.
    pub fn set(&mut self, i: u16, is_member: bool)
        requires { i < length self.old }
        ensures { self.new ≡ set self.old i is_member }
    {
        let at = i / WORD as u16;
        let word = with_bit(self.words[at as usize], i % 64, is_member);
        self.words[at as usize] = word;
        self.filled = with_bit(self.filled, at, word != 0);
    }

    /// No agent is a member from now on. It costs as much as there are words with members.
    pub fn clear(&mut self)
        ensures { self.new ≡ replicate (length self.old) false }
    {
        clear_words(&mut self.words, self.filled);
        self.filled = 0;
    }

    /// The members are those of the other set from now on. It costs as much as there are words with members of either.
    pub fn copy_from(&mut self, other: &AgentSet)
        requires { length self.old ≡ length other.now }
        ensures { self.new ≡ other.now }
    {
        clear_words(&mut self.words, self.filled);
        copy_words(&mut self.words, &other.words, other.filled);
        self.filled = other.filled;
    }

    /// The members of the other set are members too from now on. It costs as much as there are words with members of
    /// the other.
    pub fn add(&mut self, other: &AgentSet)
        requires { length self.old ≡ length other.now }
        ensures agents { length self.new ≡ length self.old }
        ensures members { (i : ℕ) → flag_of self.new i
            ≡ (flag_of self.old i || flag_of other.now i) }
    {
        add_words(&mut self.words, &other.words, other.filled);
        self.filled |= other.filled;
    }

    /// The members are the flagged agents from now on.
    pub fn set_to(&mut self, flags: &[bool])
        requires few { length flags.now ≤ MAX_AGENTS }
        requires flags { length self.old ≡ length flags.now }
        ensures { self.new ≡ flags.now }
    {
        self.clear();
        let mut from = 0;
        while let Some(i) = next_flag(flags, from) {
            self.set(i, true);
            from = i + 1;
        }
    }

    /// The first member from this agent on.
    pub fn next(&self, from: u16) -> Option<u16>
        ensures { MatchOption result (AreNoneFrom self.now from) (IsNextFrom self.now from) }
    {
        let filled = self.filled;
        let first = from as usize / WORD;
        if first >= WORDS {
            return None;
        }
        let word = self.words[first];
        if let Some(place) = lowest(word >> (from % 64)) {
            return Some(from + place as u16);
        }
        let Some(skipped) = lowest(filled >> (first + 1)) else {
            return None;
        };
        let at = first + 1 + skipped;
        let Some(place) = lowest(self.words[at]) else {
            return None;
        };
        Some((WORD * at + place) as u16)
    }

    /// A cursor before all agents.
    pub fn cursor(&self) -> Cursor
        ensures from { result.from ≡ 0 }
        ensures cursor { IsCursorOf self.now result }
    {
        let word = self.words[0];
        Cursor {
            from: 0,
            first: 0,
            bits: word,
        }
    }

    /// The first member from the cursor on, which goes on behind it.
    #[inline(always)]
    pub fn next_at(&self, cursor: &mut Cursor) -> Option<u16>
        requires { IsCursorOf self.now cursor.old }
        ensures next { MatchOption result
            (AreNoneFrom self.now cursor.old.from) (IsNextFrom self.now cursor.old.from) }
        ensures behind { IfSome result (λ i. cursor.new.from ≡ i + 1) }
        ensures cursor { IsCursorOf self.now cursor.new }
    {
        // Reading a field brings the invariant: there are so few agents that the place behind a member has a number.
        let _ = &self.words;
        match lowest(cursor.bits) {
            Some(place) => Some(cursor.pass(place as u16)),
            None => self.next_apart(cursor),
        }
    }

    /// The first member from the cursor on, whose bits are used up. It goes on behind the member, with the flags of the
    /// member's word.
    fn next_apart(&self, cursor: &mut Cursor) -> Option<u16>
        requires cursor { IsCursorOf self.now cursor.old }
        requires empty { cursor.old.bits ≡ 0 }
        ensures next { MatchOption result
            (AreNoneFrom self.now cursor.old.from) (IsNextFrom self.now cursor.old.from) }
        ensures behind { IfSome result (λ i. cursor.new.from ≡ i + 1) }
        ensures cursor { IsCursorOf self.now cursor.new }
    {
        let i = self.next(cursor.first + 64)?;
        let place = i % 64;
        let word = self.words[i as usize / WORD];
        *cursor = Cursor {
            from: i,
            first: i - place,
            bits: word,
        };
        Some(cursor.pass(place))
    }
}

/// Where one goes on through the members of a set: the agent from which on the next one is looked for, and the flags of
/// its word from it on, as bits, of which the lowest one is that of the first agent of the word.
#[derive(Clone, Copy)]
pub struct Cursor {
    pub from: u16,
    pub first: u16,
    pub bits: u64,
}

/// The word without its lowest bit, which has this place.
fn without_lowest(word: u64, place: u16) -> u64
    requires { IsLowest word place }
    ensures here { bit_at result place ≡ 0 }
    ensures others { (k : ℕ) → k ≢ place → bit_at result k ≡ bit_at word k }
{
    // Of the place the contract alone speaks.
    let _ = place;
    word & (word - 1)
}

impl Cursor {
    /// Goes on behind the agent of the lowest bit, which has this place, and answers the agent.
    pub fn pass(&mut self, place: u16) -> u16
        requires lowest { IsLowest self.old.bits place }
        requires fit { self.old.first + place < 65535 }
        ensures agent { result ≡ self.old.first + place }
        ensures behind { self.new ≡ record self.old {
          from = self.old.first + place + 1;
          bits = self.new.bits;
        } }
        ensures here { bit_at self.new.bits place ≡ 0 }
        ensures others { (k : ℕ) → k ≢ place → bit_at self.new.bits k ≡ bit_at self.old.bits k }
    {
        let i = self.first + place;
        self.bits = without_lowest(self.bits, place);
        self.from = i + 1;
        i
    }
}

// Lists of agents, linked by the agents' numbers in rows that are made once: each agent stands in one list at most.

/// How many lists each agent has for those that wait for it. Of two that wait for counts close to one another, each
/// stands in another list, so that those who wait for later counts are not looked at whenever the agent moves.
pub const LISTS_EACH: u16 = 8;

/// The list of those that wait for this.
pub fn list_of(awaited: Await) -> u16
    requires { awaited.agent < MAX_AGENTS }
    ensures { result ≡ list_of awaited }
{
    awaited.agent * LISTS_EACH + (awaited.count % LISTS_EACH as u32) as u16
}

/// Lists of agents. Nothing that is done with them takes memory.
#[derive(Drop)]
pub struct WaitLists {
    /// The first agent of each list.
    first: Vec<Option<u16>>,
    /// The agent after each agent in its list.
    next: Vec<Option<u16>>,
    /// The list of each agent.
    home: Vec<Option<u16>>,
}

impl Model for WaitLists {
    ghost use Rattle.std.specs.Prelude.{length};
    ghost use Rattle.fleet_machine.specs.WaitLists.{WaitState, AreChains};

    ghost Value = { WaitState };

    ghost view = { λ w. record { lists = length w.first.items; homes = w.home.items } };

    ghost invariant = { λ w. AreChains w.first.items w.next.items w.home.items };
}

impl WaitLists {
    /// So many lists, in which none of so many agents stands.
    #[tactic(auto, using(crate::proofs::Linked::no_chains))]
    pub fn new(alloc: Global, lists: usize, agents: usize) -> Result<WaitLists, AllocError>
        ensures { IfOk result (λ w. w ≡ record { lists = lists; homes = replicate agents None }) }
    {
        let first = vec![in alloc; None; lists]?;
        let next = vec![in alloc; None; agents]?;
        let home = vec![in alloc; None; agents]?;
        Ok(WaitLists { first, next, home })
    }

    /// Whether agent `i` stands in a list.
    pub fn is_waiting(&self, i: u16) -> bool
        requires { i < length self.now.homes }
        ensures { result ≡ is_some (home_of self.now.homes i) }
    {
        self.home[usize::from(i)].is_some()
    }

    /// Agent `i`, which stands in no list, comes first in this one.
    pub fn push(&mut self, list: u16, i: u16)
        requires list { list < self.old.lists }
        requires agent { i < length self.old.homes }
        requires nowhere { home_of self.old.homes i ≡ None }
        ensures { self.new ≡ record self.old { homes = set self.old.homes i (Some list) } }
    {
        self.next[usize::from(i)] = self.first[usize::from(list)];
        self.first[usize::from(list)] = Some(i);
        self.home[usize::from(i)] = Some(list);
    }

    /// Takes the first agent off this list.
    pub fn pop(&mut self, list: u16) -> Option<u16>
        requires { list < self.old.lists }
        ensures none { IfNone result ((i : ℕ) → home_of self.old.homes i ≢ Some list) }
        ensures same { IfNone result (self.new ≡ self.old) }
        ensures some { IfSome result (λ i. (i < length self.old.homes)
            × (home_of self.old.homes i ≡ Some list)
            × (self.new ≡ record self.old { homes = set self.old.homes i None })) }
    {
        let i = self.first[usize::from(list)]?;
        self.first[usize::from(list)] = self.next[usize::from(i)];
        self.home[usize::from(i)] = None;
        Some(i)
    }
}
