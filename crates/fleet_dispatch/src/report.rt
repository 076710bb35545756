//! Reports: which actions robots say that they have carried out.

ghost use Rattle.std.specs.Prelude.{◌≡◌, ◌≤◌, ◌++◌, ◌∷◌, ◌↔◌, [], length, IfOk, IsTrue, MatchBool};
ghost use Rattle.fleet_dispatch.specs.Report.{IsBehind, IsRising};

use fleet_model::MAX_AGENTS;
use std::alloc::{AllocError, Global};
use std::marker::Model;

/// A word of a report: the agent has carried out its actions up to the one of this number. Without a number it says
/// that the agent has carried out one more.
#[derive(Clone, Copy)]
pub struct Reported {
    pub agent: u32,
    pub number: Option<u32>,
}

/// Words in strictly rising order of agent, at most as many as there can be agents. To clear it and to add to it takes
/// no memory.
#[derive(Drop)]
pub struct Report {
    words: Vec<Reported>,
    count: usize,
}

impl Model for Report {
    ghost use Rattle.std.specs.Prelude.{List, take};
    ghost use Rattle.fleet_dispatch.specs.declared.report.Reported.{Reported};
    ghost use Rattle.fleet_dispatch.specs.Report.{AreWords};

    ghost Value = { List Reported };

    ghost view = { λ r. take r.count r.words.items };

    ghost invariant = { λ r. AreWords r.words.items r.count };
}

impl Report {
    /// A report that names nobody.
    pub fn new(alloc: Global) -> Result<Report, AllocError>
        ensures { IfOk result (λ r. r ≡ []) }
    {
        let nobody = Reported {
            agent: 0,
            number: None,
        };
        let words = vec![in alloc; nobody; MAX_AGENTS]?;
        Ok(Report { words, count: 0 })
    }

    /// It names nobody from now on.
    pub fn clear(&mut self)
        ensures { self.new ≡ [] }
    {
        self.count = 0;
    }

    /// Its words.
    pub fn words(&self) -> &[Reported]
        ensures words { result.now ≡ self.now }
        ensures few { length result.now ≤ MAX_AGENTS }
        ensures rising { IsRising result.now }
    {
        &self.words[..self.count]
    }

    /// Whether the agent of a word is behind those that are named, and there is room for it.
    fn can_take(&self, word: Reported) -> bool
        ensures { IsTrue result ↔ IsBehind self.now word }
    {
        let is_behind = match self.words().last() {
            Some(last) => last.agent < word.agent,
            None => true,
        };
        is_behind && self.count < MAX_AGENTS
    }

    /// Puts a word behind those that are there.
    fn push(&mut self, word: Reported)
        requires { IsBehind self.old word }
        ensures { self.new ≡ self.old ++ word ∷ [] }
    {
        self.words[self.count] = word;
        self.count += 1;
    }

    /// Adds a word, if its agent is behind those that are named and there is room, and answers whether it did.
    pub fn add(&mut self, word: Reported) -> bool
        ensures { MatchBool result
            (IsBehind self.old word × (self.new ≡ self.old ++ word ∷ []))
            ((IsBehind self.old word → ⊥) × (self.new ≡ self.old)) }
    {
        if !self.can_take(word) {
            return false;
        }
        self.push(word);
        true
    }
}
