//! A beginning of the history of published lists.
ghost use Rattle.std.specs.Prelude.{◌≡◌, ◌-◌, ◌^◌, ◌↔◌, [], IsTrue, MatchBool};
ghost use Rattle.published_lists.specs.Editions.{Follows};

use logbook::{Gain, Play, Rule, Seen, Start, Word};
use std::marker::Model;

/// The rule of the history: its word is its length. An entry is the lists by subtask. A clause
/// reads an array as a list, of any length.
pub struct Law;

impl Rule<[[[u8; 0]; 0]; 0], u64> for Law {
    ghost use Rattle.std.specs.Prelude.{[]};
    ghost use base.Fml.{ftrue};
    ghost use Rattle.published_lists.specs.Editions.{IsCounted};

    ghost holds = { λ cells log. IsCounted cells log };

    ghost first = { [] };

    ghost hinted = { λ n log. Unit {0} };

    ghost shows = { λ log. [] };

    ghost keeps = { λ names log. ftrue };

    ghost moves = { λ ask before after answer. Unit {0} };
}

/// Callers trade nothing.
pub struct Nothing;

impl Gain<[[[u8; 0]; 0]; 0], u64> for Nothing {
    ghost use base.Fml.{ftrue};

    ghost after = { λ names about answer. ftrue };
}

/// A step that adds an entry.
pub struct Add;

impl Play<[[[u8; 0]; 0]; 0], u64> for Add {
    ghost use Rattle.published_lists.specs.Editions.{Adds};

    ghost then = { Adds };
}

/// The word of the history, which its writer keeps. Contracts see which history it is.
#[derive(Drop)]
pub struct Head {
    pub(crate) word: Word<[[[u8; 0]; 0]; 0], u64, Law>,
}

impl Model for Head {
    ghost use Rattle.std.specs.Prelude.{◌≡◌};
    ghost use Rattle.logbook.specs.Pages.{Book};
    ghost use Rattle.published_lists.specs.Editions.{head_of};

    ghost Value = { Book };

    ghost view = { λ h. h.word.book };

    ghost invariant = { λ h. h.word ≡ head_of h.word.book };
}

impl Head {
    /// A history with no entry.
    pub fn new() -> (Head, Edition)
        ensures lists { result.1.lists ≡ [] }
        ensures entries { result.1.entries ≡ 0 }
        ensures history { result.0 ≡ result.1.history }
    {
        let (seen, mut first, _second) = Seen::open(Start::alone(), 0, 0);
        let word = Word::tracked(0, &mut first);
        (Head { word }, Edition { count: 0, seen })
    }
}

/// A beginning of the history that was reached: it names lists, and carries no rows.
#[derive(Drop)]
pub struct Edition {
    pub(crate) count: u64,
    pub(crate) seen: Seen<[[[u8; 0]; 0]; 0], u64, Law>,
}

impl Model for Edition {
    ghost use Rattle.std.specs.Prelude.{◌≡◌, length};
    ghost use Rattle.published_lists.specs.Editions.{Edition as Known, last_of, IsRising};

    ghost Value = { Known };

    ghost view = { λ f. record {
      history = f.seen.book;
      entries = f.count;
      lists = last_of f.seen.log;
    } };

    ghost invariant = { λ f. (f.count ≡ length f.seen.log) × IsRising f.seen.log };
}

impl Edition {
    /// No entry can follow. That takes 2^64 entries.
    pub(crate) fn is_full(&self) -> bool
        ensures { IsTrue result ↔ (self.now.entries ≡ 2 ^ 64 - 1) }
    {
        self.count == u64::MAX
    }

    /// A copy.
    pub fn again(&self) -> Edition
        ensures { result ≡ self.now }
    {
        Edition {
            count: self.count,
            seen: self.seen.again(),
        }
    }

    /// Of two editions of one history one follows the other. At `true` the other follows this one.
    pub fn begins(&self, other: &Edition) -> bool
        requires { other.now.history ≡ self.now.history }
        ensures { MatchBool result (Follows self.now other.now)
            (Follows other.now self.now) }
    {
        let mut both = self.seen.again();
        both.learn(&other.seen);
        self.count <= other.count
    }
}
