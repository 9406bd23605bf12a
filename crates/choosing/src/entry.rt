// A token's place in the order of choosing.
ghost use Rattle.std.specs.Prelude.{◌≡◌};
ghost use Rattle.choosing.specs.Entries.{entry_of};

use crate::ranking::Ranking;
use rows::memory::Token;
use rules::rule::Rule;

/// Tokens go by key, and then by tag.
#[derive(Clone, Copy, PartialEq, Eq, PartialOrd, Ord)]
pub struct Entry {
    pub key: u64,
    pub tag: u16,
}

impl Entry {
    /// The entry of a token in a plane with this span.
    pub fn of<R: Rule>(token: &Token, rule: &R, span: u64) -> Entry
        ensures { result ≡ entry_of (R.Rule.ranks rule.now) span token.now }
    {
        Ranking { rule, span }.entry(token)
    }
}
