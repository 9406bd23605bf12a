// Who runs: the first tokens of a plane, as many as there are processors, by a rule's key and then by tag.
// It answers the last one chosen, and every token that is active and not after it is chosen.
// Which processor a chosen token gets, and how far it runs, is left to the crates above.
#![tactic(auto)]

ghost use Rattle.std.specs.Prelude.{◌≡◌, ◌<◌, min, ◌&&◌};
ghost use Rattle.rows.specs.Limits.{most_processors};
ghost use Rattle.model.specs.Steps.{active};
ghost use Rattle.choosing.specs.Entries.{entry_of, up_to};
ghost use Rattle.choosing.specs.Keeping.{Picks};

use crate::entry::Entry;
use crate::ranking::Ranking;
use rows::memory::Token;
use rules::rule::Rule;

pub mod entry;
pub mod ranking;

/// Whether a token is active and not after the last one chosen; where there is none, every active one is chosen.
pub fn is_chosen<R: Rule>(token: &Token, rule: &R, span: u64, last: Option<Entry>) -> bool
    ensures { result ≡ (active token.now && up_to last (entry_of (R.Rule.ranks rule.now) span token.now)) }
{
    Ranking { rule, span }.is_chosen(token, last)
}

/// The last of the first active tokens, as many as there are processors, at most 16; none where fewer are active.
pub fn last_chosen<R: Rule>(
    tokens: &[Token],
    rule: &R,
    span: u64,
    processors: usize,
) -> Option<Entry>
    ensures { 0 < processors → Picks (min processors most_processors) (R.Rule.ranks rule.now) span tokens.now result }
{
    Ranking { rule, span }.last_chosen(tokens, processors)
}
