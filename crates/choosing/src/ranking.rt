// How a rule ranks the tokens of a plane, and which of them it chooses.
ghost use Rattle.std.specs.Prelude.{◌≡◌, ◌<◌, ◌≤◌, min, not, ◌&&◌, List, ◌++◌, length, take, Some, MatchOption};
ghost use Rattle.rows.specs.declared.memory.Token.{Token as Row};
ghost use Rattle.rows.specs.Limits.{most_processors};
ghost use Rattle.queue.specs.Held.{held, first_of};
ghost use Rattle.queue.specs.Order.{Heaped};
ghost use Rattle.model.specs.Steps.{active, key_of};
ghost use Rattle.choosing.specs.Entries.{entry_of, earlier, up_to};
ghost use Rattle.choosing.specs.Keeping.{last_first, top, last_kept, Picks, KeepsFirst};

use crate::entry::Entry;
use queue::Queue;
use rows::limits::MOST_PROCESSORS;
use rows::memory::Token;
use rules::rule::Rule;
use std::cmp::Reverse;

/// Entries that are kept at the most, one for each processor that a board may have.
const MOST_KEPT: usize = MOST_PROCESSORS as usize;

/// A rule in a plane with this span. It is copied whatever the rule is, since it holds a reference to it.
#[derive_where(Clone, Copy)]
pub struct Ranking<'a, R> {
    pub rule: &'a R,
    pub span: u64,
}

impl<'a, R: Rule> Ranking<'a, R> {
    /// A token's entry.
    pub fn entry(&self, token: &Token) -> Entry
        ensures { result ≡ entry_of (R.Rule.ranks self.now.rule.now) self.now.span token.now }
    {
        Entry {
            key: self.key(token),
            tag: token.tag,
        }
    }

    /// Whether a token is active and not after the last one chosen; where there is none, every active one is chosen.
    pub fn is_chosen(&self, token: &Token, last: Option<Entry>) -> bool
        ensures { result ≡ (active token.now && up_to last (entry_of (R.Rule.ranks self.now.rule.now) self.now.span token.now)) }
    {
        match last {
            Some(last) => self.is_up_to(token, last),
            None => token.left > 0,
        }
    }

    /// The last of the first active tokens, as many as there are processors, at most 16; none where fewer are active.
    pub fn last_chosen(&self, tokens: &[Token], processors: usize) -> Option<Entry>
        ensures { 0 < processors → Picks (min processors most_processors) (R.Rule.ranks self.now.rule.now) self.now.span tokens.now result }
    {
        let mut memory = [Reverse(Entry { key: 0, tag: 0 }); MOST_KEPT];
        let mut best = Queue::open(&mut memory[..processors.min(MOST_KEPT)]);
        let seen = self.fill(&mut best, tokens);
        let last = last_kept(&best)?;
        Some(self.improve(&mut best, last, &tokens[seen..]))
    }

    // A token's key, by the rule.
    fn key(&self, token: &Token) -> u64
        ensures { result ≡ key_of (R.Rule.ranks self.now.rule.now) self.now.span token.now }
    {
        let Ranking { rule, span } = *self;
        rule.key(token.left, span, token.processor, token.tag)
    }

    // Whether a token is active and not after the last one chosen. Most are not, by their key alone, so that no entry is made for them.
    fn is_up_to(&self, token: &Token, last: Entry) -> bool
        ensures { result ≡ (active token.now && not (earlier last (entry_of (R.Rule.ranks self.now.rule.now) self.now.span token.now))) }
    {
        let key = self.key(token);
        key <= last.key && (key < last.key || token.tag <= last.tag) && token.left > 0
    }

    // Fills the empty queue with active tokens, and gives how many tokens it then has seen.
    fn fill(&self, best: &mut Queue<'_, Reverse<Entry>>, tokens: &[Token]) -> usize
        requires { length (held best.old) ≡ 0 }
        ensures size { length best.new.memory.now ≡ length best.old.memory.now }
        ensures order { Heaped last_first (held best.new) }
        ensures kept { KeepsFirst (length best.old.memory.now) (R.Rule.ranks self.now.rule.now) self.now.span (take result tokens.now) (held best.new) }
        ensures seen { result ≤ length tokens.now }
        ensures full { result < length tokens.now → length (held best.new) ≡ length best.old.memory.now }
    {
        for (i, token) in tokens.iter().enumerate() {
            if token.left > 0 && best.insert(Reverse(self.entry(token))).is_err() {
                return i;
            }
        }
        tokens.len()
    }

    // Lets each further token that is not after the last one kept come for it, and gives the last one kept.
    fn improve(&self, best: &mut Queue<'_, Reverse<Entry>>, last: Entry, tokens: &[Token]) -> Entry
        requires order { Heaped last_first (held best.old) }
        requires last { last_kept (length best.old.memory.now) (held best.old) ≡ Some last }
        ensures order { Heaped last_first (held best.new) }
        ensures last { last_kept (length best.old.memory.now) (held best.new) ≡ Some result }
        ensures kept { (seen : List Row) → KeepsFirst (length best.old.memory.now) (R.Rule.ranks self.now.rule.now) self.now.span seen (held best.old) → KeepsFirst (length best.old.memory.now) (R.Rule.ranks self.now.rule.now) self.now.span (seen ++ tokens.now) (held best.new) }
    {
        let mut last = last;
        for token in tokens {
            if self.is_up_to(token, last) {
                let _ = best.replace_first(Reverse(self.entry(token)));
                last = top(best).unwrap_or(last);
            }
        }
        last
    }
}

// The last one kept, where the queue is full.
fn last_kept(best: &Queue<'_, Reverse<Entry>>) -> Option<Entry>
    ensures { result ≡ last_kept (length best.now.memory.now) (held best.now) }
{
    if best.is_full() { top(best) } else { None }
}

// The entry on top of the queue.
fn top(best: &Queue<'_, Reverse<Entry>>) -> Option<Entry>
    ensures { result ≡ top (first_of (held best.now)) }
{
    let Reverse(last) = best.first()?;
    Some(last)
}
