// One step of a plane over token rows that fit it: choosing, and then running to the next event.
ghost use Rattle.std.specs.Prelude.{◌≡◌, ℕ, ◌-◌, ◌^◌, ◌<◌, ◌≤◌, min, Bool, false, not, map, filter, slice_index, slice_index_or};
ghost use Rattle.std.specs.List.{range_with_len, AllByRecursion};
ghost use Rattle.rows.specs.Tests.{has};
ghost use Rattle.rows.specs.Kinds.{kind_number};
ghost use Rattle.model.specs.Steps.{chosen, distance, moved, event, row_of, step};
ghost use Rattle.planner.specs.Runs.{OnBoard, Ready};
ghost use Rattle.planner.specs.Segments.{segment_of};
ghost use Rattle.planner.specs.Looking.{picked, least_left, most_left, nearest_kind, Runnable};

use crate::event::Event;
use choosing::entry::Entry;
use choosing::ranking::Ranking;
use rows::kind::Kind;
use rows::memory::Token;
use rows::row::Row;
use rules::rule::Rule;

// What a look over the rows finds.
#[derive(Drop)]
struct Look {
    // by number: whether a chosen token keeps the processor
    taken: [bool; 17],
    // the least time left of the chosen tokens
    least: u64,
    // the most time left of the others
    most: u64,
}

// Looks over the rows. `last` is the last token chosen.
fn look_over<R: Rule>(rows: &[Token], ranking: &Ranking<'_, R>, last: Option<Entry>) -> Look
    requires { OnBoard rows.now }
    ensures taken { (p : ℕ) → p < 17 → slice_index_or result.taken p false ≡ has p (map (λ x. x.processor) (filter (picked (R.Rule.ranks ranking.now.rule.now) ranking.now.span last) rows.now)) }
    ensures least { result.least ≡ least_left (picked (R.Rule.ranks ranking.now.rule.now) ranking.now.span last) ranking.now.span rows.now }
    ensures most { result.most ≡ most_left (picked (R.Rule.ranks ranking.now.rule.now) ranking.now.span last) rows.now }
{
    let mut taken = [false; 17];
    let mut least = ranking.span;
    let mut most: u64 = 0;
    for token in rows {
        if ranking.is_chosen(token, last) {
            taken[token.processor as usize] = true;
            least = least.min(token.left);
        } else {
            most = most.max(token.left);
        }
    }
    Look { taken, least, most }
}

// The nearest event, where `least` is the least time left of those that run and `most` the most of the others.
pub(crate) fn nearest(least: u64, most: u64, span: u64) -> Event
    requires { most ≤ span }
    ensures length { result.length ≡ min least (span - most) }
    ensures kind { kind_number result.kind ≡ nearest_kind least most span }
{
    let length = least.min(span - most);
    let rest = span - length;
    let kind = if rest == 0 {
        Kind::PlaneEnd
    } else if most < rest {
        Kind::Bottom
    } else if length < least {
        Kind::Ceiling
    } else {
        Kind::Both
    };
    Event { length, kind }
}

// The processors that are not taken, in order, and zeros behind them.
pub(crate) fn free_processors(taken: &[bool; 17], processors: usize) -> [u8; 16]
    requires { processors ≤ 16 }
    ensures { (k : ℕ) → slice_index result k ≡ slice_index (filter (λ p. not (slice_index_or taken.now p false)) (range_with_len 1 processors)) k }
{
    let mut free = [0; 16];
    // by hand: after a loop over a zip with `iter_mut` a proof knows only how many places there are
    let mut count = 0;
    for i in 0..processors {
        if !taken[i + 1] {
            free[count] = i as u8 + 1;
            count += 1;
        }
    }
    free
}

// Who runs, where and how far.
#[derive(Drop)]
struct Choice {
    processors: u8,
    // the last token chosen; none where all active ones are
    last: Option<Entry>,
    // the processors for chosen tokens that have none, in order, and zeros behind: there is no heap for a list of them
    spare: [u8; 16],
    event: Event,
}

// Runs the chosen rows, and gives the tags by processor. A chosen row without a processor takes the spare one of its
// turn; a row that is not chosen has none.
fn run<R: Rule>(rows: &mut [Token], ranking: &Ranking<'_, R>, choice: &Choice) -> [u16; 16]
    requires { Runnable choice.now.processors (picked (R.Rule.ranks ranking.now.rule.now) ranking.now.span choice.now.last) choice.now.event.length choice.now.spare rows.old }
    ensures rows { rows.new ≡ map (moved choice.now.processors (picked (R.Rule.ranks ranking.now.rule.now) ranking.now.span choice.now.last) rows.old choice.now.event.length) rows.old }
    ensures places { result ≡ row_of (map (moved choice.now.processors (picked (R.Rule.ranks ranking.now.rule.now) ranking.now.span choice.now.last) rows.old choice.now.event.length) rows.old) }
{
    let mut places = [0; 16];
    // counted: it is by its turn that a token takes a spare processor
    let mut turn = 0;
    for token in rows.iter_mut() {
        if ranking.is_chosen(token, choice.last) {
            if token.processor == 0 {
                token.processor = choice.spare[turn];
                turn += 1;
            }
            places[token.processor as usize - 1] = token.tag;
            token.left -= choice.event.length;
        } else {
            token.processor = 0;
        }
    }
    places
}

// Chooses who runs, where and how far.
fn choose<R: Rule>(rows: &[Token], ranking: &Ranking<'_, R>, processors: u8) -> Choice
    requires { Ready processors ranking.now.span rows.now }
    ensures runnable { Runnable processors (chosen processors (R.Rule.ranks ranking.now.rule.now) ranking.now.span rows.now) result.event.length result.spare rows.now }
    ensures same { result.processors ≡ processors }
    ensures picks { (x : Token) → chosen processors (R.Rule.ranks ranking.now.rule.now) ranking.now.span rows.now x ≡ picked (R.Rule.ranks ranking.now.rule.now) ranking.now.span result.last x }
    ensures length { result.event.length ≡ distance (chosen processors (R.Rule.ranks ranking.now.rule.now) ranking.now.span rows.now) ranking.now.span rows.now }
    ensures kind { kind_number result.event.kind ≡ event (chosen processors (R.Rule.ranks ranking.now.rule.now) ranking.now.span rows.now) result.event.length (ranking.now.span - result.event.length) rows.now }
{
    let m = processors as usize;
    let last = ranking.last_chosen(rows, m);
    let look = look_over(rows, ranking, last);
    Choice {
        processors,
        last,
        spare: free_processors(&look.taken, m),
        event: nearest(look.least, look.most, ranking.span),
    }
}

// One step over rows that fit: the chosen ones run to the next event, and `row` takes their tags.
pub(crate) fn advance<R: Rule>(
    rows: &mut [Token],
    rule: &R,
    processors: u8,
    span: u64,
    row: &mut Row,
) -> Event
    requires { Ready processors span rows.old }
    ensures rows { rows.new ≡ (step processors (R.Rule.ranks rule.now) span rows.old).tokens }
    ensures segment { segment_of result row.new ≡ (step processors (R.Rule.ranks rule.now) span rows.old).segment }
    ensures within { result.length ≤ span }
{
    let ranking = Ranking { rule, span };
    let choice = choose(rows, &ranking, processors);
    let places = run(rows, &ranking, &choice);
    // no tag stands twice in it, so the row takes it
    let _ = row.fill(places);
    choice.event
}
