// The releases ahead of a tick, in order.
// Each place of the list holds the first release after the one before it; the queue's memory is lent, and left in any order.
// Whether the rows are those of a board is left to the crates above.
#![tactic(auto)]

ghost use Rattle.std.specs.Prelude.{◌≡◌, ℕ, ◌^◌, ◌<◌, ◌≤◌, true, List, map, length, None, MatchResult};
ghost use Rattle.std.specs.List.Sorted.{IsPermutation};
ghost use Rattle.std.specs.List.{AllByRecursion};
ghost use Rattle.rows.specs.Tests.{all};
ghost use Rattle.rows.specs.Releases.{timely};
ghost use Rattle.rows.specs.declared.memory.Task.{Task as Row};
ghost use Rattle.queue.specs.Held.{held};
ghost use Rattle.queue.specs.Order.{Heaped};
ghost use Rattle.ahead.specs.Ahead.{answer_ahead, Ahead};
ghost use Rattle.ahead.specs.Waiting.{by_tick, first_due, Table, Waiting};

use crate::release::{Due, Release};
use queue::Queue;
use rows::keyed::is_rising;
use rows::memory::Task;
use rows::refusal::Refusal;

pub mod release;

/// Places of a list of releases at the most.
const MOST_PLACES: usize = 65536;

/// Fills the places with the next releases of the tasks after a tick, by tick and then by tag.
/// Refuses, in this order: rows that are not in order of tag, or have no period or a first release after the tick; no
/// row; more than 65,536 places, or less queue memory than rows.
pub fn fill_ahead(
    rows: &[Task],
    tick: u32,
    memory: &mut [Due],
    places: &mut [Release],
) -> Result<(), Refusal>
    ensures answer { result ≡ answer_ahead rows.now tick (length memory.old) (length places.old) }
    ensures list { MatchResult result (λ _. Ahead rows.now tick places.new) (λ _. (places.new ≡ places.old) × (memory.new ≡ memory.old)) }
{
    if !is_rising(rows) || !are_timely(rows, tick) {
        return Err(Refusal::Memory);
    }
    if rows.is_empty() {
        return Err(Refusal::NoTask);
    }
    if places.len() > MOST_PLACES || memory.len() < rows.len() {
        return Err(Refusal::Places);
    }
    let mut queue = Queue::open(memory);
    gather(&mut queue, rows, tick);
    fill(&mut queue, places);
    Ok(())
}

// Whether each task has a period and was released by the tick.
fn are_timely(rows: &[Task], tick: u32) -> bool
    ensures { result ≡ all (timely tick) rows.now }
{
    rows.iter().all(|task| task.next_release(tick).is_some())
}

// Puts each task's first release after the tick into the empty queue.
fn gather(queue: &mut Queue<'_, Due>, rows: &[Task], tick: u32)
    requires timely { all (timely tick) rows.now ≡ true }
    requires empty { length (held queue.old) ≡ 0 }
    requires room { length rows.now ≤ length queue.old.memory.now }
    ensures items { IsPermutation (map (first_due tick) rows.now) (held queue.new) }
    ensures order { Heaped by_tick (held queue.new) }
    ensures near { AllByRecursion (λ d. d.tick ≤ 2 ^ 33) (held queue.new) }
{
    for task in rows {
        let _ = queue.insert(Due::first(task, tick));
    }
}

// Lists the releases that wait, each task's next one coming for the one listed.
fn fill(queue: &mut Queue<'_, Due>, places: &mut [Release])
    requires some { 0 < length (held queue.old) }
    requires near { AllByRecursion (λ d. d.tick ≤ 2 ^ 33) (held queue.old) }
    requires few { length places.old ≤ 65536 }
    ensures { (ts : List Row) (tick : ℕ) → Table ts → Heaped by_tick (held queue.old) → Waiting ts tick None (held queue.old) → Ahead ts tick places.new }
{
    for place in places.iter_mut() {
        let Some(first) = queue.first() else {
            return;
        };
        *place = first.into();
        let _ = queue.replace_first(first.later());
    }
}
