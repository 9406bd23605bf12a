// Whether lent rows fit a board or a plane. Only as many rows as there are tasks are looked at.
ghost use Rattle.std.specs.Prelude.{◌≡◌, ℕ, ◌%◌, ◌^◌, ◌<◌, ◌≤◌, Bool, true, ◌&&◌, nat_le, map, length, take, is_some, if◌then◌else◌, Some, None, sum_by};
ghost use Rattle.std.specs.List.{AllByRecursion};
ghost use Rattle.rows.specs.Tests.{all, distinct, rising};
ghost use Rattle.model.specs.Tables.{weight, sound_task, tasks_fit};
ghost use Rattle.model.specs.Planes.{sound_token, tokens_fit};
ghost use Rattle.planner.specs.Views.{rest, plane};

use crate::board::{Board, Plane};
use rows::keyed::{Keyed, is_rising};
use rows::memory::{Task, Token};

// The units of its processor that a task takes in each tick. Its period divides the scale, so that one short division does.
pub(crate) fn weight_of(scale: u32, task: &Task) -> u64
    requires { (1 ≤ task.now.period) × (scale % task.now.period ≡ 0) }
    ensures { result ≡ weight scale task.now }
{
    task.execution as u64 * (scale / task.period) as u64
}

// What a board or a plane asks of each row in its memory, and what the row adds to their sum.
trait Judge {
    type Row: Keyed;

    ghost is_sound: { Self → Self.Row → Bool };

    ghost amount: { Self → Self.Row → ℕ };

    // None where the row is not sound.
    fn amount(&self, row: &Self::Row) -> Option<u64>
        ensures amount { result ≡ (if is_sound self.now row.now then Some (amount self.now row.now) else None) }
        ensures low { is_some result ≡ true → amount self.now row.now ≤ 2 ^ 54 }
        ensures tag { Self.Row.Keyed.ordinal row.now < 2 ^ 16 };
}

impl Judge for Board {
    type Row = Task;

    ghost is_sound = { λ b. sound_task (rest b) };

    ghost amount = { λ b. weight b.scale };

    fn amount(&self, task: &Task) -> Option<u64> {
        let is_sound = task.tag > 0
            && task.execution > 0
            && task.execution <= task.period
            && self.scale % task.period == 0
            && task.release <= self.tick;
        if is_sound {
            Some(weight_of(self.scale, task))
        } else {
            None
        }
    }
}

impl Judge for Plane {
    type Row = Token;

    ghost is_sound = { λ p. sound_token (plane p) };

    ghost amount = { λ p x. x.left };

    fn amount(&self, token: &Token) -> Option<u64> {
        let is_sound = token.tag > 0
            && token.left <= self.span
            && token.processor <= self.board.processors;
        if is_sound { Some(token.left) } else { None }
    }
}

// What the rows add up to, or none where a row is not sound. Of 256 rows at most, so that the sum fits.
fn add_up<J: Judge>(judge: &J, rows: &[J::Row]) -> Option<u64>
    requires { length rows.now ≤ 256 }
    ensures sum { result ≡ (if all (J.is_sound judge.now) rows.now then Some (sum_by (J.amount judge.now) rows.now) else None) }
    ensures tags { is_some result ≡ true → AllByRecursion (λ x. J.Row.ordinal x < 2 ^ 16) rows.now }
{
    let mut sum = 0;
    for row in rows {
        sum += judge.amount(row)?;
    }
    Some(sum)
}

// What the first rows of memory add up to, so many as are asked for, or none where they are not there or not each sound.
fn total<J: Judge>(judge: &J, memory: &[J::Row], count: u16) -> Option<u64>
    requires { count ≤ 256 }
    ensures sum { let rows = take count memory.now in result ≡ (if nat_le count (length memory.now) && all (J.is_sound judge.now) rows then Some (sum_by (J.amount judge.now) rows) else None) }
    ensures tags { is_some result ≡ true → AllByRecursion (λ x. J.Row.ordinal x < 2 ^ 16) (take count memory.now) }
{
    add_up(judge, memory.get(..count as usize)?)
}

impl Board {
    // Whether task memory fits: the rows in order of tag, each sound, with the board's load.
    pub(crate) fn tasks_fit(&self, tasks: &[Task]) -> bool
        ensures { result ≡ tasks_fit (rest self.now) tasks.now }
    {
        let Some(load) = total(self, tasks, self.count) else {
            return false;
        };
        let rows = &tasks[..self.count as usize];
        load == self.load as u64 && is_rising(rows)
    }
}

impl Plane {
    // Whether token memory fits: the rows in order of tag, each sound, with no more time left than the processors
    // have, and no processor twice.
    pub(crate) fn tokens_fit(&self, tokens: &[Token]) -> bool
        ensures fits { result ≡ tokens_fit (plane self.now) tokens.now }
        ensures tags { result ≡ true → AllByRecursion (λ x. x.tag < 2 ^ 16) (take self.now.board.count tokens.now) }
    {
        let Some(left) = total(self, tokens, self.board.count) else {
            return false;
        };
        let rows = &tokens[..self.board.count as usize];
        left <= self.board.processors as u64 * self.span
            && is_rising(rows)
            && processors_differ(rows)
    }
}

// Whether no processor but 0 stands twice.
fn processors_differ(rows: &[Token]) -> bool
    ensures { result ≡ distinct (map (λ x. x.processor) rows.now) }
{
    let mut taken = [false; 256];
    for token in rows {
        let processor = token.processor as usize;
        if processor > 0 && taken[processor] {
            return false;
        }
        taken[processor] = true;
    }
    true
}
