// Starting a plane from a board at rest, and ending it.
ghost use Rattle.std.specs.Prelude.{◌≡◌, ◌≤◌, ◌&&◌, nat_lt, if◌then◌else◌, Some, None, true, ◌++◌, map, length, drop};
ghost use Rattle.rows.specs.Releases.{timely};
ghost use Rattle.rows.specs.Tests.{all};
ghost use Rattle.model.specs.Answers.{Moves, MovesOver};
ghost use Rattle.model.specs.State.{ended};
ghost use Rattle.model.specs.Tables.{sound_task, earliest, token, started};
ghost use Rattle.planner.specs.Views.{rest, plane};

use crate::board::{Board, Plane};
use crate::fits::weight_of;
use rows::limits::LAST_TICK;
use rows::memory::{Task, Token};
use rows::refusal::Refusal;
use rows::refused::Refused;

impl Board {
    /// Starts a plane, which ends at the earliest release after now; each task gets a token.
    /// Refuses, in this order: task memory that does not fit, or fewer token rows than tasks; no task; an end past the
    /// last tick.
    pub fn start(self, tasks: &[Task], tokens: &mut [Token]) -> Result<Plane, Refused<Board>>
        ensures { MovesOver rest plane self tokens.old (started (rest self) tasks.now tokens.old) result tokens.new }
    {
        let count = self.count as usize;
        if !self.tasks_fit(tasks) || tokens.len() < count {
            return Err(Refused {
                why: Refusal::Memory,
                back: self,
            });
        }
        let rows = &tasks[..count];
        let Some(end) = earliest_release(rows, self.tick) else {
            return Err(Refused {
                why: Refusal::NoTask,
                back: self,
            });
        };
        if end > LAST_TICK as u64 {
            return Err(Refused {
                why: Refusal::PastLastTick,
                back: self,
            });
        }
        let end = end as u32;
        let ticks = end - self.tick;
        self.share_out(rows, ticks, tokens);
        let span = ticks as u64 * self.scale as u64;
        Ok(Plane {
            board: self,
            end,
            span,
        })
    }

    // Gives each task its token for so many ticks.
    fn share_out(&self, rows: &[Task], ticks: u32, tokens: &mut [Token])
        requires sound { all (sound_task (rest self.now)) rows.now ≡ true }
        requires room { length rows.now ≤ length tokens.old }
        requires near { ticks ≤ self.now.scale }
        ensures { tokens.new ≡ map (token self.now.scale ticks) rows.now ++ drop (length rows.now) tokens.old }
    {
        // by index: after a loop over a zip with `iter_mut` a proof knows only how many tokens there are
        for (i, task) in rows.iter().enumerate() {
            tokens[i] = Token {
                tag: task.tag,
                left: ticks as u64 * weight_of(self.scale, task),
                processor: 0,
            };
        }
    }
}

impl Plane {
    /// The board at rest, at the plane's last tick. Refuses while units remain of the plane.
    pub fn end(self) -> Result<Board, Refused<Plane>>
        ensures { Moves plane rest self (ended (plane self)) result }
    {
        if self.span > 0 {
            return Err(Refused {
                why: Refusal::PlaneOpen,
                back: self,
            });
        }
        let Plane { mut board, end, .. } = self;
        board.tick = end;
        Ok(board)
    }
}

/// The earliest of the first releases of tasks after a tick; none where there is no task, or where one has no period or
/// is first released after the tick.
pub fn earliest_release(tasks: &[Task], tick: u32) -> Option<u64>
    ensures { result ≡ (if nat_lt 0 (length tasks.now) && all (timely tick) tasks.now then Some (earliest tick tasks.now) else None) }
{
    let (first, others) = tasks.split_first()?;
    let mut end = first.next_release(tick)?;
    for task in others {
        end = end.min(task.next_release(tick)?);
    }
    Some(end)
}
