// Releases, as they are listed and as they wait in the queue.
ghost use Rattle.std.specs.Prelude.{◌≡◌, ◌+◌, ◌^◌, ◌≤◌, true};
ghost use Rattle.rows.specs.Releases.{timely};
ghost use Rattle.ahead.specs.Waiting.{first_due, later, release};

use rows::memory::Task;

/// A task is released at this tick.
#[derive(Clone, Copy, PartialEq, Eq, Debug)]
pub struct Release {
    pub tick: u64,
    pub tag: u16,
}

/// A release that waits in the queue, by tick and then by tag; the task's next one is a period later.
#[derive(Clone, Copy, PartialEq, Eq, PartialOrd, Ord)]
pub struct Due {
    pub tick: u64,
    pub tag: u16,
    pub period: u32,
}

impl Due {
    // A task's first release after the tick.
    pub(crate) fn first(task: &Task, tick: u32) -> Due
        requires { timely tick task.now ≡ true }
        ensures value { result ≡ first_due tick task.now }
        ensures near { result.tick ≤ tick + result.period }
    {
        Due {
            tick: task.next_release(tick).unwrap(),
            tag: task.tag,
            period: task.period,
        }
    }

    // The task's next release.
    pub(crate) fn later(self) -> Due
        requires { self.tick ≤ 2 ^ 63 }
        ensures { result ≡ later self }
    {
        Due {
            tick: self.tick + u64::from(self.period),
            ..self
        }
    }
}

impl From<Due> for Release {
    ghost from_gives = { λ due listed. listed ≡ release due };

    fn from(due: Due) -> Release {
        Release {
            tick: due.tick,
            tag: due.tag,
        }
    }
}
