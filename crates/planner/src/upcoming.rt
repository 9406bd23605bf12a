// The releases ahead of a board at rest.
ghost use Rattle.std.specs.Prelude.{◌≡◌, length, take, MatchResult};
ghost use Rattle.ahead.specs.Ahead.{Ahead};
ghost use Rattle.planner.specs.Upcoming.{upcoming_answer};
ghost use Rattle.planner.specs.Views.{rest};

use crate::board::Board;
use ahead::fill_ahead;
use ahead::release::{Due, Release};
use rows::memory::Task;
use rows::refusal::Refusal;

impl Board {
    /// Fills the places with the next releases after now, by tick and then by tag, those past the last tick too.
    /// Refuses, in this order: task memory that does not fit; no task; more than 65,536 places, or less queue memory
    /// than tasks.
    pub fn ahead(
        &self,
        tasks: &[Task],
        memory: &mut [Due],
        places: &mut [Release],
    ) -> Result<(), Refusal>
        ensures answer { result ≡ upcoming_answer (rest self.now) tasks.now (length memory.old) (length places.old) }
        ensures list { MatchResult result (λ _. Ahead (take self.now.count tasks.now) self.now.tick places.new) (λ _. (places.new ≡ places.old) × (memory.new ≡ memory.old)) }
    {
        if !self.tasks_fit(tasks) {
            return Err(Refusal::Memory);
        }
        let count = self.count as usize;
        fill_ahead(&tasks[..count], self.tick, memory, places)
    }
}
