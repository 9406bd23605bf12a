// The ends of the planes of a whole plan, known before any of them is run.
ghost use Rattle.std.specs.Prelude.{◌≡◌, ℕ, ◌+◌, ◌<◌, ◌≤◌, map, length, take, nat_le, Contains};
ghost use Rattle.std.specs.List.{AllByRecursion};
ghost use Rattle.rows.specs.Limits.{last_tick};
ghost use Rattle.model.specs.Tables.{earliest};
ghost use Rattle.planner.specs.Views.{rest};
ghost use Rattle.whole_plan.specs.Ends.{tick_after, Released, planes_check};

use plan_file::header::HEADER_SIZE;
use plan_file::record::record_size;
use planner::board::Board;
use planner::planes::earliest_release;
use rows::limits::LAST_TICK;
use rows::memory::Task;
use rows::refusal::Refusal;

// The shortest period: no plane is longer, wherever it starts.
fn shortest(rows: &[Task]) -> u32
    requires { 0 < length rows.now }
    ensures { Contains (map (λ t. t.period) rows.now) result }
{
    rows.iter()
        .map(|task| task.period)
        .min()
        .unwrap_or(u32::MAX)
}

// Whether so many planes, the first from tick 0 on, end by the last tick.
fn end_in_time(rows: &[Task], planes: u16) -> bool
    requires some { 0 < length rows.now }
    requires ready { AllByRecursion (Released 0) rows.now }
    ensures { result ≡ nat_le (tick_after planes rows.now) last_tick }
{
    // Planes that end in time even if each were that long need no closer look.
    if planes as u64 * shortest(rows) as u64 <= LAST_TICK as u64 {
        return true;
    }
    let mut tick = 0;
    for _plane in 0..planes {
        // all have been released by tick 0
        let end = earliest_release(rows, tick).unwrap();
        if end > LAST_TICK as u64 {
            return false;
        }
        tick = end as u32;
    }
    true
}

// Refuses planes that would end past the last tick, and then room for fewer bytes than they may take.
pub(crate) fn check_planes(
    board: &Board,
    tasks: &[Task],
    planes: u16,
    room: usize,
) -> Result<(), Refusal>
    requires there { board.now.count ≤ length tasks.now }
    requires some { 0 < length (take board.now.count tasks.now) }
    requires ready { AllByRecursion (Released 0) (take board.now.count tasks.now) }
    ensures { result ≡ planes_check planes (rest board.now) tasks.now room }
{
    let count = board.count() as usize;
    if !end_in_time(&tasks[0..count], planes) {
        return Err(Refusal::PastLastTick);
    }
    let plane = (count + 1) * record_size(board.processors());
    if room < HEADER_SIZE + planes as usize * plane {
        return Err(Refusal::PlanBuffer);
    }
    Ok(())
}
