// The whole plan of a table.
ghost use Rattle.std.specs.Prelude.{◌≡◌, ◌≤◌, length, take, IfOk};
ghost use Rattle.whole_plan.specs.Planning.{whole_plan, plan_length, with_plan};
ghost use Rattle.whole_plan.specs.Serving.{PlanServesEveryPeriod};

use crate::admission::set_up;
use crate::ends::check_planes;
use crate::planes::write_plan;
use rows::memory::Task;
use rows::refusal::Refusal;
use table_file::table::Table;

/// Writes the plan file of a table file at the front of `plan`, and answers its length. Bytes past it stay as they are.
/// Refuses, and writes nothing, in this order: what is no table; processors or scale out of their limits; the first
/// task that is not admitted; a plane that would end past the last tick; a buffer without room for one record more than
/// there are tasks in every plane.
pub fn whole_plan(table: &[u8], plan: &mut [u8]) -> Result<usize, Refusal>
    ensures answer { result ≡ plan_length (whole_plan table.now (length plan.old)) }
    ensures bytes { plan.new ≡ with_plan (whole_plan table.now (length plan.old)) plan.old }
    ensures short { IfOk result (λ n. (n ≤ length plan.old) × (n ≤ 690542305)) }
    ensures serves { IfOk result (λ n. PlanServesEveryPeriod table.now (take n plan.new)) }
{
    let table = Table::open(table)?;
    let mut tasks = [Task::default(); 256];
    let board = set_up(&table, &mut tasks)?;
    let planes = table.planes();
    check_planes(&board, &tasks, planes, plan.len())?;
    write_plan(board, &tasks, planes, plan)
}
