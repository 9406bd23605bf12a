// A table's board with its tasks.
ghost use Rattle.std.specs.Prelude.{◌≡◌, Ok, Err, MatchResult};
ghost use Rattle.table_file.specs.Tables.{table_rows};
ghost use Rattle.planner.specs.Views.{rest};
ghost use Rattle.whole_plan.specs.Planning.{rows_admitted, no_tasks, table_admitted};

use planner::board::Board;
use rows::memory::Task;
use rows::refusal::Refusal;
use table_file::table::Table;

// Admits the rows of a table in the order of the file.
fn admit_rows(table: &Table, board: &mut Board, tasks: &mut [Task]) -> Result<(), Refusal>
    ensures { MatchResult result (λ _. rows_admitted (rest board.old) tasks.old (table_rows table.now.bytes.now) ≡ Ok (rest board.new, tasks.new)) (λ e. rows_admitted (rest board.old) tasks.old (table_rows table.now.bytes.now) ≡ Err e) }
{
    for row in table.rows() {
        board.admit(tasks, row.tag, row.execution, row.period)?;
    }
    Ok(())
}

// Opens the board of a table and admits its rows, into task memory of zeros.
pub(crate) fn set_up(table: &Table, tasks: &mut [Task]) -> Result<Board, Refusal>
    requires blank { tasks.old ≡ no_tasks }
    ensures { MatchResult result (λ board. table_admitted table.now.bytes.now ≡ Ok (rest board, tasks.new)) (λ e. table_admitted table.now.bytes.now ≡ Err e) }
{
    let mut board = Board::open(table.processors(), table.scale())?;
    admit_rows(table, &mut board, tasks)?;
    Ok(board)
}
