// The planes of a whole plan, run one after the other into the plan buffer.
ghost use Rattle.std.specs.Prelude.{◌≡◌, ◌*◌, ◌≤◌, true, ◌++◌, length, is_ok, Ok, Err, MatchResult};
ghost use Rattle.plan_file.specs.Writing.{header_bytes};
ghost use Rattle.planner.specs.Views.{rest};
ghost use Rattle.whole_plan.specs.Planning.{plane_into, planes_planned, plane_room, no_tokens, records, plan_room, in_front};

use plan_file::header::write_header;
use planner::board::Board;
use rows::memory::{Task, Token};
use rows::refusal::Refusal;
use rules::standard::LargestFirst;

// Runs one plane and writes its records; the board after it, and how many bytes they have.
fn run_plane(
    board: Board,
    tasks: &[Task],
    tokens: &mut [Token],
    plan: &mut [u8],
) -> Result<(Board, usize), Refusal>
    ensures { MatchResult result (λ done. plane_into (rest board) tasks.now tokens.old plan.old ≡ Ok ((rest done.0, tokens.new, plan.new), done.1)) (λ e. plane_into (rest board) tasks.now tokens.old plan.old ≡ Err e) }
{
    let mut plane = board.start(tasks, tokens)?;
    let finished = plane.finish(tokens, &LargestFirst, plan)?;
    let board = plane.end()?;
    Ok((board, finished.bytes))
}

// Runs so many planes that are known to go through, and writes their records one directly behind the other.
fn run_planes(board: Board, tasks: &[Task], planes: u16, plan: &mut [u8]) -> Result<usize, Refusal>
    requires fine { is_ok (planes_planned planes (rest board) tasks.now no_tokens) ≡ true }
    requires room { planes * plane_room (rest board) ≤ length plan.old }
    ensures answer { result ≡ Ok (length (records (planes_planned planes (rest board) tasks.now no_tokens))) }
    ensures bytes { plan.new ≡ in_front (records (planes_planned planes (rest board) tasks.now no_tokens)) plan.old }
{
    let mut tokens = [Token::default(); 256];
    let mut board = board;
    let mut at = 0;
    for _plane in 0..planes {
        let (after, bytes) = run_plane(board, tasks, &mut tokens, &mut plan[at..])?;
        board = after;
        at += bytes;
    }
    Ok(at)
}

// Writes the header, and behind it the records of so many planes that are known to go through.
pub(crate) fn write_plan(
    board: Board,
    tasks: &[Task],
    planes: u16,
    plan: &mut [u8],
) -> Result<usize, Refusal>
    requires fine { is_ok (planes_planned planes (rest board) tasks.now no_tokens) ≡ true }
    requires room { plan_room planes (rest board) ≤ length plan.old }
    ensures answer { result ≡ Ok (length (header_bytes board.processors board.scale ++ records (planes_planned planes (rest board) tasks.now no_tokens))) }
    ensures bytes { plan.new ≡ in_front (header_bytes board.processors board.scale ++ records (planes_planned planes (rest board) tasks.now no_tokens)) plan.old }
{
    let at = write_header(plan, board.processors(), board.scale())?;
    let bytes = run_planes(board, tasks, planes, &mut plan[at..])?;
    Ok(at + bytes)
}
