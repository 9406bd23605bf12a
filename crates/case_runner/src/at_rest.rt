// Calls on a board at rest.
use crate::memory::Memory;
use crate::play::Stage;
use crate::tell::{Numbers, tell_plane, tell_refused, tell_rest};
use planner::board::Board;
use rows::memory::Task;
use rows::refusal::Refusal;
use rows::refused::Refused;
use std::io;

/// Makes a call on the board and its task memory, and tells what it answers. A refusal has to leave all as it was.
pub(crate) fn call<F>(
    rt: &HostRuntime,
    board: &mut Board,
    memory: &mut Memory,
    make: F,
) -> io::Result<()>
where
    F: FnOnce(&mut Board, &mut [Task]) -> Result<(), Refusal>,
    requires { F.IsAlwaysCallable make }
{
    let were = Numbers::from(&*board);
    let before = *memory;
    let rows = memory.task_rows();
    match make(board, &mut memory.tasks[0..rows]) {
        Ok(()) => tell_rest(rt, board),
        Err(refusal) => {
            let same = Numbers::from(&*board) == were && *memory == before;
            tell_refused(rt, refusal, same)
        }
    }
}

pub fn start(rt: &HostRuntime, board: Board, memory: &mut Memory) -> io::Result<Stage> {
    let were = Numbers::from(&board);
    let before = *memory;
    let tasks = memory.tasks_copied();
    let rows = memory.token_rows();
    match board.start(&tasks[0..memory.task_rows()], &mut memory.tokens[0..rows]) {
        Ok(plane) => {
            tell_plane(rt, &plane, were.count, &memory.tokens[0..rows])?;
            Ok(Stage::Open(plane, were))
        }
        Err(Refused { why, back: board }) => {
            let same = Numbers::from(&board) == were && *memory == before;
            tell_refused(rt, why, same)?;
            Ok(Stage::Rest(board))
        }
    }
}
