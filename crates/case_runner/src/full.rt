// A board with as many tasks as it can have, and memory of just so many rows or one more.
use crate::tell::{tell, tell_refused, tell_rest};
use cases::script::Answer;
use planner::board::{Board, Plane};
use rows::memory::{Task, Token};
use rows::refusal::Refusal;
use rules::standard::LargestFirst;
use std::io;

// The tasks 256 to 1, each in front of all before it.
fn admit_all(board: &mut Board, tasks: &mut [Task]) -> Result<(), Refusal> {
    for tag in (1..=256).rev() {
        board.admit(tasks, tag, 1, 256)?;
    }
    Ok(())
}

fn tell_plane_out(rt: &HostRuntime, mut plane: Plane, tokens: &mut [Token]) -> io::Result<()> {
    tell(rt, Answer::InPlane(plane.end_tick(), plane.span()))?;
    let mut plan = [0; 2827];
    match plane.finish(tokens, &LargestFirst, &mut plan) {
        Ok(done) => tell(rt, Answer::Finished(done.steps, done.bytes))?,
        Err(refusal) => tell(rt, refusal.into())?,
    }
    match plane.end() {
        Ok(board) => tell_rest(rt, &board),
        Err(refused) => tell(rt, Refusal::from(refused).into()),
    }
}

fn tell_full_board(rt: &HostRuntime, mut board: Board) -> io::Result<()> {
    let mut tasks = [Task::default(); 257];
    if let Err(refusal) = admit_all(&mut board, &mut tasks) {
        return tell(rt, refusal.into());
    }
    tell_rest(rt, &board)?;
    let before = tasks;
    if let Err(refusal) = board.admit(&mut tasks, 257, 1, 256) {
        tell_refused(rt, refusal, tasks == before)?;
    }
    let mut tokens = [Token::default(); 256];
    match board.start(&tasks, &mut tokens) {
        Ok(plane) => tell_plane_out(rt, plane, &mut tokens),
        Err(refused) => tell(rt, Refusal::from(refused).into()),
    }
}

pub fn tell_full(rt: &HostRuntime) -> io::Result<()> {
    println!(rt; "\n256 tasks (1, 256): processors 1, scale 256")?;
    match Board::open(1, 256) {
        Ok(board) => tell_full_board(rt, board),
        Err(refusal) => tell(rt, refusal.into()),
    }
}
