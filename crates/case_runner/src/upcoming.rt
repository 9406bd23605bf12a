// The releases ahead of a board.
use crate::old::are_all;
use crate::tell::{tell, tell_refused};
use ahead::release::{Due, Release};
use planner::board::Board;
use rows::memory::Task;
use rows::refusal::Refusal;
use std::io;

const OLD_DUE: Due = Due {
    tick: 91,
    tag: 92,
    period: 93,
};

const OLD_RELEASE: Release = Release { tick: 94, tag: 95 };

// Lists the releases over so much queue memory.
fn tell_ahead(
    rt: &HostRuntime,
    board: &Board,
    tasks: &[Task],
    rows: usize,
    places: &mut [Release],
) -> io::Result<()> {
    let count = places.len();
    println!(rt; "ahead, {rows} rows for the queue, {count} places")?;
    let mut memory = [OLD_DUE; 3];
    match ahead_over(board, tasks, &mut memory, rows, places) {
        Ok(()) => {
            for release in places.iter() {
                let tick = release.tick;
                let tag = release.tag;
                println!(rt; "  {tick}/{tag}")?;
            }
            Ok(())
        }
        Err(refusal) => {
            let same = are_all(&memory, &OLD_DUE) && are_all(places, &OLD_RELEASE);
            tell_refused(rt, refusal, same)
        }
    }
}

fn ahead_over(
    board: &Board,
    tasks: &[Task],
    memory: &mut [Due],
    rows: usize,
    places: &mut [Release],
) -> Result<(), Refusal> {
    let rows = rows.min(memory.len());
    board.ahead(tasks, &mut memory[0..rows], places)
}

fn tell_two_tasks(rt: &HostRuntime, mut board: Board) -> io::Result<()> {
    let mut tasks = [Task::default(); 3];
    tell_ahead(rt, &board, &tasks, 0, &mut [OLD_RELEASE; 5])?;
    let _ = board.admit(&mut tasks, 1, 1, 2);
    let _ = board.admit(&mut tasks, 2, 1, 3);
    tell_ahead(rt, &board, &tasks, 2, &mut [OLD_RELEASE; 5])?;
    tell_ahead(rt, &board, &tasks, 2, &mut [])?;
    tell_ahead(rt, &board, &tasks, 1, &mut [OLD_RELEASE; 5])?;
    tell_ahead(rt, &board, &tasks, 2, &mut [OLD_RELEASE; 65537])?;
    tell_ahead(rt, &board, &[Task::default()], 1, &mut [OLD_RELEASE; 5])
}

pub fn tell_upcoming(rt: &HostRuntime) -> io::Result<()> {
    println!(rt; "\ntasks (1, 2) and (1, 3): processors 1, scale 6")?;
    match Board::open(1, 6) {
        Ok(board) => tell_two_tasks(rt, board),
        Err(refusal) => tell(rt, refusal.into()),
    }
}
