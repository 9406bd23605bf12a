// Plays scripts on a board, call by call, and tells each answer.
use crate::memory::Memory;
use crate::tell::{Numbers, tell_memory, tell_refused, tell_rest};
use crate::{at_rest, in_plane};
use cases::script::{Ask, Script};
use planner::board::{Board, Plane};
use std::io;

/// A board at rest, or one whose plane is open.
#[derive(Drop)]
pub enum Stage {
    Rest(Board),
    /// with the numbers that the board had at its start
    Open(Plane, Numbers),
}

fn ask_board(
    rt: &HostRuntime,
    mut board: Board,
    memory: &mut Memory,
    ask: Ask,
) -> io::Result<Stage> {
    match ask {
        Ask::Admit(tag, execution, period) => {
            at_rest::call(rt, &mut board, memory, |board, tasks| {
                board.admit(tasks, tag, execution, period)
            })?;
        }
        Ask::Withdraw(tag) => {
            at_rest::call(
                rt,
                &mut board,
                memory,
                |board, tasks| board.withdraw(tasks, tag),
            )?;
        }
        Ask::Start => return at_rest::start(rt, board, memory),
        _ => {}
    }
    Ok(Stage::Rest(board))
}

fn ask_plane(
    rt: &HostRuntime,
    mut plane: Plane,
    board: Numbers,
    memory: &mut Memory,
    ask: Ask,
) -> io::Result<Stage> {
    match ask {
        Ask::Step(choice) => in_plane::step(rt, &mut plane, memory, choice)?,
        Ask::Finish(choice, room) => in_plane::finish(rt, &mut plane, board, memory, choice, room)?,
        Ask::End => return in_plane::end(rt, plane, board),
        _ => {}
    }
    Ok(Stage::Open(plane, board))
}

fn ask_one(rt: &HostRuntime, stage: Stage, memory: &mut Memory, ask: Ask) -> io::Result<Stage> {
    println!(rt; "{ask}")?;
    match ask {
        Ask::Bring(change) => memory.change(change),
        Ask::Show => tell_memory(rt, memory)?,
        _ => {}
    }
    match stage {
        Stage::Rest(board) => ask_board(rt, board, memory, ask),
        Stage::Open(plane, numbers) => ask_plane(rt, plane, numbers, memory, ask),
    }
}

/// Asks one line after the other.
pub fn go_on(
    rt: &HostRuntime,
    stage: Stage,
    memory: &mut Memory,
    script: &[Ask],
) -> io::Result<Stage> {
    let mut stage = stage;
    for ask in script {
        stage = ask_one(rt, stage, memory, *ask)?;
    }
    Ok(stage)
}

/// Opens a board, and asks one line after the other; none where it is refused.
pub fn begin(rt: &HostRuntime, script: Script, memory: &mut Memory) -> io::Result<Option<Stage>> {
    let name = script.name;
    let processors = script.processors;
    let scale = script.scale;
    println!(rt; "\n{name}: processors {processors}, scale {scale}")?;
    match Board::open(processors, scale) {
        Ok(board) => {
            tell_rest(rt, &board)?;
            let stage = go_on(rt, Stage::Rest(board), memory, script.asks)?;
            Ok(Some(stage))
        }
        Err(refusal) => {
            tell_refused(rt, refusal, true)?;
            Ok(None)
        }
    }
}

/// Plays a whole script.
pub fn play(rt: &HostRuntime, script: Script) -> io::Result<()> {
    let mut memory = Memory::new(script.rows);
    let _ = begin(rt, script, &mut memory)?;
    Ok(())
}
