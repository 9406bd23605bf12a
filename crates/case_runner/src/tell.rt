// Telling answers.
use crate::memory::Memory;
use cases::script::Answer;
use planner::board::{Board, Plane};
use rows::event::Event;
use rows::memory::Token;
use rows::refusal::Refusal;
use rows::row::Row;
use std::io;

pub fn tell(rt: &HostRuntime, answer: Answer) -> io::Result<()> {
    println!(rt; "  {answer}")
}

/// A refusal, after which all has to be the same.
pub fn tell_refused(rt: &HostRuntime, refusal: Refusal, same: bool) -> io::Result<()> {
    tell(rt, refusal.into())?;
    if !same {
        println!(rt; "  but something has changed")?;
    }
    Ok(())
}

pub fn tell_rest(rt: &HostRuntime, board: &Board) -> io::Result<()> {
    tell(
        rt,
        Answer::AtRest(board.tick(), board.count(), board.load()),
    )
}

/// A segment and its row.
pub fn tell_ran(rt: &HostRuntime, event: Event, row: &Row) -> io::Result<()> {
    tell(
        rt,
        Answer::Ran(event.length, event.kind.into(), *row.places()),
    )
}

fn tell_tokens(rt: &HostRuntime, tokens: &[Token]) -> io::Result<()> {
    for token in tokens {
        tell(rt, (*token).into())?;
    }
    Ok(())
}

/// A plane and its tokens.
pub fn tell_plane(rt: &HostRuntime, plane: &Plane, count: u16, tokens: &[Token]) -> io::Result<()> {
    tell(rt, Answer::InPlane(plane.end_tick(), plane.span()))?;
    let count = usize::from(count).min(tokens.len());
    tell_tokens(rt, &tokens[0..count])
}

/// All rows that are lent.
pub fn tell_memory(rt: &HostRuntime, memory: &Memory) -> io::Result<()> {
    for task in &memory.tasks[0..memory.task_rows()] {
        tell(rt, (*task).into())?;
    }
    tell_tokens(rt, &memory.tokens[0..memory.token_rows()])
}

/// The numbers of a board.
#[derive(Clone, Copy, PartialEq, Eq)]
pub struct Numbers {
    pub processors: u8,
    pub scale: u32,
    pub tick: u32,
    pub count: u16,
    pub load: u32,
}

impl From<&Board> for Numbers {
    fn from(board: &Board) -> Numbers {
        Numbers {
            processors: board.processors(),
            scale: board.scale(),
            tick: board.tick(),
            count: board.count(),
            load: board.load(),
        }
    }
}
