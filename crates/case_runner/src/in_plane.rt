// Calls on an open plane.
use crate::memory::Memory;
use crate::old::{OLD_BYTE, OLD_TAGS, are_all};
use crate::play::Stage;
use crate::tell::{Numbers, tell, tell_ran, tell_refused, tell_rest};
use cases::script::{Answer, Choice};
use plan_file::header::{HEADER_SIZE, write_header};
use plan_file::reader::PlanReader;
use planner::board::Plane;
use planner::event::Finished;
use rows::refused::Refused;
use rows::row::Row;
use std::io;

pub fn step(
    rt: &HostRuntime,
    plane: &mut Plane,
    memory: &mut Memory,
    choice: Choice,
) -> io::Result<()> {
    let mut row = Row::new();
    let _ = row.fill(OLD_TAGS);
    let were = (plane.end_tick(), plane.span());
    let before = *memory;
    let rows = memory.token_rows();
    match plane.step(&mut memory.tokens[0..rows], &choice, &mut row) {
        Ok(event) => tell_ran(rt, event, &row),
        Err(refusal) => {
            let same = (plane.end_tick(), plane.span()) == were
                && *memory == before
                && *row.places() == OLD_TAGS;
            tell_refused(rt, refusal, same)
        }
    }
}

// The first records of a plan file.
fn tell_records(rt: &HostRuntime, file: &[u8], count: usize) -> io::Result<()> {
    let mut reader = match PlanReader::open(file) {
        Ok(reader) => reader,
        Err(refusal) => return tell(rt, refusal.into()),
    };
    let mut row = Row::new();
    for _ in 0..count {
        match reader.next_record(&mut row) {
            Ok(Some(event)) => tell_ran(rt, event, &row)?,
            Ok(None) => println!(rt; "  no record")?,
            Err(refusal) => tell(rt, refusal.into())?,
        }
    }
    Ok(())
}

/// The plan buffer lies behind a header, so that its records can be read again.
pub fn finish(
    rt: &HostRuntime,
    plane: &mut Plane,
    board: Numbers,
    memory: &mut Memory,
    choice: Choice,
    room: u16,
) -> io::Result<()> {
    let mut file = [OLD_BYTE; 256];
    let _ = write_header(&mut file, board.processors, board.scale);
    let were = (plane.end_tick(), plane.span());
    let before = *memory;
    let rows = memory.token_rows();
    let end = (HEADER_SIZE + usize::from(room)).min(256);
    match plane.finish(
        &mut memory.tokens[0..rows],
        &choice,
        &mut file[HEADER_SIZE..end],
    ) {
        Ok(done) => tell_finished(rt, done, &file),
        Err(refusal) => {
            let same = (plane.end_tick(), plane.span()) == were
                && *memory == before
                && are_all(&file[HEADER_SIZE..], &OLD_BYTE);
            tell_refused(rt, refusal, same)
        }
    }
}

fn tell_finished(rt: &HostRuntime, done: Finished, file: &[u8]) -> io::Result<()> {
    tell(rt, Answer::Finished(done.steps, done.bytes))?;
    let used = done.bytes.saturating_add(HEADER_SIZE).min(file.len());
    tell_records(rt, &file[0..used], done.steps)?;
    if !are_all(&file[used..], &OLD_BYTE) {
        println!(rt; "  but bytes past the records have changed")?;
    }
    Ok(())
}

pub fn end(rt: &HostRuntime, plane: Plane, board: Numbers) -> io::Result<Stage> {
    let were = (plane.end_tick(), plane.span());
    match plane.end() {
        Ok(board) => {
            tell_rest(rt, &board)?;
            Ok(Stage::Rest(board))
        }
        Err(Refused { why, back: plane }) => {
            tell_refused(rt, why, (plane.end_tick(), plane.span()) == were)?;
            Ok(Stage::Open(plane, board))
        }
    }
}
