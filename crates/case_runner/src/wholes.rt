// Whole plans, from the bytes of a table.
use crate::edit::Edit;
use crate::old::OLD_BYTE;
use crate::plans::tell_written;
use rows::refusal::Refusal;
use std::io;
use whole_plan::whole::whole_plan;

// Three tasks (2, 3) on two processors, scale 3, one plane.
const THREE: &[u8; 44] =
    b"KTB\x00\x01\x02\x00\x00\x00\x03\x00\x01\x00\x03\x00\x01\x00\x00\x00\x02\x00\x00\x00\x03\x00\x02\x00\x00\x00\x02\x00\x00\x00\x03\x00\x03\x00\x00\x00\x02\x00\x00\x00\x03";

// One task of the longest period on one processor, 17 planes.
const LONGEST: &[u8; 24] =
    b"KTB\x00\x01\x01\x08\x00\x00\x00\x00\x11\x00\x01\x00\x01\x00\x00\x00\x01\x08\x00\x00\x00";

// Each with the bytes of the plan buffer.
const EDITS: [(Edit, usize); 13] = [
    (Edit("three tasks", 44, 0, b'K'), 62),
    (Edit("a byte short", 44, 0, b'K'), 61),
    (Edit("a byte less than the table, no room", 43, 0, b'K'), 0),
    (Edit("no processor, no room", 44, 5, 0), 0),
    (Edit("no scale", 44, 9, 0), 62),
    (Edit("tag 0", 44, 15, 0), 62),
    (Edit("no execution time", 44, 19, 0), 62),
    (Edit("more execution time than the period", 44, 29, 4), 62),
    (
        Edit("a period that does not divide the scale", 44, 33, 2),
        62,
    ),
    (Edit("a tag twice", 44, 35, 1), 62),
    (Edit("one processor", 44, 5, 1), 62),
    (Edit("two planes in the room of one", 44, 11, 2), 62),
    (Edit("two planes", 44, 11, 2), 114),
];

const LONG_EDITS: [(Edit, usize); 3] = [
    (
        Edit("17 planes to past the last tick, no room", 24, 0, b'K'),
        0,
    ),
    (Edit("16 planes, a byte short", 24, 11, 16), 361),
    (Edit("16 planes", 24, 11, 16), 362),
];

fn plan_into(table: &[u8], bytes: &mut [u8], room: usize) -> Result<usize, Refusal> {
    let room = room.min(bytes.len());
    whole_plan(table, &mut bytes[0..room])
}

fn tell_whole(rt: &HostRuntime, what: &str, table: &[u8], room: usize) -> io::Result<()> {
    println!(rt; "{what}")?;
    let mut bytes = [OLD_BYTE; 400];
    let result = plan_into(table, &mut bytes, room);
    tell_written(rt, result, &bytes)
}

pub fn tell_wholes(rt: &HostRuntime) -> io::Result<()> {
    println!(rt; "\nwhole plans")?;
    for (edit, room) in &EDITS {
        let mut table = *THREE;
        tell_whole(rt, edit.0, edit.make(&mut table), *room)?;
    }
    for (edit, room) in &LONG_EDITS {
        let mut table = *LONGEST;
        tell_whole(rt, edit.0, edit.make(&mut table), *room)?;
    }
    Ok(())
}
