// Plans the example tables, reads each plan to its end, and writes it again.
#![tactic(auto)]

use plan_file::whole::{count_records, rewrite};
use rows::refusal::Refusal;
use std::io;
use whole_plan::whole::whole_plan;

// Three tasks (2, 3) on two processors, scale 3, one plane.
const THREE: &[u8; 44] =
    b"KTB\x00\x01\x02\x00\x00\x00\x03\x00\x01\x00\x03\x00\x01\x00\x00\x00\x02\x00\x00\x00\x03\x00\x02\x00\x00\x00\x02\x00\x00\x00\x03\x00\x03\x00\x00\x00\x02\x00\x00\x00\x03";

// The eight tasks of the LLREF study on four processors, scale 68,191,760, ten planes.
const EIGHT: &[u8; 94] =
    b"KTB\x00\x01\x04\x04\x10\x86\x10\x00\x0a\x00\x08\x00\x01\x00\x00\x00\x03\x00\x00\x00\x07\x00\x02\x00\x00\x00\x01\x00\x00\x00\x10\x00\x03\x00\x00\x00\x05\x00\x00\x00\x13\x00\x04\x00\x00\x00\x04\x00\x00\x00\x05\x00\x05\x00\x00\x00\x02\x00\x00\x00\x1a\x00\x06\x00\x00\x00\x0f\x00\x00\x00\x1a\x00\x07\x00\x00\x00\x14\x00\x00\x00\x1d\x00\x08\x00\x00\x00\x0e\x00\x00\x00\x11";

// The same on three processors.
const OVERLOAD: &[u8; 94] =
    b"KTB\x00\x01\x03\x04\x10\x86\x10\x00\x0a\x00\x08\x00\x01\x00\x00\x00\x03\x00\x00\x00\x07\x00\x02\x00\x00\x00\x01\x00\x00\x00\x10\x00\x03\x00\x00\x00\x05\x00\x00\x00\x13\x00\x04\x00\x00\x00\x04\x00\x00\x00\x05\x00\x05\x00\x00\x00\x02\x00\x00\x00\x1a\x00\x06\x00\x00\x00\x0f\x00\x00\x00\x1a\x00\x07\x00\x00\x00\x14\x00\x00\x00\x1d\x00\x08\x00\x00\x00\x0e\x00\x00\x00\x11";

fn tell_refused(rt: &HostRuntime, refusal: Refusal) -> io::Result<()> {
    let number = u8::from(refusal);
    println!(rt; "refused {number}")
}

// Reads a plan and writes it again, over other bytes.
fn tell_again(rt: &HostRuntime, plan: &[u8], again: &mut [u8]) -> io::Result<()> {
    let size = match rewrite(plan, again) {
        Ok(size) => size.min(again.len()),
        Err(refusal) => return tell_refused(rt, refusal),
    };
    let same = again[0..size] == plan[..];
    println!(rt; "written again: {size} bytes, the same: {same}")
}

fn tell_plan(rt: &HostRuntime, plan: &[u8]) -> io::Result<()> {
    match count_records(plan) {
        Ok(records) => println!(rt; "planned: {records} records")?,
        Err(refusal) => tell_refused(rt, refusal)?,
    }
    let mut again = [0; 1540];
    tell_again(rt, plan, &mut again)
}

fn tell_table(rt: &HostRuntime, table: &[u8], room: &mut [u8]) -> io::Result<()> {
    match whole_plan(table, room) {
        Ok(size) => {
            let size = size.min(room.len());
            tell_plan(rt, &room[0..size])
        }
        Err(refusal) => tell_refused(rt, refusal),
    }
}

fn main(rt: HostRuntime) -> io::Result<()> {
    let mut room = [0; 1540];
    tell_table(&rt, THREE, &mut room)?;
    tell_table(&rt, EIGHT, &mut room)?;
    tell_table(&rt, OVERLOAD, &mut room)
}
