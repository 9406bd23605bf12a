// Shows a plan file from standard input as text that a person reads.
// Any bytes end in text: the plan, or the fault that stopped the reading and the byte where it stands.
#![tactic(auto)]

use plan_file::reader::PlanReader;
use rows::refusal::Refusal;
use rows::row::Row;
use std::io;
use std::io::Read;

mod line;

use line::Line;

// A longer file is not shown, and a line says so.
const LONGEST_FILE: u64 = 1048576;

fn show_fault(rt: &HostRuntime, refusal: Refusal, place: usize) -> io::Result<()> {
    let number = u8::from(refusal);
    println!(rt; "fault {number} at byte {place}: {refusal}")
}

fn show_records(rt: &HostRuntime, mut reader: PlanReader) -> io::Result<()> {
    let processors = reader.processors();
    let mut row = Row::new();
    // Lengths of 2^54 can pass 64 bits together, but not 128 in a file that is shown.
    let mut start: u128 = 0;
    loop {
        match reader.next_record(&mut row) {
            Ok(Some(event)) => {
                let line = Line {
                    start,
                    event,
                    row: &row,
                    processors,
                };
                println!(rt; "{line}")?;
                start = start.saturating_add(u128::from(event.length));
            }
            Ok(None) => return Ok(()),
            Err(refusal) => return show_fault(rt, refusal, reader.place()),
        }
    }
}

fn show(rt: &HostRuntime, file: &[u8]) -> io::Result<()> {
    match PlanReader::open(file) {
        Ok(reader) => {
            let processors = reader.processors();
            let scale = reader.scale();
            println!(rt; "processors {processors}, scale {scale}")?;
            show_records(rt, reader)
        }
        Err(refusal) => show_fault(rt, refusal, 0),
    }
}

fn main(rt: HostRuntime) -> anyhow::Result<()> {
    let mut file = Vec::new(rt.alloc());
    let n = rt.stdin().take(LONGEST_FILE + 1).read_to_end(&mut file)?;
    if n as u64 > LONGEST_FILE {
        println!(rt; "the file is longer than {LONGEST_FILE} bytes")?;
        return Ok(());
    }
    show(&rt, &file)?;
    Ok(())
}
