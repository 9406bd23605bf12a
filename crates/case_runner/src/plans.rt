// Plan files, written and read.
use crate::edit::Edit;
use crate::old::{OLD_BYTE, OLD_TAGS, are_all};
use crate::tell::{tell, tell_ran, tell_refused};
use plan_file::header::write_header;
use plan_file::reader::PlanReader;
use plan_file::record::{RecordHead, write_record};
use rows::refusal::Refusal;
use rows::row::Row;
use std::io;

// Two processors, scale 3, and two records.
const FILE: &[u8; 36] =
    b"KPL\x00\x01\x02\x00\x00\x00\x03\x00\x00\x00\x00\x00\x00\x00\x03\x02\x00\x01\x00\x02\x00\x00\x00\x00\x00\x00\x00\x03\x04\x00\x01\x00\x03";

const EDITS: [Edit; 19] = [
    Edit("a whole plan", 36, 0, b'K'),
    Edit("a byte less than a header, and another mark", 9, 0, b'k'),
    Edit("the last letter of a table", 10, 2, b'B'),
    Edit("version 2", 36, 4, 2),
    Edit("version 257", 36, 3, 1),
    Edit("no processor", 36, 5, 0),
    Edit("17 processors", 36, 5, 17),
    Edit("no scale", 36, 9, 0),
    Edit("too fine a scale", 36, 6, 8),
    Edit("no record", 10, 0, b'K'),
    Edit("one byte of a record", 11, 0, b'K'),
    Edit("a byte less than two records", 35, 0, b'K'),
    Edit("a length of 0", 36, 17, 0),
    Edit("a length of 2^54 and 3", 36, 11, 64),
    Edit("kind 0", 36, 18, 0),
    Edit("kind 5", 36, 18, 5),
    Edit("kind 5 behind a record", 36, 31, 5),
    Edit("a tag twice", 36, 22, 1),
    Edit("tag 0 beside another", 36, 22, 0),
];

// Reads one record more than there can be.
fn tell_plan(rt: &HostRuntime, what: &str, file: &[u8]) -> io::Result<()> {
    println!(rt; "{what}")?;
    let mut reader = match PlanReader::open(file) {
        Ok(reader) => reader,
        Err(refusal) => return tell(rt, refusal.into()),
    };
    for _ in 0..3 {
        let mut row = Row::new();
        let _ = row.fill(OLD_TAGS);
        let place = reader.place();
        match reader.next_record(&mut row) {
            Ok(Some(event)) => tell_ran(rt, event, &row)?,
            Ok(None) => println!(rt; "  none at byte {place}")?,
            Err(refusal) => {
                let same = reader.place() == place && *row.places() == OLD_TAGS;
                tell_refused(rt, refusal, same)?;
            }
        }
    }
    Ok(())
}

/// What was written at the front of old bytes, if anything.
pub fn tell_written(rt: &HostRuntime, res: Result<usize, Refusal>, bytes: &[u8]) -> io::Result<()> {
    match res {
        Ok(size) => {
            let size = size.min(bytes.len());
            let written = &bytes[0..size];
            println!(rt; "  wrote {written:?}")?;
            if !are_all(&bytes[size..], &OLD_BYTE) {
                println!(rt; "  but bytes past them have changed")?;
            }
            Ok(())
        }
        Err(refusal) => tell_refused(rt, refusal, are_all(bytes, &OLD_BYTE)),
    }
}

// A record to write: processors, length, kind and tags, into so many bytes.
struct Record(&'static str, u8, u64, u8, [u16; 16], usize);

impl Record {
    fn write(&self, bytes: &mut [u8], row: &Row) -> Result<usize, Refusal> {
        let head = RecordHead {
            length: self.2,
            kind: self.3,
        };
        let room = self.5.min(bytes.len());
        write_record(&mut bytes[0..room], self.1, head, row)
    }
}

const TWO: [u16; 16] = [1, 65535, 0, 0, 0, 0, 0, 0, 0, 0, 0, 0, 0, 0, 0, 0];

const LAST: [u16; 16] = [0, 0, 0, 0, 0, 0, 0, 0, 0, 0, 0, 0, 0, 0, 0, 7];

const RECORDS: [Record; 13] = [
    Record("a record", 2, 3, 2, TWO, 13),
    Record("all wrong", 0, 0, 0, TWO, 0),
    Record("17 processors", 17, 3, 2, TWO, 64),
    Record("a length of 0", 1, 0, 0, TWO, 0),
    Record("2^54", 2, 18014398509481984, 4, TWO, 64),
    Record("2^54 + 1", 2, 18014398509481985, 4, TWO, 64),
    Record("kind 0", 1, 3, 0, TWO, 0),
    Record("kind 5", 2, 3, 5, TWO, 13),
    Record("a tag past processor 1", 1, 3, 2, TWO, 0),
    Record("a tag past processor 15", 15, 3, 2, LAST, 64),
    Record("a byte short", 2, 3, 2, TWO, 12),
    Record("a row of 16 tags", 16, 3, 1, OLD_TAGS, 41),
    Record("a byte short for 16 tags", 16, 3, 1, OLD_TAGS, 40),
];

fn tell_record(rt: &HostRuntime, record: &Record) -> io::Result<()> {
    let what = record.0;
    println!(rt; "{what}")?;
    let mut row = Row::new();
    if let Err(refusal) = row.fill(record.4) {
        return tell(rt, refusal.into());
    }
    let mut bytes = [OLD_BYTE; 64];
    let result = record.write(&mut bytes, &row);
    tell_written(rt, result, &bytes)
}

// A header to write: processors and scale, into so many bytes.
struct Header(u8, u32, usize);

impl Header {
    fn write(&self, bytes: &mut [u8]) -> Result<usize, Refusal> {
        let room = self.2.min(bytes.len());
        write_header(&mut bytes[0..room], self.0, self.1)
    }
}

const HEADERS: [Header; 7] = [
    Header(2, 3, 10),
    Header(16, 134217728, 64),
    Header(0, 0, 0),
    Header(17, 3, 10),
    Header(1, 0, 0),
    Header(1, 134217729, 10),
    Header(1, 1, 9),
];

fn tell_header(rt: &HostRuntime, header: &Header) -> io::Result<()> {
    let processors = header.0;
    let scale = header.1;
    println!(rt; "header: processors {processors}, scale {scale}")?;
    let mut bytes = [OLD_BYTE; 64];
    let result = header.write(&mut bytes);
    tell_written(rt, result, &bytes)
}

pub fn tell_plans(rt: &HostRuntime) -> io::Result<()> {
    println!(rt; "\nplan files")?;
    for edit in &EDITS {
        let mut file = *FILE;
        tell_plan(rt, edit.0, edit.make(&mut file))?;
    }
    println!(rt; "\nrecords and headers")?;
    for record in &RECORDS {
        tell_record(rt, record)?;
    }
    for header in &HEADERS {
        tell_header(rt, header)?;
    }
    Ok(())
}
