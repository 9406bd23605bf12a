// Whole plan files, read to their end.
ghost use Rattle.std.specs.Prelude.{◌≡◌, ◌≤◌, ◌++◌, length, drop, is_ok, if◌then◌else◌, None, Ok};
ghost use Rattle.plan_file.specs.Faults.{answered};
ghost use Rattle.plan_file.specs.Files.{file_fault, file_records, rewrite_fault};

use crate::header::write_header;
use crate::plan::append_record;
use crate::reader::PlanReader;
use crate::record::RecordHead;
use rows::refusal::Refusal;
use rows::row::Row;

/// How many records a plan file has. Refuses as opening it and reading it to its end would.
pub fn count_records(file: &[u8]) -> Result<usize, Refusal>
    ensures { result ≡ answered (file_fault file.now) (file_records file.now) }
{
    let mut reader = PlanReader::open(file)?;
    let mut row = Row::new();
    let mut count = 0;
    while let Some(_) = reader.next_record(&mut row)? {
        count += 1;
    }
    Ok(count)
}

fn write_again(file: &[u8], out: &mut [u8]) -> Result<usize, Refusal>
    requires faultless { file_fault file.now ≡ None }
    requires room { length file.now ≤ length out.old }
    ensures answer { result ≡ Ok (length file.now) }
    ensures bytes { out.new ≡ file.now ++ drop (length file.now) out.old }
{
    let mut reader = PlanReader::open(file)?;
    let processors = reader.processors();
    let mut at = write_header(out, processors, reader.scale())?;
    let mut row = Row::new();
    while let Some(event) = reader.next_record(&mut row)? {
        at = append_record(out, at, processors, RecordHead::from(event), &row)?;
    }
    Ok(at)
}

/// Reads a plan file to its end and writes its header and records again, at the front of `out`: the same bytes. Bytes past them stay as they are.
/// Refuses, and writes nothing, where the file does not read to its end or there is no room.
pub fn rewrite(file: &[u8], out: &mut [u8]) -> Result<usize, Refusal>
    ensures answer { result ≡ answered (rewrite_fault file.now (length out.old)) (length file.now) }
    ensures bytes { out.new ≡ (if is_ok result then file.now ++ drop (length file.now) out.old else out.old) }
{
    count_records(file)?;
    if out.len() < file.len() {
        return Err(Refusal::BufferShort);
    }
    write_again(file, out)
}
