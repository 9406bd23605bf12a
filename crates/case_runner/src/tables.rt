// Table files, read.
use crate::edit::Edit;
use crate::tell::tell;
use cases::script::Answer;
use std::io;
use table_file::table::Table;

// Two processors, scale 3, one plane, and task 1 with (2, 3); one byte stands behind it.
const FILE: &[u8; 25] =
    b"KTB\x00\x01\x02\x00\x00\x00\x03\x00\x01\x00\x01\x00\x01\x00\x00\x00\x02\x00\x00\x00\x03\x00";

const EDITS: [Edit; 13] = [
    Edit("a whole table", 24, 0, b'K'),
    Edit("a byte less than a header, and another mark", 13, 0, b'k'),
    Edit("another first letter", 24, 0, b'k'),
    Edit("the last letter of a plan", 14, 2, b'L'),
    Edit("version 2, and a row missing", 14, 4, 2),
    Edit("version 257", 24, 3, 1),
    Edit("a byte less than a row, and no plane", 23, 11, 0),
    Edit("a byte more than a row", 25, 24, 0),
    Edit("one row for two tasks", 24, 13, 2),
    Edit("no plane", 24, 11, 0),
    Edit("no task", 14, 13, 0),
    Edit("no processor, which is the board's affair", 24, 5, 0),
    Edit("256 planes more", 24, 10, 1),
];

fn tell_table(rt: &HostRuntime, what: &str, file: &[u8]) -> io::Result<()> {
    println!(rt; "{what}")?;
    let table = match Table::open(file) {
        Ok(table) => table,
        Err(refusal) => return tell(rt, refusal.into()),
    };
    let processors = table.processors();
    let scale = table.scale();
    let planes = table.planes();
    println!(rt; "  processors {processors}, scale {scale}, planes {planes}")?;
    for row in table.rows() {
        tell(rt, Answer::TaskRow(row.tag, row.execution, row.period, 0))?;
    }
    Ok(())
}

pub fn tell_tables(rt: &HostRuntime) -> io::Result<()> {
    println!(rt; "\ntable files")?;
    for edit in &EDITS {
        let mut file = *FILE;
        tell_table(rt, edit.0, edit.make(&mut file))?;
    }
    // 257 rows of zeros
    let mut file = [0; 2584];
    file[0..14].copy_from_slice(b"KTB\x00\x01\x02\x00\x00\x00\x03\x00\x01\x01\x01");
    tell_table(rt, "257 tasks", &file)
}
