// Reading a table file, row by row.
ghost use Rattle.std.specs.Prelude.{◌≡◌, ◌≤◌, length, Some, None, MatchResult, slice_index};
ghost use Rattle.plan_file.specs.Bytes.{at16, at32};
ghost use Rattle.table_file.specs.Left.{rows_left};
ghost use Rattle.table_file.specs.Tables.{table_fault, table_processors, table_scale, table_planes, table_count, table_row, table_rows};

use rows::limits::MOST_TASKS;
use rows::refusal::Refusal;

// Bytes before the first row.
const HEADER_SIZE: usize = 14;

// Bytes of a row.
const ROW_SIZE: usize = 10;

// The version of the files that are read here.
const VERSION: u16 = 1;

/// A task as a table file has it: without a release, which is the board's to set.
#[derive(Clone, Copy, PartialEq, Eq, Debug)]
pub struct TableRow {
    pub tag: u16,
    pub execution: u32,
    pub period: u32,
}

impl From<&[u8; ROW_SIZE]> for TableRow {
    ghost use Rattle.table_file.specs.Tables.{row_at};

    ghost from_gives = { λ bytes row. row ≡ row_at bytes.now 0 };

    fn from(bytes: &[u8; ROW_SIZE]) -> TableRow {
        let [t1, t2, c1, c2, c3, c4, p1, p2, p3, p4] = bytes;
        TableRow {
            tag: u16::from_be_bytes([*t1, *t2]),
            execution: u32::from_be_bytes([*c1, *c2, *c3, *c4]),
            period: u32::from_be_bytes([*p1, *p2, *p3, *p4]),
        }
    }
}

/// The rows of a table that are still to come, in the order of the file.
#[derive(Drop)]
pub struct Rows<'a> {
    rest: &'a [u8],
}

impl Iterator for Rows<'_> {
    type Item = TableRow;

    ghost use Rattle.std.specs.Iterator.{YieldsFirst, item_count};
    ghost use Rattle.table_file.specs.Left.{rows_left};

    ghost next_gives = { YieldsFirst rows_left };

    ghost remaining = { item_count rows_left };

    fn next(&mut self) -> Option<TableRow> {
        let (row, rest) = self.rest.split_first_chunk::<ROW_SIZE>()?;
        self.rest = rest;
        Some(TableRow::from(row))
    }
}

// The numbers in front of the rows.
#[derive(Clone, Copy, PartialEq, Eq, Debug)]
struct Sizes {
    processors: u8,
    scale: u32,
    planes: u16,
    count: u16,
}

/// Stands over the bytes of a table file. They are a whole table, and its sizes are those of the bytes.
#[derive(Drop)]
pub struct Table<'a> {
    bytes: &'a [u8],
    sizes: Sizes,
    pub ghost whole: { table_fault bytes.now ≡ None },
    pub ghost sized: { (sizes.processors ≡ table_processors bytes.now) × (sizes.scale ≡ table_scale bytes.now) × (sizes.planes ≡ table_planes bytes.now) × (sizes.count ≡ table_count bytes.now) },
}

fn read_sizes(rest: &[u8]) -> Sizes
    requires { 9 ≤ length rest.now }
    ensures { (result.processors ≡ slice_index rest.now 0) × (result.scale ≡ at32 rest.now 1) × (result.planes ≡ at16 rest.now 5) × (result.count ≡ at16 rest.now 7) }
{
    let [processors, q1, q2, q3, q4, p1, p2, n1, n2, ..] = rest else {
        unreachable()
    };
    Sizes {
        processors: *processors,
        scale: u32::from_be_bytes([*q1, *q2, *q3, *q4]),
        planes: u16::from_be_bytes([*p1, *p2]),
        count: u16::from_be_bytes([*n1, *n2]),
    }
}

impl<'a> Table<'a> {
    /// The table in a file's bytes. Refuses what is no whole table file, no planes, and no tasks or too many.
    pub fn open(bytes: &'a [u8]) -> Result<Table<'a>, Refusal>
        ensures { MatchResult result (λ table. (table_fault bytes.now ≡ None) × (table.bytes ≡ bytes.entry)) (λ e. table_fault bytes.now ≡ Some e) }
    {
        if bytes.len() < HEADER_SIZE {
            return Err(Refusal::TableShort);
        }
        // Not shared with plan files: what would be shared is a pattern with other letters and other refusals.
        let [b'K', b'T', b'B', v1, v2, rest @ ..] = bytes else {
            return Err(Refusal::Mark);
        };
        if u16::from_be_bytes([*v1, *v2]) != VERSION {
            return Err(Refusal::Version);
        }
        let sizes = read_sizes(rest);
        if bytes.len() != HEADER_SIZE + ROW_SIZE * usize::from(sizes.count) {
            return Err(Refusal::TableLength);
        }
        if sizes.planes < 1 {
            return Err(Refusal::NoPlanes);
        }
        if sizes.count < 1 || sizes.count > MOST_TASKS {
            return Err(Refusal::TaskCount);
        }
        Ok(Table { bytes, sizes })
    }

    /// Processors of the board, as the file has them.
    pub fn processors(&self) -> u8
        ensures { result ≡ table_processors self.now.bytes.now }
    {
        self.sizes.processors
    }

    /// Units in a tick, as the file has them.
    pub fn scale(&self) -> u32
        ensures { result ≡ table_scale self.now.bytes.now }
    {
        self.sizes.scale
    }

    /// How many planes to plan.
    pub fn planes(&self) -> u16
        ensures { result ≡ table_planes self.now.bytes.now }
    {
        self.sizes.planes
    }

    /// How many rows there are.
    pub fn count(&self) -> u16
        ensures { result ≡ table_count self.now.bytes.now }
    {
        self.sizes.count
    }

    /// Row `i` of the file, from 0; none past the last.
    pub fn row(&self, i: u16) -> Option<TableRow>
        ensures { result ≡ table_row self.now.bytes.now i }
    {
        let place = HEADER_SIZE + ROW_SIZE * usize::from(i);
        if self.bytes.len() < place + ROW_SIZE {
            return None;
        }
        let [t1, t2, c1, c2, c3, c4, p1, p2, p3, p4, ..] = &self.bytes[place..] else {
            return None;
        };
        Some(TableRow::from(&[*t1, *t2, *c1, *c2, *c3, *c4, *p1, *p2, *p3, *p4]))
    }

    /// The rows, in the order of the file.
    pub fn rows(&self) -> Rows<'_>
        ensures { rows_left result ≡ table_rows self.now.bytes.now }
    {
        Rows {
            rest: &self.bytes[HEADER_SIZE..],
        }
    }
}
