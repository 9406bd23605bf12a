// Reading a plan file: opening it, and where the reader stands.
ghost use Rattle.std.specs.Prelude.{◌≡◌, true, Some, None, MatchResult};
ghost use Rattle.rows.specs.Limits.{most_processors};
ghost use Rattle.rows.specs.Tests.{within};
ghost use Rattle.plan_file.specs.Writing.{header_size};
ghost use Rattle.plan_file.specs.Opening.{open_fault, header_at};
ghost use Rattle.plan_file.specs.RoundTrip.{WrittenReads, ReadWrites, WrittenFileReads, ReadFileWrites};

use crate::header::{HEADER_SIZE, Header, read_header};
use rows::refusal::Refusal;

mod next;

/// Stands in the bytes of a plan file, at the place where the next record begins. The processors are 1 to 16.
#[derive(Drop)]
pub struct PlanReader<'a> {
    bytes: &'a [u8],
    place: usize,
    header: Header,
    ghost few: { within 1 most_processors header.processors ≡ true },
}

impl<'a> PlanReader<'a> {
    /// A reader at the first record of a plan file. Refuses other files, and numbers out of their limits.
    /// What it promises of records and files holds whatever is opened: writing and reading undo each other.
    pub fn open(bytes: &'a [u8]) -> Result<PlanReader<'a>, Refusal>
        ensures opens { MatchResult result (λ reader. (open_fault bytes.now ≡ None) × (reader.bytes ≡ bytes.entry) × (reader.place ≡ header_size) × (reader.header ≡ header_at bytes.now)) (λ e. open_fault bytes.now ≡ Some e) }
        ensures records { WrittenReads × ReadWrites }
        ensures files { WrittenFileReads × ReadFileWrites }
    {
        let header = read_header(bytes)?;
        Ok(PlanReader {
            bytes,
            place: HEADER_SIZE,
            header,
        })
    }

    /// Bytes from the file's start to where the next record begins.
    pub fn place(&self) -> usize
        ensures { result ≡ self.now.place }
    {
        self.place
    }

    /// Processors of the file, and tags of each record.
    pub fn processors(&self) -> u8
        ensures { result ≡ self.now.header.processors }
    {
        self.header.processors
    }

    /// Units in a tick.
    pub fn scale(&self) -> u32
        ensures { result ≡ self.now.header.scale }
    {
        self.header.scale
    }
}
