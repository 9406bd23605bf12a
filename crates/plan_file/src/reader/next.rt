// The next record of a plan file.
ghost use Rattle.std.specs.Prelude.{◌≡◌, ◌+◌, ◌-◌, ◌*◌, ◌≤◌, ◌++◌, length, replicate};
ghost use Rattle.plan_file.specs.Records.{tags_at};
ghost use Rattle.plan_file.specs.Faults.{answered, answer_map};
ghost use Rattle.plan_file.specs.Heads.{head_at, head_fault, event_head};
ghost use Rattle.plan_file.specs.Reading.{in_heads, next_answer, row_after, taken_size};
ghost use Rattle.plan_file.specs.Views.{left};

use crate::reader::PlanReader;
use crate::record::{RecordHead, record_size};
use rows::event::Event;
use rows::refusal::Refusal;
use rows::row::Row;

fn read_head(bytes: &[u8]) -> Result<Event, Refusal>
    requires { 9 ≤ length bytes.now }
    ensures { answer_map event_head result ≡ answered (head_fault (head_at bytes.now)) (head_at bytes.now) }
{
    let Some((length, [kind, ..])) = bytes.split_first_chunk() else {
        unreachable()
    };
    Event::try_from(RecordHead {
        length: u64::from_be_bytes(*length),
        kind: *kind,
    })
}

fn read_tags(bytes: &[u8], processors: usize) -> [u16; 16]
    requires { (processors ≤ 16) × (2 * processors ≤ length bytes.now) }
    ensures { result ≡ tags_at processors bytes.now ++ replicate (16 - processors) 0 }
{
    let (pairs, _) = bytes[..2 * processors].as_chunks();
    let mut tags = [0; 16];
    for (i, pair) in pairs.iter().enumerate() {
        tags[i] = u16::from_be_bytes(*pair);
    }
    tags
}

impl PlanReader<'_> {
    /// The event of the next record, whose tags go into `row`; none, and nothing is filled, where no byte is left.
    /// A refusal leaves the reader where it is and the row as it was.
    pub fn next_record(&mut self, row: &mut Row) -> Result<Option<Event>, Refusal>
        ensures answer { in_heads result ≡ next_answer self.old.header.processors (left self.old) }
        ensures fills { row.new.places ≡ row_after self.old.header.processors (left self.old) row.old.places }
        ensures moves { self.new.place ≡ self.old.place + taken_size self.old.header.processors (left self.old) }
        ensures same { (self.new.bytes ≡ self.old.bytes) × (self.new.header ≡ self.old.header) }
    {
        if self.place >= self.bytes.len() {
            return Ok(None);
        }
        let rest = &self.bytes[self.place..];
        let size = record_size(self.header.processors);
        if rest.len() < size {
            return Err(Refusal::RecordShort);
        }
        let event = read_head(rest)?;
        row.fill(read_tags(&rest[9..], usize::from(self.header.processors)))?;
        self.place += size;
        Ok(Some(event))
    }
}
