// One record: length (8 bytes), kind (1) and a tag (2) for each processor.
ghost use Rattle.std.specs.Prelude.{◌≡◌, ◌+◌, ◌*◌, ◌<◌, ◌≤◌, true, [], ◌∷◌, ◌++◌, length, drop, is_ok, if◌then◌else◌, nat_eq};
ghost use Rattle.rows.specs.Tests.{all};
ghost use Rattle.plan_file.specs.Bytes.{be64};
ghost use Rattle.plan_file.specs.Records.{record_size, record_bytes, tag_bytes};
ghost use Rattle.plan_file.specs.Faults.{answered};
ghost use Rattle.plan_file.specs.Heads.{segment, head_fault};
ghost use Rattle.plan_file.specs.Writing.{write_fault};
ghost use Rattle.plan_file.specs.RoundTrip.{ReadsAs};

use rows::event::Event;
use rows::kind::Kind;
use rows::limits::{LONGEST_SPAN, check_processors};
use rows::refusal::Refusal;
use rows::row::Row;

/// What stands before the tags in a record: the segment's length in units, and the number of its kind.
#[derive(Clone, Copy, PartialEq, Eq, Debug)]
pub struct RecordHead {
    pub length: u64,
    // a number and no `Kind`: any may be asked to be written, and one that is none is refused
    pub kind: u8,
}

impl RecordHead {
    /// Refuses a length or a kind that is out of its limits.
    pub fn check(self) -> Result<(), Refusal>
        ensures { result ≡ answered (head_fault self) tt }
    {
        Event::try_from(self)?;
        Ok(())
    }
}

impl From<Event> for RecordHead {
    ghost use Rattle.plan_file.specs.Heads.{event_head};

    ghost from_gives = { λ event head. head ≡ event_head event };

    fn from(event: Event) -> RecordHead {
        RecordHead {
            length: event.length,
            kind: u8::from(event.kind),
        }
    }
}

/// Refuses a length or a kind that is out of its limits.
impl TryFrom<RecordHead> for Event {
    type Error = Refusal;

    ghost use Rattle.plan_file.specs.Faults.{answered, answer_map};
    ghost use Rattle.plan_file.specs.Heads.{event_head, head_fault};

    ghost try_from_gives = { λ head result. answer_map event_head result ≡ answered (head_fault head) head };

    fn try_from(head: RecordHead) -> Result<Event, Refusal> {
        if !(1..=LONGEST_SPAN).contains(&head.length) {
            return Err(Refusal::Length);
        }
        Ok(Event {
            length: head.length,
            kind: Kind::try_from(head.kind)?,
        })
    }
}

/// Bytes of a record with a tag for each of so many processors.
pub fn record_size(processors: u8) -> usize
    ensures { result ≡ record_size processors }
{
    9 + 2 * usize::from(processors)
}

fn all_zero(tags: &[u16]) -> bool
    ensures { result ≡ all (λ t. nat_eq t 0) tags.now }
{
    tags.iter().all(|tag| *tag == 0)
}

fn put_tags(buf: &mut [u8], tags: &[u16])
    requires { 2 * length tags.now ≤ length buf.old }
    ensures { buf.new ≡ tag_bytes tags.now ++ drop (2 * length tags.now) buf.old }
{
    // The places are counted: behind a loop over the chunks of `buf` a proof knows its length alone.
    for (i, tag) in tags.iter().enumerate() {
        let [high, low] = tag.to_be_bytes();
        buf[2 * i] = high;
        buf[2 * i + 1] = low;
    }
}

fn put_head(buf: &mut [u8], head: RecordHead)
    requires { 9 ≤ length buf.old }
    ensures { buf.new ≡ (be64 head.length ++ head.kind ∷ []) ++ drop 9 buf.old }
{
    buf[0..8].copy_from_slice(&head.length.to_be_bytes());
    buf[8] = head.kind;
}

/// Lays out a record at the front of `buf`. Whether it is one that a plan may have is asked by `write_record`; where there
/// is no room, nothing is written.
pub fn put_record(buf: &mut [u8], head: RecordHead, tags: &[u16])
    ensures bytes { record_size (length tags.now) ≤ length buf.old → buf.new ≡ (be64 head.length ++ head.kind ∷ tag_bytes tags.now) ++ drop (record_size (length tags.now)) buf.old }
    ensures short { length buf.old < record_size (length tags.now) → buf.new ≡ buf.old }
{
    if buf.len() < 9 || (buf.len() - 9) / 2 < tags.len() {
        return;
    }
    put_head(buf, head);
    put_tags(&mut buf[9..], tags);
}

fn check_record(processors: u8, head: RecordHead, row: &Row, room: usize) -> Result<(), Refusal>
    ensures { result ≡ answered (write_fault processors (segment head row.now.places) room) tt }
{
    check_processors(processors)?;
    head.check()?;
    if !all_zero(&row.places()[usize::from(processors)..]) {
        return Err(Refusal::TagPastProcessors);
    }
    if room < record_size(processors) {
        return Err(Refusal::BufferShort);
    }
    Ok(())
}

/// Writes a record at the front of `buf`, and answers its size. Bytes past it stay as they are.
/// Refuses, and writes nothing, where a number is out of its limits, a tag stands past the last processor or there is no room.
pub fn write_record(
    buf: &mut [u8],
    processors: u8,
    head: RecordHead,
    row: &Row,
) -> Result<usize, Refusal>
    ensures answer { result ≡ answered (write_fault processors (segment head row.now.places) (length buf.old)) (record_size processors) }
    ensures bytes { buf.new ≡ (if is_ok result then record_bytes processors (segment head row.now.places) ++ drop (record_size processors) buf.old else buf.old) }
    ensures reads_back { is_ok result ≡ true → ReadsAs processors buf.new (segment head row.now.places) }
{
    check_record(processors, head, row, buf.len())?;
    let m = usize::from(processors);
    put_record(buf, head, &row.places()[0..m]);
    Ok(record_size(processors))
}
