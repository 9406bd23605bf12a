// Why an operation said no.
ghost use Rattle.std.specs.Prelude.{◌≡◌, Some};
ghost use Rattle.rows.specs.Refusals.{refusal_number};
ghost use Rattle.rows.specs.Words.{refusal_words};

use std::error::Error;
use std::fmt;

/// One case for each number; docs/REFUSALS.md says which call gives it and when.
#[derive(Clone, Copy, PartialEq, Eq, Debug)]
pub enum Refusal {
    /// The number of processors is not 1 to 16.
    Processors = 1,
    /// The scale is not 1 to 134,217,728.
    Scale = 2,
    /// The lent rows do not fit the board or the plane.
    Memory = 3,
    /// A task's tag is 0.
    TagZero = 4,
    /// The execution time is 0 or above the period.
    Execution = 5,
    /// The period does not divide the scale.
    Period = 6,
    /// The tag is on the board already.
    TagPresent = 7,
    /// There is no room for a further task.
    TasksFull = 8,
    /// The load would pass what the processors can do.
    Overload = 9,
    /// The tag is not on the board.
    TagAbsent = 10,
    /// The present tick is no release of the task.
    NotReleased = 11,
    /// The board has no task.
    NoTask = 12,
    /// The plane would end past the last tick.
    PastLastTick = 13,
    /// The plane is over.
    PlaneOver = 15,
    /// The buffer is too short for the records.
    BufferShort = 16,
    /// The plane is not over.
    PlaneOpen = 17,
    /// Too many places are asked for, or the queue's memory is too short.
    Places = 18,
    /// The queue is full.
    QueueFull = 19,
    /// A table file is shorter than its header.
    TableShort = 20,
    /// The file does not begin with its three letters.
    Mark = 21,
    /// The file has another version.
    Version = 22,
    /// A table file's length is not that of its rows.
    TableLength = 23,
    /// A table file asks for no plane.
    NoPlanes = 24,
    /// A table file has no row or more than 256.
    TaskCount = 25,
    /// The buffer is too short for the whole plan.
    PlanBuffer = 26,
    /// A plan file is shorter than its header.
    PlanShort = 30,
    /// The bytes left are fewer than a record.
    RecordShort = 31,
    /// A record's length is 0 or above 2^54.
    Length = 32,
    /// A record's kind is not 1 to 4.
    Kind = 33,
    /// A tag stands twice in a row.
    TagTwice = 34,
    /// A tag stands past the last processor.
    TagPastProcessors = 35,
}

impl From<Refusal> for u8 {
    ghost from_gives = { λ refusal number. number ≡ refusal_number refusal };

    fn from(refusal: Refusal) -> u8 {
        refusal as u8
    }
}

impl Refusal {
    /// The number that is reported for it.
    pub fn number(self) -> u8
        ensures { result ≡ refusal_number self }
    {
        self.into()
    }
}

impl fmt::Display for Refusal {
    ghost output = { λ refusal. Some (refusal_words refusal) };

    fn fmt<W: fmt::Write>(&self, f: &mut fmt::Formatter<W>) -> fmt::Result {
        f.write_str(self.words())
    }
}

impl Error for Refusal {}
