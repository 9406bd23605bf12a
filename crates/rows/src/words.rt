// Refusals and events in words.
ghost use Rattle.std.specs.Prelude.{◌≡◌};
ghost use Rattle.rows.specs.Words.{refusal_words, kind_words};

use crate::kind::Kind;
use crate::refusal::Refusal;

impl Refusal {
    /// What was wrong, in words.
    pub fn words(self) -> &'static str
        ensures { result.now ≡ refusal_words self }
    {
        match self {
            Refusal::Processors => "the number of processors is not 1 to 16",
            Refusal::Scale => "the scale is not 1 to 134217728",
            Refusal::Memory => "the lent rows do not fit",
            Refusal::TagZero => "the tag is 0",
            Refusal::Execution => "the execution time is 0 or above the period",
            Refusal::Period => "the period does not divide the scale",
            Refusal::TagPresent => "the tag is on the board already",
            Refusal::TasksFull => "there is no room for a further task",
            Refusal::Overload => "the load would pass what the processors can do",
            Refusal::TagAbsent => "the tag is not on the board",
            Refusal::NotReleased => "the present tick is no release of the task",
            Refusal::NoTask => "the board has no task",
            Refusal::PastLastTick => "the plane would end past the last tick",
            Refusal::PlaneOver => "the plane is over",
            Refusal::BufferShort => "the buffer is too short for the records",
            Refusal::PlaneOpen => "the plane is not over",
            Refusal::Places =>
                "too many places are asked for, or the memory of the queue is too short",
            Refusal::QueueFull => "the queue is full",
            Refusal::TableShort => "the file is shorter than the header of a table",
            Refusal::Mark => "the file does not begin with its three letters",
            Refusal::Version => "the file has another version",
            Refusal::TableLength => "the length of the table is not that of its rows",
            Refusal::NoPlanes => "the table asks for no plane",
            Refusal::TaskCount => "the table has no row or more than 256",
            Refusal::PlanBuffer => "the buffer is too short for the whole plan",
            Refusal::PlanShort => "the file is shorter than the header of a plan",
            Refusal::RecordShort => "the bytes left are fewer than a record",
            Refusal::Length => "the length of the record is 0 or above 2^54",
            Refusal::Kind => "the kind of the record is not 1 to 4",
            Refusal::TagTwice => "a tag stands twice in the row",
            Refusal::TagPastProcessors => "a tag stands past the last processor",
        }
    }
}

impl Kind {
    /// What happened at the end of the segment, in words.
    pub fn words(self) -> &'static str
        ensures { result.now ≡ kind_words self }
    {
        match self {
            Kind::Bottom => "a running task is done for this plane",
            Kind::Ceiling => "a waiting task must run from here on",
            Kind::Both =>
                "a running task is done for this plane and a waiting one must run from here on",
            Kind::PlaneEnd => "the plane is over",
        }
    }
}
