// Which task each processor runs.
ghost use Rattle.std.specs.Prelude.{◌≡◌, true, replicate, if◌then◌else◌, Ok, Err};
ghost use Rattle.rows.specs.declared.refusal.Refusal.TheVariants.{TagTwice};
ghost use Rattle.rows.specs.Tests.{has, distinct};

use crate::refusal::Refusal;

/// A tag for each of 16 processors, 0 where none runs, as files and callers have it. Place i, from 1, is processor i; no tag but 0 stands twice.
#[derive(Clone, Copy, PartialEq, Eq, Debug)]
pub struct Row {
    places: [u16; 16],
    ghost apart: { distinct places ≡ true },
}

// Whether no tag but 0 stands twice.
fn are_distinct(tags: &[u16]) -> bool
    ensures { result ≡ distinct tags.now }
{
    for (i, tag) in tags.iter().enumerate() {
        if *tag != 0 && tags[i + 1..].iter().any(|other| other == tag) {
            return false;
        }
    }
    true
}

impl Row {
    /// A row on which nothing runs.
    pub fn new() -> Row
        ensures { result.places ≡ replicate 16 0 }
    {
        Row { places: [0; 16] }
    }

    /// Fills the row from 16 tags. Refuses, and leaves it, where a tag but 0 stands twice.
    pub fn fill(&mut self, tags: [u16; 16]) -> Result<(), Refusal>
        ensures answer { result ≡ (if distinct tags then Ok tt else Err TagTwice) }
        ensures places { self.new.places ≡ (if distinct tags then tags else self.old.places) }
    {
        if !are_distinct(&tags) {
            return Err(Refusal::TagTwice);
        }
        *self = Row { places: tags };
        Ok(())
    }

    /// The tags by processor.
    pub fn places(&self) -> &[u16; 16]
        ensures { result.now ≡ self.now.places }
    {
        &self.places
    }
}
