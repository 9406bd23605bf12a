// A segment as a line of text.
use rows::event::Event;
use rows::row::Row;
use std::fmt;

/// A segment that starts at the unit `start`, on so many processors.
#[derive(Drop)]
pub struct Line<'a> {
    pub start: u128,
    pub event: Event,
    pub row: &'a Row,
    pub processors: u8,
}

impl fmt::Display for Line<'_> {
    fn fmt<W: fmt::Write>(&self, f: &mut fmt::Formatter<W>) -> fmt::Result {
        let start = self.start;
        let Event { length, kind } = self.event;
        write!(f, "start {start}, length {length}, tags by processor:")?;
        for tag in self.row.places().iter().take(usize::from(self.processors)) {
            if *tag == 0 {
                write!(f, " -")?;
            } else {
                write!(f, " {tag}")?;
            }
        }
        write!(f, ", until {kind}")
    }
}
