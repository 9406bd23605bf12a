// What a step and a finish answer.
pub use rows::event::Event;

/// A finish: how many steps it made, and how many bytes their records have.
#[derive(Clone, Copy, PartialEq, Eq, Debug)]
pub struct Finished {
    pub steps: usize,
    pub bytes: usize,
}
