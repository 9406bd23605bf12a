// What a step answers.
use crate::kind::Kind;

/// One step: how many units it took, and the event that ended it.
#[derive(Clone, Copy, PartialEq, Eq, Debug)]
pub struct Event {
    pub length: u64,
    pub kind: Kind,
}
