// Choosing rules: which of the tokens of a plane go first.
// A rule is its key, and each keeps the law that a plane's bounds rest on: who is on the ceiling goes before who is below it.
// Who is chosen by the keys, and what that does to a plane, is left to the crates above.
#![tactic(auto)]

pub mod rule;
pub mod standard;
