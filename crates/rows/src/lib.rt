// The rows that callers lend, and the ways in which an operation says no.
// Each refusal has its number here and nowhere else; a `Row` never has a tag twice, by its type.
// What the numbers of a row mean for a board or a plane is left to the crates above.
#![tactic(auto)]

pub mod event;
pub mod keyed;
pub mod kind;
pub mod limits;
pub mod memory;
pub mod refusal;
pub mod refused;
pub mod row;
pub mod words;
