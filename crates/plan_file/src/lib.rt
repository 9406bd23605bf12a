// Plan files: their header and records, written into and read from bytes that the caller lends.
// Each call gives the very bytes, segment or refusal that specs/ defines; writing and reading undo each other, for a record and for a whole file.
// Which segments a plane has, and where the bytes come from, is left to the crates above.
#![tactic(auto)]

pub mod header;
pub mod plan;
pub mod reader;
pub mod record;
pub mod whole;
