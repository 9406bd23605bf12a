// Table files: the tasks of a board and how many planes to plan, read from bytes that the caller lends.
// Opening answers exactly when the bytes are a whole table, and each row is the one that specs/ defines.
// Whether processors, scale and tasks suit a board is left to the crates above.
#![tactic(auto)]

pub mod table;
