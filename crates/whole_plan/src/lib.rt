// The whole plan of a table: from the bytes of a table file to those of a plan file, and the call for C.
// The bytes are those that opening, admissions, starts, finishes and ends define, one after the other; read back, they serve every period of every task.
// Where the bytes come from and go to is left to the programs and to the caller in C.
#![tactic(auto)]

mod admission;
pub mod answer;
mod ends;
pub mod export;
mod planes;
pub mod whole;
