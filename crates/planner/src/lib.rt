// Boards and planes, and every call on them.
// Each call does what the model defines for it, or refuses and leaves all as it was.
// Files and whole plans are left to the crates above.
#![tactic(auto)]

pub mod board;
pub mod event;
mod fits;
mod lining;
pub mod planes;
pub mod reads;
mod running;
mod stepping;
pub mod steps;
pub mod table;
pub mod upcoming;
