// What a script asks of a board, and what it is answered.
ghost use Rattle.std.specs.Prelude.{◌≡◌};
ghost use Rattle.rows.specs.Refusals.{refusal_number};
ghost use Rattle.cases.specs.Playing.{task_row, token_row};
ghost use Rattle.cases.specs.declared.script.Answer.TheVariants.{Refused};

use rows::memory::{Task, Token};
use rows::refusal::Refusal;

/// A choosing rule, by its name.
#[derive(Clone, Copy)]
pub enum Choice {
    LargestFirst,
    CeilingOnly,
    Stayers,
}

/// What a caller changes in the memory that it brings.
#[derive(Clone, Copy)]
pub enum Change {
    /// Only the first rows: so many task rows and so many token rows.
    Only(u8, u8),
    /// Another task row at an index: tag, execution time, period and first release.
    TaskAt(u8, u16, u32, u32, u32),
    /// Another token row at an index: tag, time left and processor.
    TokenAt(u8, u16, u64, u8),
}

/// One line of a script.
#[derive(Clone, Copy)]
pub enum Ask {
    /// Admits a task: tag, execution time and period.
    Admit(u16, u32, u32),
    /// Withdraws the task of a tag.
    Withdraw(u16),
    Start,
    Step(Choice),
    /// Finishes the plane into a buffer of so many bytes.
    Finish(Choice, u16),
    End,
    /// Brings other memory to the calls from here on.
    Bring(Change),
    /// Shows all memory.
    Show,
}

/// A line of what a script is answered. Kinds and refusals stand in it by the numbers that files and callers in C see.
#[derive(Clone, Copy)]
pub enum Answer {
    /// A board at rest: its tick, its count of tasks and its load.
    AtRest(u32, u16, u32),
    /// An open plane: the tick at which it ends, and its span.
    InPlane(u32, u64),
    /// A segment: its length, its kind and its row.
    Ran(u64, u8, [u16; 16]),
    /// A finish: its steps and its bytes.
    Finished(usize, usize),
    /// A row of task memory: tag, execution time, period and first release.
    TaskRow(u16, u32, u32, u32),
    /// A row of token memory: tag, time left and processor.
    TokenRow(u16, u64, u8),
    /// A refusal, by its number.
    Refused(u8),
}

impl From<Task> for Answer {
    ghost from_gives = { λ task answer. answer ≡ task_row task };

    fn from(task: Task) -> Answer {
        Answer::TaskRow(task.tag, task.execution, task.period, task.release)
    }
}

impl From<Token> for Answer {
    ghost from_gives = { λ token answer. answer ≡ token_row token };

    fn from(token: Token) -> Answer {
        Answer::TokenRow(token.tag, token.left, token.processor)
    }
}

impl From<Refusal> for Answer {
    ghost from_gives = { λ refusal answer. answer ≡ Refused (refusal_number refusal) };

    fn from(refusal: Refusal) -> Answer {
        Answer::Refused(refusal.into())
    }
}

/// A board to open, task and token memory of so many rows each, and what is then asked.
#[derive(Clone, Copy)]
pub struct Script {
    pub name: &'static str,
    pub processors: u8,
    pub scale: u32,
    pub rows: u8,
    pub asks: &'static [Ask],
}
