// The memory that the calls of a script are lent.
ghost use Rattle.std.specs.Prelude.{◌≤◌};

use cases::script::Change;
use rows::memory::{Task, Token};

const ROWS: usize = 9;

/// Rows that have been used before, of which the first are lent.
// Rows of a fixed number with counts beside them, and no vectors: a call is compared with a copy of what was before it, and
// copies on the heap could fail.
#[derive(Clone, Copy, PartialEq, Eq)]
pub struct Memory {
    pub tasks: [Task; ROWS],
    pub tokens: [Token; ROWS],
    task_rows: usize,
    token_rows: usize,
}

impl Memory {
    /// Lends so many of both.
    pub fn new(rows: u8) -> Memory {
        let task = Task {
            tag: 99,
            execution: 98,
            period: 97,
            release: 96,
        };
        let token = Token {
            tag: 99,
            left: 98,
            processor: 97,
        };
        Memory {
            tasks: [task; ROWS],
            tokens: [token; ROWS],
            task_rows: usize::from(rows),
            token_rows: usize::from(rows),
        }
    }

    /// How many task rows are lent.
    pub fn task_rows(&self) -> usize
        ensures { result ≤ 9 }
    {
        self.task_rows.min(ROWS)
    }

    /// The task rows, to be lent beside the token rows.
    pub fn tasks_copied(&self) -> [Task; ROWS] {
        self.tasks
    }

    /// How many token rows are lent.
    pub fn token_rows(&self) -> usize
        ensures { result ≤ 9 }
    {
        self.token_rows.min(ROWS)
    }

    /// The caller's own change.
    pub fn change(&mut self, change: Change) {
        match change {
            Change::Only(tasks, tokens) => {
                self.task_rows = self.task_rows.min(usize::from(tasks));
                self.token_rows = self.token_rows.min(usize::from(tokens));
            }
            Change::TaskAt(i, tag, execution, period, release) => {
                if let Some(row) = self.tasks.get_mut(usize::from(i)) {
                    *row = Task {
                        tag,
                        execution,
                        period,
                        release,
                    };
                }
            }
            Change::TokenAt(i, tag, left, processor) => {
                if let Some(row) = self.tokens.get_mut(usize::from(i)) {
                    *row = Token {
                        tag,
                        left,
                        processor,
                    };
                }
            }
        }
    }
}
