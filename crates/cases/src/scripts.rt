// The scripts of the worked cases, each the very one of the list in specs/.
ghost use Rattle.std.specs.Prelude.{◌≡◌};
ghost use Rattle.cases.specs.Worked.{three_tasks_by_steps, three_tasks_by_a_finish, two_tasks_largest_first, two_tasks_ceiling_only, three_rules, eight_tasks, eight_tasks_on_three, admissions, full_memory, leaving, order_in_a_plane, other_task_memory, other_token_memory, on, longest_task, longest_plane, past_last_tick, asked_in, Is};

use crate::script::{Ask, Change, Choice, Script};

// what is tried at rest and in a plane over memory that does not fit
const ADMIT: Ask = Ask::Admit(0, 1, 6);

const LEAVE: Ask = Ask::Withdraw(1);

const START: Ask = Ask::Start;

const STEP: Ask = Ask::Step(Choice::LargestFirst);

const FINISH: Ask = Ask::Finish(Choice::LargestFirst, 0);

/// Three tasks (2, 3) on two processors, step by step.
pub fn three_tasks_by_steps() -> Script
    ensures { Is result three_tasks_by_steps }
{
    Script {
        name: "three tasks by steps",
        processors: 2,
        scale: 3,
        rows: 3,
        asks: &[
            Ask::Admit(1, 2, 3),
            Ask::Admit(2, 2, 3),
            Ask::Admit(3, 2, 3),
            Ask::Start,
            Ask::Step(Choice::LargestFirst),
            Ask::Step(Choice::LargestFirst),
            Ask::Step(Choice::LargestFirst),
            Ask::End,
        ],
    }
}

/// The same by a finish, the first time into a buffer of one byte too few.
pub fn three_tasks_by_a_finish() -> Script
    ensures { Is result three_tasks_by_a_finish }
{
    Script {
        name: "three tasks by a finish",
        processors: 2,
        scale: 3,
        rows: 3,
        asks: &[
            Ask::Admit(1, 2, 3),
            Ask::Admit(2, 2, 3),
            Ask::Admit(3, 2, 3),
            Ask::Start,
            Ask::Finish(Choice::LargestFirst, 51),
            Ask::Finish(Choice::LargestFirst, 52),
            Ask::End,
        ],
    }
}

/// Tasks (1, 6) and (4, 6) on one processor under one rule.
pub fn two_tasks_largest_first() -> Script
    ensures { Is result two_tasks_largest_first }
{
    Script {
        name: "two tasks largest first",
        processors: 1,
        scale: 6,
        rows: 2,
        asks: &[
            Ask::Admit(1, 1, 6),
            Ask::Admit(2, 4, 6),
            Ask::Start,
            Ask::Step(Choice::LargestFirst),
            Ask::Step(Choice::LargestFirst),
            Ask::Step(Choice::LargestFirst),
        ],
    }
}

/// The same under another rule.
pub fn two_tasks_ceiling_only() -> Script
    ensures { Is result two_tasks_ceiling_only }
{
    Script {
        name: "two tasks ceiling only",
        processors: 1,
        scale: 6,
        rows: 2,
        asks: &[
            Ask::Admit(1, 1, 6),
            Ask::Admit(2, 4, 6),
            Ask::Start,
            Ask::Finish(Choice::CeilingOnly, 33),
            Ask::End,
        ],
    }
}

/// Three rules in one plane.
pub fn three_rules() -> Script
    ensures { Is result three_rules }
{
    Script {
        name: "three rules",
        processors: 2,
        scale: 6,
        rows: 4,
        asks: &[
            Ask::Admit(3, 4, 6),
            Ask::Admit(1, 1, 6),
            Ask::Admit(4, 3, 6),
            Ask::Admit(2, 1, 6),
            Ask::Start,
            Ask::Step(Choice::LargestFirst),
            Ask::Step(Choice::Stayers),
            Ask::Finish(Choice::CeilingOnly, 65),
            Ask::End,
        ],
    }
}

/// The eight-task table of the LLREF study.
pub fn eight_tasks() -> Script
    ensures { Is result eight_tasks }
{
    Script {
        name: "eight tasks",
        processors: 4,
        scale: 68191760,
        rows: 8,
        asks: &[
            Ask::Admit(1, 3, 7),
            Ask::Admit(2, 1, 16),
            Ask::Admit(3, 5, 19),
            Ask::Admit(4, 4, 5),
            Ask::Admit(5, 2, 26),
            Ask::Admit(6, 15, 26),
            Ask::Admit(7, 20, 29),
            Ask::Admit(8, 14, 17),
            Ask::Start,
            Ask::Finish(Choice::LargestFirst, 153),
            Ask::End,
        ],
    }
}

/// The same on three processors, which the eighth task overloads.
pub fn eight_tasks_on_three() -> Script
    ensures { Is result eight_tasks_on_three }
{
    Script {
        name: "eight tasks on three",
        processors: 3,
        scale: 68191760,
        rows: 8,
        asks: &[
            Ask::Admit(1, 3, 7),
            Ask::Admit(2, 1, 16),
            Ask::Admit(3, 5, 19),
            Ask::Admit(4, 4, 5),
            Ask::Admit(5, 2, 26),
            Ask::Admit(6, 15, 26),
            Ask::Admit(7, 20, 29),
            Ask::Admit(8, 14, 17),
        ],
    }
}

/// What is admitted and what is not, one after the other.
pub fn admissions() -> Script
    ensures { Is result admissions }
{
    Script {
        name: "admissions",
        processors: 1,
        scale: 6,
        rows: 2,
        asks: &[
            Ask::Start,
            Ask::Admit(0, 4, 3),
            Ask::Admit(1, 4, 3),
            Ask::Admit(1, 0, 3),
            Ask::Admit(1, 1, 0),
            Ask::Admit(1, 1, 4),
            Ask::Admit(65535, 3, 3),
            Ask::Admit(65535, 1, 4),
            Ask::Admit(65535, 1, 6),
            Ask::Admit(1, 1, 6),
            Ask::Withdraw(0),
            Ask::Withdraw(65535),
            Ask::Withdraw(65535),
        ],
    }
}

/// Memory of just as many rows as there are tasks.
pub fn full_memory() -> Script
    ensures { Is result full_memory }
{
    Script {
        name: "full memory",
        processors: 1,
        scale: 6,
        rows: 2,
        asks: &[
            Ask::Admit(2, 1, 2),
            Ask::Admit(1, 1, 3),
            Ask::Admit(2, 1, 6),
            Ask::Admit(3, 2, 6),
            Ask::Show,
            Ask::Start,
            Ask::Finish(Choice::Stayers, 33),
        ],
    }
}

/// Withdrawals and an admission between planes.
pub fn leaving() -> Script
    ensures { Is result leaving }
{
    Script {
        name: "leaving",
        processors: 1,
        scale: 6,
        rows: 3,
        asks: &[
            Ask::Admit(1, 1, 2),
            Ask::Admit(2, 1, 3),
            Ask::Start,
            Ask::Finish(Choice::LargestFirst, 33),
            Ask::End,
            Ask::Withdraw(2),
            Ask::Withdraw(3),
            Ask::Withdraw(1),
            Ask::Show,
            Ask::Admit(1, 2, 3),
            Ask::Start,
            Ask::Finish(Choice::CeilingOnly, 33),
            Ask::End,
            Ask::Withdraw(1),
            Ask::Withdraw(2),
            Ask::Show,
        ],
    }
}

/// Calls that come too soon or too late in a plane.
pub fn order_in_a_plane() -> Script
    ensures { Is result order_in_a_plane }
{
    Script {
        name: "order in a plane",
        processors: 1,
        scale: 6,
        rows: 2,
        asks: &[
            Ask::Admit(1, 1, 6),
            Ask::Admit(2, 4, 6),
            Ask::Start,
            Ask::End,
            Ask::Step(Choice::CeilingOnly),
            Ask::End,
            Ask::Finish(Choice::LargestFirst, 32),
            Ask::Finish(Choice::LargestFirst, 33),
            Ask::Bring(Change::Only(0, 0)),
            Ask::Step(Choice::LargestFirst),
            Ask::Finish(Choice::LargestFirst, 0),
            Ask::End,
            Ask::Start,
        ],
    }
}

/// Task memory that does not fit.
pub fn other_task_memory() -> Script
    ensures { Is result other_task_memory }
{
    Script {
        name: "other task memory",
        processors: 1,
        scale: 6,
        rows: 4,
        asks: &[
            Ask::Admit(1, 1, 2),
            Ask::Admit(2, 1, 3),
            Ask::Bring(Change::TaskAt(0, 0, 1, 2, 0)),
            ADMIT,
            LEAVE,
            START,
            Ask::Bring(Change::TaskAt(0, 1, 0, 2, 0)),
            ADMIT,
            LEAVE,
            START,
            Ask::Bring(Change::TaskAt(0, 1, 3, 2, 0)),
            ADMIT,
            LEAVE,
            START,
            Ask::Bring(Change::TaskAt(0, 1, 1, 0, 0)),
            ADMIT,
            LEAVE,
            START,
            Ask::Bring(Change::TaskAt(0, 1, 2, 4, 0)),
            ADMIT,
            LEAVE,
            START,
            Ask::Bring(Change::TaskAt(0, 1, 1, 2, 1)),
            ADMIT,
            LEAVE,
            START,
            Ask::Bring(Change::TaskAt(0, 2, 1, 2, 0)),
            ADMIT,
            LEAVE,
            START,
            Ask::Bring(Change::TaskAt(0, 1, 1, 6, 0)),
            ADMIT,
            LEAVE,
            START,
            Ask::Bring(Change::TaskAt(0, 1, 1, 2, 0)),
            Ask::Bring(Change::TaskAt(2, 1, 9, 2, 7)),
            Ask::Admit(3, 1, 6),
            Ask::Bring(Change::Only(4, 2)),
            Ask::Start,
            Ask::Bring(Change::Only(2, 2)),
            ADMIT,
            LEAVE,
            START,
        ],
    }
}

/// Token memory that does not fit.
pub fn other_token_memory() -> Script
    ensures { Is result other_token_memory }
{
    Script {
        name: "other token memory",
        processors: 2,
        scale: 6,
        rows: 4,
        asks: &[
            Ask::Admit(3, 4, 6),
            Ask::Admit(1, 1, 6),
            Ask::Admit(4, 3, 6),
            Ask::Admit(2, 1, 6),
            Ask::Start,
            Ask::Bring(Change::TokenAt(0, 1, 36, 0)),
            STEP,
            FINISH,
            Ask::Bring(Change::TokenAt(0, 1, 6, 0)),
            Ask::Step(Choice::LargestFirst),
            Ask::Bring(Change::TokenAt(0, 0, 6, 0)),
            STEP,
            FINISH,
            Ask::Bring(Change::TokenAt(0, 2, 6, 0)),
            STEP,
            FINISH,
            Ask::Bring(Change::TokenAt(0, 1, 19, 0)),
            STEP,
            FINISH,
            Ask::Bring(Change::TokenAt(0, 1, 6, 3)),
            STEP,
            FINISH,
            Ask::Bring(Change::TokenAt(0, 1, 6, 1)),
            STEP,
            FINISH,
            Ask::Bring(Change::TokenAt(0, 1, 12, 0)),
            Ask::Bring(Change::TokenAt(3, 65535, 12, 2)),
            Ask::Step(Choice::LargestFirst),
            Ask::Bring(Change::Only(4, 3)),
            STEP,
            FINISH,
            Ask::End,
        ],
    }
}

/// The board of the longest planes, and their task.
pub fn longest_task() -> Script
    ensures { Is result (on 1 134217728 2 longest_task) }
{
    Script {
        name: "last tick",
        processors: 1,
        scale: 134217728,
        rows: 2,
        asks: &[Ask::Admit(1, 1, 134217728)],
    }
}

/// One of the longest planes.
pub fn longest_plane() -> &'static [Ask]
    ensures { result.now ≡ asked_in (longest_plane 1) }
{
    &[Ask::Start, Ask::Finish(Choice::LargestFirst, 22), Ask::End]
}

/// What is asked at the last tick.
pub fn past_last_tick() -> &'static [Ask]
    ensures { result.now ≡ asked_in past_last_tick }
{
    &[
        Ask::Start,
        Ask::Admit(2, 1, 1),
        Ask::Admit(2, 1, 2),
        Ask::Withdraw(1),
        Ask::Start,
    ]
}
