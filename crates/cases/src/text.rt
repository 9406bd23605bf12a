// What is asked and answered, as lines of text.
use crate::script::{Answer, Ask, Change, Choice};
use std::fmt;

impl fmt::Display for Choice {
    fn fmt<W: fmt::Write>(&self, f: &mut fmt::Formatter<W>) -> fmt::Result {
        f.write_str(match self {
            Choice::LargestFirst => "largest first",
            Choice::CeilingOnly => "ceiling only",
            Choice::Stayers => "stayers",
        })
    }
}

impl fmt::Display for Change {
    fn fmt<W: fmt::Write>(&self, f: &mut fmt::Formatter<W>) -> fmt::Result {
        match self {
            Change::Only(tasks, tokens) => {
                write!(f, "bring only {tasks} task rows, {tokens} token rows")
            }
            Change::TaskAt(i, tag, execution, period, release) => {
                write!(
                    f,
                    "bring task row {i}: {tag} ({execution}, {period}) from {release}"
                )
            }
            Change::TokenAt(i, tag, left, processor) => {
                write!(f, "bring token row {i}: {tag} left {left} on {processor}")
            }
        }
    }
}

impl fmt::Display for Ask {
    fn fmt<W: fmt::Write>(&self, f: &mut fmt::Formatter<W>) -> fmt::Result {
        match self {
            Ask::Admit(tag, execution, period) => write!(f, "admit {tag} ({execution}, {period})"),
            Ask::Withdraw(tag) => write!(f, "withdraw {tag}"),
            Ask::Start => write!(f, "start"),
            Ask::Step(choice) => write!(f, "step, {choice}"),
            Ask::Finish(choice, room) => write!(f, "finish, {choice}, {room} bytes"),
            Ask::End => write!(f, "end"),
            Ask::Bring(change) => write!(f, "{change}"),
            Ask::Show => write!(f, "show"),
        }
    }
}

impl fmt::Display for Answer {
    fn fmt<W: fmt::Write>(&self, f: &mut fmt::Formatter<W>) -> fmt::Result {
        match self {
            Answer::AtRest(tick, count, load) => {
                write!(f, "at rest: tick {tick}, tasks {count}, load {load}")
            }
            Answer::InPlane(end, span) => write!(f, "in a plane: end {end}, span {span}"),
            Answer::Ran(length, kind, row) => {
                write!(f, "ran: length {length}, kind {kind}, row {row:?}")
            }
            Answer::Finished(steps, bytes) => write!(f, "finished: steps {steps}, bytes {bytes}"),
            Answer::TaskRow(tag, execution, period, release) => {
                write!(f, "task {tag} ({execution}, {period}) from {release}")
            }
            Answer::TokenRow(tag, left, processor) => {
                write!(f, "token {tag} left {left} on {processor}")
            }
            Answer::Refused(number) => write!(f, "refused {number}"),
        }
    }
}
