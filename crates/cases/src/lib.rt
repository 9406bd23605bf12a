// Cases worked by hand: scripts of calls on a board, each with the answers that the rules give.
// All of them come out by the model's definitions, in one theorem over the whole list; a script of calls is one of the
// runs of which the model promises what holds after them.
// That the code gives the same answers is left to the program that runs these scripts on it.
#![tactic(auto)]

ghost use Rattle.cases.specs.Playing.{ScriptsAreRuns};
ghost use Rattle.cases.specs.Worked.{WorkedCasesComeOut, WorkedRunsAreCalls, WorkedReleasesAreAhead};

mod choice;
pub mod script;
pub mod scripts;
mod text;

/// Each worked case comes out as it is written, line by line, and so do the releases ahead.
pub fn worked_cases_come_out()
    ensures cases { WorkedCasesComeOut }
    ensures ahead { WorkedReleasesAreAhead }
{}

/// The calls of a script are a run of the model; so are those worked cases that are made of calls only.
pub fn scripts_are_runs()
    ensures scripts { ScriptsAreRuns }
    ensures worked { WorkedRunsAreCalls }
{}
