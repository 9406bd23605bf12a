// The step and the finish of an open plane.
ghost use Rattle.std.specs.Prelude.{◌≡◌, ◌+◌, ◌*◌, ◌^◌, ◌≤◌, length};
ghost use Rattle.rows.specs.Kinds.{kind_number};
ghost use Rattle.model.specs.Answers.{ChangesAnswering};
ghost use Rattle.plan_file.specs.Records.{record_size, records_bytes};
ghost use Rattle.model.specs.Planes.{stepped, steps, finished};
ghost use Rattle.planner.specs.Runs.{Finishes, RunsOut};
ghost use Rattle.planner.specs.Segments.{written};
ghost use Rattle.planner.specs.Views.{plane};

use crate::board::Plane;
use crate::event::{Event, Finished};
use crate::running::run_out;
use crate::stepping::advance;
use plan_file::plan::append_record;
use plan_file::record::{RecordHead, record_size};
use rows::memory::Token;
use rows::refusal::Refusal;
use rows::row::Row;
use rules::rule::Rule;

impl Plane {
    /// Makes one step under a rule, and fills the row with the tags by processor.
    /// Refuses a plane that is over, and then token memory that does not fit.
    pub fn step<R: Rule>(
        &mut self,
        tokens: &mut [Token],
        rule: &R,
        row: &mut Row,
    ) -> Result<Event, Refusal>
        ensures { ChangesAnswering (λ e. (e.length, kind_number e.kind)) (plane self.old, tokens.old, row.old.places) (stepped (plane self.old) tokens.old (R.Rule.ranks rule.now)) result (plane self.new, tokens.new, row.new.places) }
    {
        if self.span == 0 {
            return Err(Refusal::PlaneOver);
        }
        if !self.tokens_fit(tokens) {
            return Err(Refusal::Memory);
        }
        let count = self.board.count as usize;
        let event = advance(
            &mut tokens[..count],
            rule,
            self.board.processors,
            self.span,
            row,
        );
        self.span -= event.length;
        Ok(event)
    }

    /// Makes steps under one rule until the plane is over, and writes their records into the plan buffer, each directly
    /// behind the one before. Answers how many there are, and how many bytes they have; bytes past them stay as they are.
    /// Refuses, in this order: a plane that is over; token memory that does not fit; a buffer without room for one
    /// record more than there are tasks.
    pub fn finish<R: Rule>(
        &mut self,
        tokens: &mut [Token],
        rule: &R,
        plan: &mut [u8],
    ) -> Result<Finished, Refusal>
        ensures { ChangesAnswering (λ f. (f.steps, f.bytes)) (plane self.old, tokens.old, plan.old) (finished (plane self.old) tokens.old (R.Rule.ranks rule.now) plan.old) result (plane self.new, tokens.new, plan.new) }
    {
        let span = self.span;
        if span == 0 {
            return Err(Refusal::PlaneOver);
        }
        if !self.tokens_fit(tokens) {
            return Err(Refusal::Memory);
        }
        let count = self.board.count as usize;
        let processors = self.board.processors;
        if plan.len() < (count + 1) * record_size(processors) {
            return Err(Refusal::BufferShort);
        }
        let finished = run_out(&mut tokens[..count], rule, processors, span, plan);
        self.span = 0;
        Ok(finished)
    }
}

// Makes steps over rows that fit until nothing of the span is left, each by the keys of the rule, and writes their records.
// The loop is not shared with `run_line`: a trait for what makes a step, with its laws, would be longer than the loop.
pub(crate) fn run_by_key<R: Rule>(
    rows: &mut [Token],
    rule: &R,
    processors: u8,
    span: u64,
    plan: &mut [u8],
) -> Finished
    requires { Finishes processors span rows.old plan.old }
    ensures { RunsOut processors (R.Rule.ranks rule.now) span rows.old plan.old rows.new plan.new result }
{
    let mut row = Row::new();
    let mut left = span;
    let mut count = 0;
    let mut at = 0;
    while left > 0 {
        let event = advance(rows, rule, processors, left, &mut row);
        let head = RecordHead::from(event);
        at = append_record(plan, at, processors, head, &row).unwrap();
        left -= event.length;
        count += 1;
    }
    Finished {
        steps: count,
        bytes: at,
    }
}
