// A finish under a rule by which nothing but the time left counts: the active tokens stay in line from step to step.
ghost use Rattle.std.specs.Prelude.{◌≡◌, ◌+◌, ◌-◌, ◌*◌, ◌^◌, ◌<◌, ◌≤◌, min, ◌++◌, map, length, take, drop};
ghost use Rattle.std.specs.List.{AllByRecursion};
ghost use Rattle.rows.specs.Kinds.{kind_number};
ghost use Rattle.rules.specs.Keys.{Key, Lawful, ByLeft};
ghost use Rattle.plan_file.specs.Records.{record_size, records_bytes};
ghost use Rattle.model.specs.Planes.{steps};
ghost use Rattle.planner.specs.Runs.{Ready, Finishes, RunsOut};
ghost use Rattle.planner.specs.Looking.{nearest_kind};
ghost use Rattle.planner.specs.Lining.{those, Lined, Alike, Places, seated, least_in, most_in, Ran, Kept, Strides};
ghost use Rattle.planner.specs.Segments.{written};

use crate::event::{Event, Finished};
use crate::lining::{Settled, clear, gather, merge, row_of, seat, settle};
use crate::stepping::{free_processors, nearest};
use crate::steps::run_by_key;
use plan_file::record::{RecordHead, put_record, record_size};
use rows::memory::Token;
use rules::rule::Rule;

// The nearest event of a line of which so many run.
fn next_event(rows: &[Token], line: &[u8], running: usize, span: u64) -> Event
    requires inside { AllByRecursion (λ i. i < length rows.now) line.now }
    requires within { running ≤ length line.now }
    requires low { most_in rows.now line.now running ≤ span }
    ensures length { result.length ≡ min (least_in rows.now line.now running span) (span - most_in rows.now line.now running) }
    ensures kind { kind_number result.kind ≡ nearest_kind (least_in rows.now line.now running span) (most_in rows.now line.now running) span }
{
    let (run, waiting) = line.split_at(running);
    let least = run.last().map_or(span, |i| rows[*i as usize].left);
    let most = waiting.first().map_or(0, |i| rows[*i as usize].left);
    nearest(least, most, span)
}

// Lets the rows at `run` run for so many units. `places` is the row of the segment before, and then that of this one.
fn run_on(
    rows: &mut [Token],
    run: &[u8],
    places: &mut [u16; 16],
    processors: u8,
    units: u64,
) -> Settled
    requires run { Places rows.old run.now }
    requires few { length run.now ≤ 16 }
    requires within { processors ≤ 16 }
    ensures ran { Ran processors units rows.old run.now places.old rows.new places.new result.kept }
    ensures places { take (length run.now) result.ran ≡ run.now }
{
    let settled = settle(rows, run, places, units);
    if settled.fresh == 0 {
        *places = settled.places;
    } else {
        let spare = free_processors(&settled.taken, processors as usize);
        *places = seat(rows, run, &spare);
    }
    settled
}

// Puts those that ran and have time left in line again with those that waited. They are the first of `running`, and go
// behind the places of the others.
fn rejoin(rows: &[Token], line: &mut [u8], ran: &[u8], running: usize)
    requires same { ran.now ≡ take (length ran.now) line.old }
    requires within { running ≤ length line.old }
    requires left { length ran.now ≤ running }
    requires inside { AllByRecursion (λ i. i < length rows.now) line.old }
    requires ran { Lined (those rows.now ran.now) }
    requires rest { Lined (those rows.now (drop running line.old)) }
    ensures same { Alike (ran.now ++ drop running line.old) (drop (running - length ran.now) line.new) }
    ensures lined { Lined (those rows.now (drop (running - length ran.now) line.new)) }
{
    merge(rows, &mut line[running - ran.len()..], ran);
}

// A step, and how many places in front of the line it has freed.
#[derive(Drop)]
struct Stride {
    event: Event,
    freed: usize,
}

// One step over rows of which the active ones are in line.
fn step_line(
    rows: &mut [Token],
    line: &mut [u8],
    places: &mut [u16; 16],
    processors: u8,
    span: u64,
) -> Stride
    requires kept { Kept (map (seated places.old) rows.old) rows.old line.old places.old }
    requires ready { Ready processors span (map (seated places.old) rows.old) }
    ensures freed { result.freed ≤ length line.new }
    ensures within { result.event.length ≤ span }
    ensures step { (key : Key) → Lawful key → ByLeft key → Strides processors key span (map (seated places.old) rows.old) rows.new (drop result.freed line.new) places.new result.event.length (kind_number result.event.kind) }
{
    let running = (processors as usize).min(line.len());
    let event = next_event(rows, line, running, span);
    let settled = run_on(rows, &line[..running], places, processors, event.length);
    let kept = settled.kept;
    rejoin(rows, line, &settled.ran[..kept], running);
    Stride {
        event,
        freed: running - kept,
    }
}

// Makes steps over rows that fit until nothing of the span is left, and writes their records. The rule is not asked.
// There are at most 256 rows, since a place of the line is one byte.
fn run_line<R: Rule>(
    rows: &mut [Token],
    line: &mut [u8],
    rule: &R,
    processors: u8,
    span: u64,
    plan: &mut [u8],
) -> Finished
    requires by { ByLeft (R.Rule.ranks rule.now) }
    requires few { length rows.old ≤ 256 }
    requires line { length line.old ≡ length rows.old }
    requires finishes { Finishes processors span rows.old plan.old }
    ensures { RunsOut processors (R.Rule.ranks rule.now) span rows.old plan.old rows.new plan.new result }
{
    let m = processors as usize;
    let mut first = gather(rows, line);
    let mut places = row_of(rows);
    let mut left = span;
    let mut count = 0;
    let mut at = 0;
    while left > 0 {
        let step = step_line(rows, &mut line[first..], &mut places, processors, left);
        let head = RecordHead::from(step.event);
        put_record(&mut plan[at..], head, &places[..m]);
        first += step.freed;
        left -= step.event.length;
        at += record_size(processors);
        count += 1;
    }
    clear(rows, &places);
    Finished {
        steps: count,
        bytes: at,
    }
}

// Makes steps over rows that fit until nothing of the span is left, and writes their records.
pub(crate) fn run_out<R: Rule>(
    rows: &mut [Token],
    rule: &R,
    processors: u8,
    span: u64,
    plan: &mut [u8],
) -> Finished
    requires { Finishes processors span rows.old plan.old }
    ensures { RunsOut processors (R.Rule.ranks rule.now) span rows.old plan.old rows.new plan.new result }
{
    // by index, in memory of a fixed size: there is no heap, and the rows are written while the line stands
    let mut line = [0; 256];
    let count = rows.len();
    // the rule itself says which loop serves: a closure for the step would have to bring the line along
    if count > line.len() || !rule.is_by_left() {
        return run_by_key(rows, rule, processors, span, plan);
    }
    run_line(rows, &mut line[..count], rule, processors, span, plan)
}
