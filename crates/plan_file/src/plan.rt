// Records one directly behind the other.
ghost use Rattle.std.specs.Prelude.{◌≡◌, ◌+◌, ◌-◌, ◌++◌, length, take, drop, is_ok, if◌then◌else◌};
ghost use Rattle.plan_file.specs.Records.{record_size, record_bytes};
ghost use Rattle.plan_file.specs.Faults.{answered};
ghost use Rattle.plan_file.specs.Heads.{segment};
ghost use Rattle.plan_file.specs.Writing.{write_fault};

use crate::record::{RecordHead, write_record};
use rows::refusal::Refusal;
use rows::row::Row;

/// Writes a record behind the first `at` bytes of `plan`, and answers where the next one goes.
/// Refuses as `write_record` does, and writes nothing; past the end there is no room.
pub fn append_record(
    plan: &mut [u8],
    at: usize,
    processors: u8,
    head: RecordHead,
    row: &Row,
) -> Result<usize, Refusal>
    ensures answer { result ≡ answered (write_fault processors (segment head row.now.places) (length plan.old - at)) (at + record_size processors) }
    ensures bytes { plan.new ≡ (if is_ok result then take at plan.old ++ record_bytes processors (segment head row.now.places) ++ drop (at + record_size processors) plan.old else plan.old) }
{
    // The callers answer the place in the end, so a writer around it and the buffer would be made only to be taken apart.
    let from = at.min(plan.len());
    let size = write_record(&mut plan[from..], processors, head, row)?;
    Ok(from + size)
}
