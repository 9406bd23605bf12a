// The first ten bytes of a plan file.
ghost use Rattle.std.specs.Prelude.{◌≡◌, ◌++◌, length, drop, is_ok, if◌then◌else◌};
ghost use Rattle.plan_file.specs.Faults.{answered};
ghost use Rattle.plan_file.specs.Opening.{open_fault, header_at};
ghost use Rattle.plan_file.specs.Writing.{header_size, header_bytes, header_fault};

use rows::limits::{check_processors, check_scale};
use rows::refusal::Refusal;

/// Bytes before the first record.
pub const HEADER_SIZE: usize = 10;

/// The version of the files that are read and written here.
pub const VERSION: u16 = 1;

/// The numbers of a header.
#[derive(Clone, Copy, PartialEq, Eq, Debug)]
pub struct Header {
    pub processors: u8,
    pub scale: u32,
}

/// Writes the header at the front of `plan`, and answers its size. Bytes past it stay as they are.
/// Refuses, and writes nothing, where the processors or the scale are out of their limits or there is no room.
pub fn write_header(plan: &mut [u8], processors: u8, scale: u32) -> Result<usize, Refusal>
    ensures answer { result ≡ answered (header_fault processors scale (length plan.old)) header_size }
    ensures bytes { plan.new ≡ (if is_ok result then header_bytes processors scale ++ drop header_size plan.old else plan.old) }
{
    check_processors(processors)?;
    check_scale(scale)?;
    if plan.len() < HEADER_SIZE {
        return Err(Refusal::BufferShort);
    }
    let [v1, v2] = VERSION.to_be_bytes();
    let [q1, q2, q3, q4] = scale.to_be_bytes();
    let header = [b'K', b'P', b'L', v1, v2, processors, q1, q2, q3, q4];
    plan[0..HEADER_SIZE].copy_from_slice(&header);
    Ok(HEADER_SIZE)
}

/// The numbers of a plan file's header. Refuses other files, and numbers out of their limits.
pub fn read_header(file: &[u8]) -> Result<Header, Refusal>
    ensures { result ≡ answered (open_fault file.now) (header_at file.now) }
{
    // Not shared with table files: what would be shared is a pattern with other letters and other refusals.
    if file.len() < HEADER_SIZE {
        return Err(Refusal::PlanShort);
    }
    let [b'K', b'P', b'L', v1, v2, rest @ ..] = file else {
        return Err(Refusal::Mark);
    };
    if u16::from_be_bytes([*v1, *v2]) != VERSION {
        return Err(Refusal::Version);
    }
    let [processors, q1, q2, q3, q4, ..] = rest else {
        return Err(Refusal::PlanShort);
    };
    let header = Header {
        processors: *processors,
        scale: u32::from_be_bytes([*q1, *q2, *q3, *q4]),
    };
    check_processors(header.processors)?;
    check_scale(header.scale)?;
    Ok(header)
}
