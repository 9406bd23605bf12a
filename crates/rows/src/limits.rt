// The limits of a board, each once.
ghost use Rattle.std.specs.Prelude.{◌≡◌, Ok, Err, if◌then◌else◌};
ghost use Rattle.rows.specs.declared.refusal.Refusal.TheVariants.{Processors, Scale};
ghost use Rattle.rows.specs.Limits.{most_processors, largest_scale};
ghost use Rattle.rows.specs.Tests.{within};

use crate::refusal::Refusal;

/// Processors of a board at the most, and places of a row.
pub const MOST_PROCESSORS: u8 = 16;

/// Tasks of a board at the most.
pub const MOST_TASKS: u16 = 256;

/// Units in a tick at the most.
pub const LARGEST_SCALE: u32 = 134217728;

/// No plane ends past this tick.
pub const LAST_TICK: u32 = 2147483648;

/// Units of a plane, and so of a segment, at the most: 2^54.
pub const LONGEST_SPAN: u64 = 18014398509481984;

/// Refuses a number of processors that no board has.
pub fn check_processors(processors: u8) -> Result<(), Refusal>
    ensures { result ≡ (if within 1 most_processors processors then Ok tt else Err Processors) }
{
    if !(1..=MOST_PROCESSORS).contains(&processors) {
        return Err(Refusal::Processors);
    }
    Ok(())
}

/// Refuses a scale that no board has.
pub fn check_scale(scale: u32) -> Result<(), Refusal>
    ensures { result ≡ (if within 1 largest_scale scale then Ok tt else Err Scale) }
{
    if !(1..=LARGEST_SCALE).contains(&scale) {
        return Err(Refusal::Scale);
    }
    Ok(())
}
