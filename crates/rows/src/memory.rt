// What lies in memory that the caller lends.
ghost use Rattle.std.specs.Prelude.{◌≡◌, Some, None, if◌then◌else◌};
ghost use Rattle.rows.specs.Releases.{timely, next_release};

/// A periodic task: from the tick `release` on it runs `execution` ticks in each `period`.
#[derive(Clone, Copy, PartialEq, Eq, Debug, Default)]
pub struct Task {
    pub tag: u16,
    pub execution: u32,
    pub period: u32,
    pub release: u32,
}

impl Task {
    /// The first release after a tick; none where the task has no period, or is first released after the tick.
    pub fn next_release(&self, tick: u32) -> Option<u64>
        ensures { result ≡ (if timely tick self.now then Some (next_release tick self.now) else None) }
    {
        let since = tick.checked_sub(self.release)?;
        let periods = u64::from(since.checked_div(self.period)?) + 1;
        Some(u64::from(self.release) + periods * u64::from(self.period))
    }
}

/// A task's work in a plane: the units left, and the processor that it has (0: none).
#[derive(Clone, Copy, PartialEq, Eq, Debug, Default)]
pub struct Token {
    pub left: u64,
    pub tag: u16,
    // a number and no `Option`: callers lend rows of any bytes, and one past the last processor is refused
    pub processor: u8,
}
