// Plans a table file from standard input, and writes the plan file to standard output.
// Any bytes end in a plan or in one line that says why not; all bytes are those of `answer_bytes`.
#![tactic(auto)]

use std::io::{Read, Write};
use whole_plan::answer::answer_bytes;

// One byte more than the longest table has, so that a longer file is seen to be too long.
const MOST_INPUT: u64 = 2575;

const PLAN_ROOM: usize = 65536;

fn main(rt: HostRuntime) -> anyhow::Result<()> {
    let mut table = Vec::new(rt.alloc());
    rt.stdin().take(MOST_INPUT).read_to_end(&mut table)?;
    let mut out = vec![in rt.alloc(); 0u8; PLAN_ROOM]?;
    let n = answer_bytes(&table, &mut out);
    rt.stdout().write_all(&out[0..n])?;
    Ok(())
}
