// Runs the worked cases on the code, and at least one input for every refusal, and tells every answer; the gate compares
// what is told with the file `stdout`.
// Where a call is refused, the numbers of the board or plane, all memory that it was lent, its row and its buffer are
// compared with what they were, and a line says so if anything has changed.
#![tactic(auto)]

use cases::script::Script;
use cases::scripts;
use std::io;

mod at_rest;
mod edit;
mod full;
mod held;
mod in_plane;
mod memory;
mod old;
mod plans;
mod play;
mod tables;
mod tell;
mod upcoming;
mod wholes;

use full::tell_full;
use held::tell_held;
use memory::Memory;
use plans::tell_plans;
use play::{begin, go_on, play};
use tables::tell_tables;
use upcoming::tell_upcoming;
use wholes::tell_wholes;

const OPENINGS: [(u8, u32); 6] = [
    (1, 1),
    (16, 134217728),
    (0, 0),
    (17, 3),
    (1, 0),
    (16, 134217729),
];

fn openings(rt: &HostRuntime) -> io::Result<()> {
    for (processors, scale) in OPENINGS {
        play(
            rt,
            Script {
                name: "a board",
                processors,
                scale,
                rows: 0,
                asks: &[],
            },
        )?;
    }
    Ok(())
}

// Sixteen planes, each by the same three lines.
fn last_tick(rt: &HostRuntime) -> io::Result<()> {
    let script = scripts::longest_task();
    let mut memory = Memory::new(script.rows);
    let Some(mut stage) = begin(rt, script, &mut memory)? else {
        return Ok(());
    };
    for _ in 0..16 {
        stage = go_on(rt, stage, &mut memory, scripts::longest_plane())?;
    }
    let _ = go_on(rt, stage, &mut memory, scripts::past_last_tick())?;
    Ok(())
}

fn worked(rt: &HostRuntime) -> io::Result<()> {
    for script in [
        scripts::three_tasks_by_steps(),
        scripts::three_tasks_by_a_finish(),
        scripts::two_tasks_largest_first(),
        scripts::two_tasks_ceiling_only(),
        scripts::three_rules(),
        scripts::eight_tasks(),
        scripts::eight_tasks_on_three(),
        scripts::admissions(),
        scripts::full_memory(),
        scripts::leaving(),
        scripts::order_in_a_plane(),
        scripts::other_task_memory(),
        scripts::other_token_memory(),
    ] {
        play(rt, script)?;
    }
    Ok(())
}

fn main(rt: HostRuntime) -> io::Result<()> {
    openings(&rt)?;
    worked(&rt)?;
    last_tick(&rt)?;
    tell_tables(&rt)?;
    tell_plans(&rt)?;
    tell_held(&rt)?;
    tell_full(&rt)?;
    tell_upcoming(&rt)?;
    tell_wholes(&rt)
}
