// Rows filled and queues filled.
use crate::old::OLD_TAGS;
use crate::tell::tell_refused;
use queue::Queue;
use rows::refusal::Refusal;
use rows::row::Row;
use std::io;

const FILLS: [[u16; 16]; 5] = [
    [0; 16],
    [1, 2, 3, 4, 5, 6, 7, 8, 9, 10, 11, 12, 13, 14, 15, 65535],
    [1, 0, 0, 0, 0, 0, 0, 0, 0, 0, 0, 0, 0, 0, 0, 1],
    [1, 2, 3, 4, 5, 6, 7, 8, 9, 10, 11, 12, 13, 14, 15, 14],
    [65535, 65535, 0, 0, 0, 0, 0, 0, 0, 0, 0, 0, 0, 0, 0, 0],
];

fn tell_fill(rt: &HostRuntime, tags: [u16; 16]) -> io::Result<()> {
    println!(rt; "fill {tags:?}")?;
    let mut row = Row::new();
    let _ = row.fill(OLD_TAGS);
    match row.fill(tags) {
        Ok(()) => {
            let places = row.places();
            println!(rt; "  {places:?}")
        }
        Err(refusal) => tell_refused(rt, refusal, *row.places() == OLD_TAGS),
    }
}

// Puts all in, and gives the first refusal.
fn insert_all(memory: &mut [u64], all: &[u64]) -> Result<(), Refusal> {
    let mut queue = Queue::open(memory);
    for x in all {
        queue.insert(*x)?;
    }
    Ok(())
}

fn tell_queue(rt: &HostRuntime) -> io::Result<()> {
    println!(rt; "three into a queue of two")?;
    let mut two = [91, 92];
    let _ = insert_all(&mut two, &[7, 3]);
    let mut three = [91, 92];
    if let Err(refusal) = insert_all(&mut three, &[7, 3, 5]) {
        tell_refused(rt, refusal, three == two)?;
    }
    println!(rt; "one into a queue of none")?;
    if let Err(refusal) = insert_all(&mut [], &[7]) {
        tell_refused(rt, refusal, true)?;
    }
    println!(rt; "take from a queue of three")?;
    let mut memory = [91, 92, 93, 94];
    let mut queue = Queue::open(&mut memory);
    for x in [7, 3, 5] {
        let _ = queue.insert(x);
    }
    for _ in 0..4 {
        let first = queue.take_first();
        println!(rt; "  {first:?}")?;
    }
    Ok(())
}

pub fn tell_held(rt: &HostRuntime) -> io::Result<()> {
    println!(rt; "\nrows and queues")?;
    for tags in &FILLS {
        tell_fill(rt, *tags)?;
    }
    tell_queue(rt)
}
