// The board at rest and the open plane. Both move and never copy, so the order of the calls is the compiler's.
ghost use Rattle.std.specs.Prelude.{◌*◌, ◌≤◌};

/// A board at rest: so many processors, so many units to a tick, the present tick, and the count and the load of its
/// tasks, whose rows lie in memory that the caller brings to each call.
#[derive(Drop)]
pub struct Board {
    pub(crate) processors: u8,
    pub(crate) scale: u32,
    pub(crate) tick: u32,
    pub(crate) count: u16,
    pub(crate) load: u32,
    ghost some: { 1 ≤ processors },
    ghost few: { processors ≤ 16 },
    ghost scaled: { 1 ≤ scale },
    ghost fine: { scale ≤ 134217728 },
    ghost timely: { tick ≤ 2147483648 },
    ghost counted: { count ≤ 256 },
    ghost bound: { load ≤ processors * scale },
}

/// A board whose plane is open: the tick at which the plane ends, and the units that remain of it.
#[derive(Drop)]
pub struct Plane {
    pub(crate) board: Board,
    pub(crate) end: u32,
    pub(crate) span: u64,
    ghost tasked: { 1 ≤ board.count },
    ghost ends: { end ≤ 2147483648 },
    ghost short: { span ≤ 18014398509481984 },
}
