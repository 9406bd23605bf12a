// What a board and a plane tell of themselves.
ghost use Rattle.std.specs.Prelude.{◌≡◌};

use crate::board::{Board, Plane};

impl Board {
    /// How many processors there are.
    pub fn processors(&self) -> u8
        ensures { result ≡ self.now.processors }
    {
        self.processors
    }

    /// How many units a tick has.
    pub fn scale(&self) -> u32
        ensures { result ≡ self.now.scale }
    {
        self.scale
    }

    /// The present tick.
    pub fn tick(&self) -> u32
        ensures { result ≡ self.now.tick }
    {
        self.tick
    }

    /// How many tasks there are.
    pub fn count(&self) -> u16
        ensures { result ≡ self.now.count }
    {
        self.count
    }

    /// The load: the units that the tasks take together in each tick.
    pub fn load(&self) -> u32
        ensures { result ≡ self.now.load }
    {
        self.load
    }
}

impl Plane {
    /// The tick at which the plane ends.
    pub fn end_tick(&self) -> u32
        ensures { result ≡ self.now.end }
    {
        self.end
    }

    /// The units that remain of the plane.
    pub fn span(&self) -> u64
        ensures { result ≡ self.now.span }
    {
        self.span
    }
}
