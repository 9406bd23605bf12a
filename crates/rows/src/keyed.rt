// The one order check for rows of every kind.
ghost use Rattle.std.specs.Prelude.{◌≡◌, ℕ, map};
ghost use Rattle.rows.specs.Tests.{rising};

use crate::memory::{Task, Token};

/// A row that has its own key.
pub trait Keyed {
    ghost ordinal: { Self → ℕ };

    fn key(&self) -> u64
        ensures { result ≡ ordinal self.now };
}

impl Keyed for Task {
    ghost ordinal = { λ t. t.tag };

    fn key(&self) -> u64 {
        self.tag as u64
    }
}

impl Keyed for Token {
    ghost ordinal = { λ t. t.tag };

    fn key(&self) -> u64 {
        u64::from(self.tag)
    }
}

/// Whether each row's key is above that of the row before.
pub fn is_rising<T: Keyed>(rows: &[T]) -> bool
    ensures { result ≡ rising (map T.Keyed.ordinal rows.now) }
{
    rows.is_sorted_by(|before, after| before.key() < after.key())
}
