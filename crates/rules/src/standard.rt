// The rules at hand.
ghost use Rattle.rules.specs.Keys.{largest_first, ceiling_only, stayers};
ghost use Rattle.std.proofs.Common.{rules};

use crate::rule::Rule;
use rows::limits::LONGEST_SPAN;

/// The most time left goes first.
#[derive(Clone, Copy)]
pub struct LargestFirst;

impl Rule for LargestFirst {
    ghost ranks = { λ _. largest_first };

    ghost lawful = { Prim.search rules };

    fn key(&self, left: u64, _span: u64, _processor: u8, _tag: u16) -> u64 {
        LONGEST_SPAN.saturating_sub(left)
    }

    fn is_by_left(&self) -> bool {
        true
    }
}

/// Tokens on the ceiling go first; nothing else counts.
#[derive(Clone, Copy)]
pub struct CeilingOnly;

impl Rule for CeilingOnly {
    ghost ranks = { λ _. ceiling_only };

    ghost lawful = { Prim.search rules };

    fn key(&self, left: u64, span: u64, _processor: u8, _tag: u16) -> u64 {
        if left == span { 0 } else { 1 }
    }
}

/// Tokens on the ceiling go first, and then those that have a processor.
#[derive(Clone, Copy)]
pub struct Stayers;

impl Rule for Stayers {
    ghost ranks = { λ _. stayers };

    ghost lawful = { Prim.search rules };

    fn key(&self, left: u64, span: u64, processor: u8, _tag: u16) -> u64 {
        if left == span {
            0
        } else if processor != 0 {
            1
        } else {
            2
        }
    }
}
