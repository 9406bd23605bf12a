// The rule of a script's line, chosen by its name as the script is played.
ghost use Rattle.cases.specs.Playing.{key};
ghost use Rattle.cases.specs.declared.script.Choice.TheVariants.{LargestFirst, CeilingOnly, Stayers};
ghost use Rattle.std.proofs.Common.{rules};

use crate::script::Choice;
use rules::rule::Rule;
use rules::standard;

impl Rule for Choice {
    ghost ranks = { key };

    ghost lawful = { elim [ LargestFirst ↦ Prim.search rules | CeilingOnly ↦ Prim.search rules | Stayers ↦ Prim.search rules ] };

    fn key(&self, left: u64, span: u64, processor: u8, tag: u16) -> u64 {
        match self {
            Choice::LargestFirst => standard::LargestFirst.key(left, span, processor, tag),
            Choice::CeilingOnly => standard::CeilingOnly.key(left, span, processor, tag),
            Choice::Stayers => standard::Stayers.key(left, span, processor, tag),
        }
    }

    fn is_by_left(&self) -> bool {
        matches!(self, Choice::LargestFirst)
    }
}
