// The theory of the planner: what each call on a board or a plane does (specs/, to be read from State to Llref), and what follows.
// It promises what holds after every run of calls, that a finish ends its plane, and that "largest first" is LLREF.
// Code that does what is defined here is left to the crates above.
#![tactic(auto)]

ghost use Rattle.model.specs.Claims.{RunsSound};
ghost use Rattle.model.specs.Fitting.{FinishOver};
ghost use Rattle.model.specs.Llref.{LargestFirstIsLlref};

/// After every run of calls on a board just opened, all that `Holds` names holds.
pub fn every_run_is_sound(processors: u8, scale: u32)
    ensures { RunsSound processors scale }
{}

/// A finish that is accepted has ended its plane, over any memory that fits.
pub fn finish_ends_every_plane()
    ensures { FinishOver }
{}

/// A step that is accepted under "largest first" is that of LLREF.
pub fn largest_first_is_llref()
    ensures { LargestFirstIsLlref }
{}
