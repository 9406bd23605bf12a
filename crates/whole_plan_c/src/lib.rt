// The call for C firmware, over the crate whole_plan.
// It promises what the call of the same name there does.
// A header for it lies in crates/whole_plan/include.
#![tactic(auto)]

ghost use Rattle.std.specs.Prelude.{◌≡◌, ℕ, length, take, pos};
ghost use Rattle.whole_plan.specs.Planning.{whole_plan, plan_length, with_plan};
ghost use Rattle.whole_plan.specs.Serving.{PlanServesEveryPeriod};
ghost use Rattle.whole_plan.specs.Answering.{length_or_minus};

use whole_plan::export;

// A static library is a crate of its own, so that the call stands twice and its promise with it.
/// Makes the whole plan of a table for a caller in C: the length of the plan file, or minus the number of the refusal.
#[unsafe(no_mangle)]
pub extern "C" fn kiln_whole_plan(table: &[u8], plan: &mut [u8]) -> i64
    ensures answer { result ≡ length_or_minus (plan_length (whole_plan table.now (length plan.old))) }
    ensures bytes { plan.new ≡ with_plan (whole_plan table.now (length plan.old)) plan.old }
    ensures serves { (n : ℕ) → result ≡ pos n → PlanServesEveryPeriod table.now (take n plan.new) }
{
    export::kiln_whole_plan(table, plan)
}
