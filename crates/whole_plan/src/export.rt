// The whole plan as callers in C see it; the crate whole_plan_c exports it to them.
ghost use Rattle.std.specs.Prelude.{◌≡◌, ℕ, ◌^◌, ◌<◌, length, take, pos, IfOk};
ghost use Rattle.whole_plan.specs.Planning.{whole_plan, plan_length, with_plan};
ghost use Rattle.whole_plan.specs.Serving.{PlanServesEveryPeriod};
ghost use Rattle.whole_plan.specs.Answering.{length_or_minus};

use crate::whole::whole_plan;
use rows::refusal::Refusal;

// The length, or minus the number of the refusal: C knows no `Result`.
fn signed(answer: Result<usize, Refusal>) -> i64
    requires { IfOk answer (λ n. n < 2 ^ 63) }
    ensures { result ≡ length_or_minus answer }
{
    match answer {
        Ok(length) => length as i64,
        Err(refusal) => -i64::from(u8::from(refusal)),
    }
}

/// Makes the whole plan of a table for a caller in C: the length of the plan file, or minus the number of the refusal.
pub fn kiln_whole_plan(table: &[u8], plan: &mut [u8]) -> i64
    ensures answer { result ≡ length_or_minus (plan_length (whole_plan table.now (length plan.old))) }
    ensures bytes { plan.new ≡ with_plan (whole_plan table.now (length plan.old)) plan.old }
    ensures serves { (n : ℕ) → result ≡ pos n → PlanServesEveryPeriod table.now (take n plan.new) }
{
    signed(whole_plan(table, plan))
}
