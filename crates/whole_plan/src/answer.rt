// All that a program says to a table.
ghost use Rattle.std.specs.Prelude.{◌≡◌, ◌≤◌, length};
ghost use Rattle.whole_plan.specs.Planning.{in_front, whole_plan};
ghost use Rattle.whole_plan.specs.Answering.{refused_line, plan_or_line, fitted};

use crate::whole::whole_plan;
use rows::refusal::Refusal;

// Puts text at the front of `out`, as much as there is room for, and says how much that is.
fn put(out: &mut [u8], text: &[u8]) -> usize
    ensures answer { result ≡ length (fitted out.old text.now) }
    ensures bytes { out.new ≡ in_front (fitted out.old text.now) out.old }
{
    let n = text.len().min(out.len());
    out[0..n].copy_from_slice(&text[0..n]);
    n
}

// Puts the line of a refusal at the front of `out`. No number has more than two digits.
// By hand: a writer over lent bytes, for `write!`, would be longer than this.
fn put_refusal(out: &mut [u8], refusal: Refusal) -> usize
    ensures answer { result ≡ length (fitted out.old (refused_line refusal)) }
    ensures bytes { out.new ≡ in_front (fitted out.old (refused_line refusal)) out.old }
{
    let number = u8::from(refusal);
    if number < 10 {
        let mut line = *b"refused 0\n";
        line[8] = b'0' + number;
        put(out, &line)
    } else {
        let mut line = *b"refused 00\n";
        line[8] = b'0' + number / 10;
        line[9] = b'0' + number % 10;
        put(out, &line)
    }
}

/// Writes the answer to a table at the front of `out`, and says how many bytes it has: the plan file, or the line
/// `refused N`, of which a shorter `out` gets no more than it has room for. Bytes past it stay as they are.
pub fn answer_bytes(table: &[u8], out: &mut [u8]) -> usize
    ensures answer { result ≡ length (fitted out.old (plan_or_line (whole_plan table.now (length out.old)))) }
    ensures bytes { out.new ≡ in_front (fitted out.old (plan_or_line (whole_plan table.now (length out.old)))) out.old }
    ensures short { result ≤ length out.old }
{
    match whole_plan(table, out) {
        Ok(length) => length,
        Err(refusal) => put_refusal(out, refusal),
    }
}
