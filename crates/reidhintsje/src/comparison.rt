// Two plans compared.
ghost use Rattle.std.specs.Prelude.{◌≡◌, ◌*◌};
ghost use Rattle.compare.specs.Compare.{stretch_size};
ghost use Rattle.compare.specs.Code.{stretch_count, outcome_is};
ghost use Rattle.outcome_numbers.specs.Numbers.{first};
ghost use Rattle.reidhintsje.specs.Calls.{compare_call};
ghost use Rattle.reidhintsje.specs.Calls.Comparison.{Few};

use compare::compare::{Found, Refused, STRETCH_SIZE};
use outcome_numbers::comparison::compared_parts;
use outcome_numbers::numbers::put;

// The bytes of the stretches that were found.
fn written(answer: Result<Found, Refused>) -> u64
    requires { Few answer }
    ensures { result ≡ stretch_size * stretch_count (outcome_is answer) }
{
    match answer {
        Ok(found) => (STRETCH_SIZE * found.count) as u64,
        Err(_) => 0,
    }
}

// Compares two plans. The stretches of addresses at which they differ stand at the output's front.
pub fn reidhintsje_compare(old: &[u8], new: &[u8], output: &mut [u8], outcome: &mut [u64; 8]) -> u32
    ensures value { result ≡ first outcome.new }
    ensures outcome_after { outcome.new ≡ (compare_call old.now new.now output.old).numbers }
    ensures output_after { output.new ≡ (compare_call old.now new.now output.old).output }
{
    let answer = compare::compare::compare(old, new, output);
    let bytes = written(answer);
    put(outcome, compared_parts(answer, bytes))
}
