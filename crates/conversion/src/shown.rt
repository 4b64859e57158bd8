// What is shown of what was packed or read back.
ghost use Rattle.std.specs.Prelude.{◌≡◌};
ghost use Rattle.plan.specs.Code.Packer.{outcome_is};
ghost use Rattle.conversion.specs.Shown.{size_after, line_after};

use outcome::refusal::Refusal;

// The bytes that stand at the output's front already, or the line of a refusal, which is put there. Answers their number.
pub(crate) fn show(answer: Result<usize, Refusal>, output: &mut [u8]) -> usize
    ensures value { result ≡ size_after (outcome_is answer) output.old }
    ensures output_after { output.new ≡ line_after (outcome_is answer) output.old }
{
    match answer {
        Ok(size) => size,
        Err(refusal) => {
            text::refusal::put(output, refusal.cause.number() as u64, refusal.place as u64)
        }
    }
}
