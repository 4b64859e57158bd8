// Two plans compared.
ghost use Rattle.std.specs.Prelude.{◌≡◌};
ghost use Rattle.outcome_numbers.specs.Numbers.{first};
ghost use Rattle.reidhintsje.specs.Calls.{compare_call};

// Compares two plans. The stretches of addresses at which they differ stand at the output's front.
#[unsafe(no_mangle)]
pub extern "C" fn reidhintsje_compare(
    old: &[u8],
    new: &[u8],
    output: &mut [u8],
    outcome: &mut [u64; 8],
) -> u32
    ensures value { result ≡ first outcome.new }
    ensures outcome_after { outcome.new ≡ (compare_call old.now new.now output.old).numbers }
    ensures output_after { output.new ≡ (compare_call old.now new.now output.old).output }
{
    reidhintsje::comparison::reidhintsje_compare(old, new, output, outcome)
}
