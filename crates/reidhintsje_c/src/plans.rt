// The reader of plans, the packers, the reader of APLX images, and their check against a plan.
ghost use Rattle.std.specs.Prelude.{◌≡◌};
ghost use Rattle.outcome_numbers.specs.Numbers.{first};
ghost use Rattle.reidhintsje.specs.Calls.{read_call, srom_pack_call, aplx_pack_call, aplx_shared_pack_call, aplx_read_call, aplx_check_call};

// Reads a plan.
#[unsafe(no_mangle)]
pub extern "C" fn reidhintsje_plan_read(plan: &[u8], target: u32, outcome: &mut [u64; 8]) -> u32
    ensures value { result ≡ first outcome.new }
    ensures outcome_after { outcome.new ≡ read_call plan.now target }
{
    reidhintsje::plans::reidhintsje_plan_read(plan, target, outcome)
}

// Packs a plan as a serial ROM image at the output's front. A plan whose image does not fit is read once more for the image's length.
#[unsafe(no_mangle)]
pub extern "C" fn reidhintsje_pack_srom(
    plan: &[u8],
    output: &mut [u8],
    outcome: &mut [u64; 8],
) -> u32
    ensures value { result ≡ first outcome.new }
    ensures outcome_after { outcome.new ≡ (srom_pack_call plan.now output.old).numbers }
    ensures output_after { output.new ≡ (srom_pack_call plan.now output.old).output }
{
    reidhintsje::plans::reidhintsje_pack_srom(plan, output, outcome)
}

// Packs a plan as an APLX image at the output's front. A plan whose image does not fit is read once more for the image's length.
#[unsafe(no_mangle)]
pub extern "C" fn reidhintsje_pack_aplx(
    plan: &[u8],
    output: &mut [u8],
    outcome: &mut [u64; 8],
) -> u32
    ensures value { result ≡ first outcome.new }
    ensures outcome_after { outcome.new ≡ (aplx_pack_call plan.now output.old).numbers }
    ensures output_after { output.new ≡ (aplx_pack_call plan.now output.old).output }
{
    reidhintsje::plans::reidhintsje_pack_aplx(plan, output, outcome)
}

// Packs a plan as an APLX image that keeps one copy of equal put data, at the output's front. A plan whose image does not fit is read once
// more for the image's length.
#[unsafe(no_mangle)]
pub extern "C" fn reidhintsje_pack_aplx_shared(
    plan: &[u8],
    output: &mut [u8],
    outcome: &mut [u64; 8],
) -> u32
    ensures value { result ≡ first outcome.new }
    ensures outcome_after { outcome.new ≡ (aplx_shared_pack_call plan.now output.old).numbers }
    ensures output_after { output.new ≡ (aplx_shared_pack_call plan.now output.old).output }
{
    reidhintsje::plans::reidhintsje_pack_aplx_shared(plan, output, outcome)
}

// Reads an APLX image back as a plan at the output's front. An image whose plan does not fit is read once more for the plan's length.
#[unsafe(no_mangle)]
pub extern "C" fn reidhintsje_aplx_read(
    image: &[u8],
    output: &mut [u8],
    outcome: &mut [u64; 8],
) -> u32
    ensures value { result ≡ first outcome.new }
    ensures outcome_after { outcome.new ≡ (aplx_read_call image.now output.old).numbers }
    ensures output_after { output.new ≡ (aplx_read_call image.now output.old).output }
{
    reidhintsje::plans::reidhintsje_aplx_read(image, output, outcome)
}

// Checks an APLX image against a plan.
#[unsafe(no_mangle)]
pub extern "C" fn reidhintsje_aplx_check(plan: &[u8], image: &[u8], outcome: &mut [u64; 8]) -> u32
    ensures value { result ≡ first outcome.new }
    ensures outcome_after { outcome.new ≡ aplx_check_call plan.now image.now }
{
    reidhintsje::plans::reidhintsje_aplx_check(plan, image, outcome)
}
