// What is written for a plan.
ghost use Rattle.std.specs.Prelude.{◌≡◌, ◌≤◌, length};
ghost use Rattle.words.specs.Store.{store};
ghost use Rattle.plan.specs.Packed.{output_after, outcome_of};
ghost use Rattle.plan.specs.Code.Packer.{outcome_is};
ghost use Rattle.conversion.specs.Conversion.{pack_for, written};

use outcome::refusal::{Cause, Refusal};

// The image that a plan is packed as: for APLX, for APLX with one copy of equal put data, for a serial ROM.
#[derive(Clone, Copy, Debug, PartialEq, Eq)]
pub enum Packing {
    Aplx,
    SharedAplx,
    Srom,
}

// The packer of the image.
fn pack(packing: Packing, plan: &[u8], output: &mut [u8]) -> Result<usize, Refusal>
    ensures result_value { outcome_is result ≡ outcome_of (pack_for packing plan.now (length output.old)) }
    ensures output_after { output.new ≡ output_after (pack_for packing plan.now (length output.old)) output.old }
{
    match packing {
        Packing::Aplx => aplx_pack::pack::pack(plan, output),
        Packing::SharedAplx => aplx_share::pack::pack(plan, output),
        Packing::Srom => srom_pack::pack::pack(plan, output),
    }
}

// The image of a plan, or the line of its refusal, at the output's front. Answers its length; the output behind it is left as it was.
pub fn convert(packing: Packing, plan: &[u8], output: &mut [u8]) -> usize
    ensures value { result ≡ length (written packing plan.now (length output.old)) }
    ensures output_after { output.new ≡ store output.old 0 (written packing plan.now (length output.old)) }
    ensures upper_bound { result ≤ length output.old }
{
    if plan.len() > 32768 {
        return text::refusal::put(output, Cause::PlanMalformed.number() as u64, 0);
    }
    let answer = pack(packing, plan, output);
    crate::shown::show(answer, output)
}
