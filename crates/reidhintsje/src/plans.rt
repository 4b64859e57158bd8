// The reader of plans, the packers, the reader of APLX images, and their check against a plan.
ghost use Rattle.std.specs.Prelude.{◌≡◌, ℕ};
ghost use Rattle.plan.specs.Plan.{read_plan};
ghost use Rattle.plan.specs.Packed.{written_length};
ghost use Rattle.plan.specs.Code.{unit_of};
ghost use Rattle.plan.specs.Code.Packer as packer;
ghost use Rattle.srom_pack.specs.Image.{srom_image};
ghost use Rattle.aplx_pack.specs.Image.{aplx_image};
ghost use Rattle.aplx_read.specs.PlanBytes.{plan_bytes};
ghost use Rattle.aplx_read.specs.ReadBack.{read_image};
ghost use Rattle.outcome_numbers.specs.Numbers.{first, pack_numbers};
ghost use Rattle.outcome_numbers.specs.Numbers.Laws.{too_small};
ghost use Rattle.reidhintsje.specs.Calls.{unit_at, read_call, srom_pack_call, aplx_pack_call, aplx_shared_pack_call, aplx_read_call, aplx_check_call};

use outcome::refusal::{Cause, Refusal};
use outcome_numbers::numbers::{checked_parts, packed_parts, put, read_parts};
use plan::piece::Target;

// Targets; any other number is any medium.
const APLX: u32 = 0;

const SROM: u32 = 1;

#[tactic(auto, unfolding(crate::specs::Calls::unit_at))]
fn target_of(target: u32) -> Target
    ensures { unit_of result ≡ unit_at target }
{
    match target {
        APLX => Target::Aplx,
        SROM => Target::Srom,
        _ => Target::Any,
    }
}

// Reads a plan.
pub fn reidhintsje_plan_read(plan: &[u8], target: u32, outcome: &mut [u64; 8]) -> u32
    ensures value { result ≡ first outcome.new }
    ensures outcome_after { outcome.new ≡ read_call plan.now target }
{
    let medium = target_of(target);
    let answer = plan::read::read(plan, medium);
    put(outcome, read_parts(answer))
}

// Whether the output was too small for what was to be written.
fn too_small(answer: Result<usize, Refusal>) -> bool
    ensures { result ≡ too_small (packer.outcome_is answer) }
{
    answer.is_err_and(|refusal| refusal.cause == Cause::OutputTooSmall)
}

// Puts what a packer answered. Where the output was too small the length that it asks for is counted.
fn put_packed<F: FnOnce() -> usize>(
    answer: Result<usize, Refusal>,
    length: F,
    outcome: &mut [u64; 8],
) -> u32
    requires { F.IsAlwaysCallable length }
    ensures value { result ≡ first outcome.new }
    ensures outcome_after { (k : ℕ) → ((n : ℕ) → F.post length n → n ≡ k) → outcome.new ≡ pack_numbers k (packer.outcome_is answer) }
{
    let needed = if too_small(answer) { length() } else { 0 };
    put(outcome, packed_parts(answer, needed as u64))
}

// Packs a plan as a serial ROM image at the output's front. A plan whose image does not fit is read once more for the image's length.
pub fn reidhintsje_pack_srom(plan: &[u8], output: &mut [u8], outcome: &mut [u64; 8]) -> u32
    ensures value { result ≡ first outcome.new }
    ensures outcome_after { outcome.new ≡ (srom_pack_call plan.now output.old).numbers }
    ensures output_after { output.new ≡ (srom_pack_call plan.now output.old).output }
{
    let answer = srom_pack::pack::pack(plan, output);
    put_packed(answer, || srom_pack::pack::image_length(plan), outcome)
}

// Packs a plan as an APLX image at the output's front. A plan whose image does not fit is read once more for the image's length.
pub fn reidhintsje_pack_aplx(plan: &[u8], output: &mut [u8], outcome: &mut [u64; 8]) -> u32
    ensures value { result ≡ first outcome.new }
    ensures outcome_after { outcome.new ≡ (aplx_pack_call plan.now output.old).numbers }
    ensures output_after { output.new ≡ (aplx_pack_call plan.now output.old).output }
{
    let answer = aplx_pack::pack::pack(plan, output);
    put_packed(answer, || aplx_pack::pack::image_length(plan), outcome)
}

// Packs a plan as an APLX image that keeps one copy of equal put data, at the output's front. A plan whose image does not fit is read once
// more for the image's length.
pub fn reidhintsje_pack_aplx_shared(plan: &[u8], output: &mut [u8], outcome: &mut [u64; 8]) -> u32
    ensures value { result ≡ first outcome.new }
    ensures outcome_after { outcome.new ≡ (aplx_shared_pack_call plan.now output.old).numbers }
    ensures output_after { output.new ≡ (aplx_shared_pack_call plan.now output.old).output }
{
    let answer = aplx_share::pack::pack(plan, output);
    put_packed(answer, || aplx_share::pack::image_length(plan), outcome)
}

// Reads an APLX image back as a plan at the output's front. An image whose plan does not fit is read once more for the plan's length.
pub fn reidhintsje_aplx_read(image: &[u8], output: &mut [u8], outcome: &mut [u64; 8]) -> u32
    ensures value { result ≡ first outcome.new }
    ensures outcome_after { outcome.new ≡ (aplx_read_call image.now output.old).numbers }
    ensures output_after { output.new ≡ (aplx_read_call image.now output.old).output }
{
    let answer = aplx_read::read_back::read_back(image, output);
    put_packed(answer, || aplx_read::read_back::plan_length(image), outcome)
}

// Checks an APLX image against a plan.
pub fn reidhintsje_aplx_check(plan: &[u8], image: &[u8], outcome: &mut [u64; 8]) -> u32
    ensures value { result ≡ first outcome.new }
    ensures outcome_after { outcome.new ≡ aplx_check_call plan.now image.now }
{
    let answer = aplx_check::check::check(plan, image);
    put(outcome, checked_parts(answer))
}
