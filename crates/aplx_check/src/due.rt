// One entry, and the part or run that is due.
ghost use Rattle.std.specs.Prelude.{◌≡◌, ℕ, ◌+◌, ◌*◌, ◌≤◌, List};
ghost use Rattle.plan.specs.Plan.{put, fill, run};
ghost use Rattle.plan.specs.Code.{put_length, fill_length, piece_is};
ghost use Rattle.plan.specs.Code.Packer.{Writable};
ghost use Rattle.aplx_check.specs.Parts.{rest_of};
ghost use Rattle.aplx_check.specs.Check.{is_part, has_data, is_due, part_length};
ghost use Rattle.aplx_check.specs.Code.{after_part};

use plan::piece::Piece;
use words::read::le_word_at;

// The command words of the entries that follow a plan.
const RCOPY: u32 = 2;

const FILL: u32 = 3;

const EXEC: u32 = 4;

// The number of addresses.
const ADDRESSES: u64 = 4294967296;

// The index of the piece that is due, and how many of its bytes are done.
#[derive(Clone, Copy, Debug, PartialEq, Eq)]
pub(crate) struct Due {
    pub index: u32,
    pub done: usize,
}

// Whether so many bytes can be the next part, where `left` bytes are due at an address.
#[tactic(auto, unfolding(crate::specs::Check::is_part))]
fn is_part(address: u64, left: usize, length: u32) -> bool
    ensures { result ≡ is_part address left length }
{
    length != 0 && length % 32 == 0 && length as usize <= left && address < ADDRESSES
}

// Whether these bytes stand in the image at an offset, a multiple of 4, behind the end entry.
#[tactic(auto, unfolding(crate::specs::Check::has_data))]
fn has_data(image: &[u8], behind: usize, source: u32, bytes: &[u8]) -> bool
    ensures { result ≡ has_data image.now behind source bytes.now }
{
    let from = source as usize;
    source % 4 == 0
        && from >= behind
        && words::range::fits(from, bytes.len(), image.len())
        && words::equal::equal(&image[from..from + bytes.len()], bytes)
}

// Whether the entry is a part of a put of which these bytes are due at an address.
#[tactic(auto, unfolding(crate::specs::Check::is_due))]
fn is_put_due(image: &[u8], behind: usize, entry: u32, address: u64, bytes: &[u8]) -> bool
    requires { entry ≤ 256 }
    ensures { result ≡ is_due image.now behind (16 * entry) (put address bytes.now) }
{
    let at = 16 * entry;
    let w = words::four::read(image, at as usize);
    w.first == RCOPY
        && w.second as u64 == address
        && is_part(address, bytes.len(), w.fourth)
        && has_data(
            image,
            behind,
            at.wrapping_add(w.third),
            &bytes[..w.fourth as usize],
        )
}

// Whether the entry is a part of a fill of which so many bytes are due at an address.
#[tactic(auto, unfolding(crate::specs::Check::is_due))]
fn is_fill_due(image: &[u8], entry: u32, address: u64, left: usize, word: u32) -> bool
    requires { entry ≤ 256 }
    ensures { (behind : ℕ) → result ≡ is_due image.now behind (16 * entry) (fill address left word) }
{
    let w = words::four::read(image, 16 * (entry as usize));
    w.first == FILL
        && w.second as u64 == address
        && is_part(address, left, w.third)
        && w.fourth == word
}

// Whether the entry is this run.
#[tactic(auto, unfolding(crate::specs::Check::is_due))]
fn is_run_due(image: &[u8], entry: u32, address: u32) -> bool
    requires { entry ≤ 256 }
    ensures { (behind : ℕ) → result ≡ is_due image.now behind (16 * entry) (run address) }
{
    let at = 16 * (entry as usize);
    le_word_at(image, at) == EXEC && le_word_at(image, at + 4) == address
}

// Whether the entry is the next part, or the run, of a piece of the plan of which so many bytes are done.
pub(crate) fn is_due(
    plan: &[u8],
    image: &[u8],
    behind: usize,
    entry: u32,
    piece: Piece,
    done: usize,
) -> bool
    requires { Writable 1 plan.now piece × (done ≤ put_length piece + fill_length piece) × (entry ≤ 256) }
    ensures { result ≡ is_due image.now behind (16 * entry) (rest_of done (piece_is plan.now piece)) }
{
    match piece {
        Piece::Put {
            address,
            from,
            length,
        } => {
            is_put_due(
                image,
                behind,
                entry,
                address as u64 + done as u64,
                &plan[from + done..from + length],
            )
        }
        Piece::Fill {
            address,
            length,
            word,
        } => is_fill_due(
            image,
            entry,
            address as u64 + done as u64,
            length - done,
            word,
        ),
        Piece::Run { address } => is_run_due(image, entry, address),
    }
}

// The length that the entry gives to a part of the piece.
pub(crate) fn part_length(image: &[u8], entry: u32, piece: Piece) -> u32
    requires { entry ≤ 256 }
    ensures { (plan : List ℕ) → result ≡ part_length image.now (16 * entry) (piece_is plan piece) }
{
    let at = 16 * (entry as usize);
    match piece {
        Piece::Put { .. } => le_word_at(image, at + 12),
        Piece::Fill { .. } => le_word_at(image, at + 8),
        Piece::Run { .. } => 0,
    }
}

// What is due behind a part of so many bytes, of a piece of so many.
pub(crate) fn after_part(due: Due, length: usize, size: usize) -> Due
    requires { (due.index ≤ 64) × (due.done + length ≤ size) }
    ensures { result ≡ after_part due length size }
{
    let done = due.done + length;
    if done == size {
        Due {
            index: due.index + 1,
            done: 0,
        }
    } else {
        Due { done, ..due }
    }
}
