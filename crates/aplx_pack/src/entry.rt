// One entry of the image, and its data.
ghost use Rattle.std.specs.Prelude.{◌≡◌, ◌+◌, ◌≤◌, ◌<◌, length};
ghost use Rattle.words.specs.Store.{store, store_if_fits};
ghost use Rattle.plan.specs.Plan.{data_of};
ghost use Rattle.plan.specs.Code.{put_length, row_is, piece_is};
ghost use Rattle.plan.specs.Code.Packer.{Writable};
ghost use Rattle.aplx_pack.specs.Code.{row_entry, with_piece};

use plan::piece::Piece;

// How many values a word has; of a length the lowest 32 bits are written.
const WORD_VALUES: usize = 4294967296;

// The entry of a piece; the data of a put lies so many bytes behind the entry's start. Where the entry does not fit, the output is left as
// it was.
pub fn write_entry(piece: Piece, offset: u32, output: &mut [u8], at: usize)
    ensures { output.new ≡ store_if_fits output.old at (row_entry (row_is piece) offset) }
{
    match piece {
        Piece::Put {
            address,
            length,
            ..
        } => {
            let size = (length % WORD_VALUES) as u32;
            words::four::put(output, at, 2, address, offset, size);
        }
        Piece::Fill {
            address,
            length,
            word,
        } => {
            let size = (length % WORD_VALUES) as u32;
            words::four::put(output, at, 3, address, size, word);
        }
        Piece::Run { address } => words::four::put(output, at, 4, address, 0, 0),
    }
}

// The data of a put at a place; another piece has none.
fn write_data(plan: &[u8], piece: Piece, output: &mut [u8], place: usize)
    requires { Writable 32 plan.now piece × (place + put_length piece ≤ length output.old) }
    ensures { output.new ≡ store output.old place (data_of (piece_is plan.now piece)) }
{
    if let Piece::Put { from, length, .. } = piece {
        words::put::bytes(output, place, &plan[from..from + length]);
    }
}

// The entry of a piece of the plan, and its data at a place behind it.
pub(crate) fn write_piece(plan: &[u8], piece: Piece, output: &mut [u8], at: usize, place: usize)
    requires { Writable 32 plan.now piece × (at + 16 ≤ place) × (place < 4294967296) × (place + put_length piece ≤ length output.old) }
    ensures { output.new ≡ with_piece output.old (piece_is plan.now piece) at place }
{
    write_entry(piece, (place - at) as u32, output, at);
    write_data(plan, piece, output, place);
}
