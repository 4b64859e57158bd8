// One block of the image.
ghost use Rattle.std.specs.Prelude.{◌≡◌, ◌∷◌, ◌++◌, ◌+◌, ◌%◌, ◌≤◌, length};
ghost use Rattle.words.specs.Bytes.{big_endian};
ghost use Rattle.word_blocks.specs.Repeat.{filling};
ghost use Rattle.words.specs.Store.{store};
ghost use Rattle.plan.specs.Code.{put_length, fill_length, piece_is};
ghost use Rattle.plan.specs.Code.Packer.{Writable};
ghost use Rattle.srom_pack.specs.Image.{block, block_of};

use plan::piece::Piece;

// The start byte, the length in words and the address.
fn put_header(output: &mut [u8], at: usize, words: u16, address: u32)
    requires { at + 7 ≤ length output.old }
    ensures { output.new ≡ store output.old at (0x3a ∷ (big_endian 2 words ++ big_endian 4 address)) }
{
    output[at] = 0x3a;
    words::put::be_half(output, at + 1, words);
    words::put::be_word(output, at + 3, address);
}

// A block of a word repeated over so many bytes.
fn fill_block(output: &mut [u8], at: usize, address: u32, size: usize, word: u32)
    requires { (at + (7 + size) ≤ length output.old) × (size % 4 ≡ 0) × (size ≤ 65536) }
    ensures { output.new ≡ store output.old at (block address (filling size word)) }
{
    let count = size / 4;
    put_header(output, at, count as u16, address);
    let little = words::turned::word(word);
    let start = at + 7;
    let end = start + size;
    word_blocks::fill::fill(&mut output[start..end], little);
}

// A block of bytes that are whole words.
fn data_block(output: &mut [u8], at: usize, address: u32, source: &[u8])
    requires { (at + (7 + length source.now) ≤ length output.old) × (length source.now % 4 ≡ 0) × (length source.now ≤ 65536) }
    ensures { output.new ≡ store output.old at (block address source.now) }
{
    let count = source.len() / 4;
    put_header(output, at, count as u16, address);
    word_blocks::swap::put(output, at + 7, source);
}

// The block of a piece of the plan.
pub(crate) fn write_block(plan: &[u8], piece: Piece, output: &mut [u8], at: usize)
    requires { Writable 4 plan.now piece × (at + (7 + put_length piece + fill_length piece) ≤ length output.old) }
    ensures { output.new ≡ store output.old at (block_of (piece_is plan.now piece)) }
{
    match piece {
        Piece::Put {
            address,
            from,
            length,
        } => data_block(output, at, address, &plan[from..from + length]),
        Piece::Fill {
            address,
            length,
            word,
        } => fill_block(output, at, address, length, word),
        Piece::Run { address } => put_header(output, at, 0, address),
    }
}
