// The pieces of an image.
ghost use Rattle.std.specs.Prelude.{◌≡◌};
ghost use Rattle.plan.specs.Code.{outcome_of, outcome_is};
ghost use Rattle.aplx_read.specs.ReadBack.{read_image};

use crate::entry::entry_at;
use outcome::refusal::{Cause, Refusal};
use plan::piece::{fill_length, put_length};
use plan::read::Pieces;

// The number of pieces and the sums of their lengths, or the refusal of the first entry that is none. The 65th entry ends the loop: it is the
// end or is refused.
pub fn read(image: &[u8]) -> Result<Pieces, Refusal>
    ensures { outcome_is result ≡ outcome_of (read_image image.now) }
{
    let mut puts: usize = 0;
    let mut fills: usize = 0;
    for i in 0..65 {
        match entry_at(image, i) {
            Ok(Some(piece)) => {
                puts += put_length(piece);
                fills += fill_length(piece);
            }
            Ok(None) => {
                return Ok(Pieces {
                    count: i as usize,
                    puts,
                    fills,
                });
            }
            Err(cause) => return Err(cause.at(i as usize)),
        }
    }
    Err(Cause::TooManyPieces.at(65))
}
