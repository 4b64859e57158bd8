// What is written for an image.
ghost use Rattle.std.specs.Prelude.{◌≡◌, length};
ghost use Rattle.conversion.specs.Restored.{restored, answer_of, output_of, Inside};

use std::error::Error;
use std::fmt;

// An image of more than 65,536 bytes: nothing is written for it.
#[derive(Clone, Copy, Debug, PartialEq, Eq)]
pub struct ImageTooLong;

impl fmt::Display for ImageTooLong {
    fn fmt<W: fmt::Write>(&self, f: &mut fmt::Formatter<W>) -> fmt::Result {
        f.write_str("the image is longer than 65,536 bytes")
    }
}

impl Error for ImageTooLong {}

// The plan of an APLX image, or the line of its refusal, at the output's front. Answers its length. The output behind it is left as it was,
// and all of it where the image is too long.
pub fn read_back(image: &[u8], output: &mut [u8]) -> Result<usize, ImageTooLong>
    ensures value { result ≡ answer_of (restored image.now (length output.old)) }
    ensures output_after { output.new ≡ output_of (restored image.now (length output.old)) output.old }
    ensures inside { Inside result output.new }
{
    if image.len() > 65536 {
        return Err(ImageTooLong);
    }
    let answer = aplx_read::read_back::read_back(image, output);
    Ok(crate::shown::show(answer, output))
}
