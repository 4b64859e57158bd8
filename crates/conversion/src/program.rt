// The programs: they read and write, and nothing else. Where writing fails they say so on standard error.
ghost use Rattle.file_bytes.specs.Counts.{IsPrefixLen};
ghost use Rattle.conversion.specs.Conversion.{FromFile};
ghost use Rattle.conversion.specs.Restored.{FromImageFile, Inside};

use crate::convert::Packing;
use crate::read_back::ImageTooLong;
use std::io::Read;

// What is written for the plan in a file: so many bytes at the output's front.
// One byte more is read than a plan may have, so that a longer one is seen.
pub fn convert_file<R: Read>(packing: Packing, file: &mut R, output: &mut [u8; 65536]) -> usize
    ensures from_file { FromFile (R.remaining file.old) (R.remaining file.new) packing output.old result output.new }
    ensures prefix_len { IsPrefixLen result output.new }
{
    let mut input = [0u8; 32769];
    let n = file_bytes::read_full(file, &mut input);
    crate::convert::convert(packing, &input[..n], output)
}

// What is written for the image in a file. One byte more is read than an image may have, so that a longer one is seen.
pub fn read_back_file<R: Read>(
    file: &mut R,
    output: &mut [u8; 32768],
) -> Result<usize, ImageTooLong>
    ensures from_image_file { FromImageFile (R.remaining file.old) (R.remaining file.new) output.old result output.new }
    ensures inside { Inside result output.new }
{
    let mut input = [0u8; 65537];
    let n = file_bytes::read_full(file, &mut input);
    crate::read_back::read_back(&input[..n], output)
}

fn write<R: Print + Eprint>(rt: &R, bytes: &[u8]) {
    if rt.write_all(bytes).is_err() {
        let _ = rt.eprint("the output was not written whole\n");
    }
}

// From standard input to standard output, a plan to its image.
pub fn run<R: Input + Print + Eprint>(rt: &R, packing: Packing) {
    let mut output = [0u8; 65536];
    let size = convert_file(packing, &mut rt.reader(), &mut output);
    write(rt, &output[..size]);
}

// From standard input to standard output, an image to its plan. For an image that is too long one line is written to standard error.
pub fn run_read_back<R: Input + Print + Eprint>(rt: &R) {
    let mut output = [0u8; 32768];
    match read_back_file(&mut rt.reader(), &mut output) {
        Ok(size) => write(rt, &output[..size]),
        Err(error) => {
            let _ = eprintln!(rt; "{error}");
        }
    }
}
