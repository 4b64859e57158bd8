// The program: it reads and writes, and nothing else. Where writing fails it says so on standard error.
ghost use Rattle.file_bytes.specs.Counts.{IsPrefixLen};
ghost use Rattle.comparison.specs.Code.{FromFiles};

use crate::comparison::{LONGEST_PLAN, LONGEST_TEXT, Printed};
use compare::compare::Side;
use std::rt::Files;

// The bytes of a file, as many as fit, at the buffer's front; none where it can't be opened, as by a name that is no text. Answers their number.
fn read_file<R: Files>(rt: &R, name: &[u8], plan: &mut [u8]) -> usize
    ensures { IsPrefixLen result plan.new }
{
    let Ok(path) = str::from_utf8(name) else {
        return 0;
    };
    file_bytes::read_file(rt, path, plan)
}

// What is printed for the plans in two files. One byte more is read than a plan may have, so that a longer one is seen.
pub fn compare_files<R: Files>(
    rt: &R,
    old_name: &[u8],
    new_name: &[u8],
    text: &mut [u8; LONGEST_TEXT],
) -> Printed
    ensures from_files { FromFiles text.old result text.new }
    ensures prefix_len { IsPrefixLen result.size text.new }
{
    let mut old = [0u8; LONGEST_PLAN + 1];
    let mut new = [0u8; LONGEST_PLAN + 1];
    let old_size = read_file(rt, old_name, &mut old);
    let new_size = read_file(rt, new_name, &mut new);
    crate::comparison::compare_text(&old[..old_size], &new[..new_size], text)
}

// The line that names the plan that is refused, if one is.
pub fn write_refused<P: Print>(file: &P, refused: Option<Side>) {
    match refused {
        None => {}
        Some(Side::Old) => {
            let _ = file.write_all(b"old is refused\n");
        }
        Some(Side::New) => {
            let _ = file.write_all(b"new is refused\n");
        }
    }
}

// The files `old` and `new` compared, to standard output.
pub fn run<R: Files + Print, E: Print>(rt: &R, errors: &E) {
    let mut text = [0u8; LONGEST_TEXT];
    let printed = compare_files(rt, b"old", b"new", &mut text);
    if rt.write_all(&text[..printed.size]).is_err() {
        let _ = errors.write_all(b"the output was not written whole\n");
    }
    write_refused(errors, printed.refused);
}
