// Pairs of plans in data/, each compared. second/programs.py makes them and says what each is.
#![tactic(auto)]

ghost use Rattle.std.specs.Prelude.{◌≤◌, length};
ghost use Rattle.file_bytes.specs.Counts.{IsPrefixLen};

use comparison::comparison::LONGEST_TEXT;
use std::io;
use std::rt::Files;

// The name of a file, at the buffer's front. Answers its length.
fn file(name: &[u8], ending: &[u8], path: &mut [u8]) -> usize
    requires { (length name.now ≤ 60) × (length ending.now ≤ 4) }
    ensures { IsPrefixLen result path.new }
{
    words::put::bytes(path, 0, name);
    words::put::bytes(path, name.len(), ending);
    (name.len() + ending.len()).min(path.len())
}

// What is printed for the files NAME_old and NAME_new, and the plan that is refused, under a title.
fn case<R: Files + Print>(rt: &R, name: &[u8]) -> io::Result<()>
    requires { length name.now ≤ 60 }
{
    let mut old = [0u8; 64];
    let mut new = [0u8; 64];
    let old_end = file(name, b"_old", &mut old);
    let new_end = file(name, b"_new", &mut new);
    let mut output = [0u8; LONGEST_TEXT];
    let printed = comparison::program::compare_files(
        rt,
        &old[..old_end],
        &new[..new_end],
        &mut output,
    );
    let size = printed.size;
    let refused = printed.refused;
    rt.write_all(name)?;
    rt.write_all(b":\n")?;
    rt.write_all(&output[..size])?;
    comparison::program::write_refused(rt, refused);
    rt.write_all(b"\n")
}

fn main(rt: HostRuntime) -> io::Result<()> {
    case(&rt, b"equal")?;
    case(&rt, b"one_address")?;
    case(&rt, b"several_stretches")?;
    case(&rt, b"most_stretches")?;
    case(&rt, b"too_many_stretches")?;
    case(&rt, b"correction_listed_last")?;
    case(&rt, b"other_run")?;
    case(&rt, b"no_run_against_a_run")?;
    case(&rt, b"neither_has_a_run")?;
    case(&rt, b"missing_old")?;
    case(&rt, b"missing_new")?;
    case(&rt, b"both_missing")?;
    case(&rt, b"old_refused_2")?;
    case(&rt, b"old_refused_3")?;
    case(&rt, b"old_refused_5")?;
    case(&rt, b"old_refused_9")?;
    case(&rt, b"old_refused_11")?;
    case(&rt, b"old_refused_19")?;
    case(&rt, b"new_refused_2")?;
    case(&rt, b"new_refused_3")?;
    case(&rt, b"new_refused_5")?;
    case(&rt, b"new_refused_9")?;
    case(&rt, b"new_refused_11")?;
    case(&rt, b"new_refused_19")?;
    case(&rt, b"longest")?;
    case(&rt, b"old_too_long")?;
    case(&rt, b"new_too_long")?;
    case(&rt, b"old_too_long_new_refused")?;
    case(&rt, b"old_refused_new_too_long")?;
    case(&rt, b"top_of_the_address_space")
}
