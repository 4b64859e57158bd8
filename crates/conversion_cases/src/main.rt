// The plans in data/, each converted to every image, and the images, each read back. second/programs.py makes them and says what each is.
#![tactic(auto)]

use conversion::convert::Packing;
use std::rt::Files;
use std::{fs, io};

// The bytes as they stand, under a title with their number.
fn show<R: Print>(rt: &R, name: &str, kind: &str, bytes: &[u8]) -> io::Result<()> {
    let n = bytes.len();
    println!(rt; "{name}{kind}{n} bytes")?;
    rt.write_all(bytes)?;
    rt.println("")
}

// What is written for the plan in a file.
fn convert<R: Files + Print + Eprint>(
    rt: &R,
    name: &str,
    packing: Packing,
    packing_name: &str,
) -> io::Result<()> {
    match fs::open(rt, name) {
        Ok(mut file) => {
            let mut output = [0u8; 65536];
            let size = conversion::program::convert_file(packing, &mut file, &mut output);
            show(rt, name, packing_name, &output[..size])
        }
        Err(error) => eprintln!(rt; "{name}: {error}"),
    }
}

fn plan<R: Files + Print + Eprint>(rt: &R, name: &str) -> io::Result<()> {
    convert(rt, name, Packing::Aplx, ", APLX: ")?;
    convert(rt, name, Packing::SharedAplx, ", shared APLX: ")?;
    convert(rt, name, Packing::Srom, ", SROM: ")
}

// What is written for the image in a file.
fn image<R: Files + Print + Eprint>(rt: &R, name: &str) -> io::Result<()> {
    match fs::open(rt, name) {
        Ok(mut file) => {
            let mut output = [0u8; 32768];
            match conversion::program::read_back_file(&mut file, &mut output) {
                Ok(size) => show(rt, name, ", plan: ", &output[..size]),
                Err(_) => println!(rt; "{name}, plan: too long, nothing is written"),
            }
        }
        Err(error) => eprintln!(rt; "{name}: {error}"),
    }
}

fn main(rt: HostRuntime) -> io::Result<()> {
    plan(&rt, "coefficients")?;
    plan(&rt, "empty")?;
    plan(&rt, "refused")?;
    plan(&rt, "refused_by_both")?;
    plan(&rt, "largest")?;
    plan(&rt, "larger")?;
    plan(&rt, "too_long")?;
    plan(&rt, "srom_largest")?;
    plan(&rt, "srom_larger")?;
    plan(&rt, "channels")?;
    plan(&rt, "shared_largest")?;
    plan(&rt, "shared_larger")?;
    image(&rt, "image_coefficients")?;
    image(&rt, "empty")?;
    image(&rt, "image_refused")?;
    image(&rt, "image_largest")?;
    image(&rt, "image_longest_plan")?;
    image(&rt, "image_longer_plan")?;
    image(&rt, "image_and_more")?;
    image(&rt, "image_too_long")
}
