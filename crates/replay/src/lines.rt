// One line after the other.
use crate::bytes::Buffers;
use crate::call::Call;
use crate::make::make;
use crate::read;
use std::io;

// What a line asks.
enum Line<'a> {
    Nothing,
    Name(&'a [u8]),
    Call { name: &'a [u8], call: Call },
}

fn asked<'a>(line: &'a [u8], buffers: &mut Buffers) -> Option<Line<'a>> {
    if line.is_empty() || line.starts_with(b"#") {
        return Some(Line::Nothing);
    }
    if let Some(name) = line.strip_prefix(b": ") {
        return Some(Line::Name(name));
    }
    let (name, call) = read::call(line, buffers)?;
    Some(Line::Call { name, call })
}

// Does what a line asks: writes the name of the next call, or makes a call.
fn answer<R: Print>(rt: &R, line: Line, buffers: &mut Buffers) -> io::Result<()> {
    match line {
        Line::Nothing => Ok(()),
        Line::Name(name) => {
            rt.write_all(name)?;
            rt.write_all(b": ")
        }
        Line::Call { name, call } => {
            rt.write_all(name)?;
            rt.write_all(b"\n")?;
            make(rt, call, buffers)
        }
    }
}

// Whether every line was one that asks something. Ends at the first that is not, and writes its number.
pub(crate) fn all<R: Print>(rt: &R, text: &[u8]) -> io::Result<bool> {
    let mut buffers = Buffers::new();
    for (index, line) in text.split(|byte| *byte == b'\n').enumerate() {
        match asked(line, &mut buffers) {
            Some(line) => answer(rt, line, &mut buffers)?,
            None => {
                println!(rt; "not a call: line {}", index + 1)?;
                return Ok(false);
            }
        }
    }
    Ok(true)
}
