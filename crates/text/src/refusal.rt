// The line of a refusal.
ghost use Rattle.std.specs.Prelude.{◌≡◌, length};
ghost use Rattle.words.specs.Store.{store};
ghost use Rattle.text.specs.Refusal.{refusal_line, fitting};

// "refused N at P" and a newline, at the output's front. Answers its length; where it does not fit, 0, and the output is left as it was.
pub fn put(output: &mut [u8], number: u64, place: u64) -> usize
    ensures value { result ≡ length (fitting (refusal_line number place) (length output.old)) }
    ensures output_after { output.new ≡ store output.old 0 (fitting (refusal_line number place) (length output.old)) }
{
    let first = crate::decimal::width(number);
    let second = crate::decimal::width(place);
    let size = 13 + first + second;
    if output.len() < size {
        return 0;
    }
    words::put::bytes(output, 0, b"refused ");
    crate::decimal::put(output, 8, number);
    words::put::bytes(output, 8 + first, b" at ");
    crate::decimal::put(output, 12 + first, place);
    words::put::bytes(output, 12 + first + second, b"\n");
    size
}
