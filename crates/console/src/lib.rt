// What the programs share: a statement read from an input; an answer printed to an output. Where an input or
// an output fails, the error is passed on, and a program ends with it.
#![tactic(auto)]

ghost use Rattle.std.specs.Prelude.{◌≡◌, ◌<◌, IfSome, IfOk, OnOk, length, take};
ghost use Rattle.std.specs.Io.{ReadsAtMost};
ghost use Rattle.std.specs.Io.KnownBytes.{Appends, Consumes, IsAtEnd};
ghost use Rattle.console.specs.Printed.{WrittenInside, answer_text};

use calls::Refusal;
use std::io;
use std::io::{Read, Write};

// One byte more than a statement or a sheet may have: all that a call needs to refuse a longer one.
pub const TEXT_SPACE: usize = 65537;

// Fixed memory, since no heap is used. No literal in the programs' long buffers: the check would go through each of its elements.
pub fn zeroed<const N: usize>() -> [u8; N]
    ensures { N ≡ length result }
{
    [0; N]
}

// Reads to the end of the input or of the space, and answers how many bytes there were. A `while`: a turn reads what the input gives,
// so that nothing counts the turns.
pub fn read_text<R: Read>(input: &mut R, space: &mut [u8]) -> io::Result<usize>
    ensures bound { ReadsAtMost result space.new }
    ensures bytes { IfOk result (λ n. Consumes (R.remaining input.old) (R.remaining input.new) (take n space.new)) }
    ensures end { IfOk result (λ n. n < length space.new → IsAtEnd (R.remaining input.new)) }
    ensures text { IfOk result (λ n. IfSome (R.remaining input.old) (λ xs. take n space.new ≡ take (length space.new) xs)) }
{
    let mut done = 0;
    while done < space.len() {
        let n = input.read(&mut space[done..])?;
        done += n;
        if n == 0 {
            break;
        }
    }
    Ok(done)
}

// The text that a call wrote and nothing else, or its refusal.
pub fn print_answer<W: Write>(
    output: &mut W,
    answer: Result<u64, Refusal>,
    text: &[u8],
) -> io::Result<()>
    requires { WrittenInside answer (length text.now) }
    ensures { OnOk result (Appends (W.contents output.old) (W.contents output.new) (answer_text answer text.now)) }
{
    match answer {
        Ok(count) => {
            let end = count as usize;
            output.write_all(&text[..end])
        }
        Err(refusal) => writeln!(output, "{refusal}"),
    }
}
