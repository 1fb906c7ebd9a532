// The program `bound`: reads four parameters, a budget and a sheet, and prints the figures and the lines of each loop, or the refusal.
#![tactic(auto)]

ghost use Rattle.std.specs.Prelude.{◌≤◌, length, IfOk};

use std::io;
use std::io::{Read, Write};
use text::{TEXT_LENGTH, blank_input, program_text};

// Reads until the buffer is full or the input ends, and says how many bytes came. Stays a loop over `read`, since `read_exact` does not say how
// many came before the input ended, and `read_to_end` needs a heap.
fn read_full<R: Read>(reader: &mut R, buffer: &mut [u8]) -> io::Result<usize>
    ensures { IfOk result (λ n. n ≤ length buffer.new) }
{
    let mut got = 0;
    while got < buffer.len() {
        let count = reader.read(&mut buffer[got..])?;
        if count == 0 {
            break;
        }
        got += count;
    }
    Ok(got)
}

// No contract can speak of what is read or written, so there is none here; that of `program_text` says what the text is. Of a
// longer input only what `blank_input` has room for matters. A read or a write that fails ends the program with its error.
fn main(rt: HostRuntime) -> io::Result<()> {
    let mut input = blank_input();
    let mut buffer = [0; TEXT_LENGTH];
    let got = read_full(&mut rt.stdin(), &mut input)?;
    let length = program_text(&input[..got], &mut buffer);
    rt.stdout().write_all(&buffer[..length])
}
