// The drill program: events on standard input, lines on standard output.

#![tactic(auto)]

ghost use Rattle.std.specs.Prelude.{◌≡◌, ◌≤◌, length, take};
ghost use Rattle.std.specs.Io.{ReadsAtMost};
ghost use Rattle.io.specs.Counts.{IsPrefixLen};
ghost use Rattle.joint.specs.Drill as drill;

use drill_text::drill::drill;
use std::io;
use std::io::{Read, Write};

// The lines of the drill, all of them, at the front of a text that is long enough: 10,000 lines of at most 22
// bytes, 8 of 21, and 9 of at most 84.
fn lines(input: &[u8], text: &mut [u8]) -> usize
    requires { 220924 ≤ length text.old }
    ensures prefix_len { IsPrefixLen result text.new }
    ensures text_after { take result text.new ≡ drill.drill input.now }
{
    drill(input, text).unwrap()
}

// Reads until the buffer is full or the input ends, and gives how many bytes it put at the start. (A `while`: only a read tells how far
// it came, and the library's read to the end wants a heap.)
fn read_full<R: Read>(input: &mut R, buffer: &mut [u8]) -> io::Result<usize>
    ensures { ReadsAtMost result buffer.new }
{
    let mut done = 0;
    while done < buffer.len() {
        let n = input.read(&mut buffer[done..])?;
        if n == 0 {
            break;
        }
        done += n;
    }
    Ok(done)
}

fn main(rt: HostRuntime) -> io::Result<()> {
    let mut input = [0u8; 60000];
    let read = read_full(&mut rt.stdin(), &mut input)?;
    let mut text = [0u8; 220924];
    let size = lines(&input[..read], &mut text);
    rt.stdout().write_all(&text[..size])
}
