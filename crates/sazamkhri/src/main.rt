// The listing program: a sheet on standard input, its listing or its refusal on standard output.
// It reads, calls the library and writes; everything that is promised of the text is promised by `listing::print_sheet`.

#![tactic(auto)]

ghost use Rattle.std.specs.Prelude.{◌≤◌, ◌<◌, length, take, IfOk};
ghost use Rattle.std.specs.Io.KnownBytes.{Consumes, IsAtEnd};

use listing::PAGE;
use std::io;
use std::io::{Read, Stdin};

// One byte more than the longest sheet, so that a longer one is seen.
const INPUT: usize = 24577;

// The system's number for an input that is closed.
const CLOSED: i32 = 9;

// Reads until buf is full or the input ends. That many bytes, which were the next, stand at the front of buf.
fn read_full<R: Read>(from: &mut R, buf: &mut [u8]) -> io::Result<usize>
    ensures within { IfOk result (λ n. n ≤ length buf.new) }
    ensures bytes { IfOk result (λ n. Consumes (R.remaining from.old) (R.remaining from.new) (take n buf.new)) }
    ensures end { IfOk result (λ n. n < length buf.new → IsAtEnd (R.remaining from.new)) }
{
    let mut done: usize = 0;
    while done < buf.len() {
        let n = from.read(&mut buf[done..])?;
        if n == 0 {
            return Ok(done);
        }
        done += n;
    }
    Ok(done)
}

// Reads standard input, as far as buf goes. One that is closed has no bytes.
fn read_input(mut from: Stdin, buf: &mut [u8]) -> io::Result<usize>
    ensures { IfOk result (λ n. n ≤ length buf.new) }
{
    match read_full(&mut from, buf) {
        Err(e) if e.raw_os_error() == Some(CLOSED) => Ok(0),
        r => r,
    }
}

fn main(rt: HostRuntime) -> io::Result<()> {
    let mut input = [0u8; INPUT];
    let n = read_input(rt.stdin(), &mut input)?;
    let mut text = [0u8; PAGE];
    let m = listing::print_sheet(&input[..n], &mut text);
    rt.write_all(&text[..m])
}
