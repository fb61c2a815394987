// Reads patterns of `f64`, 16 hexadecimal digits to a line, and writes each with the pattern of its root. No byte is refused: any byte counts as a
// digit, the 17th of a line counts nothing, and what is left behind the last whole line is passed over.
#![tactic(auto)]

ghost use Rattle.std.specs.Prelude.{◌<◌, ◌≤◌, length, IfOk};

use std::io;
use std::io::Read;
use words::float_printing::to_bits;
use words::float_words::of_bits;

// The most lines that are read: a loop has to end, and nothing says that the input does.
const LINES: usize = 1_000_000;

// What a hexadecimal digit counts.
fn digit(c: u8) -> u64
    ensures { result < 16 }
{
    if c < b'a' {
        u64::from(c) % 16
    } else {
        (u64::from(c) + 9) % 16
    }
}

fn pattern(line: [u8; 17]) -> u64 {
    let mut bits = 0u64;
    for c in &line[..16] {
        bits = bits % (1 << 60) * 16 + digit(*c);
    }
    bits
}

// Reads until the buffer is full or the input ends, and gives how many bytes came: `read_exact` doesn't say how many.
fn read_full(input: &mut impl Read, buf: &mut [u8]) -> io::Result<usize>
    ensures { IfOk result (λ n. n ≤ length buf.new) }
{
    let mut done = 0usize;
    while done < buf.len() {
        let n = input.read(&mut buf[done..])?;
        if n == 0 {
            break;
        }
        done += n;
    }
    Ok(done)
}

// Reads a line and writes its answer; false at the end of the input.
fn answer_one(rt: &impl Print, input: &mut impl Read) -> io::Result<bool> {
    let mut line = [0u8; 17];
    if read_full(input, &mut line)? < 16 {
        return Ok(false);
    }
    let bits = pattern(line);
    let root = to_bits(numeric::sqrt(of_bits(bits)));
    println!(rt; "{bits:016x} {root:016x}")?;
    Ok(true)
}

fn main(rt: HostRuntime) -> io::Result<()> {
    let mut input = rt.reader();
    for _ in 0..LINES {
        if !answer_one(&rt, &mut input)? {
            break;
        }
    }
    Ok(())
}
