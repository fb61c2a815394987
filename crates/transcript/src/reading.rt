// The next line of the input, and what a line says.
ghost use Rattle.std.specs.Prelude.{◌≡◌};
ghost use Rattle.script.specs.Lines.{meant};
ghost use Rattle.script.specs.SetLines.{set_meant};
ghost use Rattle.transcript.specs.Plays.{heard};

use script::command::Said;
use script::said;
use script::sets::SetLine;
use std::io;
use std::io::{BufRead, Read};

// A line has no more bytes.
const LONGEST: usize = 4096;

// The next line, less its newline, of a line that is too long the first bytes and some of its last; false at the end of the input. What is left
// behind the last newline is no line.
pub fn next(input: &mut impl BufRead, line: &mut Vec<u8>) -> io::Result<bool> {
    line.clear();
    let mut start = input.by_ref().take(LONGEST as u64 + 1);
    start.read_until(b'\n', line)?;
    if line.last() == Some(&b'\n') {
        line.pop();
        return Ok(true);
    }
    Ok(line.len() > LONGEST && passed_over(input, line)?)
}

// What is left of a line that is too long is read, a part at a time, and the line stays too long; false where the input ends before a newline.
fn passed_over(input: &mut impl BufRead, line: &mut Vec<u8>) -> io::Result<bool> {
    for _ in 0..u64::MAX {
        line.truncate(LONGEST + 1);
        let mut part = input.by_ref().take(LONGEST as u64);
        if part.read_until(b'\n', line)? == 0 {
            return Ok(false);
        }
        if line.last() == Some(&b'\n') {
            return Ok(true);
        }
    }
    Ok(false)
}

// What a line says; of another form is one that is too long, too.
pub fn heard(line: &[u8]) -> Option<Said<128, 128>>
    ensures { result ≡ heard (meant 128 128) line.now }
{
    if line.len() > LONGEST {
        None
    } else {
        said::<128, 128>(line)
    }
}

// What a line says of sets, in the same way.
pub fn heard_of_sets(line: &[u8]) -> Option<SetLine>
    ensures { result ≡ heard set_meant line.now }
{
    if line.len() > LONGEST {
        None
    } else {
        script::sets::said(line)
    }
}
