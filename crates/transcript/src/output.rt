// A line that is printed, and what several kinds of runs print alike. Nothing here is a Display: its writer gives no caller what was written, and a
// contract says the very bytes.
ghost use Rattle.arrayvec.specs.ArrayVec.{array_vec_len};
ghost use Rattle.std.specs.Prelude.{◌≡◌, ◌≤◌, ◌++◌, length, replicate};
ghost use Rattle.ieee.specs.Numbers.{null};
ghost use Rattle.words.specs.Printing.{point_text};
ghost use Rattle.panoc_engine.specs.Told.{refusal_number, number_in};
ghost use Rattle.panoc_engine.specs.Values.{status_of};
ghost use Rattle.transcript.specs.Texts.{refused_text, failed_text, end_text, shown_text};

use arrayvec::ArrayVec;
use panoc_engine::outcome::Refusal;
use panoc_engine::panoc_cache::ExitStatus;
use words::line_printing::{put_counted, put_point};
use words::word_printing::put_word;

// A line has at most so many bytes; two lent slices of 128 floats have the most, 4359.
pub type Line = ArrayVec<u8, 4500>;

// Places for the points of a question, which hold zeros at first.
#[tactic(auto, using(ieee::proofs::Special::zero_bits))]
pub fn places() -> [f64; 64]
    ensures { result ≡ replicate 64 null }
{
    [0.0; 64]
}

// A word, with nothing behind it: `bad`, `ended`.
pub fn alone(word: &[u8]) -> Line
    requires { length word.now ≤ 50 }
    ensures { result.items ≡ word.now }
{
    let mut line = Line::new();
    put_word(word, &mut line);
    line
}

// Two points, each with its word before it.
pub fn put_points(word: &[u8], p: &[f64], then: &[u8], q: &[f64]) -> Line
    requires words { (length word.now ≤ 50) × (length then.now ≤ 50) }
    requires places { (length p.now ≤ 128) × (length q.now ≤ 128) }
    ensures { result.items ≡ point_text word.now p.now ++ point_text then.now q.now }
{
    let mut line = Line::new();
    put_point(word, p, &mut line);
    put_point(then, q, &mut line);
    line
}

// The points of a question, as a call has copied them or refused to.
#[tactic(auto, using(crate::proofs::Printed::refused_shown), unfolding(crate::specs::Texts::shown_text))]
pub fn shown(done: Result<(), Refusal>, word: &[u8], p: &[f64], then: &[u8], q: &[f64]) -> Line
    requires words { (length word.now ≤ 50) × (length then.now ≤ 50) }
    requires places { (length p.now ≤ 128) × (length q.now ≤ 128) }
    ensures { result.items ≡ shown_text word.now then.now (number_in done) p.now q.now }
{
    match done {
        Ok(()) => put_points(word, p, then, q),
        Err(refusal) => refused(refusal),
    }
}

// refused NUMBER
pub fn refused_by(number: u32) -> Line
    ensures { result.items ≡ refused_text number }
{
    let mut line = Line::new();
    put_counted(b"refused ", u64::from(number), &mut line);
    line
}

// The same of a refusal of the engine.
pub fn refused(refusal: Refusal) -> Line
    ensures { result.items ≡ refused_text (refusal_number refusal) }
{
    refused_by(refusal.number())
}

// refused 9 CODE
pub fn failed(code: u32) -> Line
    ensures { result.items ≡ failed_text code }
{
    let mut line = Line::new();
    put_counted(b"refused 9 ", u64::from(code), &mut line);
    line
}

// ended END, with the first count
pub fn ended(end: ExitStatus, count: usize) -> Line
    ensures text { result.items ≡ end_text (status_of end) count }
    ensures most { array_vec_len result ≤ 64 }
{
    let mut line = Line::new();
    let word: &[u8] = match end {
        ExitStatus::Converged => b"ended Converged ",
        ExitStatus::NotConvergedIterations => b"ended NotConvergedIterations ",
        ExitStatus::NotConvergedOutOfTime => b"ended NotConvergedOutOfTime ",
    };
    put_counted(word, count as u64, &mut line);
    line
}
