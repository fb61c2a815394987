// Vectors copied, into a board, within it and out of it; zeros; the test of a vector.
#![tactic(auto, using(crate::proofs::Loops::loops))]

ghost use Rattle.std.specs.Prelude.{◌≡◌, ◌≢◌, ◌≤◌, ◌<◌, ◌+◌, ◌*◌, length, replicate};
ghost use Rattle.ieee.specs.Numbers.{null};
ghost use Rattle.model.specs.Vectors.{all_finite};
ghost use Rattle.board.specs.Board.{vector, write};

// Vector `to` = v. Copies go place by place: std's would call memmove, which a host without a C library lacks.
pub fn take_into(v: &[f64], board: &mut [f64], to: usize)
    requires { 64 * to + length v.now ≤ length board.old }
    ensures { board.new ≡ write to v.now board.old }
{
    for (i, x) in v.iter().enumerate() {
        board[64 * to + i] = *x;
    }
}

// Vector `to` = vector `from`, which lies before it.
fn copy_up(board: &mut [f64], from: usize, to: usize, n: usize)
    requires count { n ≤ 64 }
    requires apart { from < to }
    requires target { 64 * to + 64 ≤ length board.old }
    ensures { board.new ≡ write to (vector from n board.old) board.old }
{
    for i in 0..n {
        board[64 * to + i] = board[64 * from + i];
    }
}

// Vector `to` = vector `from`, which lies behind it. From the last place on: upwards the loop would become a call of memmove.
fn copy_down(board: &mut [f64], from: usize, to: usize, n: usize)
    requires count { n ≤ 64 }
    requires apart { to < from }
    requires source { 64 * from + 64 ≤ length board.old }
    ensures { board.new ≡ write to (vector from n board.old) board.old }
{
    for k in 0..n {
        let i = n - 1 - k;
        board[64 * to + i] = board[64 * from + i];
    }
}

// Vector `to` = vector `from`.
pub fn copy_into(board: &mut [f64], from: usize, to: usize, n: usize)
    requires count { n ≤ 64 }
    requires apart { from ≢ to }
    requires source { 64 * from + 64 ≤ length board.old }
    requires target { 64 * to + 64 ≤ length board.old }
    ensures { board.new ≡ write to (vector from n board.old) board.old }
{
    if from < to {
        copy_up(board, from, to, n);
    } else {
        copy_down(board, from, to, n);
    }
}

// Vector `to` = 0.
pub fn zero_into(board: &mut [f64], to: usize, n: usize)
    requires { 64 * to + n ≤ length board.old }
    ensures { board.new ≡ write to (replicate n null) board.old }
{
    for i in 0..n {
        board[64 * to + i] = 0.0;
    }
}

// out = vector `from`.
pub fn give(board: &[f64], from: usize, out: &mut [f64])
    requires { 64 * from + length out.old ≤ length board.now }
    ensures { out.new ≡ vector from (length out.old) board.now }
{
    for i in 0..out.len() {
        out[i] = board[64 * from + i];
    }
}

// Whether every entry of a slice is finite.
pub fn is_finite_in(v: &[f64]) -> bool
    ensures { result ≡ all_finite v.now }
{
    let mut ok = true;
    for x in v {
        ok &= numeric::is_finite(*x);
    }
    ok
}

// Whether every entry of vector j is.
#[tactic(auto, using(crate::proofs::Parts::parts))]
pub fn is_finite_at(board: &[f64], j: usize, n: usize) -> bool
    requires { 64 * j + n ≤ length board.now }
    ensures { result ≡ all_finite (vector j n board.now) }
{
    is_finite_in(&board[64 * j..64 * j + n])
}
