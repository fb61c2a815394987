// What a loop, psi and d_psi work out besides, each of vectors by their numbers.
#![tactic(auto, using(crate::proofs::Loops::loops))]

ghost use Rattle.std.specs.Prelude.{◌≡◌, ◌≤◌, ◌+◌, ◌*◌, length};
ghost use Rattle.std.specs.Float.{binary64};
ghost use Rattle.ieee.specs.Sums.{norm};
ghost use Rattle.model.specs.Vectors.{minus, plus_times, plus_over};
ghost use Rattle.board.specs.Formulas.{multipliers};
ghost use Rattle.board.specs.Board.{Y, Y_PLUS, vector, write};

use crate::{F1, Y, Y_PLUS};

// y_plus = y + c × (F1 - v); the norm of y_plus - y is returned.
pub fn multipliers_into(v: &[f64], c: f64, board: &mut [f64]) -> f64
    requires count { length v.now ≤ 64 }
    requires places { 768 ≤ length board.old }
    ensures left { board.new ≡ write Y_PLUS (multipliers binary64 c v.now board.old) board.old }
    ensures size { result ≡ norm binary64 (minus binary64 (multipliers binary64 c v.now board.old) (vector Y (length v.now) board.old)) }
{
    let mut s = 0.0;
    for (i, x) in v.iter().enumerate() {
        let y = board[64 * Y + i];
        let plus = y + c * (board[64 * F1 + i] - *x);
        let change = plus - y;
        s += change * change;
        board[64 * Y_PLUS + i] = plus;
    }
    numeric::sqrt(s)
}

// Vector `to` = a + b / c, of vectors a and b.
pub fn plus_over_into(c: f64, board: &mut [f64], a: usize, b: usize, to: usize, n: usize)
    requires count { n ≤ 64 }
    requires first { 64 * a + 64 ≤ length board.old }
    requires second { 64 * b + 64 ≤ length board.old }
    requires target { 64 * to + 64 ≤ length board.old }
    ensures { board.new ≡ write to (plus_over binary64 c (vector a n board.old) (vector b n board.old)) board.old }
{
    for i in 0..n {
        board[64 * to + i] = board[64 * a + i] + board[64 * b + i] / c;
    }
}

// Vector `to` = vector `from` - v.
pub fn minus_into(v: &[f64], board: &mut [f64], from: usize, to: usize)
    requires count { length v.now ≤ 64 }
    requires source { 64 * from + 64 ≤ length board.old }
    requires target { 64 * to + 64 ≤ length board.old }
    ensures { board.new ≡ write to (minus binary64 (vector from (length v.now) board.old) v.now) board.old }
{
    for (i, x) in v.iter().enumerate() {
        board[64 * to + i] = board[64 * from + i] - *x;
    }
}

// c × v is added to vector `to`.
pub fn add_times(v: &[f64], c: f64, board: &mut [f64], to: usize)
    requires { 64 * to + length v.now ≤ length board.old }
    ensures { board.new ≡ write to (plus_times binary64 c (vector to (length v.now) board.old) v.now) board.old }
{
    for (i, x) in v.iter().enumerate() {
        board[64 * to + i] += c * *x;
    }
}
