// Sums over vectors, and vectors worked out in one loop with their sums. Each is written out: std's sum starts from -0, and gives that of no place.
#![tactic(auto, using(crate::proofs::Loops::loops))]

ghost use Rattle.std.specs.Prelude.{◌≡◌, ◌≤◌, ◌+◌, ◌*◌, length};
ghost use Rattle.std.specs.Float.{binary64};
ghost use Rattle.ieee.specs.Sums.{squares, norm};
ghost use Rattle.model.specs.Constants.{one};
ghost use Rattle.model.specs.Vectors.{minus, dot};
ghost use Rattle.board.specs.Formulas.{residual, candidate, akkt_residual};
ghost use Rattle.board.specs.Board.{PLUS, GRADIENT, STEP, HALF, FPR, DIRECTION, vector, write};

use crate::{DIRECTION, FPR, GRADIENT, HALF, PLUS, PREVIOUS, STEP, U};

// The sum of the squares of vector j.
pub fn norm2_squared(board: &[f64], j: usize, n: usize) -> f64
    requires { 64 * j + n ≤ length board.now }
    ensures { result ≡ squares binary64 (vector j n board.now) }
{
    let mut s = 0.0;
    for i in 0..n {
        let x = board[64 * j + i];
        s += x * x;
    }
    s
}

// Its norm.
pub fn norm2(board: &[f64], j: usize, n: usize) -> f64
    requires { 64 * j + n ≤ length board.now }
    ensures { result ≡ norm binary64 (vector j n board.now) }
{
    numeric::sqrt(norm2_squared(board, j, n))
}

// The sum of the squares of v less vector j.
pub fn norm2_squared_diff(v: &[f64], board: &[f64], j: usize) -> f64
    requires { 64 * j + length v.now ≤ length board.now }
    ensures { result ≡ squares binary64 (minus binary64 v.now (vector j (length v.now) board.now)) }
{
    let mut s = 0.0;
    for (i, y) in v.iter().enumerate() {
        let x = *y - board[64 * j + i];
        s += x * x;
    }
    s
}

// Its norm.
pub fn norm2_diff(v: &[f64], board: &[f64], j: usize) -> f64
    requires { 64 * j + length v.now ≤ length board.now }
    ensures { result ≡ norm binary64 (minus binary64 v.now (vector j (length v.now) board.now)) }
{
    numeric::sqrt(norm2_squared_diff(v, board, j))
}

// The norm of a residual, and its product with the gradient.
#[derive(Drop)]
pub struct ResidualSums {
    pub norm: f64,
    pub product: f64,
}

// Residual = u - half step; its norm and its product with the gradient are returned.
pub fn residual_into(board: &mut [f64], n: usize) -> ResidualSums
    requires count { n ≤ 64 }
    requires places { 576 ≤ length board.old }
    ensures left { board.new ≡ write FPR (residual binary64 n board.old) board.old }
    ensures size { result.norm ≡ norm binary64 (residual binary64 n board.old) }
    ensures product { result.product ≡ dot binary64 (vector GRADIENT n board.old) (residual binary64 n board.old) }
{
    let mut s = 0.0;
    let mut t = 0.0;
    for i in 0..n {
        let x = board[64 * U + i] - board[64 * HALF + i];
        s += x * x;
        t += board[64 * GRADIENT + i] * x;
        board[64 * FPR + i] = x;
    }
    ResidualSums {
        norm: numeric::sqrt(s),
        product: t,
    }
}

// The two sums of an envelope: the squares of the gradient, and of gradient step - half step.
#[derive(Drop)]
pub struct EnvelopeSums {
    pub gradient_squared: f64,
    pub distance_squared: f64,
}

// Direction = v and candidate = u - (1 - τ) × residual - τ × v for τ = 1; the sums of the envelope are returned.
#[tactic(auto, using(crate::proofs::Loops::loops, model::proofs::Literals::one_bits))]
pub fn line_into(v: &[f64], board: &mut [f64]) -> EnvelopeSums
    requires count { length v.now ≤ 64 }
    requires places { 576 ≤ length board.old }
    ensures left { board.new ≡ write PLUS (candidate binary64 (one binary64) v.now (length v.now) board.old) (write DIRECTION v.now board.old) }
    ensures gradient { result.gradient_squared ≡ squares binary64 (vector GRADIENT (length v.now) board.old) }
    ensures distance { result.distance_squared ≡ squares binary64 (minus binary64 (vector STEP (length v.now) board.old) (vector HALF (length v.now) board.old)) }
{
    let tau = 1.0;
    let rest = 1.0 - tau;
    let mut s = 0.0;
    let mut t = 0.0;
    for (i, x) in v.iter().enumerate() {
        let y = board[64 * GRADIENT + i];
        let z = board[64 * STEP + i] - board[64 * HALF + i];
        let w = board[64 * U + i] - rest * board[64 * FPR + i] - tau * *x;
        s += y * y;
        t += z * z;
        board[64 * DIRECTION + i] = *x;
        board[64 * PLUS + i] = w;
    }
    EnvelopeSums {
        gradient_squared: s,
        distance_squared: t,
    }
}

// The sums of a candidate: those of its envelope, and those of its residual.
#[derive(Drop)]
pub struct CandidateSums {
    pub gradient_squared: f64,
    pub distance_squared: f64,
    pub norm_squared: f64,
    pub product: f64,
}

// Half step = v; the sums of the candidate are returned: the squares of the gradient, of gradient step - v and of candidate - v, and the product
// of the gradient and candidate - v.
pub fn candidate_sums_into(v: &[f64], board: &mut [f64]) -> CandidateSums
    requires count { length v.now ≤ 64 }
    requires places { 576 ≤ length board.old }
    ensures left { board.new ≡ write HALF v.now board.old }
    ensures gradient { result.gradient_squared ≡ squares binary64 (vector GRADIENT (length v.now) board.old) }
    ensures distance { result.distance_squared ≡ squares binary64 (minus binary64 (vector STEP (length v.now) board.old) v.now) }
    ensures size { result.norm_squared ≡ squares binary64 (minus binary64 (vector PLUS (length v.now) board.old) v.now) }
    ensures product { result.product ≡ dot binary64 (vector GRADIENT (length v.now) board.old) (minus binary64 (vector PLUS (length v.now) board.old) v.now) }
{
    let mut p = 0.0;
    let mut q = 0.0;
    let mut s = 0.0;
    let mut t = 0.0;
    for (i, x) in v.iter().enumerate() {
        let y = board[64 * GRADIENT + i];
        let z = board[64 * STEP + i] - *x;
        let e = board[64 * PLUS + i] - *x;
        p += y * y;
        q += z * z;
        s += e * e;
        t += y * e;
        board[64 * HALF + i] = *x;
    }
    CandidateSums {
        gradient_squared: p,
        distance_squared: q,
        norm_squared: s,
        product: t,
    }
}

// The norm of residual + γ × (gradient - previous gradient).
pub fn akkt_norm(gamma: f64, board: &[f64], n: usize) -> f64
    requires count { n ≤ 64 }
    requires places { 576 ≤ length board.now }
    ensures { result ≡ norm binary64 (akkt_residual binary64 gamma n board.now) }
{
    let mut s = 0.0;
    for i in 0..n {
        let x = board[64 * FPR + i] + gamma * (board[64 * GRADIENT + i] - board[64 * PREVIOUS + i]);
        s += x * x;
    }
    numeric::sqrt(s)
}
