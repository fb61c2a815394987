// Points and steps worked out place by place.
#![tactic(auto, using(crate::proofs::Loops::loops))]

ghost use Rattle.std.specs.Prelude.{◌≡◌, ◌≤◌, ◌<◌, length};
ghost use Rattle.std.specs.Float.{binary64};
ghost use Rattle.ieee.specs.Sums.{norm};
ghost use Rattle.model.specs.Vectors.{all_finite, minus, less_times, shift, shifts, shifted};
ghost use Rattle.board.specs.Formulas.{candidate};
ghost use Rattle.board.specs.Board.{U, PLUS, GRADIENT, STEP, HALF, FPR, DIRECTION, vector, write};

use crate::{DIRECTION, FPR, GRADIENT, HALF, PLUS, STEP, U};

const EPSILON_LIPSCHITZ: f64 = 1e-6;

const DELTA_LIPSCHITZ: f64 = 1e-12;

// The shift at a place of u. `numeric::max` gives the same, and tests for a NaN too.
#[tactic(auto, using(model::proofs::Literals::epsilon_lipschitz_bits, model::proofs::Literals::delta_lipschitz_bits), unfolding(model::specs::Vectors::shift))]
fn shift_at(s: f64) -> f64
    ensures { result ≡ shift binary64 s }
{
    let t = EPSILON_LIPSCHITZ * s;
    if DELTA_LIPSCHITZ < t {
        t
    } else {
        DELTA_LIPSCHITZ
    }
}

// u is left shifted; the norm of the shift is returned.
pub fn shift_into(board: &mut [f64], n: usize) -> f64
    requires count { n ≤ 64 }
    requires places { 576 ≤ length board.old }
    ensures left { board.new ≡ write U (shifted binary64 (vector U n board.old)) board.old }
    ensures size { result ≡ norm binary64 (shifts binary64 (vector U n board.old)) }
{
    let mut s = 0.0;
    for i in 0..n {
        let x = board[64 * U + i];
        let t = shift_at(x);
        s += t * t;
        board[64 * U + i] = x + t;
    }
    numeric::sqrt(s)
}

// Gradient step = u - γ × gradient.
pub fn less_times_into(gamma: f64, board: &mut [f64], n: usize)
    requires count { n ≤ 64 }
    requires places { 576 ≤ length board.old }
    ensures { board.new ≡ write STEP (less_times binary64 gamma (vector U n board.old) (vector GRADIENT n board.old)) board.old }
{
    for i in 0..n {
        board[64 * STEP + i] = board[64 * U + i] - gamma * board[64 * GRADIENT + i];
    }
}

// Gradient = v and gradient step = vector `at` - γ × v, where `at` is u or the candidate; whether every entry of v is finite is returned.
pub fn gradient_into(v: &[f64], gamma: f64, board: &mut [f64], at: usize) -> bool
    requires count { length v.now ≤ 64 }
    requires places { 576 ≤ length board.old }
    requires point { at < 2 }
    ensures left { board.new ≡ write STEP (less_times binary64 gamma (vector at (length v.now) board.old) v.now) (write GRADIENT v.now board.old) }
    ensures finite { result ≡ all_finite v.now }
{
    let mut ok = true;
    for (i, y) in v.iter().enumerate() {
        let x = board[64 * at + i];
        ok &= numeric::is_finite(*y);
        board[64 * GRADIENT + i] = *y;
        board[64 * STEP + i] = x - gamma * *y;
    }
    ok
}

// Candidate = u - (1 - τ) × residual - τ × direction.
#[tactic(auto, using(crate::proofs::Loops::loops, model::proofs::Literals::one_bits))]
pub fn candidate_into(tau: f64, board: &mut [f64], n: usize)
    requires count { n ≤ 64 }
    requires places { 576 ≤ length board.old }
    ensures { board.new ≡ write PLUS (candidate binary64 tau (vector DIRECTION n board.old) n board.old) board.old }
{
    let rest = 1.0 - tau;
    for i in 0..n {
        board[64 * PLUS + i] = board[64 * U + i]
            - rest * board[64 * FPR + i]
            - tau * board[64 * DIRECTION + i];
    }
}

// u = candidate and residual = candidate - half step.
pub fn adopt_into(board: &mut [f64], n: usize)
    requires count { n ≤ 64 }
    requires places { 576 ≤ length board.old }
    ensures { board.new ≡ write FPR (minus binary64 (vector PLUS n board.old) (vector HALF n board.old)) (write U (vector PLUS n board.old) board.old) }
{
    for i in 0..n {
        let x = board[64 * PLUS + i];
        let y = board[64 * HALF + i];
        board[64 * U + i] = x;
        board[64 * FPR + i] = x - y;
    }
}
