// The numbers of psi: what y is divided by, a distance, and a value with a penalty added.
ghost use Rattle.std.specs.Prelude.{◌≡◌, ◌≤◌, ◌+◌, ◌*◌, length};
ghost use Rattle.std.specs.Float.{binary64};
ghost use Rattle.std.specs.Float.Ieee.{add, mul, div};
ghost use Rattle.ieee.specs.Numbers.{larger};
ghost use Rattle.ieee.specs.Sums.{squares};
ghost use Rattle.model.specs.Constants.{one, two};
ghost use Rattle.model.specs.Vectors.{minus};
ghost use Rattle.board.specs.Board.{vector};

// What y is divided by: the larger of the penalty and 1.
#[tactic(auto, using(model::proofs::Literals::one_bits))]
pub fn divisor(penalty: f64) -> f64
    ensures { result ≡ larger penalty (one binary64) }
{
    numeric::max(penalty, 1.0)
}

// |vector j - v|². Written out: std's sum starts from -0, and gives that of no place.
#[tactic(auto, using(board::proofs::Loops::loops))]
pub fn distance_squared(v: &[f64], board: &[f64], j: usize) -> f64
    requires { 64 * j + length v.now ≤ length board.now }
    ensures { result ≡ squares binary64 (minus binary64 (vector j (length v.now) board.now) v.now) }
{
    let mut s = 0.0;
    for (i, y) in v.iter().enumerate() {
        let x = board[64 * j + i] - *y;
        s += x * x;
    }
    s
}

// The value with (c/2) × x added.
#[tactic(auto, using(model::proofs::Literals::two_bits))]
pub fn penalized(value: f64, c: f64, x: f64) -> f64
    ensures { result ≡ add binary64 value (mul binary64 (div binary64 c (two binary64)) x) }
{
    value + c / 2.0 * x
}
