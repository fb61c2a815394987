// The public calls that begin a run of psi or of d_psi at a lent u and xi: what they test, the table's 1 and 2, and the run that they begin.
ghost use Rattle.std.specs.Prelude.{◌≡◌, ◌≤◌, ◌+◌, length};
ghost use Rattle.model.specs.Refusals.{psi_refusal};
ghost use Rattle.model.specs.Refusals as R;
ghost use Rattle.board.specs.Board.{write};
ghost use Rattle.machine.specs.PsiCalls.{PsiStarts, DPsiStarts};
ghost use Rattle.panoc_engine.specs.Told.{number_of};
ghost use Rattle.alm_factory.specs.Values.{sizes_of};
ghost use Rattle.alm_factory.specs.Runs.{U, Y, Stays, blank, psi_stepped, psi_gave, d_psi_stepped, d_psi_gave};

use crate::records::{
    DPsi, DPsiAnswered, DPsiOutcome, DPsiPhase, DPsiRun, DPsiStepped, Psi, PsiAnswered, PsiOutcome,
    PsiPhase, PsiQuestion, PsiRun, PsiStepped, Sizes,
};
use crate::vectors::{U, Y};
use board::copies::take_into;
use panoc_engine::outcome::Refusal;
use starts::multipliers::penalty_in;
use starts::sizes::{mappings_right, sizes_right};

// Why a start is refused; us and xis are the lengths of u and xi.
#[tactic(auto, unfolding(model::specs::Refusals::psi_refusal, model::specs::Refusals::unless))]
pub fn start_refusal(s: Sizes, us: usize, xis: usize) -> Option<Refusal>
    ensures { number_of result ≡ psi_refusal (sizes_of s) us xis }
{
    if !sizes_right(s.n, us) {
        Some(Refusal::Sizes)
    } else if !mappings_right(s.n1, s.n2, false, xis) {
        Some(Refusal::Mappings)
    } else {
        None
    }
}

// A board of zeros, by a name: callers learn of the literal here that it is `null` at every place.
#[tactic(auto, using(ieee::proofs::Special::zero_bits), unfolding(crate::specs::Runs::blank))]
fn zeros<const N: usize>() -> [f64; N]
    ensures places { length result ≡ N }
    ensures zeros { result ≡ blank N }
{
    [0.0; N]
}

// u and the multipliers of xi are taken to a board.
#[tactic(auto, using(board::proofs::Loops::write_none), unfolding(model::specs::Refusals::multipliers_in))]
fn take_point(u: &[f64], xi: &[f64], board: &mut [f64])
    requires { (length u.now ≤ 64) × (length xi.now ≤ 33) × (256 ≤ length board.old) }
    ensures { board.new ≡ write Y (R.multipliers_in xi.now) (write U u.now board.old) }
{
    take_into(u, board, U);
    if let Some((_, y)) = xi.split_first() {
        take_into(y, board, Y);
    }
}

// A run of psi in place that is begun at a lent u and xi, or its refusal, which writes nothing.
#[tactic(auto, using(crate::proofs::StartLaws::psi_started, crate::proofs::StartLaws::start_fits, crate::proofs::StartLaws::start_writes))]
pub fn psi_start_in_place(sizes: Sizes, u: &[f64], xi: &[f64], board: &mut [f64; 256]) -> PsiStepped
    ensures begins { PsiStarts (sizes_of sizes) u.now xi.now (psi_stepped result board.new) }
    ensures stays { Stays sizes u.now xi.now board.old board.new }
{
    if let Some(refusal) = start_refusal(sizes, u.len(), xi.len()) {
        return PsiStepped {
            outcome: PsiOutcome::Refused(refusal),
            state: Psi {
                phase: PsiPhase::Over,
                sizes,
                c: 0.0,
                value: 0.0,
            },
        };
    }
    *board = zeros();
    take_point(u, xi, &mut board[..]);
    PsiStepped {
        outcome: PsiOutcome::Asked(PsiQuestion::Cost),
        state: Psi {
            phase: PsiPhase::Cost,
            sizes,
            c: penalty_in(xi),
            value: 0.0,
        },
    }
}

// A run of psi by value.
pub fn psi_start(sizes: Sizes, u: &[f64], xi: &[f64]) -> PsiAnswered
    ensures { PsiStarts (sizes_of sizes) u.now xi.now (psi_gave result) }
{
    let mut board = zeros();
    let r = psi_start_in_place(sizes, u, xi, &mut board);
    PsiAnswered {
        outcome: r.outcome,
        run: PsiRun {
            psi: r.state,
            board,
        },
    }
}

// A run of d_psi in place that is begun at a lent u and xi, or its refusal, which writes nothing.
#[tactic(auto, using(crate::proofs::StartLaws::d_psi_started, crate::proofs::StartLaws::start_fits, crate::proofs::StartLaws::start_writes))]
pub fn d_psi_start_in_place(
    sizes: Sizes,
    u: &[f64],
    xi: &[f64],
    board: &mut [f64; 384],
) -> DPsiStepped
    ensures begins { DPsiStarts (sizes_of sizes) u.now xi.now (d_psi_stepped result board.new) }
    ensures stays { Stays sizes u.now xi.now board.old board.new }
{
    if let Some(refusal) = start_refusal(sizes, u.len(), xi.len()) {
        return DPsiStepped {
            outcome: DPsiOutcome::Refused(refusal),
            state: DPsi {
                phase: DPsiPhase::Over,
                sizes,
                c: 0.0,
            },
        };
    }
    *board = zeros();
    take_point(u, xi, &mut board[..]);
    DPsiStepped {
        outcome: DPsiOutcome::Asked(PsiQuestion::Gradient),
        state: DPsi {
            phase: DPsiPhase::Gradient,
            sizes,
            c: penalty_in(xi),
        },
    }
}

// A run of d_psi by value.
pub fn d_psi_start(sizes: Sizes, u: &[f64], xi: &[f64]) -> DPsiAnswered
    ensures { DPsiStarts (sizes_of sizes) u.now xi.now (d_psi_gave result) }
{
    let mut board = zeros();
    let r = d_psi_start_in_place(sizes, u, xi, &mut board);
    DPsiAnswered {
        outcome: r.outcome,
        run: DPsiRun {
            d_psi: r.state,
            board,
        },
    }
}
