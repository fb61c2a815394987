// The public calls that copy the points of the question that a run waits with into two lent slices. A question with one point has an empty second.
ghost use Rattle.std.specs.Prelude.{◌≤◌, ◌+◌, ◌*◌, length};
ghost use Rattle.std.specs.Float.{binary64};
ghost use Rattle.board.specs.Board.{vector};
ghost use Rattle.machine.specs.PsiRest.{psi_rest, d_psi_rest};
ghost use Rattle.machine.specs.PsiCalls.{Placed, Points};
ghost use Rattle.panoc_engine.specs.Told.{number_in};
ghost use Rattle.alm_factory.specs.Runs.{psi_run, psi_of, d_psi_run, d_psi_of};

use crate::records::{DPsi, DPsiPhase, DPsiRun, Psi, PsiPhase, PsiRun, Sizes};
use crate::vectors::{D, D_T, T, U};
use crate::waits::is_sound;
use board::copies::give;
use panoc_engine::outcome::Refusal;

// The first places of a vector.
#[derive(Clone, Copy)]
struct Point {
    vector: usize,
    places: usize,
}

// No place.
const NONE: Point = Point {
    vector: U,
    places: 0,
};

// The points p and q into the slices, or a refusal where one is not as long: they then stay as they were.
#[tactic(auto, using(crate::proofs::PointLaws::not_first, crate::proofs::PointLaws::not_second))]
fn place(
    board: &[f64],
    p: Point,
    q: Point,
    first: &mut [f64],
    second: &mut [f64],
) -> Result<(), Refusal>
    requires first { 64 * p.vector + p.places ≤ length board.now }
    requires second { 64 * q.vector + q.places ≤ length board.now }
    ensures { Placed (vector p.vector p.places board.now) (vector q.vector q.places board.now) first.old first.new second.old second.new (number_in result) }
{
    if first.len() != p.places || second.len() != q.places {
        return Err(Refusal::Lengths);
    }
    give(board, p.vector, first);
    give(board, q.vector, second);
    Ok(())
}

// The point of the question of a run of psi in place, into first; no question of psi has a second.
#[tactic(auto, using(crate::proofs::PointLaws::psi_points))]
pub fn psi_points_in_place(
    s: Psi,
    first: &mut [f64],
    second: &mut [f64],
    board: &[f64; 256],
) -> Result<(), Refusal>
    ensures { Points (psi_rest binary64 (psi_run s board.now)) first.old first.new second.old second.new (number_in result) }
{
    if !is_sound(s.sizes) {
        return Err(Refusal::Over);
    }
    let Sizes { n, n1, .. } = s.sizes;
    match s.phase {
        PsiPhase::Cost | PsiPhase::F1 | PsiPhase::F2 => {
            let u = Point {
                vector: U,
                places: n,
            };
            place(&board[..], u, NONE, first, second)
        }
        PsiPhase::ProjectC => {
            let t = Point {
                vector: T,
                places: n1,
            };
            place(&board[..], t, NONE, first, second)
        }
        PsiPhase::Over => Err(Refusal::Over),
    }
}

// The point of the question of a run of psi by value.
pub fn psi_points(run: PsiRun, first: &mut [f64], second: &mut [f64]) -> Result<(), Refusal>
    ensures { Points (psi_rest binary64 (psi_of run)) first.old first.new second.old second.new (number_in result) }
{
    psi_points_in_place(run.psi, first, second, &run.board)
}

// The points of the question of a run of d_psi in place, into first and, for a product, second.
#[tactic(auto, using(crate::proofs::PointLaws::d_psi_points))]
pub fn d_psi_points_in_place(
    s: DPsi,
    first: &mut [f64],
    second: &mut [f64],
    board: &[f64; 384],
) -> Result<(), Refusal>
    ensures { Points (d_psi_rest binary64 (d_psi_run s board.now)) first.old first.new second.old second.new (number_in result) }
{
    if !is_sound(s.sizes) {
        return Err(Refusal::Over);
    }
    let Sizes { n, n1, n2 } = s.sizes;
    let u = Point {
        vector: U,
        places: n,
    };
    match s.phase {
        DPsiPhase::Gradient | DPsiPhase::F1 | DPsiPhase::F2 => place(
            &board[..],
            u,
            NONE,
            first,
            second,
        ),
        DPsiPhase::ProjectC => {
            let t = Point {
                vector: D_T,
                places: n1,
            };
            place(&board[..], t, NONE, first, second)
        }
        DPsiPhase::Jf1t => {
            let d = Point {
                vector: D,
                places: n1,
            };
            place(&board[..], u, d, first, second)
        }
        DPsiPhase::Jf2t => {
            let d = Point {
                vector: D,
                places: n2,
            };
            place(&board[..], u, d, first, second)
        }
        DPsiPhase::Over => Err(Refusal::Over),
    }
}

// The points of the question of a run of d_psi by value.
pub fn d_psi_points(run: DPsiRun, first: &mut [f64], second: &mut [f64]) -> Result<(), Refusal>
    ensures { Points (d_psi_rest binary64 (d_psi_of run)) first.old first.new second.old second.new (number_in result) }
{
    d_psi_points_in_place(run.d_psi, first, second, &run.board)
}
