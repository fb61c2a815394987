// The public calls that take an answer to the question of a run of d_psi, with the slice that its result goes into.
// They take any run, also one that no start made.
ghost use Rattle.std.specs.Prelude.{◌≡◌, ◌≤◌, List, Float, length};
ghost use Rattle.std.specs.Float.{binary64};
ghost use Rattle.model.specs.Refusals as R;
ghost use Rattle.board.specs.Board.{vector};
ghost use Rattle.machine.specs.Told.{given};
ghost use Rattle.machine.specs.PsiRun.{refuses};
ghost use Rattle.machine.specs.PsiMoves.{d_psi_move};
ghost use Rattle.machine.specs.Waits.{Stays};
ghost use Rattle.machine.specs.PsiCalls.{d_psi_refuses, d_psi_answer, handed_out};
ghost use Rattle.panoc_engine.specs.Values.{reply_of, kind_of};
ghost use Rattle.alm_factory.specs.Values.{d_psi_phase_of, told_of};
ghost use Rattle.alm_factory.specs.Runs.{GRADIENT, d_psi_run, d_psi_of, d_psi_left, d_psi_stepped, d_psi_gave, DPsiAccepts};

use crate::d_psi::{on_f1, on_f2, on_gradient, on_jf1t, on_jf2t, on_project_c};
use crate::records::{DPsi, DPsiAnswered, DPsiMoved, DPsiOutcome, DPsiPhase, DPsiRun, DPsiStepped};
use crate::vectors::GRADIENT;
use crate::waits::d_psi_waits;
use board::copies::give;
use panoc_engine::outcome::Refusal;
use panoc_engine::panoc_cache::Reply;
use panoc_engine::refusals::refusal;

// An answer of another kind than is asked.
#[tactic(auto, unfolding(crate::specs::Runs::d_psi_left, crate::specs::Runs::d_psi_run))]
fn not_asked(s: DPsi) -> DPsiMoved
    ensures { (l : List Float) → d_psi_left s result l ≡ refuses 7 (d_psi_run s l) }
{
    DPsiMoved {
        outcome: DPsiOutcome::Refused(Refusal::Kind),
        phase: s.phase,
    }
}

// A vector of the length asked.
#[tactic(auto, using(crate::proofs::DPsiLaws::vector_fits), unfolding(machine::specs::PsiMoves::d_psi_move))]
fn on_vector(v: &[f64], s: DPsi, board: &mut [f64]) -> DPsiMoved
    requires { (DPsiAccepts s R.Reply.vector (length v.now)) × (length board.old ≡ 384) }
    ensures { d_psi_left s result board.new ≡ d_psi_move binary64 (d_psi_phase_of s.phase) R.Reply.vector v.now (d_psi_run s board.old) }
{
    match s.phase {
        DPsiPhase::Gradient => on_gradient(v, s, board),
        DPsiPhase::F1 => on_f1(v, s, board),
        DPsiPhase::ProjectC => on_project_c(v, s, board),
        DPsiPhase::Jf1t => on_jf1t(v, s, board),
        DPsiPhase::F2 => on_f2(v, s, board),
        DPsiPhase::Jf2t => on_jf2t(v, s, board),
        DPsiPhase::Over => not_asked(s),
    }
}

// An answer that nothing refuses, also for the calls for C. No question of d_psi asks for a number, or a yes or no.
#[tactic(auto, unfolding(machine::specs::PsiMoves::d_psi_move, crate::specs::Runs::d_psi_left, crate::specs::Runs::d_psi_run))]
pub fn step(a: Reply, v: &[f64], s: DPsi, board: &mut [f64]) -> DPsiMoved
    requires { (DPsiAccepts s (reply_of a) (length v.now)) × (length board.old ≡ 384) }
    ensures { d_psi_left s result board.new ≡ d_psi_move binary64 (d_psi_phase_of s.phase) (reply_of a) v.now (d_psi_run s board.old) }
{
    match a {
        Reply::Vector => on_vector(v, s, board),
        Reply::Failure(code) => DPsiMoved {
            outcome: DPsiOutcome::Failed(code),
            phase: DPsiPhase::Over,
        },
        Reply::Number(_) | Reply::Yes | Reply::No => not_asked(s),
    }
}

// The numbers of d_psi go out at its end only.
#[tactic(auto, unfolding(machine::specs::Told::given))]
pub fn hand_out(outcome: DPsiOutcome, board: &[f64], res: &mut [f64])
    requires { (length res.old ≤ 64) × (length board.now ≡ 384) }
    ensures { res.new ≡ given (told_of outcome) (vector GRADIENT (length res.old) board.now) res.old }
{
    if let DPsiOutcome::Ended(()) = outcome {
        give(board, GRADIENT, res);
    }
}

// An answer to the question of a run in place: v is the vector where one is answered.
#[tactic(auto, using(crate::proofs::DPsiLaws::answers), unfolding(machine::specs::Told::given))]
pub fn d_psi_answer_in_place(
    s: DPsi,
    a: Reply,
    v: &[f64],
    res: &mut [f64],
    board: &mut [f64; 384],
) -> DPsiStepped
    ensures run { d_psi_stepped result board.new ≡ d_psi_answer binary64 (reply_of a) v.now res.old (d_psi_run s board.old) }
    ensures wrote { res.new ≡ handed_out (d_psi_stepped result board.new) res.old }
    ensures state { Stays (d_psi_refuses (d_psi_run s board.old) (reply_of a) (length v.now) (length res.old)) s result.state }
    ensures board { Stays (d_psi_refuses (d_psi_run s board.old) (reply_of a) (length v.now) (length res.old)) board.old board.new }
{
    let fits = res.len() == s.sizes.n;
    match refusal(d_psi_waits(s), a, v.len(), fits) {
        None => {
            let m = step(a, v, s, &mut board[..]);
            hand_out(m.outcome, &board[..], res);
            DPsiStepped {
                outcome: m.outcome,
                state: DPsi {
                    phase: m.phase,
                    ..s
                },
            }
        }
        Some(refusal) => DPsiStepped {
            outcome: DPsiOutcome::Refused(refusal),
            state: s,
        },
    }
}

// An answer to the question of a run by value.
pub fn d_psi_answer(mut run: DPsiRun, a: Reply, v: &[f64], res: &mut [f64]) -> DPsiAnswered
    ensures run { d_psi_gave result ≡ d_psi_answer binary64 (reply_of a) v.now res.old (d_psi_of run) }
    ensures wrote { res.new ≡ handed_out (d_psi_gave result) res.old }
    ensures stays { Stays (d_psi_refuses (d_psi_of run) (reply_of a) (length v.now) (length res.old)) run result.run }
{
    let r = d_psi_answer_in_place(run.d_psi, a, v, res, &mut run.board);
    run.d_psi = r.state;
    DPsiAnswered {
        outcome: r.outcome,
        run,
    }
}
