// The public calls that take an answer to the question of a run of psi. They take any run, also one that no start made.
ghost use Rattle.std.specs.Prelude.{◌≡◌, List, Float, length};
ghost use Rattle.std.specs.Float.{binary64};
ghost use Rattle.model.specs.Refusals.{answer_refusal};
ghost use Rattle.model.specs.Refusals as R;
ghost use Rattle.machine.specs.PsiRun.{refuses};
ghost use Rattle.machine.specs.PsiMoves.{psi_move};
ghost use Rattle.machine.specs.Waits.{Stays};
ghost use Rattle.machine.specs.PsiCalls.{waits, psi_kind_at, psi_refuses, psi_answer};
ghost use Rattle.panoc_engine.specs.Values.{reply_of, kind_of};
ghost use Rattle.alm_factory.specs.Values.{sizes_of, psi_phase_of};
ghost use Rattle.alm_factory.specs.Runs.{psi_run, psi_of, psi_left, psi_stepped, psi_gave, PsiAccepts};

use crate::psi::{on_cost, on_f1, on_f2, on_project_c};
use crate::records::{Psi, PsiAnswered, PsiMoved, PsiOutcome, PsiPhase, PsiRun, PsiStepped};
use crate::waits::psi_waits;
use panoc_engine::outcome::Refusal;
use panoc_engine::panoc_cache::Reply;
use panoc_engine::refusals::refusal;

// An answer of another kind than is asked.
#[tactic(auto, unfolding(crate::specs::Runs::psi_left, crate::specs::Runs::psi_run))]
fn not_asked(s: Psi) -> PsiMoved
    ensures { (l : List Float) → psi_left s result l ≡ refuses 7 (psi_run s l) }
{
    PsiMoved {
        outcome: PsiOutcome::Refused(Refusal::Kind),
        phase: s.phase,
        value: s.value,
    }
}

// A number.
#[tactic(auto, unfolding(machine::specs::PsiMoves::psi_move))]
fn on_number(x: f64, s: Psi) -> PsiMoved
    ensures { (l v : List Float) → psi_left s result l ≡ psi_move binary64 (psi_phase_of s.phase) (R.Reply.number x) v (psi_run s l) }
{
    match s.phase {
        PsiPhase::Cost => on_cost(x, s),
        PsiPhase::Over | PsiPhase::F1 | PsiPhase::ProjectC | PsiPhase::F2 => not_asked(s),
    }
}

// A vector of the length asked.
#[tactic(auto, using(crate::proofs::PsiLaws::vector_fits), unfolding(machine::specs::PsiMoves::psi_move))]
fn on_vector(v: &[f64], s: Psi, board: &mut [f64]) -> PsiMoved
    requires { (PsiAccepts s R.Reply.vector (length v.now)) × (length board.old ≡ 256) }
    ensures { psi_left s result board.new ≡ psi_move binary64 (psi_phase_of s.phase) R.Reply.vector v.now (psi_run s board.old) }
{
    match s.phase {
        PsiPhase::F1 => on_f1(v, s, board),
        PsiPhase::ProjectC => on_project_c(v, s, board),
        PsiPhase::F2 => on_f2(v, s, board),
        PsiPhase::Over | PsiPhase::Cost => not_asked(s),
    }
}

// An answer that nothing refuses, also for the calls for C: each kind goes to another handler.
#[tactic(auto, unfolding(machine::specs::PsiMoves::psi_move, crate::specs::Runs::psi_left, crate::specs::Runs::psi_run))]
pub fn step(a: Reply, v: &[f64], s: Psi, board: &mut [f64]) -> PsiMoved
    requires { (PsiAccepts s (reply_of a) (length v.now)) × (length board.old ≡ 256) }
    ensures { psi_left s result board.new ≡ psi_move binary64 (psi_phase_of s.phase) (reply_of a) v.now (psi_run s board.old) }
{
    match a {
        Reply::Number(x) => on_number(x, s),
        Reply::Vector => on_vector(v, s, board),
        Reply::Failure(code) => PsiMoved {
            outcome: PsiOutcome::Failed(code),
            phase: PsiPhase::Over,
            value: s.value,
        },
        Reply::Yes | Reply::No => not_asked(s),
    }
}

// An answer to the question of a run in place: v is the vector where one is answered.
#[tactic(auto, using(crate::proofs::PsiLaws::answered, crate::proofs::PsiLaws::refused, crate::proofs::PsiLaws::stays))]
pub fn psi_answer_in_place(s: Psi, a: Reply, v: &[f64], board: &mut [f64; 256]) -> PsiStepped
    ensures run { psi_stepped result board.new ≡ psi_answer binary64 (reply_of a) v.now (psi_run s board.old) }
    ensures state { Stays (psi_refuses (psi_run s board.old) (reply_of a) (length v.now)) s result.state }
    ensures board { Stays (psi_refuses (psi_run s board.old) (reply_of a) (length v.now)) board.old board.new }
{
    match refusal(psi_waits(s), a, v.len(), true) {
        None => {
            let m = step(a, v, s, &mut board[..]);
            PsiStepped {
                outcome: m.outcome,
                state: Psi {
                    phase: m.phase,
                    value: m.value,
                    ..s
                },
            }
        }
        Some(refusal) => PsiStepped {
            outcome: PsiOutcome::Refused(refusal),
            state: s,
        },
    }
}

// An answer to the question of a run by value.
pub fn psi_answer(mut run: PsiRun, a: Reply, v: &[f64]) -> PsiAnswered
    ensures run { psi_gave result ≡ psi_answer binary64 (reply_of a) v.now (psi_of run) }
    ensures stays { Stays (psi_refuses (psi_of run) (reply_of a) (length v.now)) run result.run }
{
    let r = psi_answer_in_place(run.psi, a, v, &mut run.board);
    run.psi = r.state;
    PsiAnswered {
        outcome: r.outcome,
        run,
    }
}
