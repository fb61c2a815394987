// The calls of d_psi for C.
ghost use Rattle.std.specs.Prelude.{◌≡◌, List, Float, length};
ghost use Rattle.std.specs.Float.{binary64};
ghost use Rattle.machine.specs.Numbers.{reply_of, table_number};
ghost use Rattle.machine.specs.Standing.{d_psi_standing};
ghost use Rattle.machine.specs.PsiRest.{d_psi_rest};
ghost use Rattle.machine.specs.PsiCalls.{Points};
ghost use Rattle.alm_factory.specs.Values.{told_of};
ghost use Rattle.alm_factory.specs.Runs.{d_psi_run};
ghost use Rattle.alm_factory_c.specs.Fields.{d_psi_small, d_psi_of, d_psi_put, DPsiLeaves, DPsiBegins};

use crate::numbers::{d_psi_phase_at, d_psi_phase_number, question_number};
use alm_factory::d_psi_answers::{hand_out, step};
use alm_factory::points::d_psi_points_in_place;
use alm_factory::records::{
    DPsi, DPsiMoved, DPsiOutcome, DPsiPhase, DPsiStepped, PsiQuestion, Sizes,
};
use alm_factory::starting::d_psi_start_in_place;
use alm_factory::waits::{d_psi_waits, is_sound};
use panoc_engine::refusals::refusal;
use panoc_fields::numbers::{
    ASKED, ENDED, FAILED, FAILURE, NO_QUESTION, REFUSED, number_in, number_of_no_kind, reply_at,
};

// A run of d_psi, as PsiC has one of psi. Its numbers go into the lent result.
#[repr(C)]
pub struct DPsiC {
    pub phase: u32,
    pub outcome: u32,
    pub told: u32,
    pub n: usize,
    pub n1: usize,
    pub n2: usize,
    pub c: f64,
    pub board: [f64; 384],
}

// The small part of a run.
fn small(run: &DPsiC) -> DPsi
    ensures { result ≡ d_psi_small run.now }
{
    DPsi {
        phase: d_psi_phase_at(run.phase),
        sizes: Sizes {
            n: run.n,
            n1: run.n1,
            n2: run.n2,
        },
        c: run.c,
    }
}

// What a call changes, into the fields; the number of the table is the result.
fn keep(m: DPsiMoved, run: &mut DPsiC) -> u32
    ensures fields { run.new ≡ d_psi_put m run.old }
    ensures number { result ≡ table_number (told_of m.outcome) }
{
    run.phase = d_psi_phase_number(m.phase);
    match m.outcome {
        DPsiOutcome::Asked(question) => {
            run.outcome = ASKED;
            run.told = question_number(question);
            0
        }
        DPsiOutcome::Ended(_) => {
            run.outcome = ENDED;
            run.told = 0;
            0
        }
        DPsiOutcome::Refused(refusal) => {
            let number = refusal.number();
            run.outcome = REFUSED;
            run.told = number;
            number
        }
        DPsiOutcome::Failed(code) => {
            run.outcome = FAILED;
            run.told = code;
            FAILURE
        }
    }
}

// A run that is begun at a lent u and xi, or its refusal, 1 or 2: then it has ended.
#[tactic(auto, using(crate::proofs::Laws::d_psi_begun))]
#[unsafe(no_mangle)]
pub extern "C" fn pozkerrin_d_psi_start(
    run: &mut DPsiC,
    n: usize,
    n1: usize,
    n2: usize,
    u: &[f64],
    xi: &[f64],
) -> u32
    ensures { DPsiBegins (record { n = n; n1 = n1; n2 = n2 }) u.now xi.now run.old run.new result }
{
    let DPsiStepped { outcome, state } = d_psi_start_in_place(
        Sizes { n, n1, n2 },
        u,
        xi,
        &mut run.board,
    );
    run.n = state.sizes.n;
    run.n1 = state.sizes.n1;
    run.n2 = state.sizes.n2;
    run.c = state.c;
    let m = DPsiMoved {
        outcome,
        phase: state.phase,
    };
    keep(m, run)
}

// An answer to the question of a run, by its kind, as for psi; the result goes into res at the end only.
#[tactic(auto, using(crate::proofs::Laws::d_psi_of_no_kind, crate::proofs::Laws::d_psi_refused, crate::proofs::Laws::d_psi_accepts, crate::proofs::Laws::d_psi_goes))]
#[unsafe(no_mangle)]
pub extern "C" fn pozkerrin_d_psi_answer(
    run: &mut DPsiC,
    kind: u32,
    x: f64,
    code: u32,
    v: &[f64],
    res: &mut [f64],
) -> u32
    ensures { DPsiLeaves (reply_of kind x code) v.now res.old res.new run.old run.new result }
{
    let s = small(run);
    let wanted = d_psi_waits(s);
    let Some(a) = reply_at(kind, x, code) else {
        return number_of_no_kind(wanted);
    };
    let fits = res.len() == run.n;
    if let Some(refusal) = refusal(wanted, a, v.len(), fits) {
        return refusal.number();
    }
    let m = step(a, v, s, &mut run.board[..]);
    hand_out(m.outcome, &run.board[..], res);
    keep(m, run)
}

// The points of the question of a run, into first and, for a product, second: 0, or 6 where it has ended and 8 where a slice is not as long as its point.
#[unsafe(no_mangle)]
pub extern "C" fn pozkerrin_d_psi_points(run: &DPsiC, first: &mut [f64], second: &mut [f64]) -> u32
    ensures { Points (d_psi_rest binary64 (d_psi_of run.now)) first.old first.new second.old second.new result }
{
    number_in(d_psi_points_in_place(small(run), first, second, &run.board))
}

// The number of the question at a phase, where sizes are those of a run that a start made.
#[tactic(auto, unfolding(machine::specs::PsiRest::rest, machine::specs::PsiRest::d_psi_resume, machine::specs::InnerCalls::asking, alm_factory::specs::Runs::d_psi_run))]
fn standing(s: DPsi) -> u32
    ensures { (l : List Float) → result ≡ d_psi_standing binary64 (d_psi_run s l) }
{
    if !is_sound(s.sizes) {
        return NO_QUESTION;
    }
    match s.phase {
        DPsiPhase::Over => NO_QUESTION,
        DPsiPhase::Gradient => question_number(PsiQuestion::Gradient),
        DPsiPhase::F1 => question_number(PsiQuestion::F1),
        DPsiPhase::ProjectC => question_number(PsiQuestion::ProjectC),
        DPsiPhase::Jf1t => question_number(PsiQuestion::Jf1t),
        DPsiPhase::F2 => question_number(PsiQuestion::F2),
        DPsiPhase::Jf2t => question_number(PsiQuestion::Jf2t),
    }
}

// The number of the question that stands, 14 where none does.
#[unsafe(no_mangle)]
pub extern "C" fn pozkerrin_d_psi_question(run: &DPsiC) -> u32
    ensures { result ≡ d_psi_standing binary64 (d_psi_of run.now) }
{
    standing(small(run))
}
