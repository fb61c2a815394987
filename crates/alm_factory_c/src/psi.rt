// The calls of psi for C.
ghost use Rattle.std.specs.Prelude.{◌≡◌, List, Float, length};
ghost use Rattle.std.specs.Float.{binary64};
ghost use Rattle.machine.specs.Numbers.{reply_of, table_number};
ghost use Rattle.machine.specs.Standing.{psi_standing};
ghost use Rattle.machine.specs.PsiRest.{psi_rest};
ghost use Rattle.machine.specs.PsiCalls.{Points};
ghost use Rattle.alm_factory.specs.Values.{told_of};
ghost use Rattle.alm_factory.specs.Runs.{psi_run};
ghost use Rattle.alm_factory_c.specs.Fields.{psi_small, psi_of, psi_put, PsiLeaves, PsiBegins};

use crate::numbers::{psi_phase_at, psi_phase_number, question_number};
use alm_factory::points::psi_points_in_place;
use alm_factory::psi_answers::step;
use alm_factory::records::{Psi, PsiMoved, PsiOutcome, PsiPhase, PsiQuestion, PsiStepped, Sizes};
use alm_factory::starting::psi_start_in_place;
use alm_factory::waits::{is_sound, psi_waits};
use panoc_engine::refusals::refusal;
use panoc_fields::numbers::{
    ASKED, ENDED, FAILED, FAILURE, NO_QUESTION, REFUSED, number_in, number_of_no_kind, reply_at,
};

// A run of psi: which question it waits for; what the last call that wrote has told, by its kind and a number beside it; n, n1 and n2; the penalty; the number
// so far, and at an end the number that psi ends with; and the vectors, 64 places each.
#[repr(C)]
pub struct PsiC {
    pub phase: u32,
    pub outcome: u32,
    pub told: u32,
    pub n: usize,
    pub n1: usize,
    pub n2: usize,
    pub c: f64,
    pub value: f64,
    pub answer: f64,
    pub board: [f64; 256],
}

// The small part of a run.
fn small(run: &PsiC) -> Psi
    ensures { result ≡ psi_small run.now }
{
    Psi {
        phase: psi_phase_at(run.phase),
        sizes: Sizes {
            n: run.n,
            n1: run.n1,
            n2: run.n2,
        },
        c: run.c,
        value: run.value,
    }
}

// What a call changes, into the fields; the number of the table is the result.
fn keep(m: PsiMoved, run: &mut PsiC) -> u32
    ensures fields { run.new ≡ psi_put m run.old }
    ensures number { result ≡ table_number (told_of m.outcome) }
{
    run.phase = psi_phase_number(m.phase);
    run.value = m.value;
    match m.outcome {
        PsiOutcome::Asked(question) => {
            run.outcome = ASKED;
            run.told = question_number(question);
            0
        }
        PsiOutcome::Ended(value) => {
            run.outcome = ENDED;
            run.told = 0;
            run.answer = value;
            0
        }
        PsiOutcome::Refused(refusal) => {
            let number = refusal.number();
            run.outcome = REFUSED;
            run.told = number;
            number
        }
        PsiOutcome::Failed(code) => {
            run.outcome = FAILED;
            run.told = code;
            FAILURE
        }
    }
}

// A run that is begun at a lent u and xi, or its refusal, 1 or 2: then it has ended.
#[tactic(auto, using(crate::proofs::Laws::psi_begun))]
#[unsafe(no_mangle)]
pub extern "C" fn pozkerrin_psi_start(
    run: &mut PsiC,
    n: usize,
    n1: usize,
    n2: usize,
    u: &[f64],
    xi: &[f64],
) -> u32
    ensures { PsiBegins (record { n = n; n1 = n1; n2 = n2 }) u.now xi.now run.old run.new result }
{
    let PsiStepped { outcome, state } = psi_start_in_place(
        Sizes { n, n1, n2 },
        u,
        xi,
        &mut run.board,
    );
    run.n = state.sizes.n;
    run.n1 = state.sizes.n1;
    run.n2 = state.sizes.n2;
    run.c = state.c;
    let m = PsiMoved {
        outcome,
        phase: state.phase,
        value: state.value,
    };
    keep(m, run)
}

// An answer to the question of a run, by its kind: 0 the number x, 1 the vector v, 2 yes, 3 no, 4 the failure code. 6 to 8 where it is refused: then nothing is
// written; 9 for a failure.
#[tactic(auto, using(crate::proofs::Laws::psi_of_no_kind, crate::proofs::Laws::psi_refused, crate::proofs::Laws::psi_goes))]
#[unsafe(no_mangle)]
pub extern "C" fn pozkerrin_psi_answer(
    run: &mut PsiC,
    kind: u32,
    x: f64,
    code: u32,
    v: &[f64],
) -> u32
    ensures { PsiLeaves (reply_of kind x code) v.now run.old run.new result }
{
    let s = small(run);
    let wanted = psi_waits(s);
    let Some(a) = reply_at(kind, x, code) else {
        return number_of_no_kind(wanted);
    };
    if let Some(refusal) = refusal(wanted, a, v.len(), true) {
        return refusal.number();
    }
    let m = step(a, v, s, &mut run.board[..]);
    keep(m, run)
}

// The point of the question of a run, into first: 0, or 6 where it has ended and 8 where a slice is not as long as its point; second is empty.
#[unsafe(no_mangle)]
pub extern "C" fn pozkerrin_psi_points(run: &PsiC, first: &mut [f64], second: &mut [f64]) -> u32
    ensures { Points (psi_rest binary64 (psi_of run.now)) first.old first.new second.old second.new result }
{
    number_in(psi_points_in_place(small(run), first, second, &run.board))
}

// The number of the question at a phase, where sizes are those of a run that a start made.
#[tactic(auto, unfolding(machine::specs::PsiRest::rest, machine::specs::PsiRest::psi_resume, machine::specs::InnerCalls::asking, alm_factory::specs::Runs::psi_run))]
fn standing(s: Psi) -> u32
    ensures { (l : List Float) → result ≡ psi_standing binary64 (psi_run s l) }
{
    if !is_sound(s.sizes) {
        return NO_QUESTION;
    }
    match s.phase {
        PsiPhase::Over => NO_QUESTION,
        PsiPhase::Cost => question_number(PsiQuestion::Cost),
        PsiPhase::F1 => question_number(PsiQuestion::F1),
        PsiPhase::ProjectC => question_number(PsiQuestion::ProjectC),
        PsiPhase::F2 => question_number(PsiQuestion::F2),
    }
}

// The number of the question that stands, 14 where none does.
#[unsafe(no_mangle)]
pub extern "C" fn pozkerrin_psi_question(run: &PsiC) -> u32
    ensures { result ≡ psi_standing binary64 (psi_of run.now) }
{
    standing(small(run))
}
