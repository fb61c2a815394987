// What is printed of a call of psi or of d_psi, whose questions are alike.
ghost use Rattle.std.specs.Prelude.{◌≡◌, ◌≤◌, length};
ghost use Rattle.std.specs.Float.{binary64};
ghost use Rattle.machine.specs.PsiRest.{psi_rest, d_psi_rest};
ghost use Rattle.alm_factory.specs.Values.{asked_of};
ghost use Rattle.alm_factory.specs.Runs.{psi_of, psi_gave, d_psi_of, d_psi_gave};
ghost use Rattle.transcript.specs.Texts.{penalty_name, penalty_then, penalty_asked, psi_ended, psi_line, d_psi_line};
ghost use Rattle.transcript.specs.Places.{psi_first, d_psi_first, d_psi_second};

use crate::output::{Line, alone, failed, places, refused, shown};
use alm_factory::points::{d_psi_points, psi_points};
use alm_factory::records::{
    DPsiAnswered, DPsiOutcome, DPsiPhase, DPsiRun, PsiAnswered, PsiOutcome, PsiPhase, PsiQuestion,
    PsiRun, Sizes,
};
use words::line_printing::put_point;

// What a call of psi gave; its end has a value.
#[tactic(auto, unfolding(crate::specs::Texts::psi_line, crate::specs::Texts::told_text, alm_factory::specs::Runs::psi_run))]
pub fn psi_told(r: &PsiAnswered) -> Line
    ensures { result.items ≡ psi_line (psi_gave r.now) }
{
    match r.outcome {
        PsiOutcome::Asked(question) => psi_asked(question, r.run),
        PsiOutcome::Ended(value) => put_ended(value),
        PsiOutcome::Refused(refusal) => refused(refusal),
        PsiOutcome::Failed(code) => failed(code),
    }
}

// What a call of d_psi gave.
#[tactic(auto, unfolding(crate::specs::Texts::d_psi_line, crate::specs::Texts::told_text, alm_factory::specs::Runs::d_psi_run))]
pub fn d_psi_told(r: &DPsiAnswered) -> Line
    ensures { result.items ≡ d_psi_line (d_psi_gave r.now) }
{
    match r.outcome {
        DPsiOutcome::Asked(question) => d_psi_asked(question, r.run),
        DPsiOutcome::Ended(()) => alone(b"ended"),
        DPsiOutcome::Refused(refusal) => refused(refusal),
        DPsiOutcome::Failed(code) => failed(code),
    }
}

// ended VALUE
fn put_ended(value: f64) -> Line
    ensures { result.items ≡ psi_ended value }
{
    let mut line = Line::new();
    put_point(b"ended", &[value], &mut line);
    line
}

// The word of a question.
fn name(question: PsiQuestion) -> &'static [u8]
    ensures word { result.now ≡ penalty_name (asked_of question) }
    ensures most { length result.now ≤ 11 }
{
    match question {
        PsiQuestion::Cost => b"cost",
        PsiQuestion::Gradient => b"gradient",
        PsiQuestion::F1 => b"f1",
        PsiQuestion::ProjectC => b"project_c",
        PsiQuestion::Jf1t => b"jf1t",
        PsiQuestion::F2 => b"f2",
        PsiQuestion::Jf2t => b"jf2t",
    }
}

// The word before its second point: the products alone have one.
fn then(question: PsiQuestion) -> &'static [u8]
    ensures word { result.now ≡ penalty_then (asked_of question) }
    ensures most { length result.now ≤ 11 }
{
    match question {
        PsiQuestion::Jf1t | PsiQuestion::Jf2t => b" d",
        _ => b"",
    }
}

// How many places the point of the question of psi has: PROJECT on C has places of C.
fn psi_places(sizes: Sizes, phase: PsiPhase) -> usize
    ensures { result ≡ psi_first sizes phase }
{
    match phase {
        PsiPhase::ProjectC => sizes.n1,
        _ => sizes.n,
    }
}

// How many the first point of the question of d_psi has, and the second.
fn first_places(sizes: Sizes, phase: DPsiPhase) -> usize
    ensures { result ≡ d_psi_first sizes phase }
{
    match phase {
        DPsiPhase::ProjectC => sizes.n1,
        _ => sizes.n,
    }
}

fn second_places(sizes: Sizes, phase: DPsiPhase) -> usize
    ensures { result ≡ d_psi_second sizes phase }
{
    match phase {
        DPsiPhase::Jf1t => sizes.n1,
        DPsiPhase::Jf2t => sizes.n2,
        _ => 0,
    }
}

// A question of psi, with its points.
fn psi_asked(question: PsiQuestion, run: PsiRun) -> Line
    ensures { result.items ≡ penalty_asked (psi_rest binary64 (psi_of run)) (asked_of question) }
{
    let n = psi_places(run.psi.sizes, run.psi.phase).min(64);
    let mut p = places();
    let mut q = places();
    let first = &mut p[..n];
    let second = &mut q[..0];
    let done = psi_points(run, first, second);
    shown(done, name(question), first, then(question), second)
}

// One of d_psi.
fn d_psi_asked(question: PsiQuestion, run: DPsiRun) -> Line
    ensures { result.items ≡ penalty_asked (d_psi_rest binary64 (d_psi_of run)) (asked_of question) }
{
    let n = first_places(run.d_psi.sizes, run.d_psi.phase).min(64);
    let m = second_places(run.d_psi.sizes, run.d_psi.phase).min(64);
    let mut p = places();
    let mut q = places();
    let first = &mut p[..n];
    let second = &mut q[..m];
    let done = d_psi_points(run, first, second);
    shown(done, name(question), first, then(question), second)
}
