// What an answer changes, put into the fields of a run, each number exact. What a call gives is the table's number, 0 for none.
ghost use Rattle.std.specs.Prelude.{◌≡◌, List, Float};
ghost use Rattle.machine.specs.LoopMoves.{inner_solve};
ghost use Rattle.alm_engine.specs.LoopRuns.{loop_moved, iterated, weighed, loop_ended};
ghost use Rattle.alm_engine.specs.declared.alm_cache.AlmMoved.TheVariants.{To, Refused};
ghost use Rattle.alm_fields.specs.Fields.{alm_at, loop_run_at, seen, exact, saying, going, counting};

use crate::fields::{AlmEnd, AlmFields};
use crate::numbers::{phase_number, question_number};
use alm_engine::alm_cache::{
    AlmCounts, AlmMoved, AlmOutcome, AlmPhase, AlmQuestion, Iterated, Weighed,
};
use alm_engine::keeping::question_at;
use panoc_engine::outcome::Refusal;
use panoc_engine::panoc_cache::{ExitStatus, Phase, Question};
use panoc_fields::fields::InnerFields;
use panoc_fields::numbers::{
    ASKED, ENDED, FAILED, FAILURE, REFUSED, flag_number, phase_number as inner_phase_number,
    status_number,
};

// What a call tells, at a phase: its kind and the number beside it.
fn tell(p: AlmPhase, outcome: u32, told: u32, inner: &mut InnerFields, alm: &mut AlmFields)
    ensures inner { inner.new ≡ saying outcome told inner.old }
    ensures alm { alm.new ≡ going p alm.old }
{
    alm.phase = phase_number(p);
    inner.outcome = outcome;
    inner.told = told;
}

// A refusal that ends the run.
#[tactic(auto, using(crate::proofs::Kept::stops))]
fn keep_refused(k: Refusal, inner: &mut InnerFields, alm: &mut AlmFields) -> u32
    ensures { (l : List Float) → seen result inner.new alm.new l ≡ exact (loop_moved (alm_at inner.old alm.old) (Refused k) l) alm.old.end }
{
    let number = k.number();
    tell(AlmPhase::Over, REFUSED, number, inner, alm);
    number
}

// An inner solve begins anew from u; its running numbers stay until they are worked out again.
fn keep_begun(inner: &mut InnerFields, alm: &mut AlmFields) -> u32
    ensures { (l : List Float) → seen result inner.new alm.new l ≡ exact (inner_solve (loop_run_at inner.old alm.old l)) alm.old.end }
{
    inner.phase = inner_phase_number(Phase::Cost);
    inner.n = alm.n;
    inner.max_iter = alm.max_inner_iterations;
    inner.limited = alm.limited;
    inner.tolerance = alm.tolerance;
    inner.has_akkt = flag_number(true);
    inner.akkt_tolerance = alm.numbers.akkt_tolerance;
    inner.left = 0;
    inner.iterations = 0;
    inner.status = status_number(ExitStatus::Converged);
    inner.rounds = 0;
    inner.forget = flag_number(true);
    let question = question_number(AlmQuestion::Inner(Question::Cost));
    tell(AlmPhase::Inner, ASKED, question, inner, alm);
    0
}

// A run that goes to another phase.
fn keep_to(p: AlmPhase, inner: &mut InnerFields, alm: &mut AlmFields) -> u32
    ensures { (l : List Float) → seen result inner.new alm.new l ≡ exact (loop_moved (alm_at inner.old alm.old) (To p) l) alm.old.end }
{
    if let AlmPhase::Inner = p {
        return keep_begun(inner, alm);
    }
    let question = question_at(p);
    tell(p, ASKED, question_number(question), inner, alm);
    0
}

// Or that a refusal has ended.
pub fn keep_moved(m: AlmMoved, inner: &mut InnerFields, alm: &mut AlmFields) -> u32
    ensures { (l : List Float) → seen result inner.new alm.new l ≡ exact (loop_moved (alm_at inner.old alm.old) m l) alm.old.end }
{
    match m {
        AlmMoved::To(p) => keep_to(p, inner, alm),
        AlmMoved::Refused(k) => keep_refused(k, inner, alm),
    }
}

fn keep_counts(counts: AlmCounts, alm: &mut AlmFields)
    ensures { alm.new ≡ counting counts alm.old }
{
    let outer = counts.outer;
    let inner = counts.inner;
    let found = counts.found;
    alm.left = counts.left;
    alm.outer = outer.0;
    alm.inner = inner.0;
    alm.found = found.0;
    alm.status = status_number(counts.status);
}

pub fn keep_iterated(r: Iterated, inner: &mut InnerFields, alm: &mut AlmFields) -> u32
    ensures { (l : List Float) → seen result inner.new alm.new l ≡ exact (iterated (alm_at inner.old alm.old) r l) alm.old.end }
{
    keep_counts(r.counts, alm);
    keep_moved(r.moved, inner, alm)
}

pub fn keep_weighed(r: Weighed, inner: &mut InnerFields, alm: &mut AlmFields) -> u32
    ensures { (l : List Float) → seen result inner.new alm.new l ≡ exact (weighed (alm_at inner.old alm.old) r l) alm.old.end }
{
    alm.numbers = r.numbers;
    keep_counts(r.counts, alm);
    keep_moved(r.moved, inner, alm)
}

// An outcome that ends the run.
pub fn keep_ended(outcome: AlmOutcome, inner: &mut InnerFields, alm: &mut AlmFields) -> u32
    ensures { (l : List Float) → seen result inner.new alm.new l ≡ exact (loop_ended (alm_at inner.old alm.old) outcome l) alm.old.end }
{
    match outcome {
        AlmOutcome::Ended(e) => {
            let outer = e.num_outer_iterations;
            let steps = e.num_inner_iterations;
            alm.end = AlmEnd {
                outer_iterations: outer.0,
                inner_iterations: steps.0,
                norm_fpr: e.last_problem_norm_fpr,
                delta_y_norm: e.delta_y_norm,
                f2_norm: e.f2_norm,
                penalty: e.penalty,
                cost: e.cost,
            };
            tell(
                AlmPhase::Over,
                ENDED,
                status_number(e.exit_status),
                inner,
                alm,
            );
            0
        }
        AlmOutcome::Refused(k) => keep_refused(k, inner, alm),
        AlmOutcome::Failed(code) => {
            tell(AlmPhase::Over, FAILED, code, inner, alm);
            FAILURE
        }
        AlmOutcome::Asked(question) => {
            tell(AlmPhase::Over, ASKED, question_number(question), inner, alm);
            0
        }
    }
}
