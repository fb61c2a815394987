// What an answer changes, put into the fields of a run, each number exact. What a call gives is the table's number, 0 for none.
ghost use Rattle.std.specs.Prelude.{◌≡◌, List, Float};
ghost use Rattle.panoc_engine.specs.Blank.{blank};
ghost use Rattle.panoc_engine.specs.Runs.{moved, costed, shifting, estimated, doubled, searched, tested, ended};
ghost use Rattle.panoc_fields.specs.Fields.{solve_at, seen, exact, telling};

use crate::fields::{InnerEnd, InnerFields};
use crate::numbers::{
    ASKED, ENDED, FAILED, FAILURE, REFUSED, flag_at, flag_number, phase_number, question_number,
    status_number,
};
use panoc_engine::answers::question_at;
use panoc_engine::outcome::Refusal;
use panoc_engine::panoc_cache::{
    Costed, Doubled, Estimated, ExitStatus, Gammas, Moved, Norms, Outcome, Phase, Searched,
    Shifted, Tested,
};

// What a call tells, at a phase: its kind and the number beside it.
fn tell(p: Phase, outcome: u32, told: u32, run: &mut InnerFields)
    ensures { run.new ≡ telling p outcome told run.old }
{
    run.phase = phase_number(p);
    run.outcome = outcome;
    run.told = told;
}

// A run that waits for its first COST, of the settings that its fields hold.
#[tactic(auto, using(ieee::proofs::Special::zero_bits))]
pub fn keep_blank(run: &mut InnerFields)
    ensures blank { solve_at run.new ≡ blank (solve_at run.old).set }
    ensures end { run.new.end ≡ run.old.end }
{
    run.phase = phase_number(Phase::Cost);
    run.status = status_number(ExitStatus::Converged);
    run.forget = flag_number(true);
    run.left = 0;
    run.iterations = 0;
    run.rounds = 0;
    run.cost_value = 0.0;
    run.gammas = Gammas {
        lipschitz_constant: 0.0,
        gamma: 0.0,
        sigma: 0.0,
    };
    run.norms = Norms {
        norm_gamma_fpr: 0.0,
        best_norm_gamma_fpr: 0.0,
        tau: 0.0,
        rhs_ls: 0.0,
    };
    run.norm_h = 0.0;
}

// A refusal that ends the run.
#[tactic(auto, using(crate::proofs::Kept::stops))]
pub fn keep_refused(k: Refusal, run: &mut InnerFields) -> u32
    ensures { (l : List Float) → seen result run.new l ≡ exact (moved (solve_at run.old) (Moved.Refused k) l) run.old.end }
{
    let number = k.number();
    tell(Phase::Over, REFUSED, number, run);
    number
}

// An outcome that ends the run.
pub fn keep_ended(outcome: Outcome, run: &mut InnerFields) -> u32
    ensures { (l : List Float) → seen result run.new l ≡ exact (ended (solve_at run.old) outcome l) run.old.end }
{
    match outcome {
        Outcome::Ended(e) => {
            let done = e.iterations;
            run.end = InnerEnd {
                iterations: done.0,
                norm_fpr: e.norm_fpr,
                cost_value: e.cost_value,
            };
            tell(Phase::Over, ENDED, status_number(e.exit_status), run);
            0
        }
        Outcome::Refused(k) => keep_refused(k, run),
        Outcome::Failed(code) => {
            tell(Phase::Over, FAILED, code, run);
            FAILURE
        }
        Outcome::Asked(question) => {
            tell(Phase::Over, ASKED, question_number(question), run);
            0
        }
    }
}

// A run that goes to another phase, or that a refusal has ended.
pub fn keep_moved(m: Moved, run: &mut InnerFields) -> u32
    ensures { (l : List Float) → seen result run.new l ≡ exact (moved (solve_at run.old) m l) run.old.end }
{
    match m {
        Moved::To(p) => {
            let question = question_at(p, flag_at(run.forget));
            tell(p, ASKED, question_number(question), run);
            0
        }
        Moved::Refused(k) => keep_refused(k, run),
    }
}

pub fn keep_costed(r: Costed, run: &mut InnerFields) -> u32
    ensures { (l : List Float) → seen result run.new l ≡ exact (costed (solve_at run.old) r l) run.old.end }
{
    run.cost_value = r.cost_value;
    keep_moved(r.moved, run)
}

pub fn keep_shifted(r: Shifted, run: &mut InnerFields) -> u32
    ensures { (l : List Float) → seen result run.new l ≡ exact (shifting (solve_at run.old) r l) run.old.end }
{
    run.norm_h = r.norm_h;
    keep_moved(r.moved, run)
}

pub fn keep_estimated(r: Estimated, run: &mut InnerFields) -> u32
    ensures { (l : List Float) → seen result run.new l ≡ exact (estimated (solve_at run.old) r l) run.old.end }
{
    run.gammas = r.gammas;
    keep_moved(r.moved, run)
}

#[tactic(auto, using(crate::proofs::Kept::flag_kept))]
pub fn keep_doubled(r: Doubled, run: &mut InnerFields) -> u32
    ensures { (l : List Float) → seen result run.new l ≡ exact (doubled (solve_at run.old) r l) run.old.end }
{
    run.gammas = r.gammas;
    run.norms = r.norms;
    run.rounds = r.rounds;
    run.forget = flag_number(r.forget);
    keep_moved(r.moved, run)
}

pub fn keep_searched(r: Searched, run: &mut InnerFields) -> u32
    ensures { (l : List Float) → seen result run.new l ≡ exact (searched (solve_at run.old) r l) run.old.end }
{
    run.norms = r.norms;
    run.rounds = r.rounds;
    keep_moved(r.moved, run)
}

pub fn keep_tested(r: Tested, run: &mut InnerFields) -> u32
    ensures { (l : List Float) → seen result run.new l ≡ exact (tested (solve_at run.old) r l) run.old.end }
{
    let counts = r.counts;
    let done = counts.iterations;
    run.norms = r.norms;
    run.left = counts.left;
    run.iterations = done.0;
    run.status = status_number(counts.status);
    run.rounds = counts.rounds;
    keep_moved(r.moved, run)
}
