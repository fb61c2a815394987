// An answer that nothing refuses, put into the fields of a run and into its board. At a question of the inner solve its handlers run on its fields and its
// nine vectors; what the loop keeps is read only once that has ended. Each arm of the loop's own takes the small part of the run out of the fields and puts
// what is changed back.
ghost use Rattle.std.specs.Prelude.{ℕ, ◌≡◌, ◌≤◌, List, Float, length};
ghost use Rattle.machine.specs.InnerRun as M;
ghost use Rattle.panoc_engine.specs.declared.panoc_cache.Reply.TheVariants.{Number, Vector, Failure};
ghost use Rattle.panoc_engine.specs.Values.{decided};
ghost use Rattle.panoc_fields.specs.declared.fields.InnerEnd.{InnerEnd};
ghost use Rattle.alm_engine.specs.declared.alm_cache.AlmPhase.TheVariants as P;
ghost use Rattle.alm_engine.specs.LoopRuns.{Stands};
ghost use Rattle.alm_fields.specs.Fields.{phase_at, alm_at, solver_status_at, Tells, Accepted, Answered, Carried};

use crate::fields::{AlmFields, alm_of};
use crate::keeping::{keep_ended, keep_iterated, keep_moved, keep_weighed};
use crate::numbers::{phase_at, phase_number};
use alm_engine::alm_cache::{AlmOutcome, AlmPhase};
use alm_engine::inner_solves::on_solved;
use alm_engine::last_cost::on_last_cost;
use alm_engine::mappings::{on_f1, on_f2, on_project_c};
use alm_engine::outer_iterations::{on_project_y, on_time};
use panoc_engine::outcome::Refusal;
use panoc_engine::panoc_cache::{InnerIterations, Phase, Reply, SolverStatus};
use panoc_fields::answering::{
    answer_decision as inner_decision, answer_number as inner_number, answer_vector as inner_vector,
};
use panoc_fields::fields::InnerFields;
use panoc_fields::numbers::{ASKED, ENDED, phase_number as inner_phase_number, status_at};

// ---- a question of the inner solve

// Its end, as it tells it.
fn solver_status_of(inner: &InnerFields) -> SolverStatus
    ensures { result ≡ solver_status_at inner.now }
{
    let end = inner.end;
    SolverStatus {
        exit_status: status_at(inner.told),
        iterations: InnerIterations(end.iterations),
        norm_fpr: end.norm_fpr,
        cost_value: end.cost_value,
    }
}

// What it has come to, with this number: another question, its end, a refusal or a failure.
fn carry(number: u32, inner: &mut InnerFields, alm: &mut AlmFields, board: &mut [f64]) -> u32
    requires made { Stands (alm_at inner.old alm.old) board.old }
    requires carried { alm.old.phase ≡ 3 }
    requires counted { inner.old.outcome ≡ 1 → inner.old.end.iterations ≤ 10000 }
    ensures { (t : M.Told) (was : InnerEnd) → Tells t number was inner.old → Carried t inner.old alm.old board.old result inner.new alm.new board.new }
{
    let outcome = inner.outcome;
    if outcome == ASKED {
        return number;
    }
    if outcome == ENDED {
        let end = solver_status_of(inner);
        let r = on_solved(end, alm_of(inner, alm), board);
        return keep_weighed(r, inner, alm);
    }
    alm.phase = phase_number(AlmPhase::Over);
    number
}

// The number x.
#[tactic(auto, using(alm_engine::proofs::Lent::lent_size, alm_engine::proofs::Lent::inner_accepted, crate::proofs::NumberLaws::inner_is))]
fn carry_number(x: f64, inner: &mut InnerFields, alm: &mut AlmFields, board: &mut [f64]) -> u32
    requires places { 768 ≤ length board.old }
    requires carried { phase_at alm.old.phase ≡ P.Inner }
    requires accepted { Accepted (Number x) 0 inner.old alm.old board.old }
    ensures { (v : List Float) → Answered (Number x) v inner.old alm.old board.old result inner.new alm.new board.new }
{
    let number = inner_number(x, inner, &mut board[..576]);
    carry(number, inner, alm, board)
}

// The vector v.
#[tactic(auto, using(alm_engine::proofs::Lent::lent_size, alm_engine::proofs::Lent::inner_accepted, crate::proofs::NumberLaws::inner_is))]
fn carry_vector(v: &[f64], inner: &mut InnerFields, alm: &mut AlmFields, board: &mut [f64]) -> u32
    requires places { 768 ≤ length board.old }
    requires carried { phase_at alm.old.phase ≡ P.Inner }
    requires accepted { Accepted Vector (length v.now) inner.old alm.old board.old }
    ensures { Answered Vector v.now inner.old alm.old board.old result inner.new alm.new board.new }
{
    let number = inner_vector(v, inner, &mut board[..576]);
    carry(number, inner, alm, board)
}

// A yes or a no.
#[tactic(auto, using(alm_engine::proofs::Lent::lent_size, alm_engine::proofs::Lent::inner_accepted, crate::proofs::NumberLaws::inner_is))]
fn carry_decision(yes: bool, inner: &mut InnerFields, alm: &mut AlmFields, board: &mut [f64]) -> u32
    requires places { 768 ≤ length board.old }
    requires carried { phase_at alm.old.phase ≡ P.Inner }
    requires accepted { Accepted (decided yes) 0 inner.old alm.old board.old }
    ensures { (v : List Float) → Answered (decided yes) v inner.old alm.old board.old result inner.new alm.new board.new }
{
    let number = inner_decision(yes, inner, &mut board[..576]);
    carry(number, inner, alm, board)
}

// ---- any question

// The number x.
pub fn answer_number(x: f64, inner: &mut InnerFields, alm: &mut AlmFields, board: &mut [f64]) -> u32
    requires places { 768 ≤ length board.old }
    requires accepted { Accepted (Number x) 0 inner.old alm.old board.old }
    ensures { (v : List Float) → Answered (Number x) v inner.old alm.old board.old result inner.new alm.new board.new }
{
    let phase = phase_at(alm.phase);
    match phase {
        AlmPhase::Inner => carry_number(x, inner, alm, board),
        AlmPhase::LastCost => keep_ended(on_last_cost(x, alm_of(inner, alm)), inner, alm),
        _ => Refusal::Kind.number(),
    }
}

// The vector v.
pub fn answer_vector(
    v: &[f64],
    inner: &mut InnerFields,
    alm: &mut AlmFields,
    board: &mut [f64],
) -> u32
    requires places { 768 ≤ length board.old }
    requires accepted { Accepted Vector (length v.now) inner.old alm.old board.old }
    ensures { Answered Vector v.now inner.old alm.old board.old result inner.new alm.new board.new }
{
    let phase = phase_at(alm.phase);
    match phase {
        AlmPhase::Inner => carry_vector(v, inner, alm, board),
        AlmPhase::ProjectY => keep_moved(on_project_y(v, alm_of(inner, alm), board), inner, alm),
        AlmPhase::F1 => keep_moved(on_f1(v, alm_of(inner, alm), board), inner, alm),
        AlmPhase::ProjectC => keep_weighed(on_project_c(v, alm_of(inner, alm), board), inner, alm),
        AlmPhase::F2 => keep_weighed(on_f2(v, alm_of(inner, alm), board), inner, alm),
        _ => Refusal::Kind.number(),
    }
}

// A yes or a no.
pub fn answer_decision(
    yes: bool,
    inner: &mut InnerFields,
    alm: &mut AlmFields,
    board: &mut [f64],
) -> u32
    requires places { 768 ≤ length board.old }
    requires accepted { Accepted (decided yes) 0 inner.old alm.old board.old }
    ensures { (v : List Float) → Answered (decided yes) v inner.old alm.old board.old result inner.new alm.new board.new }
{
    let phase = phase_at(alm.phase);
    match phase {
        AlmPhase::Inner => carry_decision(yes, inner, alm, board),
        AlmPhase::Time => keep_iterated(on_time(yes, alm_of(inner, alm)), inner, alm),
        _ => Refusal::Kind.number(),
    }
}

// The host's failure by its code; an inner solve that was asked has ended too.
fn answer_failure(code: u32, inner: &mut InnerFields, alm: &mut AlmFields) -> u32
    ensures { (l v : List Float) (vs : ℕ) → 768 ≤ length l → Accepted (Failure code) vs inner.old alm.old l → Answered (Failure code) v inner.old alm.old l result inner.new alm.new l }
{
    let phase = phase_at(alm.phase);
    if let AlmPhase::Inner = phase {
        inner.phase = inner_phase_number(Phase::Over);
        return keep_ended(AlmOutcome::Failed(code), inner, alm);
    }
    keep_ended(AlmOutcome::Failed(code), inner, alm)
}

// Any answer.
#[tactic(auto, using(panoc_fields::proofs::CallLaws::number_any, panoc_fields::proofs::CallLaws::yes_any, panoc_fields::proofs::CallLaws::no_any))]
pub fn answer_accepted(
    a: Reply,
    v: &[f64],
    inner: &mut InnerFields,
    alm: &mut AlmFields,
    board: &mut [f64],
) -> u32
    requires places { 768 ≤ length board.old }
    requires accepted { Accepted a (length v.now) inner.old alm.old board.old }
    ensures { Answered a v.now inner.old alm.old board.old result inner.new alm.new board.new }
{
    match a {
        Reply::Number(x) => answer_number(x, inner, alm, board),
        Reply::Vector => answer_vector(v, inner, alm, board),
        Reply::Yes => answer_decision(true, inner, alm, board),
        Reply::No => answer_decision(false, inner, alm, board),
        Reply::Failure(code) => answer_failure(code, inner, alm),
    }
}
