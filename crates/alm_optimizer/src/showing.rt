// The points of the question of a run.
ghost use Rattle.std.specs.Prelude.{◌≡◌, ◌≤◌, List, [], Float, length, eqb};
ghost use Rattle.machine.specs.LoopAnswer.{points, second_alone, question_of};
ghost use Rattle.alm_engine.specs.LoopRuns.{loop_run};
ghost use Rattle.alm_optimizer.specs.Sizes.{carries_xi, first_places_at, inner_second, second_places_at};
ghost use Rattle.alm_optimizer.specs.Points.{point, carried_at, inner_points, own_points, second_filled, second_places, pair_of, lying, roomy, shows};

use crate::answering::fill_xi;
use crate::waiting::is_sound;
use alm_engine::alm_cache::{Alm, AlmPhase, AlmRun, AlmSettings};
use board::copies::give;
use board::{BEST, U, Y, Y_PLUS};
use panoc_engine::answers::in_range;
use panoc_engine::outcome::Refusal;
use panoc_engine::panoc_cache::{Phase, Solve};
use panoc_engine::points as inner;
use starts::sizes::{xi_fits, xi_places};

// The second point of a question: none, u, or xi with this penalty.
#[derive(Clone, Copy)]
pub enum Second {
    Nothing,
    Iterate,
    Xi(f64),
}

// The vector in which the first point of a question lies, how many places it has, and the second.
#[derive(Clone, Copy)]
pub struct Located {
    pub from: usize,
    pub places: usize,
    pub second: Second,
}

fn point(from: usize, places: usize, second: Second) -> Option<Located>
    ensures { result ≡ point from places second }
{
    Some(Located {
        from,
        places,
        second,
    })
}

// The second point of a question of the inner solve: COST and GRADIENT have xi, DIRECTION has u.
fn carried_at(penalty: f64, phase: Phase) -> Second
    ensures { result ≡ carried_at penalty phase }
{
    match phase {
        Phase::Direction => Second::Iterate,
        Phase::Over
        | Phase::Project
        | Phase::DoubledProject
        | Phase::FirstProject
        | Phase::TriedProject
        | Phase::Time => Second::Nothing,
        Phase::Cost
        | Phase::Gradient
        | Phase::Shifted
        | Phase::HalfCost
        | Phase::DoubledCost
        | Phase::FirstCost
        | Phase::FirstGradient
        | Phase::TriedCost
        | Phase::TriedGradient
        | Phase::LastCost => Second::Xi(penalty),
    }
}

// Whether a question of the inner solve comes with xi, at a phase.
#[tactic(auto, using(ieee::proofs::Special::zero_bits))]
pub fn carries_xi_at(phase: Phase) -> bool
    ensures { result ≡ carries_xi phase }
{
    matches!(carried_at(0.0, phase), Second::Xi(_))
}

// The same of a run of it.
pub fn carries_xi(s: Solve) -> bool
    ensures { result ≡ carries_xi s.phase }
{
    carries_xi_at(s.phase)
}

// Its points.
fn inner_points(n: usize, penalty: f64, phase: Phase) -> Option<Located>
    ensures { result ≡ inner_points n penalty phase }
{
    if let Phase::Over = phase {
        return None;
    }
    point(
        inner::place_of(phase),
        inner::first_places(n, phase),
        carried_at(penalty, phase),
    )
}

// Of one of the loop's own: the last COST has a xi whose penalty is 0.
#[tactic(auto, using(ieee::proofs::Special::zero_bits))]
fn own_points(set: AlmSettings, phase: AlmPhase) -> Option<Located>
    ensures { result ≡ own_points set phase }
{
    match phase {
        AlmPhase::Over | AlmPhase::Inner => None,
        AlmPhase::Time => point(U, 0, Second::Nothing),
        AlmPhase::ProjectY => point(Y, set.n1, Second::Nothing),
        AlmPhase::F1 | AlmPhase::F2 => point(BEST, set.n, Second::Nothing),
        AlmPhase::ProjectC => point(Y_PLUS, set.n1, Second::Nothing),
        AlmPhase::LastCost => point(U, set.n, Second::Xi(0.0)),
    }
}

// Of the question of a run; none where it has ended. Taken into its callers, which read of a small part for C what they need.
#[tactic(auto, using(crate::proofs::Shows::places))]
#[inline(always)]
pub fn points_at(s: Alm) -> Option<Located>
    ensures points { (l : List Float) → 768 ≤ length l → pair_of (question_of (loop_run s l)) ≡ lying s.set result l }
    ensures room { roomy s.set result }
{
    if !is_sound(s) {
        return None;
    }
    let phase = s.phase;
    if let AlmPhase::Inner = phase {
        if !in_range(s.solve) {
            return None;
        }
        return inner_points(s.set.n, s.numbers.penalty, s.solve.phase);
    }
    own_points(s.set, phase)
}

// Whether so many places hold the second point.
fn second_fits(set: AlmSettings, second: Second, places: usize) -> bool
    ensures { result ≡ eqb places (second_places set second) }
{
    match second {
        Second::Nothing => places == 0,
        Second::Iterate => places == set.n,
        Second::Xi(_) => xi_fits(set.n1, set.n2, places),
    }
}

fn give_second(second: Second, board: &[f64], out: &mut [f64])
    requires places { 768 ≤ length board.now }
    requires room { length out.old ≤ 64 }
    ensures { out.new ≡ second_filled second board.now out.old }
{
    match second {
        Second::Nothing => {}
        Second::Iterate => give(board, U, out),
        Second::Xi(penalty) => fill_xi(penalty, board, Y, out),
    }
}

// How many places the first point of a question has.
pub fn first_places(s: Alm) -> usize
    ensures { result ≡ first_places_at s s.phase }
{
    match s.phase {
        AlmPhase::Over | AlmPhase::Time => 0,
        AlmPhase::Inner => inner::first_places(s.solve.set.n, s.solve.phase),
        AlmPhase::ProjectY | AlmPhase::ProjectC => s.set.n1,
        AlmPhase::F1 | AlmPhase::F2 | AlmPhase::LastCost => s.set.n,
    }
}

// How many the second has, at Inner.
fn inner_second(s: Alm) -> usize
    requires { s.set.n1 ≤ 32 }
    ensures { result ≡ inner_second s }
{
    if carries_xi(s.solve) {
        return xi_places(s.set.n1, s.set.n2);
    }
    inner::second_places(s.solve.set.n, s.solve.phase)
}

// How many the second has.
pub fn second_places(s: Alm) -> usize
    requires { s.set.n1 ≤ 32 }
    ensures { result ≡ second_places_at s s.phase }
{
    match s.phase {
        AlmPhase::Inner => inner_second(s),
        AlmPhase::LastCost => xi_places(s.set.n1, s.set.n2),
        AlmPhase::Over
        | AlmPhase::Time
        | AlmPhase::ProjectY
        | AlmPhase::F1
        | AlmPhase::ProjectC
        | AlmPhase::F2 => 0,
    }
}

// The points of the question of a run in place, copied; refused where it has ended or a slice is not as long as its point.
#[tactic(auto, using(crate::proofs::Shows::points))]
pub fn points_in_place(
    s: Alm,
    board: &[f64; 768],
    first: &mut [f64],
    second: &mut [f64],
) -> Result<(), Refusal>
    ensures { shows result first.new second.new ≡ points (loop_run s board.now) first.old second.old }
{
    let Some(p) = points_at(s) else {
        return Err(Refusal::Over);
    };
    if first.len() != p.places {
        return Err(Refusal::Lengths);
    }
    if !second_fits(s.set, p.second, second.len()) {
        return Err(Refusal::Lengths);
    }
    give(board, p.from, first);
    give_second(p.second, board, second);
    Ok(())
}

// The second point alone, copied.
#[tactic(auto, using(crate::proofs::Shows::seconds))]
pub fn second_in_place(s: Alm, board: &[f64; 768], second: &mut [f64]) -> Result<(), Refusal>
    ensures { shows result [] second.new ≡ second_alone (loop_run s board.now) second.old }
{
    let Some(p) = points_at(s) else {
        return Err(Refusal::Over);
    };
    if !second_fits(s.set, p.second, second.len()) {
        return Err(Refusal::Lengths);
    }
    give_second(p.second, board, second);
    Ok(())
}

// The points of a run by value.
pub fn points(run: &AlmRun, first: &mut [f64], second: &mut [f64]) -> Result<(), Refusal>
    ensures { shows result first.new second.new ≡ points (loop_run run.now.alm run.now.board) first.old second.old }
{
    points_in_place(run.alm, &run.board, first, second)
}
