// Where an outer iteration begins, and where the loop ends.
ghost use Rattle.std.specs.Prelude.{◌≡◌, List, Float, length};
ghost use Rattle.machine.specs.LoopMoves.{conclude, iteration, begins, timed, iterations, project_y};
ghost use Rattle.panoc_engine.specs.Values.{status_of};
ghost use Rattle.alm_engine.specs.LoopRuns.{loop_run, Stands, loop_moved, iterated};

use crate::alm_cache::{Alm, AlmMoved, AlmPhase, Iterated};
use board::Y;
use board::copies::take_into;
use panoc_engine::outcome::Refusal;
use panoc_engine::panoc_cache::ExitStatus;

// The last COST, with c = 0.
#[tactic(auto, using(crate::proofs::Iterations::concluded))]
pub fn conclude(status: ExitStatus, s: Alm) -> Iterated
    ensures { (l : List Float) → iterated s result l ≡ conclude (status_of status) (loop_run s l) }
{
    let mut counts = s.counts;
    counts.status = status;
    Iterated {
        moved: AlmMoved::To(AlmPhase::LastCost),
        counts,
    }
}

// An outer iteration: the projection of y on Y, and the inner solve.
#[tactic(auto, using(crate::proofs::Iterations::iteration_projects, crate::proofs::Iterations::iteration_solves))]
fn iteration(s: Alm) -> AlmMoved
    ensures { (l : List Float) → loop_moved s result l ≡ iteration (loop_run s l) }
{
    if s.set.has_set_y {
        AlmMoved::To(AlmPhase::ProjectY)
    } else {
        AlmMoved::To(AlmPhase::Inner)
    }
}

// TIME if limited.
#[tactic(auto, using(crate::proofs::Iterations::begins_timed, crate::proofs::Iterations::begins_untimed))]
pub fn begins(s: Alm) -> AlmMoved
    ensures { (l : List Float) → loop_moved s result l ≡ begins (loop_run s l) }
{
    if s.set.limited {
        AlmMoved::To(AlmPhase::Time)
    } else {
        iteration(s)
    }
}

// TIME was answered yes or no.
#[tactic(auto, using(crate::proofs::Iterations::timed_in, crate::proofs::Iterations::timed_first, crate::proofs::Iterations::timed_out))]
pub fn on_time(in_time: bool, s: Alm) -> Iterated
    ensures { (l : List Float) → iterated s result l ≡ timed in_time (loop_run s l) }
{
    let counts = s.counts;
    if in_time {
        return Iterated {
            moved: iteration(s),
            counts,
        };
    }
    let done = counts.outer;
    if done.0 == 0 {
        return Iterated {
            moved: AlmMoved::Refused(Refusal::OutOfTime),
            counts,
        };
    }
    conclude(ExitStatus::NotConvergedOutOfTime, s)
}

// The projection of y on Y is v.
#[tactic(auto, using(crate::proofs::Iterations::projected_y))]
pub fn on_project_y(v: &[f64], s: Alm, board: &mut [f64]) -> AlmMoved
    requires { (Stands s board.old) × (length v.now ≡ s.set.n1) }
    ensures { loop_moved s result board.new ≡ project_y v.now (loop_run s board.old) }
{
    take_into(v, board, Y);
    AlmMoved::To(AlmPhase::Inner)
}

// Another outer iteration, unless K is reached or the last solve was out of time.
#[tactic(auto, using(crate::proofs::Iterations::next_none, crate::proofs::Iterations::next_late, crate::proofs::Iterations::next_begins))]
pub fn next_iteration(s: Alm) -> Iterated
    ensures { (l : List Float) → iterated s result l ≡ iterations s.counts.left (status_of s.counts.status) (loop_run s l) }
{
    let mut counts = s.counts;
    if counts.left == 0 {
        return conclude(ExitStatus::NotConvergedIterations, s);
    }
    let status = counts.status;
    if let ExitStatus::NotConvergedOutOfTime = status {
        return conclude(ExitStatus::NotConvergedOutOfTime, s);
    }
    counts.left -= 1;
    let mut next = s;
    next.counts = counts;
    Iterated {
        moved: begins(next),
        counts,
    }
}
