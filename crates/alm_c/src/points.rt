// The calls that read a run: the points of its question, copied, or where they lie, and the number of the question. They write nothing in it.
ghost use Rattle.std.specs.Prelude.{◌≡◌, ◌<◌, []};
ghost use Rattle.machine.specs.LoopAnswer.{points, second_alone};
ghost use Rattle.machine.specs.Standing.{loop_standing};
ghost use Rattle.panoc_fields.specs.Fields as Inner;
ghost use Rattle.panoc_fields.specs.Reads.{gives};
ghost use Rattle.alm_fields.specs.Fields.{phase_at, loop_run_at};
ghost use Rattle.alm_c.specs.Reads.{place_at, LoopLies};

use alm_engine::alm_cache::AlmPhase;
use alm_engine::keeping::question_at;
use alm_fields::calls::is_sound;
use alm_fields::fields::{AlmC, alm_of};
use alm_fields::numbers::{phase_at, question_number};
use alm_optimizer::showing::{points_in_place, second_in_place};
use board::{BEST, U, Y, Y_PLUS};
use panoc_engine::panoc_cache::Phase;
use panoc_engine::points::place_of;
use panoc_fields::calls::standing;
use panoc_fields::numbers::{NO_QUESTION, number_in, phase_at as inner_phase_at};

// The points of the question of a run, copied: 0, or 6 where it has ended and 8 where a slice is not as long as its point; then nothing is written.
#[unsafe(no_mangle)]
pub extern "C" fn pozkerrin_loop_points(run: &AlmC, first: &mut [f64], second: &mut [f64]) -> u32
    ensures { gives result first.new second.new ≡ points (loop_run_at run.now.inner run.now.alm run.now.board) first.old second.old }
{
    let done = points_in_place(alm_of(&run.inner, &run.alm), &run.board, first, second);
    number_in(done)
}

// The second alone, xi or the u of DIRECTION.
#[unsafe(no_mangle)]
pub extern "C" fn pozkerrin_loop_second(run: &AlmC, second: &mut [f64]) -> u32
    ensures { gives result [] second.new ≡ second_alone (loop_run_at run.now.inner run.now.alm run.now.board) second.old }
{
    let done = second_in_place(alm_of(&run.inner, &run.alm), &run.board, second);
    number_in(done)
}

// The vector of the first point of the question of a phase, inner being that of the inner solve.
fn place_at(phase: AlmPhase, inner: Phase) -> usize
    ensures vector { result ≡ place_at phase inner }
    ensures known { result < 12 }
{
    match phase {
        AlmPhase::Inner => place_of(inner),
        AlmPhase::ProjectY => Y,
        AlmPhase::F1 | AlmPhase::F2 => BEST,
        AlmPhase::ProjectC => Y_PLUS,
        AlmPhase::Over | AlmPhase::Time | AlmPhase::LastCost => U,
    }
}

// The number of the vector in whose first places the first point of the question lies; the second point of DIRECTION lies in vector 0.
#[unsafe(no_mangle)]
pub extern "C" fn pozkerrin_loop_place(run: &AlmC) -> u32
    ensures number { result ≡ place_at (phase_at run.now.alm.phase) (Inner.phase_at run.now.inner.phase) }
    ensures lies { LoopLies run.now result }
{
    let phase = phase_at(run.alm.phase);
    place_at(phase, inner_phase_at(run.inner.phase)) as u32
}

// The number of the question that stands, 14 where none does.
#[unsafe(no_mangle)]
pub extern "C" fn pozkerrin_loop_question(run: &AlmC) -> u32
    ensures { result ≡ loop_standing (loop_run_at run.now.inner run.now.alm run.now.board) }
{
    if !is_sound(&run.inner, &run.alm) {
        return NO_QUESTION;
    }
    let phase = phase_at(run.alm.phase);
    match phase {
        AlmPhase::Over => NO_QUESTION,
        AlmPhase::Inner => standing(&run.inner),
        _ => question_number(question_at(phase)),
    }
}
