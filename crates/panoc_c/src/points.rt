// The calls that read a run: the points of its question, copied, or where they lie, and the number of the question. They write nothing in it.
ghost use Rattle.std.specs.Prelude.{◌≡◌};
ghost use Rattle.machine.specs.InnerAnswer.{points};
ghost use Rattle.machine.specs.Standing.{inner_standing};
ghost use Rattle.panoc_engine.specs.Places.{place_of};
ghost use Rattle.panoc_fields.specs.Fields.{phase_at, run_at};
ghost use Rattle.panoc_fields.specs.Reads.{gives, InnerLies};

use panoc_engine::points::place_of;
use panoc_fields::calls::standing;
use panoc_fields::fields::{InnerC, solve_of};
use panoc_fields::numbers::{number_in, phase_at};
use panoc_optimizer::points_in_place;

// The points of the question of a run, copied: 0, or 6 where it has ended and 8 where a slice is not as long as its point; then nothing is written.
#[unsafe(no_mangle)]
pub extern "C" fn pozkerrin_inner_points(run: &InnerC, first: &mut [f64], second: &mut [f64]) -> u32
    ensures { gives result first.new second.new ≡ points (run_at run.now.inner run.now.board) first.old second.old }
{
    let done = points_in_place(solve_of(&run.inner), &run.board, first, second);
    number_in(done)
}

// The number of the vector in whose first places the first point of the question lies; the second point of DIRECTION lies in vector 0. Vector 0 too where no
// question stands.
#[tactic(auto, using(panoc_fields::proofs::PlaceLaws::lies))]
#[unsafe(no_mangle)]
pub extern "C" fn pozkerrin_inner_place(run: &InnerC) -> u32
    ensures number { result ≡ place_of (phase_at run.now.inner.phase) }
    ensures lies { InnerLies run.now result }
{
    place_of(phase_at(run.inner.phase)) as u32
}

// The number of the question that stands, 14 where none does.
#[unsafe(no_mangle)]
pub extern "C" fn pozkerrin_inner_question(run: &InnerC) -> u32
    ensures { result ≡ inner_standing (run_at run.now.inner run.now.board) }
{
    standing(&run.inner)
}
