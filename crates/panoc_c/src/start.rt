// The start.
ghost use Rattle.panoc_c.specs.Starts.{settings_at, Begins};

use board::U;
use board::copies::take_into;
use panoc_engine::outcome::Refusal;
use panoc_engine::panoc_cache::{Moved, Outcome, Phase, Settings};
use panoc_fields::fields::InnerC;
use panoc_fields::keeping::{keep_blank, keep_ended, keep_moved};
use panoc_fields::numbers::{akkt_at, flag_at};
use panoc_optimizer::start_refusal;

// A run that is begun at a lent point, or its refusal, 1, 19, 3 or 4: then it has ended. A flag is yes unless it is 0.
#[unsafe(no_mangle)]
pub extern "C" fn pozkerrin_inner_start(
    run: &mut InnerC,
    n: usize,
    max_iter: usize,
    limited: u32,
    tolerance: f64,
    has_akkt: u32,
    akkt_tolerance: f64,
    at: &[f64],
) -> u32
    ensures { Begins (settings_at n max_iter limited tolerance has_akkt akkt_tolerance) at.now run.old run.new result }
{
    let set = Settings {
        n,
        max_iter,
        limited: flag_at(limited),
        tolerance,
        akkt_tolerance: akkt_at(has_akkt, akkt_tolerance),
    };
    run.inner.n = n;
    run.inner.max_iter = max_iter;
    run.inner.limited = limited;
    run.inner.tolerance = tolerance;
    run.inner.has_akkt = has_akkt;
    run.inner.akkt_tolerance = akkt_tolerance;
    keep_blank(&mut run.inner);
    if let Some(refusal) = start_refusal(set, at) {
        return keep_ended(Outcome::Refused(refusal), &mut run.inner);
    }
    take_into(at, &mut run.board[..], U);
    keep_moved(Moved::To(Phase::Cost), &mut run.inner)
}
