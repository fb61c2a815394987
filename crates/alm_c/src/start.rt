// The start.
ghost use Rattle.std.specs.Prelude.{◌≡◌};
ghost use Rattle.alm_optimizer.specs.Calls.{loop_blank};
ghost use Rattle.alm_fields.specs.Fields.{settings_at, alm_at};
ghost use Rattle.alm_c.specs.Starts.{settings_in, holding, Begins};

use alm_engine::alm_cache::{AlmNumbers, AlmOutcome, AlmPhase};
use alm_engine::outer_iterations::begins;
use alm_fields::fields::{AlmC, AlmFields, alm_of, settings_of};
use alm_fields::keeping::{keep_ended, keep_moved};
use alm_fields::numbers::phase_number;
use alm_optimizer::starting::start_refusal;
use board::copies::take_into;
use board::{U, Y, Y_PLUS};
use panoc_engine::panoc_cache::ExitStatus;
use panoc_fields::fields::InnerFields;
use panoc_fields::numbers::{flag_number, status_number};
use starts::multipliers::{multipliers_in, penalty_in};

// What a start is given: n, n1 and n2; whether a set Y is given; M and K; whether TIME is asked; the tolerances, the factors and the decrease coefficient. A
// flag is yes unless it is 0.
#[repr(C)]
pub struct LoopSettings {
    pub n: usize,
    pub n1: usize,
    pub n2: usize,
    pub has_set_y: u32,
    pub max_inner_iterations: usize,
    pub max_outer_iterations: usize,
    pub limited: u32,
    pub tolerance: f64,
    pub epsilon_tolerance: f64,
    pub delta_tolerance: f64,
    pub initial_inner_tolerance: f64,
    pub penalty_update_factor: f64,
    pub epsilon_update_factor: f64,
    pub sufficient_decrease_coeff: f64,
}

fn keep_settings(set: &LoopSettings, alm: &mut AlmFields)
    ensures { alm.new ≡ holding set.now alm.old }
{
    alm.n = set.n;
    alm.n1 = set.n1;
    alm.n2 = set.n2;
    alm.has_set_y = set.has_set_y;
    alm.max_inner_iterations = set.max_inner_iterations;
    alm.max_outer_iterations = set.max_outer_iterations;
    alm.limited = set.limited;
    alm.tolerance = set.tolerance;
    alm.epsilon_tolerance = set.epsilon_tolerance;
    alm.delta_tolerance = set.delta_tolerance;
    alm.initial_inner_tolerance = set.initial_inner_tolerance;
    alm.penalty_update_factor = set.penalty_update_factor;
    alm.epsilon_update_factor = set.epsilon_update_factor;
    alm.sufficient_decrease_coeff = set.sufficient_decrease_coeff;
}

// A loop that has not begun, of the settings that its fields hold.
#[tactic(auto, using(ieee::proofs::Special::zero_bits))]
fn keep_blank(inner: &mut InnerFields, alm: &mut AlmFields)
    ensures blank { alm_at inner.new alm.new ≡ loop_blank (settings_at alm.old) }
    ensures end { alm.new.end ≡ alm.old.end }
{
    let akkt_tolerance = alm.initial_inner_tolerance;
    inner.n = alm.n;
    inner.max_iter = alm.max_inner_iterations;
    inner.limited = alm.limited;
    inner.tolerance = alm.tolerance;
    inner.has_akkt = flag_number(true);
    inner.akkt_tolerance = akkt_tolerance;
    panoc_fields::keeping::keep_blank(inner);
    alm.phase = phase_number(AlmPhase::Over);
    alm.status = status_number(ExitStatus::Converged);
    alm.left = 0;
    alm.outer = 0;
    alm.inner = 0;
    alm.found = 0;
    alm.numbers = AlmNumbers {
        penalty: 0.0,
        akkt_tolerance,
        delta_y_norm: 0.0,
        f2_norm: 0.0,
        delta_y_norm_plus: 0.0,
        f2_norm_plus: 0.0,
        norm_fpr: 0.0,
    };
}

// A run that is begun at a lent u and xi, or its refusal, 1, 19 or 2 to 5: then it has ended.
#[unsafe(no_mangle)]
pub extern "C" fn pozkerrin_loop_start(
    run: &mut AlmC,
    set: &LoopSettings,
    at: &[f64],
    xi: &[f64],
) -> u32
    ensures { Begins (settings_in set.now) at.now xi.now run.old run.new result }
{
    keep_settings(set, &mut run.alm);
    keep_blank(&mut run.inner, &mut run.alm);
    let given = settings_of(&run.alm);
    if let Some(refusal) = start_refusal(given, at, xi) {
        return keep_ended(AlmOutcome::Refused(refusal), &mut run.inner, &mut run.alm);
    }
    let y = multipliers_in(xi);
    take_into(at, &mut run.board[..], U);
    take_into(y, &mut run.board[..], Y);
    take_into(y, &mut run.board[..], Y_PLUS);
    run.alm.numbers.penalty = penalty_in(xi);
    run.alm.left = given.max_outer_iterations - 1;
    let moved = begins(alm_of(&run.inner, &run.alm));
    keep_moved(moved, &mut run.inner, &mut run.alm)
}
