// What a run is started with, and the numbers that C is given.
ghost use Rattle.std.specs.Prelude.{◌≡◌};
ghost use Rattle.panoc_engine.specs.Told.{number_in};
ghost use Rattle.values.specs.Tasks.{inner_settings, loop_settings, sizes, kind_of};

use alm_engine::alm_cache::AlmSettings;
use alm_factory::records::Sizes;
use panoc_engine::outcome::{Outcome, Refusal};
use panoc_engine::panoc_cache::Settings;

// n, n1, n2, M and K; the tolerances, the factors and the decrease coefficient. No time is asked, and there is no set Y.
#[repr(C)]
pub struct Task {
    pub n: usize,
    pub n1: usize,
    pub n2: usize,
    pub max_inner: usize,
    pub max_outer: usize,
    pub tolerance: f64,
    pub epsilon: f64,
    pub delta: f64,
    pub initial: f64,
    pub penalty_factor: f64,
    pub epsilon_factor: f64,
    pub coefficient: f64,
}

impl Task {
    // Of an inner solve alone, without an AKKT tolerance.
    pub fn inner_settings(&self) -> Settings
        ensures { result ≡ inner_settings self.now }
    {
        Settings {
            n: self.n,
            max_iter: self.max_inner,
            limited: false,
            tolerance: self.tolerance,
            akkt_tolerance: None,
        }
    }

    pub fn loop_settings(&self) -> AlmSettings
        ensures { result ≡ loop_settings self.now }
    {
        AlmSettings {
            n: self.n,
            n1: self.n1,
            n2: self.n2,
            has_set_y: false,
            max_inner_iterations: self.max_inner,
            max_outer_iterations: self.max_outer,
            limited: false,
            tolerance: self.tolerance,
            epsilon_tolerance: self.epsilon,
            delta_tolerance: self.delta,
            initial_inner_tolerance: self.initial,
            penalty_update_factor: self.penalty_factor,
            epsilon_update_factor: self.epsilon_factor,
            sufficient_decrease_coeff: self.coefficient,
        }
    }

    // Of psi and d_psi.
    pub fn sizes(&self) -> Sizes
        ensures { result ≡ sizes self.now }
    {
        Sizes {
            n: self.n,
            n1: self.n1,
            n2: self.n2,
        }
    }
}

// The kind of what a call tells: 0 a question, 1 an end, 2 a refusal, 3 a failure.
pub fn kind_of<Q: Copy, E: Copy>(outcome: Outcome<Q, E>) -> u32
    ensures { result ≡ kind_of outcome }
{
    match outcome {
        Outcome::Asked(_) => 0,
        Outcome::Ended(_) => 1,
        Outcome::Refused(_) => 2,
        Outcome::Failed(_) => 3,
    }
}

// The number of a call that may be refused, 0 where it is not.
pub fn number_in(done: Result<(), Refusal>) -> u32
    ensures { result ≡ number_in done }
{
    match done {
        Ok(()) => 0,
        Err(refusal) => refusal.number(),
    }
}
