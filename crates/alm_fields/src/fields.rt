// The fields of a loop, and the small part of the run that they stand for.
ghost use Rattle.std.specs.Prelude.{◌≡◌};
ghost use Rattle.alm_fields.specs.Fields.{settings_at, alm_at};

use crate::numbers::phase_at;
use alm_engine::alm_cache::{Alm, AlmCounts, AlmNumbers, AlmSettings, OuterIterations};
use panoc_engine::panoc_cache::InnerIterations;
use panoc_fields::fields::{InnerFields, solve_of};
use panoc_fields::numbers::{flag_at, status_at};

// What an end hands back with the plan and the multipliers.
#[repr(C)]
#[derive(Clone, Copy)]
pub struct AlmEnd {
    pub outer_iterations: usize,
    pub inner_iterations: usize,
    pub norm_fpr: f64,
    pub delta_y_norm: f64,
    pub f2_norm: f64,
    pub penalty: f64,
    pub cost: f64,
}

// Which question the loop waits for; the end of the last inner solve, or the one that is handed back; whether TIME is asked, and whether a set Y is given;
// n, n1 and n2; M and K; how many outer iterations may still begin, how many outer and inner ones there were, and those of the last solve; the tolerances,
// the factors and the decrease coefficient; the running numbers; and the numbers of an end.
#[repr(C)]
pub struct AlmFields {
    pub phase: u32,
    pub status: u32,
    pub limited: u32,
    pub has_set_y: u32,
    pub n: usize,
    pub n1: usize,
    pub n2: usize,
    pub max_inner_iterations: usize,
    pub max_outer_iterations: usize,
    pub left: usize,
    pub outer: usize,
    pub inner: usize,
    pub found: usize,
    pub tolerance: f64,
    pub epsilon_tolerance: f64,
    pub delta_tolerance: f64,
    pub initial_inner_tolerance: f64,
    pub penalty_update_factor: f64,
    pub epsilon_update_factor: f64,
    pub sufficient_decrease_coeff: f64,
    pub numbers: AlmNumbers,
    pub end: AlmEnd,
}

// A run of the loop: the fields of its inner solve, its own, and its vectors, 64 places each, those of the inner solve first. What the last call that wrote
// has told stands in inner.outcome and inner.told.
#[repr(C)]
pub struct AlmC {
    pub inner: InnerFields,
    pub alm: AlmFields,
    pub board: [f64; 768],
}

// What a start was given.
pub fn settings_of(alm: &AlmFields) -> AlmSettings
    ensures { result ≡ settings_at alm.now }
{
    AlmSettings {
        n: alm.n,
        n1: alm.n1,
        n2: alm.n2,
        has_set_y: flag_at(alm.has_set_y),
        max_inner_iterations: alm.max_inner_iterations,
        max_outer_iterations: alm.max_outer_iterations,
        limited: flag_at(alm.limited),
        tolerance: alm.tolerance,
        epsilon_tolerance: alm.epsilon_tolerance,
        delta_tolerance: alm.delta_tolerance,
        initial_inner_tolerance: alm.initial_inner_tolerance,
        penalty_update_factor: alm.penalty_update_factor,
        epsilon_update_factor: alm.epsilon_update_factor,
        sufficient_decrease_coeff: alm.sufficient_decrease_coeff,
    }
}

// The small part of a run.
pub fn alm_of(inner: &InnerFields, alm: &AlmFields) -> Alm
    ensures { result ≡ alm_at inner.now alm.now }
{
    let numbers = alm.numbers;
    Alm {
        phase: phase_at(alm.phase),
        set: settings_of(alm),
        numbers,
        counts: AlmCounts {
            left: alm.left,
            outer: OuterIterations(alm.outer),
            inner: InnerIterations(alm.inner),
            found: InnerIterations(alm.found),
            status: status_at(alm.status),
        },
        solve: solve_of(inner),
    }
}
