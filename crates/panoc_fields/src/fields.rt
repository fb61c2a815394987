// The fields of an inner solve, and the small part of the run that they stand for.
ghost use Rattle.std.specs.Prelude.{◌≡◌};
ghost use Rattle.panoc_fields.specs.Fields.{solve_at};

use crate::numbers::{akkt_at, flag_at, phase_at, status_at};
use panoc_engine::panoc_cache::{Counts, Gammas, InnerIterations, Norms, Settings, Solve};

// What an end hands back with the plan.
#[repr(C)]
#[derive(Clone, Copy)]
pub struct InnerEnd {
    pub iterations: usize,
    pub norm_fpr: f64,
    pub cost_value: f64,
}

// Which question a run waits for; what the last call that wrote has told, by its kind and a number beside it; the end that stands for the present step; what
// DIRECTION says; whether TIME is asked, and whether an AKKT tolerance is set; n and M; how many steps may still begin and how many are done, how many
// doublings or candidates may follow; the tolerances; the cost, the numbers of the steps, the norm of the shift; and the numbers of an end.
#[repr(C)]
pub struct InnerFields {
    pub phase: u32,
    pub outcome: u32,
    pub told: u32,
    pub status: u32,
    pub forget: u32,
    pub limited: u32,
    pub has_akkt: u32,
    pub n: usize,
    pub max_iter: usize,
    pub left: usize,
    pub iterations: usize,
    pub rounds: usize,
    pub tolerance: f64,
    pub akkt_tolerance: f64,
    pub cost_value: f64,
    pub gammas: Gammas,
    pub norms: Norms,
    pub norm_h: f64,
    pub end: InnerEnd,
}

// A run of an inner solve: its fields, and its vectors, 64 places each.
#[repr(C)]
pub struct InnerC {
    pub inner: InnerFields,
    pub board: [f64; 576],
}

// The small part of a run.
pub fn solve_of(run: &InnerFields) -> Solve
    ensures { result ≡ solve_at run.now }
{
    let gammas = run.gammas;
    let norms = run.norms;
    Solve {
        phase: phase_at(run.phase),
        set: Settings {
            n: run.n,
            max_iter: run.max_iter,
            limited: flag_at(run.limited),
            tolerance: run.tolerance,
            akkt_tolerance: akkt_at(run.has_akkt, run.akkt_tolerance),
        },
        cost_value: run.cost_value,
        gammas,
        norms,
        norm_h: run.norm_h,
        counts: Counts {
            left: run.left,
            iterations: InnerIterations(run.iterations),
            status: status_at(run.status),
            rounds: run.rounds,
        },
        forget: flag_at(run.forget),
    }
}
