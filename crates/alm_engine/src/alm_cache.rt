// The records of the multiplier loop: what it is given, where it stands, and what an answer changes of it.
ghost use Rattle.std.specs.Prelude.{◌≡◌};
ghost use Rattle.alm_engine.specs.Values.{inner_given};

use panoc_engine::outcome::Refusal;
use panoc_engine::panoc_cache::{ExitStatus, InnerIterations, Question, Settings, Solve};

// A count of outer iterations; an inner count is another type.
#[derive(Clone, Copy, Debug, PartialEq, Eq)]
pub struct OuterIterations(pub usize);

// What a start is given: n, n1, n2; whether a set Y is given; M and K; whether TIME is asked; the tolerances, the factors and the
// decrease coefficient.
#[derive(Clone, Copy, Debug, PartialEq)]
pub struct AlmSettings {
    pub n: usize,
    pub n1: usize,
    pub n2: usize,
    pub has_set_y: bool,
    pub max_inner_iterations: usize,
    pub max_outer_iterations: usize,
    pub limited: bool,
    pub tolerance: f64,
    pub epsilon_tolerance: f64,
    pub delta_tolerance: f64,
    pub initial_inner_tolerance: f64,
    pub penalty_update_factor: f64,
    pub epsilon_update_factor: f64,
    pub sufficient_decrease_coeff: f64,
}

impl AlmSettings {
    // What an inner solve is given, with this AKKT tolerance.
    pub fn inner(self, akkt_tolerance: f64) -> Settings
        ensures { result ≡ inner_given self akkt_tolerance }
    {
        Settings {
            n: self.n,
            max_iter: self.max_inner_iterations,
            limited: self.limited,
            tolerance: self.tolerance,
            akkt_tolerance: Some(akkt_tolerance),
        }
    }
}

// The running numbers: c, the AKKT tolerance of the inner solve, the infeasibilities of the iteration before and of this one, the norm
// of the last solve.
#[repr(C)]
#[derive(Clone, Copy)]
pub struct AlmNumbers {
    pub penalty: f64,
    pub akkt_tolerance: f64,
    pub delta_y_norm: f64,
    pub f2_norm: f64,
    pub delta_y_norm_plus: f64,
    pub f2_norm_plus: f64,
    pub norm_fpr: f64,
}

// How many outer iterations may still begin; how many outer and inner iterations there were; the iterations of the last solve, and its
// end or the end that is handed back.
#[derive(Clone, Copy)]
pub struct AlmCounts {
    pub left: usize,
    pub outer: OuterIterations,
    pub inner: InnerIterations,
    pub found: InnerIterations,
    pub status: ExitStatus,
}

// Which question a run waits for. Over: it has ended.
#[derive(Clone, Copy, Debug, PartialEq, Eq)]
pub enum AlmPhase {
    Over,
    Time,
    ProjectY,
    Inner,
    F1,
    ProjectC,
    F2,
    LastCost,
}

// The small part of a run, that of its inner solve among it.
#[derive(Clone, Copy)]
pub struct Alm {
    pub phase: AlmPhase,
    pub set: AlmSettings,
    pub numbers: AlmNumbers,
    pub counts: AlmCounts,
    pub solve: Solve,
}

// A question of the loop, or one of the inner solve that it carries.
#[derive(Clone, Copy, Debug, PartialEq, Eq)]
pub enum AlmQuestion {
    Inner(Question),
    Time,
    ProjectY,
    F1,
    ProjectC,
    F2,
    Cost,
}

// What is handed back with the plan and the multipliers.
#[derive(Clone, Copy, Debug, PartialEq)]
pub struct AlmOptimizerStatus {
    pub exit_status: ExitStatus,
    pub num_outer_iterations: OuterIterations,
    pub num_inner_iterations: InnerIterations,
    pub last_problem_norm_fpr: f64,
    pub delta_y_norm: f64,
    pub f2_norm: f64,
    pub penalty: f64,
    pub cost: f64,
}

// What a call gives.
pub type AlmOutcome = panoc_engine::outcome::Outcome<AlmQuestion, AlmOptimizerStatus>;

// What a call in place gives, with the small part.
pub type AlmStepped = panoc_engine::outcome::Stepped<AlmOutcome, Alm>;

// A run by value: the small part, and the vectors, 64 places each: the nine of the inner solve, then y, y_plus and F1.
#[derive(Clone, Copy)]
pub struct AlmRun {
    pub alm: Alm,
    pub board: [f64; 768],
}

// What a call by value gives, with the run.
pub type AlmAnswered = panoc_engine::outcome::Answered<AlmOutcome, AlmRun>;

// ---- what an answer changes of a run

// Where it leaves the run: it asks at a phase, or a refusal has ended it. At Inner an inner solve begins.
#[derive(Clone, Copy)]
pub enum AlmMoved {
    To(AlmPhase),
    Refused(Refusal),
}

// TIME, and the end of an outer iteration.
#[derive(Clone, Copy)]
pub struct Iterated {
    pub moved: AlmMoved,
    pub counts: AlmCounts,
}

// An iteration that is done.
#[derive(Clone, Copy)]
pub struct Counted {
    pub numbers: AlmNumbers,
    pub counts: AlmCounts,
}

// What follows an inner solve.
#[derive(Clone, Copy)]
pub struct Weighed {
    pub moved: AlmMoved,
    pub numbers: AlmNumbers,
    pub counts: AlmCounts,
}
