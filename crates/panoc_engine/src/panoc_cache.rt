// The records of an inner solve: what it is given, where it stands, and what an answer changes of it.
ghost use Rattle.std.specs.Prelude.{◌≡◌, ◌≤◌, cond, eqb, length};
ghost use Rattle.std.specs.Float.Ieee.{lt};
ghost use Rattle.model.specs.State.{keep};
ghost use Rattle.panoc_engine.specs.Runs.{norm_at, best_at};
ghost use Rattle.board.specs.Board.{GRADIENT, PREVIOUS, HALF, BEST, vector, write};

use crate::outcome::Refusal;
use board::copies::copy_into;
use board::{BEST, GRADIENT, HALF, PREVIOUS};

// What a start is given: n, M, whether TIME is asked, the tolerances. That of AKKT may be missing in an inner solve used alone.
#[derive(Clone, Copy, Debug, PartialEq)]
pub struct Settings {
    pub n: usize,
    pub max_iter: usize,
    pub limited: bool,
    pub tolerance: f64,
    pub akkt_tolerance: Option<f64>,
}

// The three ends.
#[derive(Clone, Copy, Debug, PartialEq, Eq)]
pub enum ExitStatus {
    Converged,
    NotConvergedIterations,
    NotConvergedOutOfTime,
}

// A count of inner iterations; an outer count is another type.
#[derive(Clone, Copy, Debug, PartialEq, Eq)]
pub struct InnerIterations(pub usize);

// L, γ and σ. C has them so, as it has the norms.
#[repr(C)]
#[derive(Clone, Copy)]
pub struct Gammas {
    pub lipschitz_constant: f64,
    pub gamma: f64,
    pub sigma: f64,
}

// The norm of the residual, and the least of a half step's so far; τ; and what the next test holds a value to: the half step's cost, or a
// candidate's envelope.
#[repr(C)]
#[derive(Clone, Copy)]
pub struct Norms {
    pub norm_gamma_fpr: f64,
    pub best_norm_gamma_fpr: f64,
    pub tau: f64,
    pub rhs_ls: f64,
}

// How many steps may still begin, and how many are done; the end that stands for the present step; how many doublings or candidates may follow.
#[derive(Clone, Copy)]
pub struct Counts {
    pub left: usize,
    pub iterations: InnerIterations,
    pub status: ExitStatus,
    pub rounds: usize,
}

// Which question a run waits for: those of the start, of a step's half step, of the doubling, DIRECTION, of the first step's move, of a
// candidate, TIME, the last COST. Over: it has ended.
#[derive(Clone, Copy, Debug, PartialEq, Eq)]
pub enum Phase {
    Over,
    Cost,
    Gradient,
    Shifted,
    Project,
    HalfCost,
    DoubledProject,
    DoubledCost,
    Direction,
    FirstCost,
    FirstGradient,
    FirstProject,
    TriedCost,
    TriedGradient,
    TriedProject,
    Time,
    LastCost,
}

// The small part of a run. forget: what DIRECTION says, beside the phase, since a flag last puts the board of a run by value onto odd places; norm_h: the
// norm of the shift of the Lipschitz estimate.
#[derive(Clone, Copy)]
pub struct Solve {
    pub phase: Phase,
    pub forget: bool,
    pub set: Settings,
    pub cost_value: f64,
    pub gammas: Gammas,
    pub norms: Norms,
    pub norm_h: f64,
    pub counts: Counts,
}

// A question of the inner solve. DIRECTION says whether to forget.
#[derive(Clone, Copy, Debug, PartialEq, Eq)]
pub enum Question {
    Cost,
    Gradient,
    Project,
    Direction(bool),
    Time,
}

// An answer: the vector stands beside it, in a lent slice, as document 01 has it.
#[derive(Clone, Copy, Debug, PartialEq)]
pub enum Reply {
    Number(f64),
    Vector,
    Yes,
    No,
    Failure(u32),
}

// What is handed back with the plan.
#[derive(Clone, Copy, Debug, PartialEq)]
pub struct SolverStatus {
    pub exit_status: ExitStatus,
    pub iterations: InnerIterations,
    pub norm_fpr: f64,
    pub cost_value: f64,
}

// What a call gives.
pub type Outcome = crate::outcome::Outcome<Question, SolverStatus>;

// What a call in place gives, with the small part.
pub type Stepped = crate::outcome::Stepped<Outcome, Solve>;

// A run by value: the small part, and the vectors, 64 places each.
#[derive(Clone, Copy)]
pub struct Run {
    pub solve: Solve,
    pub board: [f64; 576],
}

// What a call by value gives, with the run.
pub type Answered = crate::outcome::Answered<Outcome, Run>;

// ---- what an answer changes of a run

// Where it leaves the run: it asks at a phase, or a refusal has ended it.
#[derive(Clone, Copy)]
pub enum Moved {
    To(Phase),
    Refused(Refusal),
}

// COST.
#[derive(Clone, Copy)]
pub struct Costed {
    pub moved: Moved,
    pub cost_value: f64,
}

// GRADIENT at u: the norm of the shift.
#[derive(Clone, Copy)]
pub struct Shifted {
    pub moved: Moved,
    pub norm_h: f64,
}

// GRADIENT at the shifted u.
#[derive(Clone, Copy)]
pub struct Estimated {
    pub moved: Moved,
    pub gammas: Gammas,
}

// COST at the half step, and while doubling.
#[derive(Clone, Copy)]
pub struct Doubled {
    pub moved: Moved,
    pub gammas: Gammas,
    pub norms: Norms,
    pub rounds: usize,
    pub forget: bool,
}

// DIRECTION.
#[derive(Clone, Copy)]
pub struct Searched {
    pub moved: Moved,
    pub norms: Norms,
    pub rounds: usize,
}

// PROJECT of a gradient step, and TIME.
#[derive(Clone, Copy)]
pub struct Tested {
    pub moved: Moved,
    pub norms: Norms,
    pub counts: Counts,
}

// What follows a half step: another candidate, TIME, a step, or the end of the solve.
#[derive(Clone, Copy)]
pub enum Next {
    Again,
    Time,
    Step,
    Finish,
}

// A half step that is taken, before the stage that follows it; where another candidate follows, the sums are of no residual.
#[derive(Clone, Copy)]
pub struct HalfStep {
    pub next: Next,
    pub norm: f64,
    pub product: f64,
    pub norms: Norms,
    pub counts: Counts,
}

// What follows a half step that is taken, with the counts then.
#[derive(Clone, Copy)]
pub struct Onward {
    pub next: Next,
    pub counts: Counts,
}

// A half step after its tests: whether the solve ends with it, and its norms.
#[derive(Clone, Copy)]
pub struct Scored {
    pub over: bool,
    pub norms: Norms,
}

// Keeps the previous gradient if at least one step is done.
#[tactic(auto, using(crate::proofs::Held::norm_previous))]
pub fn cache_previous_gradient(done: usize, board: &mut [f64], n: usize)
    requires count { n ≤ 64 }
    requires places { 576 ≤ length board.old }
    ensures left { board.new ≡ cond (eqb done 0) board.old (write PREVIOUS (vector GRADIENT n board.old) board.old) }
    ensures norm { norm_at n board.new ≡ norm_at n board.old }
{
    if done != 0 {
        copy_into(board, GRADIENT, PREVIOUS, n);
    }
}

// Scores the half step, of this norm, and gives the least norm: it is kept only if its norm is strictly less than the least so far.
#[tactic(auto, using(crate::proofs::Held::best))]
pub fn cache_best_half_step(norm: f64, least: f64, board: &mut [f64], n: usize) -> f64
    requires count { n ≤ 64 }
    requires places { 576 ≤ length board.old }
    ensures left { board.new ≡ cond (lt norm least) (write BEST (vector HALF n board.old) board.old) board.old }
    ensures least { result ≡ cond (lt norm least) norm least }
    ensures kept { best_at n board.new result ≡ keep (best_at n board.old least) (vector HALF n board.old) norm }
    ensures norm { norm_at n board.new ≡ norm_at n board.old }
{
    if norm < least {
        copy_into(board, HALF, BEST, n);
        norm
    } else {
        least
    }
}
