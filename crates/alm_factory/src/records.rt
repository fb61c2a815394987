// The records of psi and d_psi, the penalty functions of the multiplier loop, as runs that ask and answer.
use panoc_engine::outcome::{Answered, Outcome, Stepped};

// n, n1 and n2: the places of u, of F1 and of F2.
#[derive(Clone, Copy, PartialEq, Eq, Debug)]
pub struct Sizes {
    pub n: usize,
    pub n1: usize,
    pub n2: usize,
}

// A question of psi or d_psi: cost and gradient of f, F1, the projection on C, F2, and the transposed Jacobian products.
#[derive(Clone, Copy, PartialEq, Eq, Debug)]
pub enum PsiQuestion {
    Cost,
    Gradient,
    F1,
    ProjectC,
    Jf1t,
    F2,
    Jf2t,
}

// ---- psi

// Which question a run of psi waits for. Over: it has ended.
#[derive(Clone, Copy, PartialEq, Eq, Debug)]
pub enum PsiPhase {
    Over,
    Cost,
    F1,
    ProjectC,
    F2,
}

// The small part of a run of psi: value is its number so far.
#[derive(Clone, Copy)]
pub struct Psi {
    pub phase: PsiPhase,
    pub sizes: Sizes,
    pub c: f64,
    pub value: f64,
}

// A run of psi by value, with the vectors u, y, t and work on its board.
#[derive(Clone, Copy)]
pub struct PsiRun {
    pub psi: Psi,
    pub board: [f64; 256],
}

// psi ends with its number.
pub type PsiOutcome = Outcome<PsiQuestion, f64>;

// What an answer changes of a run of psi, with what the call says.
#[derive(Clone, Copy)]
pub struct PsiMoved {
    pub outcome: PsiOutcome,
    pub phase: PsiPhase,
    pub value: f64,
}

// What a call in place gives, and one by value.
pub type PsiStepped = Stepped<PsiOutcome, Psi>;

pub type PsiAnswered = Answered<PsiOutcome, PsiRun>;

// ---- d_psi

// Which question a run of d_psi waits for. Over: it has ended.
#[derive(Clone, Copy, PartialEq, Eq, Debug)]
pub enum DPsiPhase {
    Over,
    Gradient,
    F1,
    ProjectC,
    Jf1t,
    F2,
    Jf2t,
}

// The small part of a run of d_psi; what it has so far lies in the gradient.
#[derive(Clone, Copy)]
pub struct DPsi {
    pub phase: DPsiPhase,
    pub sizes: Sizes,
    pub c: f64,
}

// A run of d_psi by value, with the vectors u, y, gradient, t, d and work on its board.
#[derive(Clone, Copy)]
pub struct DPsiRun {
    pub d_psi: DPsi,
    pub board: [f64; 384],
}

// d_psi ends with nothing to say: its numbers are in the lent slice.
pub type DPsiOutcome = Outcome<PsiQuestion, ()>;

// What an answer changes of a run of d_psi beside its vectors, with what the call says.
#[derive(Clone, Copy)]
pub struct DPsiMoved {
    pub outcome: DPsiOutcome,
    pub phase: DPsiPhase,
}

pub type DPsiStepped = Stepped<DPsiOutcome, DPsi>;

pub type DPsiAnswered = Answered<DPsiOutcome, DPsiRun>;
