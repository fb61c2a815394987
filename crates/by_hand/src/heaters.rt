// The model of the loop: two heaters with a set for each, a bound on F1 and an equation F2.
use alm_factory::records::{PsiQuestion, Sizes};
use panoc_engine::panoc_cache::Reply;

pub const SIZES: Sizes = Sizes { n: 2, n1: 1, n2: 1 };

// ½ × (u0 - 1)² + (u1 - 2)²
fn cost(u: [f64; 2]) -> f64 {
    let a = u[0] - 1.0;
    let b = u[1] - 2.0;
    0.5 * a * a + b * b
}

fn gradient(u: [f64; 2]) -> [f64; 2] {
    [u[0] - 1.0, 2.0 * (u[1] - 2.0)]
}

// F1: u0² + u1, to be in C.
fn f1(u: [f64; 2]) -> f64 {
    u[0] * u[0] + u[1]
}

// The transposed Jacobian of F1, times d.
fn jf1t(u: [f64; 2], d: f64) -> [f64; 2] {
    [2.0 * u[0] * d, d]
}

// F2: u0 - 2 × u1, to be 0.
fn f2(u: [f64; 2]) -> f64 {
    u[0] - 2.0 * u[1]
}

// The transposed Jacobian of F2, times d.
fn jf2t(d: f64) -> [f64; 2] {
    [d, -2.0 * d]
}

// The set U: both heaters between -2 and 2.
pub fn project(p: [f64; 2]) -> [f64; 2] {
    [p[0].clamp(-2.0, 2.0), p[1].clamp(-2.0, 2.0)]
}

// The set C: at most 1.
fn project_c(t: f64) -> f64 {
    t.clamp(-1000.0, 1.0)
}

// The set Y: between -10 and 10.
pub fn project_y(y: f64) -> f64 {
    y.clamp(-10.0, 10.0)
}

// An answer: a number, a vector of one place or of two, or a yes.
#[derive(Clone, Copy)]
pub enum Given {
    Number(f64),
    One([f64; 1]),
    Two([f64; 2]),
    Yes,
}

impl Given {
    pub fn reply(&self) -> Reply {
        match self {
            Given::Number(x) => Reply::Number(*x),
            Given::One(_) | Given::Two(_) => Reply::Vector,
            Given::Yes => Reply::Yes,
        }
    }

    // The places of a vector; no other answer has any.
    pub fn vector(&self) -> &[f64] {
        match self {
            Given::One(v) => v,
            Given::Two(v) => v,
            Given::Number(_) | Given::Yes => &[],
        }
    }
}

// The points of a question of psi and d_psi: u, and the d of a product or the point to be projected on C.
#[derive(Clone, Copy)]
pub struct Points {
    pub u: [f64; 2],
    pub d: [f64; 1],
}

// What the model says to a question of psi or d_psi, some of which the loop asks too.
pub fn answer_to(question: PsiQuestion, p: Points) -> Given {
    let Points { u, d: [d] } = p;
    match question {
        PsiQuestion::Cost => Given::Number(cost(u)),
        PsiQuestion::Gradient => Given::Two(gradient(u)),
        PsiQuestion::F1 => Given::One([f1(u)]),
        PsiQuestion::ProjectC => Given::One([project_c(d)]),
        PsiQuestion::Jf1t => Given::Two(jf1t(u, d)),
        PsiQuestion::F2 => Given::One([f2(u)]),
        PsiQuestion::Jf2t => Given::Two(jf2t(d)),
    }
}
