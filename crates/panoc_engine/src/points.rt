// The points of the question of a phase: in which vector of the board they lie, and how many places they have.
ghost use Rattle.std.specs.Prelude.{◌≡◌, ◌≤◌, ◌<◌};
ghost use Rattle.panoc_engine.specs.Places.{place_of, first_places, second_places};

use crate::panoc_cache::Phase;
use board::{BEST, FPR, HALF, PLUS, STEP, U};

// The vector in which the first point of the question lies.
pub fn place_of(p: Phase) -> usize
    ensures vector { result ≡ place_of p }
    ensures known { result < 9 }
{
    match p {
        Phase::Project | Phase::DoubledProject | Phase::FirstProject | Phase::TriedProject => STEP,
        Phase::HalfCost | Phase::DoubledCost => HALF,
        Phase::Direction => FPR,
        Phase::TriedCost | Phase::TriedGradient => PLUS,
        Phase::LastCost => BEST,
        Phase::Over
        | Phase::Cost
        | Phase::Gradient
        | Phase::Shifted
        | Phase::FirstCost
        | Phase::FirstGradient
        | Phase::Time => U,
    }
}

// How many places it has: TIME has none.
pub fn first_places(n: usize, p: Phase) -> usize
    ensures places { result ≡ first_places n p }
    ensures room { result ≤ n }
{
    match p {
        Phase::Time => 0,
        _ => n,
    }
}

// How many the second has: DIRECTION alone has one, u.
pub fn second_places(n: usize, p: Phase) -> usize
    ensures places { result ≡ second_places n p }
    ensures room { result ≤ n }
{
    match p {
        Phase::Direction => n,
        _ => 0,
    }
}
