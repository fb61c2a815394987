// The numbers that C sees and gives, of the loop's own enums; the rest is as in panoc_fields.
ghost use Rattle.std.specs.Prelude.{◌≡◌};
ghost use Rattle.machine.specs.LoopNumbers.{question_number, phase_number};
ghost use Rattle.alm_engine.specs.Values.{loop_asked_of, loop_phase_of};
ghost use Rattle.alm_fields.specs.Fields.{phase_at};

use alm_engine::alm_cache::{AlmPhase, AlmQuestion};
use panoc_fields::numbers::question_number as inner_question_number;

// ---- what goes out

// The questions: those of the inner solve have its numbers.
pub fn question_number(q: AlmQuestion) -> u32
    ensures { result ≡ question_number (loop_asked_of q) }
{
    match q {
        AlmQuestion::Inner(question) => inner_question_number(question),
        AlmQuestion::Time => 6,
        AlmQuestion::ProjectY => 7,
        AlmQuestion::F1 => 8,
        AlmQuestion::ProjectC => 9,
        AlmQuestion::F2 => 10,
        AlmQuestion::Cost => 11,
    }
}

pub fn phase_number(p: AlmPhase) -> u32
    ensures { result ≡ phase_number (loop_phase_of p) }
{
    match p {
        AlmPhase::Over => 0,
        AlmPhase::Time => 1,
        AlmPhase::ProjectY => 2,
        AlmPhase::Inner => 3,
        AlmPhase::F1 => 4,
        AlmPhase::ProjectC => 5,
        AlmPhase::F2 => 6,
        AlmPhase::LastCost => 7,
    }
}

// ---- what comes in

// A number of no phase is of a run that has ended.
#[tactic(auto, using(crate::proofs::NumberLaws::phase_past))]
pub fn phase_at(number: u32) -> AlmPhase
    ensures { result ≡ phase_at number }
{
    match number {
        0 => AlmPhase::Over,
        1 => AlmPhase::Time,
        2 => AlmPhase::ProjectY,
        3 => AlmPhase::Inner,
        4 => AlmPhase::F1,
        5 => AlmPhase::ProjectC,
        6 => AlmPhase::F2,
        7 => AlmPhase::LastCost,
        _ => AlmPhase::Over,
    }
}
