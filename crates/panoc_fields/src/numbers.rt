// The numbers that C sees and gives.
ghost use Rattle.std.specs.Prelude.{◌≡◌};
ghost use Rattle.machine.specs.Waits.{of_no_kind};
ghost use Rattle.machine.specs.Numbers.{reply_of, question_number, phase_number, status_number, flag_number, flag_of};
ghost use Rattle.panoc_engine.specs.Told.{number_in};
ghost use Rattle.panoc_engine.specs.Values.{kind_of, asked_of, phase_of, status_of};
ghost use Rattle.panoc_fields.specs.Fields.{phase_at, status_at, akkt_at, given};

use panoc_engine::outcome::Refusal;
use panoc_engine::panoc_cache::{ExitStatus, Phase, Question, Reply};
use panoc_engine::refusals::Wanted;

// What a call tells, by its kind: a question, an end, a refusal that ends the run or none that begins, the host's failure.
pub const ASKED: u32 = 0;

pub const ENDED: u32 = 1;

pub const REFUSED: u32 = 2;

pub const FAILED: u32 = 3;

// The table's number of a failure; 0 is of a call that goes on.
pub const FAILURE: u32 = 9;

// The number of the question where none stands.
pub const NO_QUESTION: u32 = 14;

// ---- what goes out

// The questions; DIRECTION has two numbers, the second where it says to forget.
pub fn question_number(q: Question) -> u32
    ensures { result ≡ question_number (asked_of q) }
{
    match q {
        Question::Cost => 0,
        Question::Gradient => 1,
        Question::Project => 2,
        Question::Direction(false) => 3,
        Question::Direction(true) => 4,
        Question::Time => 5,
    }
}

pub fn phase_number(p: Phase) -> u32
    ensures { result ≡ phase_number (phase_of p) }
{
    match p {
        Phase::Over => 0,
        Phase::Cost => 1,
        Phase::Gradient => 2,
        Phase::Shifted => 3,
        Phase::Project => 4,
        Phase::HalfCost => 5,
        Phase::DoubledProject => 6,
        Phase::DoubledCost => 7,
        Phase::Direction => 8,
        Phase::FirstCost => 9,
        Phase::FirstGradient => 10,
        Phase::FirstProject => 11,
        Phase::TriedCost => 12,
        Phase::TriedGradient => 13,
        Phase::TriedProject => 14,
        Phase::Time => 15,
        Phase::LastCost => 16,
    }
}

// The ends.
pub fn status_number(e: ExitStatus) -> u32
    ensures { result ≡ status_number (status_of e) }
{
    match e {
        ExitStatus::Converged => 0,
        ExitStatus::NotConvergedIterations => 1,
        ExitStatus::NotConvergedOutOfTime => 2,
    }
}

pub fn flag_number(yes: bool) -> u32
    ensures { result ≡ flag_number yes }
{
    if yes { 1 } else { 0 }
}

// ---- what comes in

// A number of no phase is of a run that has ended.
#[tactic(auto, using(crate::proofs::NumberLaws::phase_past))]
pub fn phase_at(number: u32) -> Phase
    ensures { result ≡ phase_at number }
{
    match number {
        0 => Phase::Over,
        1 => Phase::Cost,
        2 => Phase::Gradient,
        3 => Phase::Shifted,
        4 => Phase::Project,
        5 => Phase::HalfCost,
        6 => Phase::DoubledProject,
        7 => Phase::DoubledCost,
        8 => Phase::Direction,
        9 => Phase::FirstCost,
        10 => Phase::FirstGradient,
        11 => Phase::FirstProject,
        12 => Phase::TriedCost,
        13 => Phase::TriedGradient,
        14 => Phase::TriedProject,
        15 => Phase::Time,
        16 => Phase::LastCost,
        _ => Phase::Over,
    }
}

// An end above 1 is out of time.
#[tactic(auto, using(crate::proofs::NumberLaws::status_past))]
pub fn status_at(number: u32) -> ExitStatus
    ensures { result ≡ status_at number }
{
    match number {
        0 => ExitStatus::Converged,
        1 => ExitStatus::NotConvergedIterations,
        _ => ExitStatus::NotConvergedOutOfTime,
    }
}

// A flag is yes unless it is 0.
pub fn flag_at(number: u32) -> bool
    ensures { result ≡ flag_of number }
{
    number != 0
}

pub fn akkt_at(number: u32, t: f64) -> Option<f64>
    ensures { result ≡ akkt_at number t }
{
    if number == 0 { None } else { Some(t) }
}

// An answer: 0 the number x, 1 a vector, 2 yes, 3 no, 4 the failure code; another number is none.
#[tactic(auto, using(crate::proofs::NumberLaws::reply_past))]
pub fn reply_at(kind: u32, x: f64, code: u32) -> Option<Reply>
    ensures { given result ≡ reply_of kind x code }
{
    match kind {
        0 => Some(Reply::Number(x)),
        1 => Some(Reply::Vector),
        2 => Some(Reply::Yes),
        3 => Some(Reply::No),
        4 => Some(Reply::Failure(code)),
        _ => None,
    }
}

// An answer of no kind gets 6 where the run has ended, else 7.
#[tactic(auto, unfolding(machine::specs::Waits::of_no_kind))]
pub fn number_of_no_kind(wanted: Option<Wanted>) -> u32
    ensures { result ≡ of_no_kind (kind_of wanted) }
{
    match wanted {
        None => 6,
        Some(_) => 7,
    }
}

// The number of a call that may be refused: 0 for none.
pub fn number_in(r: Result<(), Refusal>) -> u32
    ensures { result ≡ number_in r }
{
    match r {
        Ok(()) => 0,
        Err(refusal) => refusal.number(),
    }
}
