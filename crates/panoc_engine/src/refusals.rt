// Why an answer is refused, for every kind of run: 6 to 8 of the table, by what the run waits for. An Option and no Result: a caller asks for
// the refusal, and goes on where there is none.
ghost use Rattle.std.specs.Prelude.{◌≡◌, cond, ◌&&◌, eqb};
ghost use Rattle.model.specs.Refusals.{answer_refusal};
ghost use Rattle.machine.specs.Waits.{waiting};
ghost use Rattle.panoc_engine.specs.Told.{number_of};
ghost use Rattle.panoc_engine.specs.Values.{reply_of, kind_of};

use crate::outcome::Refusal;
use crate::panoc_cache::Reply;

// What a run waits for, None once it has ended: a number; a vector of so many places; a direction, for which no failure is taken; a
// yes or no.
#[derive(Clone, Copy, Debug, PartialEq, Eq)]
pub enum Wanted {
    Number,
    Vector(usize),
    Direction(usize),
    Decision,
}

// Whether an answer is waited for.
pub fn waits(wanted: Option<Wanted>) -> bool
    ensures { result ≡ waiting (kind_of wanted) }
{
    wanted.is_some()
}

// 8 where a length is wrong.
fn by_length(right: bool) -> Option<Refusal>
    ensures { number_of result ≡ cond right 0 8 }
{
    (!right).then_some(Refusal::Lengths)
}

// A vector of vs places is answered where n are asked.
fn by_places(vs: usize, n: usize, fits: bool) -> Option<Refusal>
    ensures { number_of result ≡ cond (eqb vs n && fits) 0 8 }
{
    by_length(vs == n && fits)
}

// Why an answer is refused. vs is the length of the answered slice; fits says that each lent place has the length asked.
#[tactic(auto, unfolding(model::specs::Refusals::answer_refusal, model::specs::Refusals::fits_kind, model::specs::Refusals::fits_length, model::specs::Refusals::fits_places, model::specs::Refusals::given, model::specs::Refusals::as_number, model::specs::Refusals::as_vector, model::specs::Refusals::as_decision, model::specs::Refusals::may_fail,))]
pub fn refusal(wanted: Option<Wanted>, a: Reply, vs: usize, fits: bool) -> Option<Refusal>
    ensures { number_of result ≡ answer_refusal (kind_of wanted) (reply_of a) vs fits }
{
    let Some(wanted) = wanted else {
        return Some(Refusal::Over);
    };
    match (wanted, a) {
        (Wanted::Vector(n) | Wanted::Direction(n), Reply::Vector) => by_places(vs, n, fits),
        (Wanted::Number, Reply::Number(_) | Reply::Failure(_))
        | (Wanted::Vector(_), Reply::Failure(_))
        | (Wanted::Decision, Reply::Yes | Reply::No) => by_length(fits),
        _ => Some(Refusal::Kind),
    }
}
