// The lines that answer, and those that lend and show.
#![tactic(auto)]

ghost use Rattle.std.specs.Prelude.{◌≡◌};
ghost use Rattle.words.specs.LineFieldsLeft.{left};
ghost use Rattle.script.specs.Lines.{closed, number_line, vector_line, failure_line, lend_line};

use crate::command::{Command, Said, alone};
use arrayvec::ArrayVec;
use panoc_engine::panoc_cache::Reply;
use words::line_fields::Fields;

// A command without further fields.
pub fn bare<const U: usize, const XI: usize>(
    fields: Fields,
    command: Command,
) -> Option<Said<U, XI>>
    ensures { result ≡ closed U XI (left fields.entry) command }
{
    fields.ended().then_some(alone(command))
}

// number X
#[tactic(auto, unfolding(crate::specs::Lines::number_line))]
pub fn number<const U: usize, const XI: usize>(mut fields: Fields) -> Option<Said<U, XI>>
    ensures { result ≡ number_line U XI (left fields.entry) }
{
    let x = fields.float()?;
    bare(fields, Command::Answer(Reply::Number(x)))
}

// vector X...
#[tactic(auto, unfolding(crate::specs::Lines::vector_line))]
pub fn vector<const U: usize, const XI: usize>(fields: Fields) -> Option<Said<U, XI>>
    ensures { result ≡ vector_line U XI (left fields.entry) }
{
    Some(Said {
        command: Command::Answer(Reply::Vector),
        first: fields.rest()?,
        second: ArrayVec::new(),
    })
}

// failure CODE. As number, with another field and another reply.
#[tactic(auto, unfolding(crate::specs::Lines::failure_line))]
pub fn failure<const U: usize, const XI: usize>(mut fields: Fields) -> Option<Said<U, XI>>
    ensures { result ≡ failure_line U XI (left fields.entry) }
{
    let code = fields.code()?;
    bare(fields, Command::Answer(Reply::Failure(code)))
}

// lend LENGTH_U LENGTH_XI, of at most U and XI places
#[tactic(auto, unfolding(crate::specs::Lines::lend_line))]
pub fn lend<const U: usize, const XI: usize>(mut fields: Fields) -> Option<Said<U, XI>>
    ensures { result ≡ lend_line U XI (left fields.entry) }
{
    let u = fields.whole()?;
    let xi = fields.whole()?;
    if u > U as u64 || xi > XI as u64 {
        return None;
    }
    bare(fields, Command::Lend(u as usize, xi as usize))
}
