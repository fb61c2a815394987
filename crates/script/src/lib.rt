// What a line of a script says: TRANSCRIPT.md, "Starts", "Answers" and "Ready-made sets".
#![tactic(auto)]

pub mod answers;
pub mod command;
pub mod runs;
pub mod sets;

ghost use Rattle.std.specs.Prelude.{◌≡◌};
ghost use Rattle.script.specs.Lines.{meant};

use crate::answers::{bare, failure, lend, number, vector};
use crate::command::{Command, Said};
use crate::runs::{inner, lent, outer, sizes};
use panoc_engine::panoc_cache::Reply;
use words::keywords::{Keyword, begins};
use words::line_fields::Fields;

// What a line says, None for a line of another form; as many places may be lent of u and of xi as U and XI say.
// One match over the keywords: each arm is another reader, so a table is no plainer.
#[tactic(auto, unfolding(crate::specs::Lines::meant, crate::specs::Lines::by_words, crate::specs::Lines::line_by, crate::specs::Lines::psi_line, crate::specs::Lines::d_psi_line))]
pub fn said<const U: usize, const XI: usize>(line: &[u8]) -> Option<Said<U, XI>>
    ensures { result ≡ meant U XI line.now }
{
    let mut fields = Fields::of(line);
    match begins(fields.word()?)? {
        Keyword::Inner => inner(fields),
        Keyword::Loop => outer(fields),
        Keyword::Psi => {
            let sizes = sizes(&mut fields)?;
            lent(fields, Command::Psi(sizes))
        }
        Keyword::DPsi => {
            let sizes = sizes(&mut fields)?;
            lent(fields, Command::DPsi(sizes))
        }
        Keyword::Number => number(fields),
        Keyword::Vector => vector(fields),
        Keyword::Yes => bare(fields, Command::Answer(Reply::Yes)),
        Keyword::No => bare(fields, Command::Answer(Reply::No)),
        Keyword::Failure => failure(fields),
        Keyword::Lend => lend(fields),
        Keyword::Show => bare(fields, Command::Show),
    }
}
