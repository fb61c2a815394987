// The words before the points of a question of the inner solve, which the loop carries too. Bytes and no Display: `shown` takes a word, whose
// length its clause bounds.
ghost use Rattle.std.specs.Prelude.{◌≡◌, ◌≤◌, length};
ghost use Rattle.panoc_engine.specs.Values.{asked_of};
ghost use Rattle.transcript.specs.Texts.{inner_name, inner_then};

use panoc_engine::panoc_cache::Question;

// The word of a question.
pub fn name(question: Question) -> &'static [u8]
    ensures word { result.now ≡ inner_name (asked_of question) }
    ensures most { length result.now ≤ 11 }
{
    match question {
        Question::Cost => b"cost",
        Question::Gradient => b"gradient",
        Question::Project => b"project",
        Question::Direction(true) => b"direction 1",
        Question::Direction(false) => b"direction 0",
        Question::Time => b"time",
    }
}

// The word before its second point: DIRECTION alone has one.
pub fn then(question: Question) -> &'static [u8]
    ensures word { result.now ≡ inner_then (asked_of question) }
    ensures most { length result.now ≤ 11 }
{
    match question {
        Question::Direction(_) => b" u",
        _ => b"",
    }
}
