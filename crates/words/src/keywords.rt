// The first word of a line.
#![tactic(auto)]

ghost use Rattle.std.specs.Prelude.{◌≡◌};
ghost use Rattle.words.specs.Keywords.{keyword_of};

#[derive(Clone, Copy, PartialEq, Eq, Debug, Drop)]
pub enum Keyword {
    Inner,
    Loop,
    Psi,
    DPsi,
    Number,
    Vector,
    Yes,
    No,
    Failure,
    Lend,
    Show,
}

// The words that begin a line: one arm a word is the table itself.
pub fn begins(w: &[u8]) -> Option<Keyword>
    ensures { result ≡ keyword_of w.now }
{
    match w {
        b"inner" => Some(Keyword::Inner),
        b"loop" => Some(Keyword::Loop),
        b"psi" => Some(Keyword::Psi),
        b"d_psi" => Some(Keyword::DPsi),
        b"number" => Some(Keyword::Number),
        b"vector" => Some(Keyword::Vector),
        b"yes" => Some(Keyword::Yes),
        b"no" => Some(Keyword::No),
        b"failure" => Some(Keyword::Failure),
        b"lend" => Some(Keyword::Lend),
        b"show" => Some(Keyword::Show),
        _ => None,
    }
}
