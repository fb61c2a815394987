// The words of a line, one space apart, and what they are read as and printed from: numbers, floats, keywords, fields.
#![tactic(auto)]

pub mod float_printing;
pub mod float_words;
pub mod keywords;
pub mod line_fields;
pub mod line_printing;
pub mod numbers;
pub mod word_printing;
pub mod word_values;

ghost use Rattle.std.specs.Prelude.{◌≡◌, ◌==◌, ◌∷◌, position};
ghost use Rattle.words.specs.Splitting.{words_of};
ghost use Rattle.words.specs.Left.{words_in, words_left};

// The words of a line that are still to come: those of what is left of it, none behind the last. No `split` of std, whose closure would be a
// parameter of Fields and of all that takes one.
#[derive(Drop)]
pub struct Words<'a> {
    left: Option<&'a [u8]>,
}

impl<'a> Words<'a> {
    // Those of a whole line: at least one; a word may be empty.
    pub fn of(line: &'a [u8]) -> Self
        ensures { words_left result ≡ words_of line.now }
    {
        Words { left: Some(line) }
    }
}

// Where the first space is.
fn space(line: &[u8]) -> Option<usize>
    ensures { result ≡ position (λ c. c == 32) line.now }
{
    line.iter().position(|c| *c == b' ')
}

// The first word, and the line behind the space that ends it.
#[tactic(auto, using(crate::proofs::CutLaws::cut_some, crate::proofs::CutLaws::cut_none))]
fn cut(line: &[u8]) -> (&[u8], Option<&[u8]>)
    ensures { words_of line.now ≡ result.0.now ∷ words_in result.1 }
{
    match space(line) {
        Some(end) => (&line[..end], Some(&line[end + 1..])),
        None => (line, None),
    }
}

impl<'a> Iterator for Words<'a> {
    ghost use Rattle.std.specs.Iterator.{YieldsFirstRef, item_count};

    type Item = &'a [u8];

    ghost next_gives = { YieldsFirstRef words_left };

    ghost remaining = { item_count words_left };

    fn next(&mut self) -> Option<&'a [u8]> {
        let (word, left) = cut(self.left?);
        self.left = left;
        Some(word)
    }
}
