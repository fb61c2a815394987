// The fields of a line, read one behind the other.
#![tactic(auto)]

ghost use Rattle.std.specs.Prelude.{◌≡◌, ◌≤◌, [], drop, length, ◌==◌, option_map, MatchOption};
ghost use Rattle.std.specs.Iterator.{YieldsFirstRef};
ghost use Rattle.words.specs.Splitting.{words_of};
ghost use Rattle.words.specs.Fields.{whole_field, code_field, flag_field, float_field, tolerance_field, floats_field, rest_field, Gives};
ghost use Rattle.words.specs.LineFieldsLeft.{left};

use crate::Words;
use crate::float_words::read_float;
use crate::numbers::{read_whole, read_whole32};
use crate::word_values::{read_flag, read_tolerance};
use arrayvec::ArrayVec;

// What is left of a line. A field that is read is used up, of whatever form it is.
#[derive(Drop)]
pub struct Fields<'a> {
    words: Words<'a>,
}

#[tactic(auto, unfolding(crate::specs::Fields::field_by))]
impl<'a> Fields<'a> {
    pub fn of(line: &'a [u8]) -> Self
        ensures { left result ≡ words_of line.now }
    {
        Fields {
            words: Words::of(line),
        }
    }

    // The next word, as it stands.
    pub fn word(&mut self) -> Option<&'a [u8]>
        ensures { YieldsFirstRef left self.old result self.new }
    {
        self.words.next()
    }

    // A whole number below 2^64. This and the four below have one shape: one that takes the reader would say what the reader gives of a word.
    pub fn whole(&mut self) -> Option<u64>
        ensures value { Gives (whole_field (left self.old)) result (left self.new) }
        ensures used { left self.new ≡ drop 1 (left self.old) }
    {
        read_whole(self.words.next()?)
    }

    // A whole number below 2^32.
    pub fn code(&mut self) -> Option<u32>
        ensures value { Gives (code_field (left self.old)) result (left self.new) }
        ensures used { left self.new ≡ drop 1 (left self.old) }
    {
        read_whole32(self.words.next()?)
    }

    // 0 or 1.
    pub fn flag(&mut self) -> Option<bool>
        ensures value { Gives (flag_field (left self.old)) result (left self.new) }
        ensures used { left self.new ≡ drop 1 (left self.old) }
    {
        read_flag(self.words.next()?)
    }

    // A float.
    pub fn float(&mut self) -> Option<f64>
        ensures value { Gives (float_field (left self.old)) result (left self.new) }
        ensures used { left self.new ≡ drop 1 (left self.old) }
    {
        read_float(self.words.next()?)
    }

    // A float, or a dash where it is missing.
    pub fn tolerance(&mut self) -> Option<Option<f64>>
        ensures value { Gives (tolerance_field (left self.old)) result (left self.new) }
        ensures used { left self.new ≡ drop 1 (left self.old) }
    {
        read_tolerance(self.words.next()?)
    }

    // n floats.
    #[tactic(auto, using(crate::proofs::FloatLaws::floats_next, crate::proofs::FloatLaws::floats_none, crate::proofs::FloatLaws::floats_done))]
    pub fn floats<const N: usize>(&mut self, n: usize) -> Option<ArrayVec<f64, N>>
        requires { n ≤ N }
        ensures { let f = floats_field [] n (left self.old) in MatchOption result (f ≡ None) (λ xs. f ≡ Some (xs.items, left self.new)) }
    {
        let mut floats = ArrayVec::new();
        for _ in 0..n {
            floats.push(self.float()?);
        }
        Some(floats)
    }

    // All that is left, as at most N floats.
    #[tactic(auto, using(crate::proofs::FloatLaws::rest_end, crate::proofs::FloatLaws::rest_next))]
    pub fn rest<const N: usize>(self) -> Option<ArrayVec<f64, N>>
        ensures { option_map (λ r. r.items) result ≡ rest_field N [] (left self.entry) }
    {
        let mut rest = ArrayVec::new();
        for word in self.words {
            rest.try_push(read_float(word)?).ok()?;
        }
        Some(rest)
    }

    // Whether nothing is left.
    pub fn ended(mut self) -> bool
        ensures { result ≡ (length (left self.entry) == 0) }
    {
        self.words.next().is_none()
    }
}
