// What a word reads as: flags, a tolerance that may be missing.
#![tactic(auto)]

ghost use Rattle.std.specs.Prelude.{◌≡◌};
ghost use Rattle.words.specs.Reading.{flag_of};
ghost use Rattle.words.specs.Values.{tolerance_of};

use crate::float_words::read_float;

// 0 or 1.
pub fn read_flag(word: &[u8]) -> Option<bool>
    ensures { result ≡ flag_of word.now }
{
    match word {
        b"0" => Some(false),
        b"1" => Some(true),
        _ => None,
    }
}

// A tolerance, `Some(None)` for a dash, which says that it is missing.
pub fn read_tolerance(word: &[u8]) -> Option<Option<f64>>
    ensures { result ≡ tolerance_of word.now }
{
    match word {
        b"-" => Some(None),
        _ => Some(Some(read_float(word)?)),
    }
}
