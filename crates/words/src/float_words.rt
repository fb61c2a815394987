// What a word reads as: a float by its bits.
#![tactic(auto)]

ghost use Rattle.std.specs.Prelude.{◌≡◌};
ghost use Rattle.std.specs.Float.{binary64};
ghost use Rattle.std.specs.Float.Ieee.{of_bits};
ghost use Rattle.words.specs.Reading.{hex_of, float_of};

use crate::numbers::numeral;

// The pattern of infinity, and the bit of the sign. They stand in numeric too: shared, the one would be built on the other for this line.
const INFINITY: u64 = 0x7ff0_0000_0000_0000;

const SIGN: u64 = 0x8000_0000_0000_0000;

// 16 hexadecimal digits in lower case.
#[tactic(auto, using(crate::specs::Numerals::hex_short, crate::specs::Numerals::hex_long))]
pub fn read_pattern(word: &[u8]) -> Option<u64>
    ensures { result ≡ hex_of word.now }
{
    if word.len() != 16 {
        return None;
    }
    numeral(16, word)
}

// The float of a pattern; every NaN pattern is NaN, while `f64::from_bits` asks that it is none of those.
pub fn of_bits(b: u64) -> f64
    ensures { result ≡ of_bits binary64 b }
{
    if b % SIGN > INFINITY {
        return f64::NAN;
    }
    f64::from_bits(b)
}

// A float by its bits.
#[tactic(auto, unfolding(crate::specs::Reading::float_of, crate::specs::Reading::by_bits))]
pub fn read_float(word: &[u8]) -> Option<f64>
    ensures { result ≡ float_of word.now }
{
    Some(of_bits(read_pattern(word)?))
}
