// Whole numbers of words: what a byte counts as a digit, and what a word of decimal digits reads as.
#![tactic(auto)]

ghost use Rattle.std.specs.Prelude.{◌≡◌, ◌≤◌, ◌^◌};
ghost use Rattle.words.specs.Digits.{digit_of, numeral as Digits·numeral};
ghost use Rattle.words.specs.Reading.{under, whole_of};

// What a byte counts as a digit. `char::to_digit` takes upper case too, which is no digit here.
#[tactic(auto, using(std::proofs::lemmas::Bool::Decides::nat_tests), unfolding(crate::specs::Digits::digit))]
pub fn digit(c: u8) -> Option<u64>
    ensures { result ≡ digit_of c }
{
    match c {
        b'0'..=b'9' => Some(u64::from(c - b'0')),
        b'a'..=b'f' => Some(u64::from(c - b'a' + 10)),
        _ => None,
    }
}

// A numeral in a base, below 2^64. A word of no digits is 0.
#[tactic(auto, using(crate::specs::Numerals::under_end, crate::specs::Numerals::under_over, crate::specs::Numerals::under_other))]
pub fn numeral(base: u64, word: &[u8]) -> Option<u64>
    requires { (1 ≤ base) × (base ≤ 16) }
    ensures { result ≡ under (2 ^ 64) (Digits·numeral base 0 word.now) }
{
    let mut n = 0u64;
    for &c in word {
        let d = digit(c)?;
        if d >= base {
            return None;
        }
        n = n.checked_mul(base)?.checked_add(d)?;
    }
    Some(n)
}

// A whole number below 2^64: nothing follows a zero in front.
#[tactic(auto, using(crate::specs::Numerals::whole_empty, crate::specs::Numerals::whole_zero, crate::specs::Numerals::whole_plain))]
pub fn read_whole(word: &[u8]) -> Option<u64>
    ensures { result ≡ whole_of (2 ^ 64) word.now }
{
    let (first, rest) = word.split_first()?;
    if *first == b'0' {
        return rest.is_empty().then_some(0);
    }
    numeral(10, word)
}

// A whole number below 2^32.
pub fn read_whole32(word: &[u8]) -> Option<u32>
    ensures { result ≡ whole_of (2 ^ 32) word.now }
{
    u32::try_from(read_whole(word)?).ok()
}
