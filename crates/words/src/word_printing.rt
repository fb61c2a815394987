// What is printed, behind what a line already holds: a word, digits, a whole number. A line has a fixed room.
// The put_.. are no Display: their contracts say the very text that goes behind what the buffer holds, which Display gives no caller.
#![tactic(auto)]

ghost use Rattle.arrayvec.specs.ArrayVec.{array_vec_len};
ghost use Rattle.std.specs.Prelude.{◌≡◌, ◌+◌, ◌^◌, ◌≤◌, ◌<◌, ◌++◌, suc, length, ℕ};
ghost use Rattle.words.specs.Digits.{digits, places_in};
ghost use Rattle.words.specs.Digits.{glyph as Digits·glyph};
ghost use Rattle.words.specs.Printing.{whole_word};

use arrayvec::ArrayVec;

// The byte of a digit. `char::from_digit` gives an Option of a char, to be opened and narrowed again.
#[tactic(auto, using(std::proofs::lemmas::Bool::Decides::nat_tests), unfolding(crate::specs::Digits::glyph))]
pub fn glyph(d: u64) -> u8
    requires { d < 16 }
    ensures { result ≡ Digits·glyph d }
{
    if d < 10 {
        b'0' + d as u8
    } else {
        b'a' - 10 + d as u8
    }
}

// A word as it is.
pub fn put_word<const N: usize>(word: &[u8], out: &mut ArrayVec<u8, N>)
    requires { array_vec_len out.old + length word.now ≤ N }
    ensures { out.new.items ≡ out.old.items ++ word.now }
{
    let _fits = out.try_extend_from_slice(word);
}

// The last digits of a number in a base, the most significant first.
#[tactic(auto, using(crate::proofs::Written::digits_last, crate::proofs::Written::digits_none))]
pub fn put_digits<const N: usize>(n: u64, base: u64, places: usize, out: &mut ArrayVec<u8, N>)
    requires digits { (0 < base) × (base ≤ 16) }
    requires room { array_vec_len out.old + places ≤ N }
    ensures text { out.new.items ≡ out.old.items ++ digits base places n }
    ensures len { array_vec_len out.new ≡ array_vec_len out.old + places }
{
    if places > 0 {
        put_digits(n / base, base, places - 1, out);
        out.push(glyph(n % base));
    }
}

// How many decimal digits a number has.
#[tactic(auto, using(crate::proofs::Written::places_one))]
fn places(n: u64) -> usize
    ensures { (most : ℕ) → n < 10 ^ suc most → result ≡ places_in most n }
{
    if n < 10 { 1 } else { 1 + places(n / 10) }
}

// A whole number in decimal.
pub fn put_whole<const N: usize>(n: u64, out: &mut ArrayVec<u8, N>)
    requires { array_vec_len out.old + 20 ≤ N }
    ensures text { out.new.items ≡ out.old.items ++ whole_word n }
    ensures most { array_vec_len out.new ≤ array_vec_len out.old + 20 }
{
    put_digits(n, 10, places(n), out);
}
