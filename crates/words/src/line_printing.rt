// What is printed of several, behind what a line already holds: floats, and a word with floats or a number behind it.
// The put_.. are no Display: their contracts say the very text that goes behind what the buffer holds, which Display gives no caller.
#![tactic(auto)]

ghost use Rattle.arrayvec.specs.ArrayVec.{array_vec_len};
ghost use Rattle.std.specs.Prelude.{◌≡◌, ◌+◌, ◌*◌, ◌≤◌, ◌++◌, length};
ghost use Rattle.words.specs.Printing.{counted_text, floats_text, point_text};

use crate::float_printing::put_float;
use crate::word_printing::{put_whole, put_word};
use arrayvec::ArrayVec;

// Floats, each with a space before it.
pub fn put_floats<const N: usize>(xs: &[f64], out: &mut ArrayVec<u8, N>)
    requires { array_vec_len out.old + 17 * length xs.now ≤ N }
    ensures text { out.new.items ≡ out.old.items ++ floats_text xs.now }
    ensures len { array_vec_len out.new ≡ array_vec_len out.old + 17 * length xs.now }
{
    for &x in xs {
        out.push(b' ');
        put_float(x, out);
    }
}

// A word with a whole number behind it.
#[tactic(auto, unfolding(crate::specs::Printing::counted_text))]
pub fn put_counted<const N: usize>(word: &[u8], n: u64, out: &mut ArrayVec<u8, N>)
    requires { array_vec_len out.old + length word.now + 20 ≤ N }
    ensures text { out.new.items ≡ out.old.items ++ counted_text word.now n }
    ensures most { array_vec_len out.new ≤ array_vec_len out.old + length word.now + 20 }
{
    put_word(word, out);
    put_whole(n, out);
}

// A word with floats behind it. As put_counted, with other text behind the word.
#[tactic(auto, unfolding(crate::specs::Printing::point_text))]
pub fn put_point<const N: usize>(word: &[u8], xs: &[f64], out: &mut ArrayVec<u8, N>)
    requires { array_vec_len out.old + length word.now + 17 * length xs.now ≤ N }
    ensures text { out.new.items ≡ out.old.items ++ point_text word.now xs.now }
    ensures len { array_vec_len out.new ≡ array_vec_len out.old + length word.now + 17 * length xs.now }
{
    put_word(word, out);
    put_floats(xs, out);
}
