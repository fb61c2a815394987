// A list of answers in two lent arrays: how many places each vector has, 0 for a number, which has one place; and the places, one answer behind the other.
ghost use Rattle.std.specs.Prelude.{◌≡◌, take, drop};
ghost use Rattle.panoc_engine.specs.Values.{reply_of};
ghost use Rattle.values.specs.Feeding.{first, width, reply_in};

use panoc_engine::panoc_cache::Reply;

// The first place, 0 where there is none.
#[tactic(auto, using(ieee::proofs::Special::zero_bits))]
fn first(xs: &[f64]) -> f64
    ensures { result ≡ first xs.now }
{
    match xs {
        [] => 0.0,
        [x, ..] => *x,
    }
}

// The first answer of the places.
pub fn reply_in(k: u32, xs: &[f64]) -> Reply
    ensures { reply_of result ≡ reply_in k xs.now }
{
    if k == 0 {
        Reply::Number(first(xs))
    } else {
        Reply::Vector
    }
}

// Its vector: as many places as there are, where there are fewer.
pub fn vector_in(k: u32, xs: &[f64]) -> &[f64]
    ensures { result.now ≡ take k xs.now }
{
    &xs[..xs.len().min(k as usize)]
}

// The places behind it.
pub fn behind(k: u32, xs: &[f64]) -> &[f64]
    ensures { result.now ≡ drop (width k) xs.now }
{
    let w = if k == 0 { 1 } else { k as usize };
    if w <= xs.len() { &xs[w..] } else { &[] }
}
