// The lent list: answers beside the floats of their vectors.
ghost use Rattle.std.specs.Prelude.{◌≡◌, take, drop};

use panoc_engine::panoc_cache::Reply;

// An answer, and how many of the next floats are the vector lent with it.
#[derive(Clone, Copy)]
pub struct Answer {
    pub reply: Reply,
    pub length: usize,
}

// The next floats, as far as they go, and the rest.
pub(crate) fn next(length: usize, floats: &[f64]) -> (&[f64], &[f64])
    ensures vector { result.0.now ≡ take length floats.now }
    ensures rest { result.1.now ≡ drop length floats.now }
{
    floats.split_at(length.min(floats.len()))
}
