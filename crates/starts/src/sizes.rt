// What a start tests of its sizes.
#![tactic(auto)]

ghost use Rattle.std.specs.Prelude.{◌≡◌, ◌≤◌, ◌+◌, eqb};
ghost use Rattle.model.specs.Refusals as R;

// n from 1 to 64, and a lent u of n places.
#[tactic(auto, unfolding(model::specs::Refusals::sizes_right))]
pub fn sizes_right(n: usize, us: usize) -> bool
    ensures { result ≡ R.sizes_right n us }
{
    (1..=64).contains(&n) && us == n
}

// How many places a xi has: none where n1 = n2 = 0, else the penalty's and n1.
#[tactic(auto, unfolding(model::specs::Refusals::xi_length))]
pub fn xi_places(n1: usize, n2: usize) -> usize
    requires { n1 ≤ 32 }
    ensures { result ≡ R.xi_length n1 n2 }
{
    if n1 == 0 && n2 == 0 { 0 } else { n1 + 1 }
}

// Whether so many places hold the penalty and n1 multipliers.
pub fn holds(n1: usize, places: usize) -> bool
    ensures { result ≡ eqb places (n1 + 1) }
{
    places != 0 && places - 1 == n1
}

// Whether a xi of so many places is empty where n1 = n2 = 0, and else has the penalty and n1 multipliers.
#[tactic(auto, unfolding(model::specs::Refusals::xi_length))]
pub fn xi_fits(n1: usize, n2: usize, places: usize) -> bool
    ensures { result ≡ eqb places (R.xi_length n1 n2) }
{
    if n1 == 0 && n2 == 0 {
        places == 0
    } else {
        holds(n1, places)
    }
}

// n1 and n2 at most 32, a xi of the length asked, and a set Y only where n1 > 0.
#[tactic(auto, unfolding(model::specs::Refusals::mappings_right))]
pub fn mappings_right(n1: usize, n2: usize, with: bool, places: usize) -> bool
    ensures { result ≡ R.mappings_right n1 n2 with places }
{
    n1 <= 32 && n2 <= 32 && xi_fits(n1, n2, places) && (!with || n1 != 0)
}
