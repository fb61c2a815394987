// The projection on a table of sets, for C: a static library of its own, so that it is compiled and linked apart.
#![tactic(auto)]

ghost use Rattle.std.specs.Prelude.{◌≡◌};
ghost use Rattle.std.specs.Float.{binary64};
ghost use Rattle.constraints.specs.Lent.{Projects};

use constraints::cartesian_product::Set;

// Projects a vector on a table: 0, or 20 or 21, which leave the vector as it was.
#[unsafe(no_mangle)]
pub extern "C" fn pozkerrin_project(sets: &[Set], numbers: &[f64], v: &mut [f64]) -> u32
    ensures { Projects binary64 sets.now numbers.now v.old v.new result }
{
    constraints::cartesian_product::refusal_number(constraints::cartesian_product::project(
        sets, numbers, v,
    ))
}
