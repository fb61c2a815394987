// The table of sets. A host builds it once and lends it at each projection.
ghost use Rattle.std.specs.Prelude.{◌≡◌, ◌≤◌, ◌<◌, ◌+◌, ◌^◌, ◌&&◌, ◌++◌, ℕ, leb, length, take, drop, IsTrue, MatchOption};
ghost use Rattle.std.specs.Float.{binary64};
ghost use Rattle.constraints.specs.Table.{alone, numbers_right, cartesian_product, all_numbers_right};
ghost use Rattle.constraints.specs.Lent.{is_rectangle, lengths_right, fits, count, constraint_of, table_of, number_of, Projects};

use crate::{ball2, rectangle};

// The most sets of a table.
pub const SETS: usize = 8;

// Kinds of sets; any number but 0 is a ball's.
pub const RECTANGLE: u32 = 0;

pub const BALL2: u32 = 1;

// A set for the next stretch of the vector: its kind, how many places the stretch has, and how many numbers are the set's own.
// A box's numbers are its lower bounds, `first` of them, and then its upper ones, `second`; a ball's are its radius and then its centre, `first` places.
#[repr(C)]
#[derive(Clone, Copy, PartialEq, Eq, Default, Debug)]
pub struct Set {
    pub kind: u32,
    pub stretch: usize,
    pub first: usize,
    pub second: usize,
}

// What is wrong with a table: its sets, or a number of one.
#[derive(Clone, Copy, PartialEq, Eq, Debug)]
pub enum Refusal {
    Sets = 20,
    Bound = 21,
}

impl Set {
    fn is_rectangle(&self) -> bool
        ensures { result ≡ is_rectangle self.now }
    {
        self.kind == RECTANGLE
    }

    // Whether its numbers are as many as its stretch needs.
    fn lengths_right(&self) -> bool
        ensures { result ≡ lengths_right self.now }
    {
        self.first == self.stretch && (!self.is_rectangle() || self.second == self.stretch)
    }

    // The numbers behind its own.
    fn after<'a>(&self, numbers: &'a [f64]) -> &'a [f64]
        requires { count self.now ≤ length numbers.now }
        ensures { result.now ≡ drop (count self.now) numbers.now }
    {
        let own = if self.is_rectangle() {
            self.first + self.second
        } else {
            1 + self.first
        };
        numbers.split_at(own).1
    }

    // How many of `room` numbers are left behind its own, if there are as many.
    fn rest_of(&self, room: usize) -> Option<usize>
        ensures { MatchOption result (room < count self.now) (λ rest. rest + count self.now ≡ room) }
    {
        room.checked_sub(self.first)?
            .checked_sub(if self.is_rectangle() { self.second } else { 1 })
    }

    // Whether its numbers, the first of `own`, are right.
    fn is_right(&self, own: &[f64]) -> bool
        requires lengths { IsTrue (lengths_right self.now) }
        requires enough { count self.now ≤ length own.now }
        ensures { result ≡ numbers_right (constraint_of self.now own.now) }
    {
        if self.is_rectangle() {
            rectangle::is_right(
                &own[..self.first],
                &own[self.first..self.first + self.second],
            )
        } else {
            ball2::is_right(&own[1..1 + self.first], own[0])
        }
    }

    // Projects its stretch, which begins at the place `at`.
    fn put(&self, own: &[f64], v: &mut [f64], at: usize)
        requires lengths { IsTrue (lengths_right self.now) }
        requires enough { count self.now ≤ length own.now }
        requires stretch { at + self.now.stretch ≤ length v.old }
        ensures { v.new ≡ take at v.old ++ (alone binary64 (constraint_of self.now own.now) (take self.now.stretch (drop at v.old)) ++ drop (at + self.now.stretch) v.old) }
    {
        let stretch = &mut v[at..at + self.stretch];
        if self.is_rectangle() {
            rectangle::project(
                &own[..self.first],
                &own[self.first..self.first + self.second],
                stretch,
            );
        } else {
            ball2::project(&own[1..1 + self.first], own[0], stretch);
        }
    }
}

// The number of a refusal, 0 for none.
pub fn refusal_number(refused: Option<Refusal>) -> u32
    ensures { result ≡ number_of refused }
{
    refused.map_or(0, |r| r as u32)
}

// Whether the sets are at most 8, have the lengths of their stretches, exactly fill so many places, and have no more numbers than there are.
fn fits(sets: &[Set], numbers: usize, places: usize) -> bool
    ensures { result ≡ (leb (length sets.now) 8 && fits sets.now numbers places) }
{
    if sets.len() > SETS {
        return false;
    }
    let mut room = numbers;
    let mut left = places;
    for set in sets {
        if set.stretch > left || !set.lengths_right() {
            return false;
        }
        let Some(rest) = set.rest_of(room) else {
            return false;
        };
        room = rest;
        left -= set.stretch;
    }
    left == 0
}

// Whether the numbers of every set are right.
fn is_right(sets: &[Set], numbers: &[f64]) -> bool
    requires { (places : ℕ) × IsTrue (fits sets.now (length numbers.now) places) }
    ensures { result ≡ all_numbers_right (table_of sets.now numbers.now) }
{
    let mut rest = numbers;
    for set in sets {
        if !set.is_right(rest) {
            return false;
        }
        rest = set.after(rest);
    }
    true
}

// Projects each stretch on its set.
fn put(sets: &[Set], numbers: &[f64], v: &mut [f64])
    requires { IsTrue (fits sets.now (length numbers.now) (length v.old)) }
    ensures { v.new ≡ cartesian_product binary64 (table_of sets.now numbers.now) v.old }
{
    let mut rest = numbers;
    let mut at = 0;
    for set in sets {
        set.put(rest, v, at);
        rest = set.after(rest);
        at += set.stretch;
    }
}

// Projects a vector on the table, or refuses the table and leaves the vector as it was.
pub fn project(sets: &[Set], numbers: &[f64], v: &mut [f64]) -> Option<Refusal>
    ensures { Projects binary64 sets.now numbers.now v.old v.new (number_of result) }
{
    if !fits(sets, numbers.len(), v.len()) {
        return Some(Refusal::Sets);
    }
    if !is_right(sets, numbers) {
        return Some(Refusal::Bound);
    }
    put(sets, numbers, v);
    None
}
