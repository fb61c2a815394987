// The calls on a table of sets, with the table that is kept from line to line.
ghost use Rattle.std.specs.Prelude.{◌≡◌, []};
ghost use Rattle.words.specs.Printing.{point_text};
ghost use Rattle.transcript.specs.Tables.{kept, counted, added, emptied, projected, fitting, changed, onto_line};
ghost use Rattle.constraints.specs.Lent.{lent_refusal};

use crate::output::{Line, alone, refused_by};
use arrayvec::ArrayVec;
use constraints::cartesian_product::{Set, project, refusal_number};
use script::sets::{Change, SetLine};
use words::line_printing::{put_counted, put_point};

// The sets, their numbers, and the vector that was projected last. More sets than a table takes may be added, so that such a table can be tried.
#[derive(Drop)]
pub struct Table {
    pub sets: ArrayVec<Set, 16>,
    pub numbers: ArrayVec<f64, 4096>,
    pub onto: ArrayVec<f64, 128>,
}

impl Table {
    pub fn new() -> Self
        ensures { kept result [] ≡ record { sets = []; numbers = []; onto = []; printed = [] } }
    {
        Table {
            sets: ArrayVec::new(),
            numbers: ArrayVec::new(),
            onto: ArrayVec::new(),
        }
    }

    // What a line says is done; gives what is printed of it.
    #[tactic(auto, unfolding(crate::specs::Tables::changed))]
    pub fn turn(&mut self, line: &SetLine) -> Line
        ensures { kept self.new result.items ≡ changed line.now.change line.now.floats.items (kept self.old []) }
    {
        let floats = line.floats.as_slice();
        match line.change {
            Change::Empty => self.empty(),
            Change::Add(set) => self.add(set, floats),
            Change::Onto => self.project(floats),
            Change::ShowOnto => self.show(),
        }
    }

    fn empty(&mut self) -> Line
        ensures { kept self.new result.items ≡ emptied (kept self.old []) }
    {
        self.sets.clear();
        self.numbers.clear();
        self.told()
    }

    fn add(&mut self, set: Set, floats: &[f64]) -> Line
        ensures { kept self.new result.items ≡ added set floats.now (kept self.old []) }
    {
        if self.sets.is_full() || self.numbers.try_extend_from_slice(floats).is_err() {
            return alone(b"bad");
        }
        self.sets.push(set);
        self.told()
    }

    // sets COUNT
    fn told(&self) -> Line
        ensures { kept self.now result.items ≡ counted (kept self.now []) }
    {
        let mut line = Line::new();
        put_counted(b"sets ", self.sets.len() as u64, &mut line);
        line
    }

    fn project(&mut self, floats: &[f64]) -> Line
        ensures { kept self.new result.items ≡ projected (fitting floats.now) (kept self.old []) }
    {
        self.onto.clear();
        let _room = self.onto.try_extend_from_slice(floats);
        let v = self.onto.as_mut_slice();
        let refused = project(self.sets.as_slice(), self.numbers.as_slice(), v);
        match refused {
            Some(_) => refused_by(refusal_number(refused)),
            None => self.show(),
        }
    }

    // onto X...
    fn show(&self) -> Line
        ensures { kept self.now result.items ≡ onto_line (kept self.now []) }
    {
        let mut line = Line::new();
        put_point(b"onto", self.onto.as_slice(), &mut line);
        line
    }
}
