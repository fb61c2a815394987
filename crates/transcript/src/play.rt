// What the program keeps from line to line: the open run and what it is lent.
ghost use Rattle.std.specs.Prelude.{◌≡◌};
ghost use Rattle.transcript.specs.Plays.{resized, standing, turned, lent_on, lent_shown};

use crate::output::{Line, put_points};
use alm_engine::alm_cache::AlmRun;
use alm_factory::records::{DPsiRun, PsiRun};
use arrayvec::ArrayVec;
use panoc_engine::panoc_cache::Run;
use words::line_printing::put_counted;

// The run that is open; before the first start one that was refused.
#[derive(Clone, Copy)]
pub enum Open {
    Inner(Run),
    Loop(AlmRun),
    Psi(PsiRun),
    DPsi(DPsiRun),
}

// Places that are lent.
pub type Lent = ArrayVec<f64, 128>;

// The open run, and the places of u and xi; u is the result where the run is one of d_psi.
#[derive(Drop)]
pub struct Play {
    pub open: Open,
    pub u: Lent,
    pub xi: Lent,
}

// From now on so many places, as far as there is room; those past the old end hold 0.
#[tactic(auto, using(ieee::proofs::Special::zero_bits))]
pub fn resize(lent: &mut Lent, places: usize)
    ensures { lent.new.items ≡ resized places lent.old.items }
{
    lent.truncate(places);
    for _ in lent.len()..places.min(128) {
        lent.push(0.0);
    }
}

impl Play {
    // lend: how many places are lent from now on. psi lends nothing, d_psi its result alone, the others u and xi.
    #[tactic(auto, unfolding(crate::specs::Plays::lent_on))]
    pub fn lend(&mut self, us: usize, xis: usize) -> Line
        ensures { turned self.new result.items ≡ lent_on us xis (standing self.old.open) self.old.u.items self.old.xi.items }
    {
        match self.open {
            Open::Psi(_) => {}
            Open::DPsi(_) => resize(&mut self.u, us),
            Open::Inner(_) | Open::Loop(_) => {
                resize(&mut self.u, us);
                resize(&mut self.xi, xis);
            }
        }
        let mut line = Line::new();
        put_counted(b"lent ", us as u64, &mut line);
        put_counted(b" ", xis as u64, &mut line);
        line
    }

    // show: the lent places as they are now
    pub fn show(&self) -> Line
        ensures { result.items ≡ lent_shown self.now.u.items self.now.xi.items }
    {
        put_points(b"lent", self.u.as_slice(), b" xi", self.xi.as_slice())
    }
}
