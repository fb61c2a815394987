// A line as a command.
#![tactic(auto)]

ghost use Rattle.std.specs.Prelude.{◌≡◌};
ghost use Rattle.script.specs.Lines.{plain};

use alm_engine::alm_cache::AlmSettings;
use alm_factory::records::Sizes;
use arrayvec::ArrayVec;
use panoc_engine::panoc_cache::{Reply, Settings};

// A start's settings or sizes, less u and xi; an answer, whose vector stands beside it.
#[derive(Clone, Copy, PartialEq, Debug, Drop)]
pub enum Command {
    Inner(Settings),
    Loop(AlmSettings),
    Psi(Sizes),
    DPsi(Sizes),
    Answer(Reply),
    Lend(usize, usize),
    Show,
}

// A command with the floats behind it: u or the vector, and xi.
#[derive(Drop)]
pub struct Said<const U: usize, const XI: usize> {
    pub command: Command,
    pub first: ArrayVec<f64, U>,
    pub second: ArrayVec<f64, XI>,
}

// A command without floats.
pub fn alone<const U: usize, const XI: usize>(command: Command) -> Said<U, XI>
    ensures { result ≡ plain U XI command }
{
    Said {
        command,
        first: ArrayVec::new(),
        second: ArrayVec::new(),
    }
}
