// The calls that start a run: each gives what is open from then on, and what is printed.
ghost use Rattle.std.specs.Prelude.{◌≡◌, []};
ghost use Rattle.transcript.specs.Plays.{turned, opened, inner_started, loop_started, PsiStarted, DPsiStarted};

use crate::output::Line;
use crate::penalty::{d_psi_told, psi_told};
use crate::play::{Lent, Open, Play, resize};
use crate::{inner, outer};
use alm_engine::alm_cache::AlmSettings;
use alm_factory::records::Sizes;
use alm_factory::starting::{d_psi_start, psi_start};
use panoc_engine::panoc_cache::Settings;

// What the program begins with: before the first line an answer goes to an inner solve that was refused, and nothing is lent.
#[tactic(auto, using(ieee::proofs::Special::zero_bits))]
pub fn opened() -> Play
    ensures { turned result [] ≡ opened }
{
    let set = Settings {
        n: 0,
        max_iter: 0,
        limited: false,
        tolerance: 0.0,
        akkt_tolerance: None,
    };
    let r = panoc_optimizer::start(set, &[0.0]);
    Play {
        open: Open::Inner(r.run),
        u: Lent::new(),
        xi: Lent::new(),
    }
}

// A start of an inner solve, which lends u.
pub fn start_inner(set: Settings, u: Lent) -> (Play, Line)
    ensures { turned result.0 result.1.items ≡ inner_started set u.items }
{
    let r = panoc_optimizer::start(set, u.as_slice());
    let line = inner::told(&r);
    let open = Open::Inner(r.run);
    (
        Play {
            open,
            u,
            xi: Lent::new(),
        },
        line,
    )
}

// A start of a loop, which lends u and xi.
pub fn start_outer(set: AlmSettings, u: Lent, xi: Lent) -> (Play, Line)
    ensures { turned result.0 result.1.items ≡ loop_started set u.items xi.items }
{
    let r = alm_optimizer::starting::start(set, u.as_slice(), xi.as_slice());
    let line = outer::told(&r);
    let open = Open::Loop(r.run);
    (Play { open, u, xi }, line)
}

// A start of psi, which lends nothing; show prints the u and xi of its line.
pub fn start_psi(sizes: Sizes, u: Lent, xi: Lent) -> (Play, Line)
    ensures { PsiStarted sizes u.items xi.items (turned result.0 result.1.items) }
{
    let r = psi_start(sizes, u.as_slice(), xi.as_slice());
    let line = psi_told(&r);
    let open = Open::Psi(r.run);
    (Play { open, u, xi }, line)
}

// A start of d_psi, which lends a result of n zeros.
pub fn start_d_psi(sizes: Sizes, u: Lent, xi: Lent) -> (Play, Line)
    ensures { DPsiStarted sizes u.items xi.items (turned result.0 result.1.items) }
{
    let r = d_psi_start(sizes, u.as_slice(), xi.as_slice());
    let line = d_psi_told(&r);
    let open = Open::DPsi(r.run);
    let mut res = Lent::new();
    resize(&mut res, sizes.n);
    (Play { open, u: res, xi }, line)
}
