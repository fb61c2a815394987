// psi and d_psi.
ghost use Rattle.alm_factory.specs.Values.{sizes_of};
ghost use Rattle.alm_factory.specs.Runs.{psi_gave, d_psi_gave};
ghost use Rattle.whole_runs.specs.Feed.{answers};
ghost use Rattle.whole_runs.specs.Whole.{Psi, DPsi};

use crate::answers::{Answer, next};
use alm_factory::d_psi_answers::d_psi_answer;
use alm_factory::psi_answers::psi_answer;
use alm_factory::records::{DPsiAnswered, DPsiOutcome, PsiAnswered, PsiOutcome, Sizes};
use alm_factory::starting::{d_psi_start, psi_start};

// A run of psi by value from u and xi. A start that is refused is fed nothing.
pub fn psi(sizes: Sizes, u: &[f64], xi: &[f64], list: &[Answer], floats: &[f64]) -> PsiAnswered
    ensures { Psi (sizes_of sizes) u.now xi.now (answers list.now floats.now) (psi_gave result) }
{
    let mut last = psi_start(sizes, u, xi);
    if let PsiOutcome::Refused(_) = last.outcome {
        return last;
    }
    let mut rest = floats;
    for a in list {
        let (v, more) = next(a.length, rest);
        rest = more;
        last = psi_answer(last.run, a.reply, v);
    }
    last
}

// A run of d_psi by value; res is the place of its result, of any length.
pub fn d_psi(
    sizes: Sizes,
    u: &[f64],
    xi: &[f64],
    list: &[Answer],
    floats: &[f64],
    res: &mut [f64],
) -> DPsiAnswered
    ensures { DPsi (sizes_of sizes) u.now xi.now (answers list.now floats.now) res.old res.new (d_psi_gave result) }
{
    let mut last = d_psi_start(sizes, u, xi);
    if let DPsiOutcome::Refused(_) = last.outcome {
        return last;
    }
    let mut rest = floats;
    for a in list {
        let (v, more) = next(a.length, rest);
        rest = more;
        last = d_psi_answer(last.run, a.reply, v, res);
    }
    last
}
