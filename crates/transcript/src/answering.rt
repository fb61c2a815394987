// The calls that answer the open run.
ghost use Rattle.std.specs.Prelude.{◌≡◌};
ghost use Rattle.panoc_engine.specs.Values.{reply_of};
ghost use Rattle.transcript.specs.Plays.{standing, turned, answered};

use crate::output::Line;
use crate::penalty::{d_psi_told, psi_told};
use crate::play::{Open, Play};
use crate::{inner, outer};
use alm_factory::d_psi_answers::d_psi_answer;
use alm_factory::psi_answers::psi_answer;
use panoc_engine::panoc_cache::Reply;

// An answer to the open run, with the places that are lent. One match over the kinds of run: each arm is another call.
#[tactic(auto, unfolding(crate::specs::Plays::answered))]
pub fn answered(play: &mut Play, a: Reply, v: &[f64]) -> Line
    ensures { turned play.new result.items ≡ answered (reply_of a) v.now (standing play.old.open) play.old.u.items play.old.xi.items }
{
    match play.open {
        Open::Inner(run) => {
            let r = panoc_optimizer::answer(run, a, v, play.u.as_mut_slice());
            play.open = Open::Inner(r.run);
            inner::told(&r)
        }
        Open::Loop(run) => {
            let u = play.u.as_mut_slice();
            let r = alm_optimizer::answering::answer(run, a, v, u, play.xi.as_mut_slice());
            play.open = Open::Loop(r.run);
            outer::told(&r)
        }
        Open::Psi(run) => {
            let r = psi_answer(run, a, v);
            play.open = Open::Psi(r.run);
            psi_told(&r)
        }
        Open::DPsi(run) => {
            let r = d_psi_answer(run, a, v, play.u.as_mut_slice());
            play.open = Open::DPsi(r.run);
            d_psi_told(&r)
        }
    }
}
