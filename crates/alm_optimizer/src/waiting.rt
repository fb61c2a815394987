// What a run of the loop waits for, and why an answer is refused.
ghost use Rattle.std.specs.Prelude.{◌≡◌, List, Float};
ghost use Rattle.machine.specs.Waits.{waiting};
ghost use Rattle.machine.specs.LoopRest.{sized, counts, is_last, sound};
ghost use Rattle.machine.specs.LoopCalls.{lent_right};
ghost use Rattle.machine.specs.LoopAnswer.{own_at, wanted_by, refused_by};
ghost use Rattle.panoc_engine.specs.Told.{number_of};
ghost use Rattle.panoc_engine.specs.Values.{reply_of, kind_of};
ghost use Rattle.alm_engine.specs.Values.{loop_settings_of, loop_phase_of};
ghost use Rattle.alm_engine.specs.LoopRuns.{loop_run};

use alm_engine::alm_cache::{Alm, AlmPhase, AlmSettings};
use panoc_engine::outcome::Refusal;
use panoc_engine::panoc_cache::Reply;
use panoc_engine::refusals::{Wanted, refusal, waits};
use starts::sizes::xi_fits;

// Sizes as document 01 has them.
#[tactic(auto, unfolding(machine::specs::LoopRest::sized, alm_engine::specs::LoopRuns::loop_run))]
pub fn is_sized(s: Alm) -> bool
    ensures { (l : List Float) → result ≡ sized (loop_run s l) }
{
    s.set.n <= 64 && s.set.n1 <= 32 && s.set.n2 <= 32 && s.set.max_inner_iterations <= 10000
}

// Counters in range, and an inner solve of the same n.
#[tactic(auto, unfolding(machine::specs::LoopRest::counts, alm_engine::specs::LoopRuns::loop_run))]
pub fn is_counted(s: Alm) -> bool
    ensures { (l : List Float) → result ≡ counts (loop_run s l) }
{
    let c = s.counts;
    let outer = c.outer;
    let inner = c.inner;
    let found = c.found;
    c.left <= 999
        && outer.0 <= 999 - c.left
        && inner.0 <= 10000 * outer.0
        && found.0 <= 10000
        && s.solve.set.n == s.set.n
}

// Whether no iteration follows: the last question has none before it.
pub fn is_last(phase: AlmPhase) -> bool
    ensures { result ≡ is_last (loop_phase_of phase) }
{
    matches!(phase, AlmPhase::Over | AlmPhase::LastCost)
}

// Whether a start made the run.
#[tactic(auto, using(crate::proofs::Waits::sound_unsized, crate::proofs::Waits::sound_last, crate::proofs::Waits::sound_counted))]
pub fn is_sound(s: Alm) -> bool
    ensures { (l : List Float) → result ≡ sound (loop_run s l) }
{
    is_sized(s) && (is_last(s.phase) || is_counted(s))
}

// At a phase of the loop's own.
pub fn wants_own(set: AlmSettings, phase: AlmPhase) -> Option<Wanted>
    ensures { kind_of result ≡ own_at (loop_settings_of set) (loop_phase_of phase) }
{
    match phase {
        AlmPhase::Time => Some(Wanted::Decision),
        AlmPhase::ProjectY | AlmPhase::F1 | AlmPhase::ProjectC => Some(Wanted::Vector(set.n1)),
        AlmPhase::F2 => Some(Wanted::Vector(set.n2)),
        AlmPhase::LastCost => Some(Wanted::Number),
        AlmPhase::Inner | AlmPhase::Over => None,
    }
}

// What the run waits for: at Inner, what the inner solve waits for.
#[tactic(auto, using(crate::proofs::Waits::wanted_none, crate::proofs::Waits::wanted_inner, crate::proofs::Waits::wanted_own))]
pub fn wants(s: Alm) -> Option<Wanted>
    ensures { (l : List Float) → kind_of result ≡ wanted_by (loop_run s l) }
{
    if !is_sound(s) {
        return None;
    }
    let phase = s.phase;
    if let AlmPhase::Inner = phase {
        return panoc_engine::answers::wants(s.solve);
    }
    wants_own(s.set, phase)
}

// Whether the run waits for an answer.
pub fn is_waiting(s: Alm) -> bool
    ensures { (l : List Float) → result ≡ waiting (wanted_by (loop_run s l)) }
{
    waits(wants(s))
}

// Whether the lent u and xi have the lengths asked.
pub fn lent_fits(set: AlmSettings, us: usize, xs: usize) -> bool
    ensures { result ≡ lent_right (loop_settings_of set) us xs }
{
    us == set.n && xi_fits(set.n1, set.n2, xs)
}

// Why an answer is refused; the lengths of the lent slices are vs, us and xs.
#[tactic(auto, using(crate::proofs::Waits::refused_is))]
pub fn answer_refusal(a: Reply, vs: usize, us: usize, xs: usize, s: Alm) -> Option<Refusal>
    ensures { (l : List Float) → number_of result ≡ refused_by (loop_run s l) (reply_of a) vs us xs }
{
    let fits = lent_fits(s.set, us, xs);
    refusal(wants(s), a, vs, fits)
}
