// The lines that start a run.
#![tactic(auto)]

ghost use Rattle.std.specs.Prelude.{◌≡◌};
ghost use Rattle.words.specs.Fields.{Gives};
ghost use Rattle.words.specs.LineFieldsLeft.{left};
ghost use Rattle.script.specs.Lines.{lent_line, sizes_field, inner_line, loop_line};

use crate::command::{Command, Said};
use alm_engine::alm_cache::AlmSettings;
use alm_factory::records::Sizes;
use arrayvec::ArrayVec;
use panoc_engine::panoc_cache::Settings;
use words::line_fields::Fields;

// The floats behind the settings: LENGTH_U U... XI...
#[tactic(auto, unfolding(crate::specs::Lines::lent_line))]
pub fn lent<const U: usize, const XI: usize>(
    mut fields: Fields,
    command: Command,
) -> Option<Said<U, XI>>
    ensures { result ≡ lent_line U XI command (left fields.entry) }
{
    let n = fields.whole()?;
    if n > U as u64 {
        return None;
    }
    let first = fields.floats(n as usize)?;
    let second = fields.rest()?;
    Some(Said {
        command,
        first,
        second,
    })
}

// inner N M LIMITED TOLERANCE AKKT U...
#[tactic(auto, unfolding(crate::specs::Lines::inner_line))]
pub fn inner<const U: usize, const XI: usize>(mut fields: Fields) -> Option<Said<U, XI>>
    ensures { result ≡ inner_line U XI (left fields.entry) }
{
    let settings = Settings {
        n: fields.whole()? as usize,
        max_iter: fields.whole()? as usize,
        limited: fields.flag()?,
        tolerance: fields.float()?,
        akkt_tolerance: fields.tolerance()?,
    };
    Some(Said {
        command: Command::Inner(settings),
        first: fields.rest()?,
        second: ArrayVec::new(),
    })
}

// N N1 N2
#[tactic(auto, unfolding(crate::specs::Lines::sizes_field))]
pub fn sizes(fields: &mut Fields) -> Option<Sizes>
    ensures { Gives (sizes_field (left fields.old)) result (left fields.new) }
{
    Some(Sizes {
        n: fields.whole()? as usize,
        n1: fields.whole()? as usize,
        n2: fields.whole()? as usize,
    })
}

// loop N N1 N2 Y M K LIMITED TOLERANCE EPSILON DELTA AKKT PENALTY_FACTOR EPSILON_FACTOR COEFFICIENT LENGTH_U U... XI...
#[tactic(auto, unfolding(crate::specs::Lines::loop_line))]
pub fn outer<const U: usize, const XI: usize>(mut fields: Fields) -> Option<Said<U, XI>>
    ensures { result ≡ loop_line U XI (left fields.entry) }
{
    let sizes = sizes(&mut fields)?;
    let settings = AlmSettings {
        n: sizes.n,
        n1: sizes.n1,
        n2: sizes.n2,
        has_set_y: fields.flag()?,
        max_inner_iterations: fields.whole()? as usize,
        max_outer_iterations: fields.whole()? as usize,
        limited: fields.flag()?,
        tolerance: fields.float()?,
        epsilon_tolerance: fields.float()?,
        delta_tolerance: fields.float()?,
        initial_inner_tolerance: fields.float()?,
        penalty_update_factor: fields.float()?,
        epsilon_update_factor: fields.float()?,
        sufficient_decrease_coeff: fields.float()?,
    };
    lent(fields, Command::Loop(settings))
}
