// The lines of the transcript program that build a table of sets and project on it.
#![tactic(auto)]

ghost use Rattle.std.specs.Prelude.{◌≡◌};
ghost use Rattle.words.specs.LineFieldsLeft.{left};
ghost use Rattle.script.specs.SetLines.{keyword_of, closed, box_line, ball_line, onto_line, set_meant};

use arrayvec::ArrayVec;
use constraints::cartesian_product::{BALL2, RECTANGLE, Set};
use words::line_fields::Fields;

// A vector that is projected has no more places.
pub const PLACES: usize = 128;

// What a line asks for: an empty table, one set more, a projection, the vector that was projected.
#[derive(Clone, Copy, PartialEq, Debug, Drop)]
pub enum Change {
    Empty,
    Add(Set),
    Onto,
    ShowOnto,
}

// It, with the floats behind it, of which a line has no more: the numbers of the set, or the vector.
#[derive(Drop)]
pub struct SetLine {
    pub change: Change,
    pub floats: ArrayVec<f64, 256>,
}

// The words that begin a line.
#[derive(Clone, Copy, PartialEq, Eq, Debug, Drop)]
enum Keyword {
    Sets,
    Rectangle,
    Ball,
    Onto,
    ShowOnto,
}

fn begins(w: &[u8]) -> Option<Keyword>
    ensures { result ≡ keyword_of w.now }
{
    match w {
        b"sets" => Some(Keyword::Sets),
        b"box" => Some(Keyword::Rectangle),
        b"ball" => Some(Keyword::Ball),
        b"onto" => Some(Keyword::Onto),
        b"show_onto" => Some(Keyword::ShowOnto),
        _ => None,
    }
}

// A line with nothing behind its word.
fn bare(fields: Fields, change: Change) -> Option<SetLine>
    ensures { result ≡ closed (left fields.entry) change }
{
    fields.ended().then_some(SetLine {
        change,
        floats: ArrayVec::new(),
    })
}

// box STRETCH LENGTH_LOWER LENGTH_UPPER X...
#[tactic(auto, unfolding(crate::specs::SetLines::box_line))]
fn rectangle(mut fields: Fields) -> Option<SetLine>
    ensures { result ≡ box_line (left fields.entry) }
{
    let stretch = fields.whole()? as usize;
    let first = fields.whole()? as usize;
    let second = fields.whole()? as usize;
    let floats = fields.rest()?;
    if first > floats.len() || second != floats.len() - first {
        return None;
    }
    let set = Set {
        kind: RECTANGLE,
        stretch,
        first,
        second,
    };
    Some(SetLine {
        change: Change::Add(set),
        floats,
    })
}

// ball STRETCH RADIUS X...
#[tactic(auto, unfolding(crate::specs::SetLines::ball_line))]
fn ball(mut fields: Fields) -> Option<SetLine>
    ensures { result ≡ ball_line (left fields.entry) }
{
    let stretch = fields.whole()? as usize;
    let floats = fields.rest()?;
    if floats.len() == 0 {
        return None;
    }
    let set = Set {
        kind: BALL2,
        stretch,
        first: floats.len() - 1,
        second: 0,
    };
    Some(SetLine {
        change: Change::Add(set),
        floats,
    })
}

// onto X...
#[tactic(auto, unfolding(crate::specs::SetLines::onto_line))]
fn onto(fields: Fields) -> Option<SetLine>
    ensures { result ≡ onto_line (left fields.entry) }
{
    let floats = fields.rest()?;
    if floats.len() > PLACES {
        return None;
    }
    Some(SetLine {
        change: Change::Onto,
        floats,
    })
}

// What a line says of sets, None for any other line and for one of another form.
#[tactic(auto, unfolding(crate::specs::SetLines::set_meant, crate::specs::SetLines::by_words, crate::specs::SetLines::line_by))]
pub fn said(line: &[u8]) -> Option<SetLine>
    ensures { result ≡ set_meant line.now }
{
    let mut fields = Fields::of(line);
    match begins(fields.word()?)? {
        Keyword::Sets => bare(fields, Change::Empty),
        Keyword::Rectangle => rectangle(fields),
        Keyword::Ball => ball(fields),
        Keyword::Onto => onto(fields),
        Keyword::ShowOnto => bare(fields, Change::ShowOnto),
    }
}
