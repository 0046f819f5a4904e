// How the programs print what a walk gives: a place, a token's record, a refusal.
#![tactic(auto)]

ghost use Rattle.std.specs.Prelude.{◌≡◌, length, SomeIff};
ghost use Rattle.shown.specs.Rows.{row_of};

use byte::Refusal;
use source::Span;
use std::fmt;

// A place in a script: it prints as line, column and position.
#[derive(Clone, Copy)]
struct Place {
    span: Span,
}

// A token's record: it prints as kind, place, detail and the value's length.
// The fields of a Token, in a type of this crate: Display can be given to no other.
#[derive(Clone, Copy)]
pub struct Row {
    pub kind: u32,
    pub detail: u32,
    pub span: Span,
    // Where the value starts in the pool.
    pub start: u32,
    pub len: u32,
    // Where the step ended that wrote it.
    pub end: u32,
}

// What a call is refused with: it prints as the refusal's number and the place.
// As lookup's: Display can be given to a type of this crate alone.
#[derive(Clone, Copy)]
pub struct Refused {
    pub refusal: Refusal,
    pub span: Span,
}

// The row in the eight numbers of a record. No TryFrom: its error would have nothing to say.
pub fn row_of(numbers: &[u32]) -> Option<Row>
    ensures { SomeIff result (length numbers.now ≡ 8) (row_of numbers.now) }
{
    let [kind, detail, line, column, position, start, len, end] = numbers else {
        return None;
    };
    let span = Span {
        line: *line,
        column: *column,
        position: *position,
    };
    Some(Row {
        kind: *kind,
        detail: *detail,
        span,
        start: *start,
        len: *len,
        end: *end,
    })
}

impl fmt::Display for Place {
    fn fmt<W: fmt::Write>(&self, f: &mut fmt::Formatter<W>) -> fmt::Result {
        let Span {
            line,
            column,
            position,
        } = self.span;
        write!(f, "{line} {column} {position}")
    }
}

impl fmt::Display for Row {
    fn fmt<W: fmt::Write>(&self, f: &mut fmt::Formatter<W>) -> fmt::Result {
        let Row {
            kind,
            detail,
            span,
            len,
            ..
        } = *self;
        let place = Place { span };
        write!(f, "{kind} {place} {detail} {len}")
    }
}

impl fmt::Display for Refused {
    fn fmt<W: fmt::Write>(&self, f: &mut fmt::Formatter<W>) -> fmt::Result {
        let number = u32::from(self.refusal);
        let place = Place { span: self.span };
        write!(f, "refused {number} {place}")
    }
}
