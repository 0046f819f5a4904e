// The closer of a text block in the ported modes: after an LF, blanks, then the label's bytes, followed by anything
// at all.
// Of the Rust: the arm of heredoc and nowdoc that meets an LF. A label has at most 64 bytes, a source at most 65,536.
#![tactic(auto)]

ghost use Rattle.std.specs.Prelude.{◌≡◌, ◌+◌, ◌≤◌, ◌<◌, length, drop};
ghost use Rattle.std.specs.List.{fold};
ghost use Rattle.byte.specs.Bytes.{is_blank};
ghost use Rattle.source.specs.Code.{RunEnd};
ghost use Rattle.unit.specs.declared.Indentation.{Indentation};
ghost use Rattle.unit.specs.declared.Stop.{Stop};
ghost use Rattle.unit.specs.declared.TextUnit.{TextUnit};
ghost use Rattle.unit.specs.Closers.{matched, indented, closer, line};

use byte::Refusal;
use unit::{Indentation, Match, Stop, TextUnit};

// The label against the text from `at` on.
// Bounds in each contract, no type: a type for them would ask more of whoever calls.
pub fn match_at(src: &[u8], at: usize, label: &[u8]) -> Match
    requires { (at ≤ length src.now) × (length src.now ≤ 65536) × (length label.now ≤ 64) }
    ensures { result ≡ matched label.now (drop at src.now) }
{
    let rest = &src[at..];
    match rest.get(..label.len()) {
        Some(part) if label == part => Match::Whole,
        Some(_) => Match::Other,
        None if label.starts_with(rest) => Match::Undecided,
        None => Match::Other,
    }
}

// An indentation and one blank more.
#[tactic(auto, unfolding(unit::specs::Closers::indented))]
pub fn indented_by(ind: Indentation, b: u8) -> Indentation
    ensures { result ≡ indented ind b }
{
    match (ind, b) {
        (Indentation::None | Indentation::Space, b' ') => Indentation::Space,
        (Indentation::Tab | Indentation::Mixed, b' ') => Indentation::Mixed,
        (Indentation::None | Indentation::Tab, _) => Indentation::Tab,
        (Indentation::Space | Indentation::Mixed, _) => Indentation::Mixed,
    }
}

// The kind of so many blanks.
pub fn indentation_of(blanks: &[u8]) -> Indentation
    ensures { result ≡ fold indented Indentation.None blanks.now }
{
    blanks
        .iter()
        .fold(Indentation::None, |ind, b| indented_by(ind, *b))
}

// Where the blanks from `at` on end. Two comparisons take six instructions a blank, where `byte::is_blank` takes ten:
// the bench holds sheets to twice a nowdoc, and they are within a tenth of it.
pub fn blank_end(src: &[u8], at: usize) -> usize
    requires { at ≤ length src.now }
    ensures { RunEnd is_blank src.now at result }
{
    source::end_of(src, at, |b| (b == b' ') | (b == b'\t'))
}

// A label of `size` bytes at n after its indentation, which must not be mixed.
#[tactic(auto, unfolding(unit::specs::Closers::closer))]
fn closer_of(size: usize, ind: Indentation, amount: usize, n: usize) -> TextUnit
    requires { (size ≤ 64) × (n ≤ 65536) }
    ensures { result ≡ closer size ind amount n }
{
    match ind {
        Indentation::Mixed => TextUnit::Fault {
            refusal: Refusal::InvalidDocIndentation,
            place: n,
        },
        Indentation::None | Indentation::Space | Indentation::Tab => TextUnit::Ends {
            stop: Stop::Label {
                indentation: ind,
                amount,
            },
            from: n,
            after: n + size,
        },
    }
}

// The LF at n of a text block. Only where the label stands after its blanks is their kind asked.
pub fn line_at(src: &[u8], label: &[u8], n: usize, end: bool) -> TextUnit
    requires { (n < length src.now) × (length src.now ≤ 65536) × (length label.now ≤ 64) }
    ensures { result ≡ line label.now end n Indentation.None 0 (drop (n + 1) src.now) }
{
    let from = n + 1;
    let text = TextUnit::Byte {
        value: b'\n',
        after: from,
    };
    let i = blank_end(src, from);
    match match_at(src, i, label) {
        Match::Whole => closer_of(label.len(), indentation_of(&src[from..i]), i - from, i),
        Match::Undecided if !end => TextUnit::Undecided,
        Match::Undecided => text,
        Match::Other => text,
    }
}
