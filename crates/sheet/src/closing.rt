// The closing line of a sheet block: where lines end, what a line is to the block, and the first one that closes it.
// As request P1 has it, and the PHP manual: no identifier byte follows a closing label. The ported modes' closer is
// crate closer's.
ghost use Rattle.std.specs.Prelude.{◌≡◌, [], ◌≤◌, ◌<◌, length, drop};
ghost use Rattle.byte.specs.Bytes.{is_blank};
ghost use Rattle.source.specs.Code.{RunEnd};
ghost use Rattle.unit.specs.declared.Indentation.{Indentation};
ghost use Rattle.unit.specs.Closers.{matched};
ghost use Rattle.sheet.specs.Bodies.{lines};
ghost use Rattle.sheet.specs.Sheets.{closing_label, line_kind, block};
ghost use Rattle.sheet.specs.Code.{LineEnd, found};

use crate::{Found, Line};
use unit::Match;

// Where the line at `at` ends, after its break. An empty line is told at once. Always inlined, for it is asked up to
// three times a row.
#[inline(always)]
pub fn line_end(src: &[u8], at: usize) -> usize
    requires { at < length src.now }
    ensures { LineEnd src.now at result }
{
    if src[at] == b'\n' {
        return at + 1;
    }
    let n = source::break_end(src, at);
    if n < src.len() { n + 1 } else { n }
}

// What stands after a label that may close: another byte than an identifier's, or the announced end.
#[tactic(auto, unfolding(crate::specs::Sheets::closing_label))]
fn behind_label(rest: &[u8], end: bool) -> Match
    ensures { result ≡ closing_label [] end rest.now }
{
    match rest {
        [b, ..] if byte::is_identifier(*b) => Match::Other,
        [_, ..] => Match::Whole,
        [] if end => Match::Whole,
        [] => Match::Undecided,
    }
}

// The later bytes of a label against a text, one by one: most rows that begin as the label does differ soon.
fn match_later(rest: &[u8], label: &[u8]) -> Match
    ensures { result ≡ matched label.now rest.now }
{
    for (k, a) in label.iter().enumerate() {
        match rest.get(k) {
            Some(b) if a == b => {}
            Some(_) => return Match::Other,
            None => return Match::Undecided,
        }
    }
    Match::Whole
}

// The label against the line from `at` on. The first byte tells most lines, and spares them what follows. Always
// inlined: a call, of `closer::match_at` too, takes some 25 instructions more a line.
#[inline(always)]
#[tactic(auto, unfolding(unit::specs::Closers::matched))]
fn label_at(line: &[u8], at: usize, label: &[u8]) -> Match
    requires { at ≤ length line.now }
    ensures { result ≡ matched label.now (drop at line.now) }
{
    let Some((first, later)) = label.split_first() else {
        return Match::Whole;
    };
    match &line[at..] {
        [b, ..] if b != first => Match::Other,
        [_, rest @ ..] => match_later(rest, later),
        [] => Match::Undecided,
    }
}

// The label from `at` on, and no identifier byte after it.
fn closing_label(line: &[u8], at: usize, label: &[u8], end: bool) -> Match
    requires { (at ≤ length line.now) × (length line.now ≤ 65536) × (length label.now ≤ 64) }
    ensures { result ≡ closing_label label.now end (drop at line.now) }
{
    match label_at(line, at, label) {
        Match::Whole => behind_label(&line[at + label.len()..], end),
        Match::Other => Match::Other,
        Match::Undecided => Match::Undecided,
    }
}

// Where a line's blanks end. Four spaces are told at once: most rows begin with them.
fn blank_end(line: &[u8]) -> usize
    ensures { RunEnd is_blank line.now 0 result }
{
    match line.first_chunk::<4>() {
        Some(group) if *group == [b' '; 4] => closer::blank_end(line, 4),
        _ => closer::blank_end(line, 0),
    }
}

// What one line is to the block. Only where the label closes is the kind of its blanks asked.
fn line_kind(line: &[u8], label: &[u8], end: bool) -> Line
    requires { (length line.now ≤ 65536) × (length label.now ≤ 64) }
    ensures { result ≡ line_kind label.now end Indentation.None 0 line.now }
{
    let n = blank_end(line);
    match closing_label(line, n, label, end) {
        Match::Whole => Line::Closes {
            indentation: closer::indentation_of(&line[..n]),
            amount: n,
        },
        Match::Undecided if !end => Line::Undecided,
        Match::Undecided => Line::Body,
        Match::Other => Line::Body,
    }
}

// The first line from `at` on that closes the block.
// Bounds in each contract, no type, as in closer.
pub fn find_closer(src: &[u8], label: &[u8], at: usize, end: bool) -> Found
    requires { (at ≤ length src.now) × (length src.now ≤ 65536) × (length label.now ≤ 64) }
    ensures { result ≡ found (block label.now end at (lines (drop at src.now))) }
{
    let mut i = at;
    // `split_inclusive` looks at each byte alone, and the place where the block closes would be added up all the same.
    while i < src.len() {
        let next = line_end(src, i);
        match line_kind(&src[i..next], label, end) {
            Line::Closes {
                indentation,
                amount,
            } => {
                return Found::Closed {
                    indentation,
                    amount,
                    place: i + amount,
                }
            }
            Line::Undecided => return Found::Open,
            Line::Body => {}
        }
        i = next;
    }
    if end { Found::Missing } else { Found::Open }
}
