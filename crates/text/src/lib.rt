// The six text readings: single, double, double_quote, shell_exec, heredoc, nowdoc. One loop reads all; another
// finds a nowdoc's end.
// Of the Rust: the two string routines and the four text modes of mod.rs. A label has at most 64 bytes, a source at
// most 65,536.
// In order: what stands at a place in each mode (units); what a unit is to a text; its bytes into a part; the
// reader; the scan.
#![tactic(auto)]

ghost use Rattle.std.specs.Prelude.{◌≡◌, [], ◌∷◌, ◌-◌, ◌≤◌, ◌<◌, MatchOption, length, take, drop};
ghost use Rattle.unit.specs.declared.Mode.{Mode};
ghost use Rattle.unit.specs.declared.TextUnit.{TextUnit};
ghost use Rattle.unit.specs.Digits.{utf8};
ghost use Rattle.unit.specs.Readings.{loses_break, text_at};
ghost use Rattle.text.specs.Code.{bytes_of, IsPiece, last_break, value_length, ended, unclosed, measured};
ghost use Rattle.text.specs.Code.{BeforeBlanks, Searchable, is_writable, clipped, Reads, is_searched, Scans};

use byte::Refusal;
use unit::{Mode, Stop, TextUnit};

mod units;

// What a scan found: how many bytes the value has, what ended it, and from where to where that stands.
// A wait stands apart from the refusals, as `text_waits` and `text_never_waits` tell it: so no Result of the three.
#[derive(Clone, Copy)]
pub enum Scanned {
    Text {
        len: usize,
        stop: Stop,
        from: usize,
        after: usize,
    },
    Refused {
        refusal: Refusal,
        place: usize,
    },
    Wait,
}

// A unit that is text: how many bytes of the value it is, whether it is a break, also one from an escape, and the
// place after it.
#[derive(Clone, Copy)]
struct Piece {
    width: usize,
    broken: bool,
    after: usize,
}

#[tactic(auto, unfolding(crate::specs::Code::bytes_of, crate::specs::Code::is_break, unit::specs::Readings::after_of), using(crate::proofs::Scans::point_piece))]
fn piece_of(u: TextUnit) -> Option<Piece>
    ensures { MatchOption result (length (bytes_of u) ≡ 0) (IsPiece u) }
{
    match u {
        TextUnit::Byte { value, after } => Some(Piece {
            width: 1,
            broken: value == b'\n',
            after,
        }),
        TextUnit::Point { code, after } => Some(Piece {
            width: escape::utf8_len(code),
            broken: code == 10,
            after,
        }),
        TextUnit::Ends { .. } | TextUnit::Fault { .. } | TextUnit::Undecided => None,
    }
}

// Whether the text before a stop loses its last break: a heredoc's does, but before its label.
#[tactic(auto, unfolding(unit::specs::Readings::loses_break, unit::specs::Readings::heredoc_loses_break))]
fn loses_break(m: Mode, stop: Stop) -> bool
    ensures { result ≡ loses_break m stop }
{
    match (m, stop) {
        (Mode::Heredoc(_), Stop::Label { .. }) => false,
        (Mode::Heredoc(_), _) => true,
        _ => false,
    }
}

// The length of a value whose text has `len` bytes, the last of them a break or not.
#[tactic(auto, unfolding(crate::specs::Code::value_length))]
fn value_len(m: Mode, len: usize, broken: bool, stop: Stop) -> usize
    ensures { result ≡ value_length m len broken stop }
{
    if broken && loses_break(m, stop) {
        len.saturating_sub(1)
    } else {
        len
    }
}

// A unit that ends a text of `len` bytes.
#[tactic(auto, unfolding(crate::specs::Code::ended))]
fn ended_as(m: Mode, len: usize, broken: bool, u: TextUnit) -> Scanned
    ensures { result ≡ ended m len broken u }
{
    match u {
        TextUnit::Ends { stop, from, after } => Scanned::Text {
            len: value_len(m, len, broken, stop),
            stop,
            from,
            after,
        },
        TextUnit::Fault { refusal, place } => Scanned::Refused { refusal, place },
        TextUnit::Byte { .. } | TextUnit::Point { .. } | TextUnit::Undecided => Scanned::Wait,
    }
}

// A text that is not closed.
// As `last` of escape: one function for all types would take both answers, and say no more than this `if`.
#[tactic(auto, unfolding(crate::specs::Code::unclosed))]
fn unclosed(end: bool, place: usize) -> Scanned
    ensures { result ≡ unclosed end place }
{
    if end {
        return Scanned::Refused {
            refusal: Refusal::UnexpectedEndOfFile,
            place,
        };
    }
    Scanned::Wait
}

// Whether the last byte of a run is a break; of an empty run `broken` tells it.
fn last_break(run: &[u8], broken: bool) -> bool
    ensures { result ≡ last_break broken run.now }
{
    match run {
        [] => broken,
        [.., last] => *last == b'\n',
    }
}

// Some bytes at a place of a part, as far as it goes.
fn put_run(run: &[u8], dst: &mut [u8], at: usize)
    ensures { dst.new ≡ clipped dst.old at run.now }
{
    if at < dst.len() {
        let count = run.len().min(dst.len() - at);
        token::put_value(&run[..count], dst, at);
    }
}

// One byte, where the part has the place.
fn put_byte(dst: &mut [u8], at: usize, b: u8)
    ensures { dst.new ≡ clipped dst.old at (b ∷ []) }
{
    if at < dst.len() {
        dst[at] = b;
    }
}

// A code point of which maybe not all bytes have a place.
fn put_point(dst: &mut [u8], at: usize, code: u32)
    requires { code < 1114112 }
    ensures { dst.new ≡ clipped dst.old at (utf8 code) }
{
    let mut point = [0u8; 4];
    escape::put_utf8(&mut point, 0, code);
    put_run(&point[..escape::utf8_len(code)], dst, at);
}

// One unit's bytes at a place of a part, as far as it goes.
#[tactic(auto, unfolding(crate::specs::Code::bytes_of, crate::specs::Code::is_writable), using(crate::proofs::Writes::clipped_nil))]
fn put_unit(dst: &mut [u8], at: usize, u: TextUnit)
    requires { is_writable u }
    ensures { dst.new ≡ clipped dst.old at (bytes_of u) }
{
    match u {
        TextUnit::Byte { value, .. } => put_byte(dst, at, value),
        TextUnit::Point { code, .. } => put_point(dst, at, code),
        TextUnit::Ends { .. } | TextUnit::Fault { .. } | TextUnit::Undecided => {}
    }
}

// The text from `at` on, measured; a part gets the bytes read so far, as many as it has places.
// Each turn passes a run of bytes that stand for themselves, and the unit after it.
// Bounds in each contract, no type: a type for them would ask more of whoever calls.
pub fn read_text(m: Mode, src: &[u8], label: &[u8], at: usize, end: bool, dst: &mut [u8]) -> Scanned
    requires { (at ≤ length src.now) × (length src.now ≤ 65536) × (length label.now ≤ 64) }
    ensures { Reads m src.now label.now at end dst.old result dst.new }
{
    let mut i = at;
    let mut len = 0;
    let mut broken = false;
    // A turn passes as many bytes as its run and its unit have, so no iterator counts the places.
    while i < src.len() {
        let n = units::plain_end(m, src, i);
        put_run(&src[i..n], dst, len);
        if src.len() <= n {
            return unclosed(end, n);
        }
        let u = units::unit_at(m, src, label, n, end);
        len += n - i;
        let Some(piece) = piece_of(u) else {
            return ended_as(m, len, last_break(&src[i..n], broken), u);
        };
        put_unit(dst, len, u);
        len += piece.width;
        broken = piece.broken;
        i = piece.after;
    }
    unclosed(end, i)
}

// The last place before n where no blank stands. At `from` there is none.
fn before_blanks(src: &[u8], from: usize, n: usize) -> usize
    requires { BeforeBlanks src.now from n from }
    ensures { BeforeBlanks src.now from n result }
{
    match src[from..n].iter().rposition(|b| !byte::is_blank(*b)) {
        Some(k) => from + k,
        None => from,
    }
}

// A nowdoc's text: from an LF on the label's first byte is looked for, and the label where blanks alone stand before
// it.
fn scan_label(src: &[u8], label: &[u8], at: usize, end: bool) -> Scanned
    requires { (at ≤ length src.now) × (length src.now ≤ 65536) × Searchable label.now }
    ensures { result ≡ measured (text_at Mode.Nowdoc label.now end at (drop at src.now)) }
{
    let w = label[0];
    let mut i = at;
    // A turn goes on after the last byte that is no blank, so no iterator counts the places.
    while i < src.len() {
        let lf = source::break_end(src, i);
        let n = source::stop_end(src, lf, w, w, w, w);
        if src.len() <= n {
            return unclosed(end, n);
        }
        let k = before_blanks(src, lf, n);
        if src[k] == b'\n' {
            let u = closer::line_at(src, label, k, end);
            if piece_of(u).is_none() {
                return ended_as(Mode::Nowdoc, k - at, false, u);
            }
        }
        i = k + 1;
    }
    unclosed(end, i)
}

// Whether a nowdoc's label has a byte to look for.
#[tactic(auto, unfolding(crate::specs::Code::is_searched))]
fn is_searched(label: &[u8]) -> bool
    ensures { result ≡ is_searched Mode.Nowdoc label.now }
{
    label.first().is_some_and(|b| *b != b'\n')
}

// A nowdoc's text, by its label; unit by unit where the label has no byte to look for.
fn scan_nowdoc(src: &[u8], label: &[u8], at: usize, end: bool, dst: &mut [u8]) -> Scanned
    requires { (at ≤ length src.now) × (length src.now ≤ 65536) × (length label.now ≤ 64) }
    ensures { Scans Mode.Nowdoc src.now label.now at end dst.old result dst.new }
{
    if is_searched(label) {
        return scan_label(src, label, at, end);
    }
    read_text(Mode::Nowdoc, src, label, at, end, dst)
}

// As `read_text`, but a nowdoc is found by its label, and then the part stays as it was: its text is the source's
// own bytes.
pub fn scan_text(m: Mode, src: &[u8], label: &[u8], at: usize, end: bool, dst: &mut [u8]) -> Scanned
    requires { (at ≤ length src.now) × (length src.now ≤ 65536) × (length label.now ≤ 64) }
    ensures { Scans m src.now label.now at end dst.old result dst.new }
{
    match m {
        Mode::Nowdoc => scan_nowdoc(src, label, at, end, dst),
        _ => read_text(m, src, label, at, end, dst),
    }
}
