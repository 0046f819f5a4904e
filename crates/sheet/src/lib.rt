// The sheet reading of a nowdoc block: the closing line's indentation comes off each row, and the last break goes.
// Of document 01, with request P1, not of the Rust. A label has at most 64 bytes, a source at most 65,536.
// In order: the closing line (closing); what is left of a line and of the body; the scan, which writes nothing; the
// writer.
#![tactic(auto)]

ghost use Rattle.std.specs.Prelude.{◌≡◌, false, ◌+◌, ◌-◌, ◌≤◌, length, take, drop};
ghost use Rattle.byte.specs.Laid.{laid};
ghost use Rattle.text.specs.Code.{measured};
ghost use Rattle.sheet.specs.Bodies.{lines, is_over, body_text};
ghost use Rattle.sheet.specs.Sheets.{stripped, sheet_at};
ghost use Rattle.sheet.specs.Code.{LineEnd, offset_of, is_stray, size_of, break_of, Body, one_blank, blank_of, Closing, sheet_of, Left};

use byte::Refusal;
use text::Scanned;
use unit::{Indentation, Stop};

mod closing;

// What a line is to the block: three answers by name, of which an Option of an Option would say less.
#[derive(Clone, Copy)]
pub enum Line {
    // Blanks, then the label and no identifier byte: it closes the block.
    Closes {
        indentation: Indentation,
        amount: usize,
    },
    // A line of the body.
    Body,
    // The part ends before it is told.
    Undecided,
}

// Where the block closes: three answers by name, of which a Result of an Option would say less.
#[derive(Clone, Copy)]
pub enum Found {
    Closed {
        indentation: Indentation,
        amount: usize,
        place: usize,
    },
    // No line closes it.
    Missing,
    // The part ends before it is told.
    Open,
}

// Nothing is left of a line, or only its break.
#[tactic(auto, unfolding(crate::specs::Bodies::is_over, crate::specs::Bodies::is_break))]
fn is_over(rest: &[u8]) -> bool
    ensures { result ≡ is_over rest.now }
{
    matches!(rest, [] | [b'\n', ..] | [b'\r', b'\n', ..])
}

// What comes off each line: so many of one blank.
#[derive(Clone, Copy)]
pub struct Indent {
    pub blank: u8,
    pub width: usize,
}

impl Indent {
    // How many bytes of indentation come off a line.
    fn offset(self, line: &[u8]) -> usize
        ensures { result ≡ offset_of self line.now }
    {
        let most = self.width.min(line.len());
        source::end_of(&line[..most], 0, |b| self.blank == b)
    }

    // The same of a row that was measured: one of two bytes more than the indentation has all of it.
    fn measured_offset(self, body: &[u8], at: usize, next: usize) -> usize
        requires line { LineEnd body.now at next }
        requires kept { is_stray self (take (next - at) (drop at body.now)) ≡ false }
        ensures { result ≡ offset_of self (take (next - at) (drop at body.now)) }
    {
        if self.width < next - at - 1 {
            self.width
        } else {
            self.offset(&body[at..next])
        }
    }

    // The byte after a line's indentation, of which `off` bytes come off, is stray.
    fn is_stray(self, line: &[u8], off: usize) -> bool
        requires { off ≡ offset_of self line.now }
        ensures { result ≡ is_stray self line.now }
    {
        off < self.width && !is_over(&line[off..])
    }

    // How many bytes are left of the body from `at` on without its indentation, or the place of its first stray byte.
    // Without an indentation it is left as it is.
    fn strip_len(self, body: &[u8], at: usize) -> Result<usize, usize>
        requires { (at ≤ length body.now) × (length body.now ≤ 65536) }
        ensures { result ≡ size_of (body_text self at (lines (drop at body.now))) }
    {
        if self.width == 0 {
            return Ok(body.len() - at);
        }
        let mut i = at;
        let mut len = 0;
        // `split_inclusive` looks at each byte alone, and the place of a stray byte would be added up all the same.
        while i < body.len() {
            let next = closing::line_end(body, i);
            let off = self.offset(&body[i..next]);
            let k = i + off;
            if self.is_stray(&body[i..next], off) {
                return Err(k);
            }
            len += next - k;
            i = next;
        }
        Ok(len)
    }
}

// How many bytes the break at the end of a text has.
#[tactic(auto, using(crate::proofs::Steps::breaks))]
fn break_len(text: &[u8]) -> usize
    ensures { result ≡ break_of false text.now }
{
    match text {
        [.., b'\r', b'\n'] => 2,
        [.., b'\n'] => 1,
        _ => 0,
    }
}

// The one blank of an indentation, a space where there is none to take off; None where blanks are mixed.
#[tactic(auto, unfolding(crate::specs::Code::one_blank))]
fn one_blank(indentation: Indentation) -> Option<u8>
    ensures { result ≡ one_blank indentation }
{
    match indentation {
        Indentation::None | Indentation::Space => Some(b' '),
        Indentation::Tab => Some(b'\t'),
        Indentation::Mixed => None,
    }
}

// The blank that a stop is indented with, a space before a label without an indentation; 0 where there is no one
// blank.
// 0 and no Option, as the definition `blank_of` has it.
#[tactic(auto, unfolding(crate::specs::Code::blank_of, crate::specs::Code::one_blank))]
pub fn blank_of(stop: Stop) -> u8
    ensures { result ≡ blank_of stop }
{
    match stop {
        Stop::Label { indentation, .. } => one_blank(indentation).unwrap_or(0),
        _ => 0,
    }
}

// The sheet of a body by the closing line after it: its indentation, and a label of `size` bytes.
fn closed_sheet(
    body: &[u8],
    at: usize,
    indentation: Indentation,
    amount: usize,
    size: usize,
) -> Scanned
    requires { Body body.now at × Closing body.now indentation amount size }
    ensures { result ≡ measured (stripped size at (lines (drop at body.now)) indentation amount (length body.now + amount)) }
{
    let from = body.len() + amount;
    let Some(blank) = one_blank(indentation) else {
        return Scanned::Refused {
            refusal: Refusal::InvalidDocIndentation,
            place: from,
        };
    };
    let ind = Indent {
        blank,
        width: amount,
    };
    match ind.strip_len(body, at) {
        Ok(len) => Scanned::Text {
            len: len - break_len(&body[at..]),
            stop: Stop::Label {
                indentation,
                amount,
            },
            from,
            after: from + size,
        },
        Err(place) => Scanned::Refused {
            refusal: Refusal::StrayIndentation,
            place,
        },
    }
}

// The sheet from `at` on, measured: nothing is written.
pub fn scan_sheet(src: &[u8], label: &[u8], at: usize, end: bool) -> Scanned
    requires { (at ≤ length src.now) × (length src.now ≤ 65536) × (length label.now ≤ 64) }
    ensures { result ≡ measured (sheet_at label.now end at (drop at src.now)) }
{
    match closing::find_closer(src, label, at, end) {
        Found::Closed {
            indentation,
            amount,
            place,
        } => closed_sheet(&src[..place - amount], at, indentation, amount, label.len()),
        Found::Missing => Scanned::Refused {
            refusal: Refusal::UnexpectedEndOfFile,
            place: src.len(),
        },
        Found::Open => Scanned::Wait,
    }
}

// The value of a body from `at` on, which was measured: its first `len` bytes without their indentation, at the
// start of a part.
// `blank` and `width` as Making::Sheet holds them; its clause `Left` makes the Indent.
pub fn write_sheet(body: &[u8], at: usize, blank: u8, width: usize, len: usize, dst: &mut [u8])
    requires { Left (record { blank = blank; width = width }) body.now at len (length dst.old) }
    ensures { dst.new ≡ laid dst.old 0 (sheet_of (record { blank = blank; width = width }) at (drop at body.now)) }
{
    let ind = Indent { blank, width };
    let mut i = at;
    let mut j = 0;
    // `split_inclusive` looks at each byte alone, and the bytes put would be counted all the same.
    while j < len {
        let next = closing::line_end(body, i);
        let k = i + ind.measured_offset(body, i, next);
        let count = (next - k).min(len - j);
        token::put_value(&body[k..k + count], dst, j);
        j += count;
        i = next;
    }
}
