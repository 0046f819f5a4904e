// The session and what a host may do to it without reading: a fresh one, skip, push and pop.
// Of the Rust: state/mod.rs and error.rs. Numbers have 32 bits, and a label's 16: a source has at most 65,536 bytes.
// A call takes the session by value and gives it back in its turn, the same one where it refuses.
#![tactic(auto)]

ghost use Rattle.std.specs.Prelude.{ℕ, ◌≡◌, get_or};
ghost use Rattle.source.specs.Cursor.{origin};
ghost use Rattle.state.specs.Bounds.{is_label, is_frame, is_bottom, no_slot, are_frames, are_within};
ghost use Rattle.state.specs.Gates.{gate_over, gate_refusal};
ghost use Rattle.state.specs.Calls.{span_of, refused, fresh_session, skipped, pushed, popped};

use byte::{Octal, Refusal};
use source::Span;

// The number of the first line, and of the first column.
const FIRST: u32 = 1;

// A text block's label: a range of the source.
#[derive(Clone, Copy)]
pub struct Label {
    pub start: u16,
    pub len: u16,
}

// What is being read.
#[derive(Clone, Copy)]
pub enum Frame {
    Initial,
    Scripting,
    DoubleQuote,
    ShellExec,
    Heredoc(Label),
    Nowdoc(Label),
    LookingForVarname,
    LookingForProperty,
    VarOffset,
}

// A place of the mode stack.
#[derive(Clone, Copy)]
pub struct Slot {
    pub frame: Frame,
}

// How Nowdoc frames are read.
#[derive(Clone, Copy)]
pub enum Reading {
    // As the Rust reads them.
    Ported,
    // As a sheet: the closing line's indentation comes off each row, and no identifier byte stands after a closing
    // label.
    Sheet,
}

// What the session's owner chose.
#[derive(Clone, Copy)]
pub struct Choices {
    pub nowdocs: Reading,
    // What octal escapes over 255 stand for, in double quotes and heredocs.
    pub octals: Octal,
}

// Where a host is in its script, and how full its tables are. Frames from the depth on mean nothing.
// The place as three numbers, no Span: a host's session has them in this order, and `moved` tells them so.
#[derive(Clone, Copy)]
pub struct Session {
    pub position: u32,
    pub line: u32,
    pub column: u32,
    pub depth: u32,
    // Records in the list, and bytes in the pool.
    pub tokens: u32,
    pub bytes: u32,
    // An array with its depth beside it, no list: what stands above the depth stays, as a host's 64 slots do.
    pub frames: [Slot; 64],
    pub choices: Choices,
}

// What gives the frames of a mode stack by their places: a session, or the numbers that a host lends (layout::gate_in).
pub trait Frames {
    ghost use Rattle.state.specs.declared.Frame.{Frame};

    ghost frame: { Self → ℕ → Frame };

    fn frame_at(&self, i: usize) -> Frame
        ensures { result ≡ frame self.now i };
}

impl Frames for Session {
    ghost frame = { λ s i. (get_or s.frames i no_slot).frame };

    fn frame_at(&self, i: usize) -> Frame {
        match self.frames.get(i) {
            Some(slot) => slot.frame,
            // Past the 64 places: the gate never asks there.
            None => Frame::Initial,
        }
    }
}

// What came of a call. Three answers, as a host is told them, and beside each a session: no `?` would pass a refusal
// on.
#[derive(Clone, Copy)]
pub enum Answer<R = Refusal> {
    Done,
    // Done, and nothing is left to read.
    Finished,
    Refused { refusal: R, span: Span },
}

// An answer, and the session after it: each of the three answers has one.
#[derive(Clone, Copy)]
pub struct Turn<R = Refusal> {
    pub answer: Answer<R>,
    pub session: Session,
}

// The script's beginning.
pub fn origin() -> Span
    ensures { result ≡ origin }
{
    Span {
        line: FIRST,
        column: FIRST,
        position: 0,
    }
}

// The place that a session stands at.
pub fn span_of(s: Session) -> Span
    ensures { result ≡ span_of s }
{
    Span {
        line: s.line,
        column: s.column,
        position: s.position,
    }
}

// A refusal: the session is the one passed.
pub fn refuse<R: Copy>(refusal: R, span: Span, s: Session) -> Turn<R>
    ensures { result ≡ refused refusal span s }
{
    Turn {
        answer: Answer::Refused { refusal, span },
        session: s,
    }
}

// What the gate refuses bears the script's beginning.
pub fn refuse_at_gate<R: Copy>(refusal: R, s: Session) -> Turn<R>
    ensures { result ≡ refused refusal origin s }
{
    refuse(refusal, origin(), s)
}

// Whether a label names 1 to 64 identifier bytes of the source.
#[tactic(auto, unfolding(crate::specs::Bounds::is_label))]
fn is_label(src: &[u8], l: Label) -> bool
    ensures { result ≡ is_label src.now l }
{
    // `as`: with `usize::from` (tried) the proof wants the facts of two calls besides.
    let start = l.start as usize;
    let len = l.len as usize;
    let end = start + len;
    if len < 1 || 64 < len || src.len() < end {
        return false;
    }
    source::run_end(&src[start..end], 0) == len
}

// Whether a frame's label, if it has one, is good.
#[tactic(auto, unfolding(crate::specs::Bounds::is_frame))]
pub fn is_frame(src: &[u8], f: Frame) -> bool
    ensures { result ≡ is_frame src.now f }
{
    match f {
        Frame::Heredoc(l) | Frame::Nowdoc(l) => is_label(src, l),
        _ => true,
    }
}

// Whether a frame may stand at the bottom: one that is left by its own routine may not.
#[tactic(auto, unfolding(crate::specs::Bounds::is_bottom))]
pub fn is_bottom(f: Frame) -> bool
    ensures { result ≡ is_bottom f }
{
    !matches!(f, Frame::LookingForProperty | Frame::VarOffset)
}

// Whether so many frames are a mode stack.
fn are_frames<F: Frames>(src: &[u8], depth: usize, frames: &F) -> bool
    ensures { result ≡ are_frames src.now depth (F.frame frames.now) }
{
    if !is_bottom(frames.frame_at(0)) {
        return false;
    }
    // No `all` (tried): over a bound the search finds no proof of it.
    for i in 0..depth {
        if !is_frame(src, frames.frame_at(i)) {
            return false;
        }
    }
    true
}

// Whether position, line and column, and the depth of the mode stack, are within their bounds.
pub fn is_within(size: usize, p: Span, depth: u32) -> bool
    ensures { result ≡ are_within size p depth }
{
    // `as`, since usize has no From of u32.
    let position = p.position as usize;
    let line = p.line as usize;
    let column = p.column as usize;
    let next = position + 1;
    (position <= size)
        & (1 <= depth)
        & (depth <= 64)
        & (1 <= line)
        & (line <= next)
        & (1 <= column)
        & (column <= next)
}

// Refusals 11 and 12 of a source, a place in it and so many frames.
pub fn gate_over<F: Frames>(src: &[u8], place: Span, depth: u32, frames: &F) -> Result<(), Refusal>
    ensures { result ≡ gate_over src.now place depth (F.frame frames.now) }
{
    if 65536 < src.len() {
        return Err(Refusal::TooLarge);
    }
    if !is_within(src.len(), place, depth) || !are_frames(src, depth as usize, frames) {
        return Err(Refusal::BadSession);
    }
    Ok(())
}

// Refusals 11 and 12 where no tables are lent: source and session alone. (With tables: layout::gate_in.)
pub fn gate(src: &[u8], s: Session) -> Result<(), Refusal>
    ensures { result ≡ gate_refusal src.now s }
{
    gate_over(src, span_of(s), s.depth, &s)
}

// A session before its script: one frame, Initial, at the beginning, with both marks 0.
pub fn fresh(choices: Choices) -> Session
    ensures { result ≡ fresh_session choices }
{
    Session {
        position: 0,
        line: FIRST,
        column: FIRST,
        depth: 1,
        tokens: 0,
        bytes: 0,
        frames: [Slot {
            frame: Frame::Initial,
        }; 64],
        choices,
    }
}

// The session `count` bytes on. Refused past the end.
#[tactic(auto, unfolding(crate::specs::Calls::skipped))]
pub fn skip(src: &[u8], s: Session, count: usize) -> Turn
    ensures { result ≡ skipped src.now s count }
{
    if let Err(refusal) = gate(src, s) {
        return refuse_at_gate(refusal, s);
    }
    let at = s.position as usize;
    if src.len() - at < count {
        return refuse(Refusal::OutOfPlace, span_of(s), s);
    }
    let end = at + count;
    let p = source::past(&src[at..end], span_of(s));
    let mut t = s;
    t.position = p.position;
    t.line = p.line;
    t.column = p.column;
    Turn {
        answer: Answer::Done,
        session: t,
    }
}

// The session with one frame more. Refused where its label is none, then where it would be the 65th.
#[tactic(auto, unfolding(crate::specs::Calls::pushed))]
pub fn push(src: &[u8], s: Session, f: Frame) -> Turn
    ensures { result ≡ pushed src.now s f }
{
    if let Err(refusal) = gate(src, s) {
        return refuse_at_gate(refusal, s);
    }
    if !is_frame(src, f) {
        return refuse(Refusal::OutOfPlace, span_of(s), s);
    }
    let depth = s.depth;
    if 64 <= depth {
        return refuse(Refusal::StackFull, span_of(s), s);
    }
    let mut t = s;
    let top = depth as usize;
    t.frames[top] = Slot { frame: f };
    t.depth = depth + 1;
    Turn {
        answer: Answer::Done,
        session: t,
    }
}

// The session with one frame less. Refused at depth 1.
#[tactic(auto, unfolding(crate::specs::Calls::popped))]
pub fn pop(src: &[u8], s: Session) -> Turn
    ensures { result ≡ popped src.now s }
{
    if let Err(refusal) = gate(src, s) {
        return refuse_at_gate(refusal, s);
    }
    let depth = s.depth;
    if depth <= 1 {
        return refuse(Refusal::OutOfPlace, span_of(s), s);
    }
    let mut t = s;
    t.depth = depth - 1;
    Turn {
        answer: Answer::Done,
        session: t,
    }
}
