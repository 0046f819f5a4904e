// A session as numbers, both ways, and a turn as numbers: what crosses to a host. include/puretakoi.h tells the
// layout.
#![tactic(auto)]

ghost use Rattle.std.specs.Prelude.{◌≡◌, ◌+◌, ◌*◌, ◌≤◌, ◌<◌, length, get_or, drop};
ghost use Rattle.byte.specs.Laid.{laid};
ghost use Rattle.state.specs.Bounds.{no_slot};
ghost use Rattle.state.specs.Gates.{lent_refusal};
ghost use Rattle.state.specs.Calls.{span_of};
ghost use Rattle.layout.specs.Sessions.{frame_number, label_of, slot_numbers, frames_numbers, numbers_of, label_in, frame_in, slot_in, frames_in, depth_in, session_in};
ghost use Rattle.layout.specs.Lent.{place_numbers, frame_told};
ghost use Rattle.layout.specs.Answers.{answer_by, is_unrefused, refusal_by, Turned};

use byte::{Refusal, RefusalName};
use source::Span;
use state::{Answer, Frame, Frames, Label, Session, Slot, Turn};

mod choices;

pub use choices::{are_choices, choices_in};

// The label of what has none: it names no bytes.
// The crate plan, whose `no_label` is the same, stands above this one.
const NO_LABEL: Label = Label { start: 0, len: 0 };

// The label in two numbers; that of none where a number has more than 16 bits.
// (Numbers are a slice, no `[u32; 199]`: a host may lend more than a session has.)
#[tactic(auto, unfolding(crate::specs::Sessions::label_in))]
fn label_in(start: u32, len: u32) -> Label
    ensures { result ≡ label_in start len }
{
    match (u16::try_from(start), u16::try_from(len)) {
        (Ok(start), Ok(len)) => Label { start, len },
        _ => NO_LABEL,
    }
}

// The frame in three numbers; what is none becomes a text block without a label: every call refuses it (`no_session`).
// Functions, no From: Frame is the crate state's, u32 is Rust's.
#[tactic(auto, unfolding(crate::specs::Sessions::frame_in))]
pub fn frame_in(number: u32, start: u32, len: u32) -> Frame
    ensures { result ≡ frame_in number start len }
{
    match number {
        0 => Frame::Initial,
        1 => Frame::Scripting,
        2 => Frame::DoubleQuote,
        3 => Frame::ShellExec,
        4 => Frame::Heredoc(label_in(start, len)),
        5 => Frame::Nowdoc(label_in(start, len)),
        6 => Frame::LookingForVarname,
        7 => Frame::LookingForProperty,
        8 => Frame::VarOffset,
        _ => Frame::Heredoc(NO_LABEL),
    }
}

// The slot in three numbers from a place on.
fn slot_in(numbers: &[u32], at: usize) -> Slot
    requires { at + 3 ≤ length numbers.now }
    ensures { result ≡ slot_in (drop at numbers.now) }
{
    Slot {
        frame: frame_in(numbers[at], numbers[at + 1], numbers[at + 2]),
    }
}

// The frame in slot i of a session's numbers.
pub fn frame_at(numbers: &[u32], i: usize) -> Frame
    requires { (199 ≤ length numbers.now) × (i < 64) }
    ensures { result ≡ (get_or (frames_in 64 (drop 7 numbers.now)) i no_slot).frame }
{
    let slot = slot_in(numbers, 7 + i * 3);
    slot.frame
}

// The frames in a session's numbers, for the gate.
#[derive(Clone, Copy)]
struct LentFrames<'a> {
    numbers: &'a [u32],
    ghost long: { 199 ≤ length numbers.now },
}

impl<'a> Frames for LentFrames<'a> {
    ghost frame = { λ lent. frame_told lent.numbers.now };

    fn frame_at(&self, i: usize) -> Frame {
        // Past the 64 places: the gate never asks there.
        if 64 <= i {
            return Frame::Initial;
        }
        frame_at(self.numbers, i)
    }
}

// The depth; 0 where the choices are none: no session has that depth, and `no_session` refuses it.
#[tactic(auto, unfolding(crate::specs::Sessions::depth_in))]
fn depth_in(depth: u32, choices: u32) -> u32
    ensures { result ≡ depth_in depth choices }
{
    if !choices::are_choices(choices) {
        return 0;
    }
    depth
}

// The place that a session's numbers stand at.
pub fn span_in(numbers: &[u32]) -> Span
    requires { 199 ≤ length numbers.now }
    ensures { result ≡ span_of (session_in numbers.now) }
{
    Span {
        line: numbers[1],
        column: numbers[2],
        position: numbers[0],
    }
}

// Refusals 11 and 12 where a list of `list` numbers and a pool of `pool` bytes are lent. Slots from the depth on are
// not looked at.
pub fn gate_in(src: &[u8], list: usize, pool: usize, numbers: &[u32]) -> Result<(), Refusal>
    requires { 199 ≤ length numbers.now }
    ensures { result ≡ lent_refusal src.now list pool (session_in numbers.now) }
{
    if 65536 < pool || 65537 < list / 8 {
        return Err(Refusal::TooLarge);
    }
    let depth = depth_in(numbers[3], numbers[6]);
    state::gate_over(src, span_in(numbers), depth, &LentFrames { numbers })?;
    let tokens = numbers[4] as usize;
    let bytes = numbers[5] as usize;
    if list / 8 < tokens || pool < bytes {
        return Err(Refusal::BadSession);
    }
    Ok(())
}

// The session in 199 numbers.
// By index: std says nothing of a list that `array::from_fn` makes of slots.
pub fn session_in(numbers: &[u32]) -> Session
    requires { 199 ≤ length numbers.now }
    ensures { result ≡ session_in numbers.now }
{
    let mut frames = [Slot {
        frame: Frame::Initial,
    }; 64];
    for i in 0..64 {
        frames[i] = slot_in(numbers, 7 + i * 3);
    }
    Session {
        position: numbers[0],
        line: numbers[1],
        column: numbers[2],
        depth: depth_in(numbers[3], numbers[6]),
        tokens: numbers[4],
        bytes: numbers[5],
        frames,
        choices: choices::choices_in(numbers[6]),
    }
}

// A frame's number.
#[tactic(auto, unfolding(crate::specs::Sessions::frame_number))]
fn frame_number(f: Frame) -> u32
    ensures { result ≡ frame_number f }
{
    match f {
        Frame::Initial => 0,
        Frame::Scripting => 1,
        Frame::DoubleQuote => 2,
        Frame::ShellExec => 3,
        Frame::Heredoc(_) => 4,
        Frame::Nowdoc(_) => 5,
        Frame::LookingForVarname => 6,
        Frame::LookingForProperty => 7,
        Frame::VarOffset => 8,
    }
}

// A frame's label, or that of none.
#[tactic(auto, unfolding(crate::specs::Sessions::label_of))]
fn label_of(f: Frame) -> Label
    ensures { result ≡ label_of f }
{
    match f {
        Frame::Heredoc(label) | Frame::Nowdoc(label) => label,
        _ => NO_LABEL,
    }
}

// A slot as three numbers from a place on.
fn put_slot(numbers: &mut [u32], at: usize, slot: Slot)
    requires { at + 3 ≤ length numbers.old }
    ensures { numbers.new ≡ laid numbers.old at (slot_numbers slot) }
{
    let label = label_of(slot.frame);
    let values = [
        frame_number(slot.frame),
        u32::from(label.start),
        u32::from(label.len),
    ];
    numbers[at..at + 3].copy_from_slice(&values);
}

// A frame in slot i of a session's numbers.
pub fn put_frame(numbers: &mut [u32], i: usize, f: Frame)
    requires { (199 ≤ length numbers.old) × (i < 64) }
    ensures { numbers.new ≡ laid numbers.old (7 + i * 3) (slot_numbers (record { frame = f })) }
{
    put_slot(numbers, 7 + i * 3, Slot { frame: f });
}

// A session's place, depth and marks; the choices after them stay.
// Its parameters are no Place: that and Mark are of crates above.
pub fn put_place(numbers: &mut [u32], span: Span, depth: u32, tokens: u32, bytes: u32)
    requires { 199 ≤ length numbers.old }
    ensures { numbers.new ≡ laid numbers.old 0 (place_numbers span depth tokens bytes) }
{
    numbers[..6].copy_from_slice(&[span.position, span.line, span.column, depth, tokens, bytes]);
}

// The 64 slots from a list's start on.
fn put_frames(numbers: &mut [u32], s: Session)
    requires { 192 ≤ length numbers.old }
    ensures { numbers.new ≡ laid numbers.old 0 (frames_numbers 64 s.frames) }
{
    for (i, slot) in s.frames.iter().enumerate() {
        put_slot(numbers, i * 3, *slot);
    }
}

// A session as 199 numbers.
pub fn put_session(numbers: &mut [u32], s: Session)
    requires { 199 ≤ length numbers.old }
    ensures { numbers.new ≡ laid numbers.old 0 (numbers_of s) }
{
    put_place(numbers, state::span_of(s), s.depth, s.tokens, s.bytes);
    numbers[6] = choices::choices_number(s.choices);
    put_frames(&mut numbers[7..], s);
}

// An answer as five numbers.
#[tactic(auto, unfolding(crate::specs::Answers::answer_by))]
pub fn put_answer<R: RefusalName>(answer: &mut [u32], a: Answer<R>)
    requires { 5 ≤ length answer.old }
    ensures { answer.new ≡ laid answer.old 0 (answer_by R.number a) }
{
    let numbers = match a {
        Answer::Done => [0, 0, 0, 0, 0],
        Answer::Finished => [1, 0, 0, 0, 0],
        Answer::Refused { refusal, span } => {
            let number = refusal.number();
            [2, number, span.line, span.column, span.position]
        }
    };
    answer[..5].copy_from_slice(&numbers);
}

// Whether a call was not refused.
pub fn is_unrefused<R: Copy>(a: Answer<R>) -> bool
    ensures { result ≡ is_unrefused a }
{
    matches!(a, Answer::Done | Answer::Finished)
}

// An answer's refusal, or 0.
// A number, no Option: it goes to a host as it is, 0 where nothing is refused.
#[tactic(auto, unfolding(crate::specs::Answers::refusal_by))]
pub fn refusal_in<R: RefusalName>(a: Answer<R>) -> u32
    ensures { result ≡ refusal_by R.number a }
{
    match a {
        Answer::Done | Answer::Finished => 0,
        Answer::Refused { refusal, span: _ } => refusal.number(),
    }
}

// The answer as numbers, and the session where the call is not refused. Gives the refusal or 0.
#[tactic(auto, using(crate::proofs::Answers::turned))]
pub fn put_turn<R: RefusalName>(t: Turn<R>, session: &mut [u32], answer: &mut [u32]) -> u32
    requires { (199 ≤ length session.old) × (5 ≤ length answer.old) }
    ensures { Turned R.number t session.old answer.old result session.new answer.new }
{
    let number = refusal_in(t.answer);
    put_answer(answer, t.answer);
    if number == 0 {
        put_session(session, t.session);
    }
    number
}
