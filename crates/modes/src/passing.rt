// A step at Scripting that only passes bytes: it writes nothing and keeps the frame, so it is told ahead of any plan.
ghost use Rattle.std.specs.Prelude.{◌≡◌, length};
ghost use Rattle.state.specs.Bounds.{is_scripting};
ghost use Rattle.source.specs.Code.{Reaches};
ghost use Rattle.plan.specs.Code.{Here};
ghost use Rattle.modes.specs.Code.{is_step, is_other, quick, quick_on, PassesAt, Near};

use outcome::Call;
use source::Span;
use state::Frame;

// Whether a call is a step.
#[tactic(auto, unfolding(crate::specs::Code::is_step))]
fn is_step(call: Call) -> bool
    ensures { result ≡ is_step call }
{
    matches!(call, Call::Step)
}

// Whether a frame is Scripting.
#[tactic(auto, unfolding(state::specs::Bounds::is_scripting))]
pub fn is_scripting(f: Frame) -> bool
    ensures { result ≡ is_scripting f }
{
    matches!(f, Frame::Scripting)
}

// A byte of the table's last row, if no identifier starts with it: it is passed alone.
#[tactic(auto, using(crate::proofs::Passes::others), unfolding(crate::specs::Code::is_other, byte::specs::Bytes::is_digit, byte::specs::Bytes::is_none_of))]
fn is_other(b: u8) -> bool
    ensures { result ≡ is_other b }
{
    match b {
        b'\'' | b'"' | b'`' | b'.' | b'{' | b'}' | b'?' | b'<' | b'/' | b'#' => false,
        _ => !byte::is_digit(b),
    }
}

// How many bytes such a step passes from a place on; 0 where the step is another, or would wait.
// No Option: `passed` adds the number to the place, and 0 is as plain there as None.
#[tactic(auto, using(crate::proofs::Passes::passes_ats))]
fn passed_at(src: &[u8], at: usize) -> usize
    requires { Here src.now at }
    ensures { PassesAt src.now at result }
{
    if src.len() <= at {
        return 0;
    }
    let b = src[at];
    if byte::is_start(b) {
        let n = source::run_end(src, at + 1);
        if n == src.len() {
            return 0;
        }
        return n - at;
    }
    if is_other(b) {
        return 1;
    }
    0
}

// The place after such a step; the place itself where the call is another.
// The place and no Option, as the definition `quick` has it, on which `quick_on` rests.
// `as`, here and below: it fits by the contract, and `try_from` would bring an arm that never comes.
#[tactic(auto, using(crate::proofs::Passes::quicks))]
fn passed(call: Call, src: &[u8], f: Frame, p: Span) -> Span
    requires { Here src.now p.position × Reaches p (length src.now) }
    ensures { result ≡ quick call src.now f p }
{
    if !is_step(call) {
        return p;
    }
    if !is_scripting(f) {
        return p;
    }
    let at = p.position as usize;
    if let Some(&b) = src.get(at) {
        if byte::is_alone(b) {
            return source::past_byte(p, b);
        }
        if !byte::is_start(b) {
            return p;
        }
    }
    let k = passed_at(src, at);
    if k == 1 {
        return source::past_byte(p, src[at]);
    }
    Span {
        line: p.line,
        column: p.column + k as u32,
        position: p.position + k as u32,
    }
}

// Where steps end that only pass bytes, and how many are left there.
#[derive(Clone, Copy)]
pub struct PassedOn {
    pub span: Span,
    pub left: u32,
}

// Such steps in a row, at most `most` of them.
#[tactic(auto, using(crate::proofs::Runs::running))]
pub fn pass_on(call: Call, src: &[u8], f: Frame, p: Span, most: u32) -> PassedOn
    requires { Here src.now p.position × Near p }
    ensures { result ≡ quick_on call src.now f p most }
{
    let mut span = p;
    for left in (0..most).rev() {
        let next = passed(call, src, f, span);
        if next.position == span.position {
            return PassedOn {
                span,
                left: left + 1,
            };
        }
        span = next;
    }
    PassedOn { span, left: 0 }
}
