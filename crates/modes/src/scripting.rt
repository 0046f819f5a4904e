// The mode Scripting: document 01's table, which tells by the byte at the cursor, with document 02's comments.
// Literals and numbers are rows of their own (rows).
// Of the Rust: the routine `scripting`.
ghost use Rattle.std.specs.Prelude.{◌≡◌, false, ◌+◌, ◌≤◌, ◌<◌, ltb, length, get_or, drop, if◌then◌else◌};
ghost use Rattle.byte.specs.Bytes.{is_digit};
ghost use Rattle.byte.specs.declared.Octal.{Octal};
ghost use Rattle.outcome.specs.declared.Change.{Change};
ghost use Rattle.outcome.specs.Lookings.{named};
ghost use Rattle.outcome.specs.Scripts.{point, word, close_tag, scripting};
ghost use Rattle.plan.specs.Code.{Here, Plans};
ghost use Rattle.modes.specs.Code.{finished_plan, NoLiteral};

use crate::lookings;
use outcome::Change;
use plan::{Plan, Work};
use state::Frame;

// `src`, `at`, `end` stay parameters, as in lookings.

// The `.` at a place, after which no digit stands: it is passed.
#[tactic(auto, using(crate::proofs::Frames::points))]
fn point(src: &[u8], at: usize, end: bool) -> Plan
    requires { (at < length src.now) × (length src.now ≤ 65536) × (is_digit (get_or src.now (at + 1) 0) ≡ false) }
    ensures { Plans src.now end (point end at (drop (at + 1) src.now)) result }
{
    let i = at + 1;
    if src.len() <= i {
        return plan::ending(end, plan::goes(i, Change::Keep));
    }
    plan::goes(i, Change::Keep)
}

// The identifier whose first byte stands at a place: the whole run is passed.
#[tactic(auto, using(crate::proofs::Frames::words))]
fn word(src: &[u8], at: usize, end: bool) -> Plan
    requires { (at < length src.now) × (length src.now ≤ 65536) }
    ensures { Plans src.now end (word at (named end 1 (drop (at + 1) src.now))) result }
{
    match lookings::named_at(src, at + 1, end) {
        Some(k) => plan::goes(at + k, Change::Keep),
        None => Plan::Wait,
    }
}

// The `?` at a place: `?>` is passed, and the top becomes Initial.
#[tactic(auto, using(crate::proofs::Frames::close_tags))]
fn close_tag(src: &[u8], at: usize, end: bool) -> Plan
    requires { (at < length src.now) × (length src.now ≤ 65536) }
    ensures { Plans src.now end (close_tag end at (drop (at + 1) src.now)) result }
{
    let i = at + 1;
    if src.len() <= i {
        return plan::ending(end, plan::goes(i, Change::Keep));
    }
    if src[i] == b'>' {
        return plan::goes(i + 1, Change::Swap(Frame::Initial));
    }
    plan::goes(i, Change::Keep)
}

// What a `}` does: the frame is left, but the last one stays.
#[tactic(auto, using(crate::proofs::Frames::braces))]
fn brace_change(depth: u32) -> Change
    ensures { result ≡ (if ltb 1 depth then Change.Leave else Change.Keep) }
{
    if 1 < depth {
        return Change::Leave;
    }
    Change::Keep
}

// Nothing is left to read.
#[tactic(auto, using(crate::proofs::Frames::finished_plan_made))]
fn finished(at: usize) -> Plan
    ensures { result ≡ finished_plan at }
{
    Plan::Told(Work {
        drafts: plan::none(),
        after: at,
        change: Change::Keep,
        finished: true,
    })
}

// The step of the mode Scripting in a session of this depth, where no literal and no number starts: so the choice for
// octal escapes does not matter.
#[tactic(auto, using(crate::proofs::Frames::scriptings))]
pub fn scripting(src: &[u8], at: usize, end: bool, depth: u32) -> Plan
    requires { Here src.now at × NoLiteral src.now at }
    ensures { Plans src.now end (scripting Octal.Rust depth end at (drop at src.now)) result }
{
    if src.len() <= at {
        return plan::ending(end, finished(at));
    }
    let i = at + 1;
    let b = src[at];
    match b {
        b'`' => plan::goes(i, Change::Swap(Frame::ShellExec)),
        b'.' => point(src, at, end),
        b'{' => plan::goes(i, Change::Enter(Frame::Scripting)),
        b'}' => plan::goes(i, brace_change(depth)),
        b'?' => close_tag(src, at, end),
        b'<' => opening::open_block(src, at, end),
        b'/' => comment::slash(src, at, end),
        b'#' => comment::hash(src, at, end),
        _ => {
            if byte::is_start(b) {
                return word(src, at, end);
            }
            plan::goes(i, Change::Keep)
        }
    }
}
