// The modes LookingForVarname, LookingForProperty and VarOffset, and runs of identifier bytes.
// Of the Rust: `looking_for_varname`, `looking_for_property`, `var_offset`.
ghost use Rattle.std.specs.Prelude.{◌≡◌, ◌+◌, ◌≤◌, ◌<◌, length, drop};
ghost use Rattle.byte.specs.Refusals.{no_property};
ghost use Rattle.token.specs.Kinds.{kind_number};
ghost use Rattle.outcome.specs.Lookings.{named, is_bracketed, varname, looking_for_varname, arrow_head, questioned, looking_for_property, var_offset};
ghost use Rattle.plan.specs.Code.{Here, Plans};

use byte::Refusal;
use outcome::Change;
use plan::Plan;
use state::Frame;
use token::Kind;

// `src`, `at`, `end` stay parameters: the mode's routine is asked with them, and each place would be a new struct.

// How many identifier bytes come, with the one before `at`; none where the part may end within them.
#[tactic(auto, using(crate::proofs::Looks::naming))]
pub fn named_at(src: &[u8], at: usize, end: bool) -> Option<usize>
    requires { Here src.now at }
    ensures { result ≡ named end 1 (drop at src.now) }
{
    let n = source::run_end(src, at);
    if n < src.len() || end {
        return Some(n - at + 1);
    }
    None
}

// Whether `[` or `}` stands at a place.
#[tactic(auto, using(crate::proofs::Looks::bracketed))]
fn is_bracketed(src: &[u8], at: usize) -> bool
    ensures { result ≡ is_bracketed (drop at src.now) }
{
    matches!(src.get(at), Some(b'[' | b'}'))
}

// A name of `k` bytes after `${`: before `[` or `}` it is an Identifier.
#[tactic(auto, using(crate::proofs::Looks::varnames))]
fn varname(src: &[u8], at: usize, k: usize, end: bool) -> Plan
    requires { (at + k ≤ length src.now) × (length src.now ≤ 65536) }
    ensures { Plans src.now end (varname at (drop at src.now) (Some k)) result }
{
    if is_bracketed(src, at + k) {
        return plan::one_token(
            u32::from(Kind::Identifier),
            at,
            k,
            Change::Swap(Frame::Scripting),
        );
    }
    plan::goes(at, Change::Swap(Frame::Scripting))
}

// After `${`: a name before `[` or `}`; the top becomes Scripting in any case.
#[tactic(auto, using(crate::proofs::Looks::looking_for_varnames))]
pub fn looking_for_varname(src: &[u8], at: usize, end: bool) -> Plan
    requires { Here src.now at }
    ensures { Plans src.now end (looking_for_varname end at (drop at src.now)) result }
{
    if src.len() <= at {
        return plan::ending(end, plan::goes(at, Change::Swap(Frame::Scripting)));
    }
    if !byte::is_start(src[at]) {
        return plan::goes(at, Change::Swap(Frame::Scripting));
    }
    match named_at(src, at + 1, end) {
        Some(k) => varname(src, at, k, end),
        None => Plan::Wait,
    }
}

// No property stands at a place.
fn no_property(at: usize) -> Plan
    ensures { result ≡ Plan.Refused no_property at }
{
    Plan::Refused {
        refusal: Refusal::NoProperty,
        place: at,
    }
}

// The `>` of an arrow at a place, of which `k` bytes stand before it.
#[tactic(auto, using(crate::proofs::Looks::arrow_heads))]
fn arrow_head(kind: Kind, k: usize, src: &[u8], at: usize, end: bool) -> Plan
    requires { (at + k ≤ length src.now) × (length src.now ≤ 65536) }
    ensures { Plans src.now end (arrow_head (kind_number kind) k end at (drop at src.now) (drop (at + k) src.now)) result }
{
    let i = at + k;
    if src.len() <= i {
        return plan::ending(end, no_property(at));
    }
    if src[i] == b'>' {
        return plan::one_token(u32::from(kind), at, k + 1, Change::Keep);
    }
    no_property(at)
}

// After the `?` at a place.
#[tactic(auto, using(crate::proofs::Looks::questions))]
fn questioned(src: &[u8], at: usize, end: bool) -> Plan
    requires { (at < length src.now) × (length src.now ≤ 65536) }
    ensures { Plans src.now end (questioned end at (drop at src.now) (drop (at + 1) src.now)) result }
{
    let i = at + 1;
    if src.len() <= i {
        return plan::ending(end, no_property(at));
    }
    if src[i] == b'-' {
        return arrow_head(Kind::QuestionArrow, 2, src, at, end);
    }
    no_property(at)
}

// After a variable: `?->`, `->`, or a name, with which the frame is left.
#[tactic(auto, using(crate::proofs::Looks::looking_for_properties))]
pub fn looking_for_property(src: &[u8], at: usize, end: bool) -> Plan
    requires { Here src.now at }
    ensures { Plans src.now end (looking_for_property end at (drop at src.now)) result }
{
    if src.len() <= at {
        return plan::ending(end, no_property(at));
    }
    let b = src[at];
    if b == b'?' {
        return questioned(src, at, end);
    }
    if b == b'-' {
        return arrow_head(Kind::Arrow, 1, src, at, end);
    }
    if !byte::is_start(b) {
        return no_property(at);
    }
    match named_at(src, at + 1, end) {
        Some(k) => plan::one_token(u32::from(Kind::Identifier), at, k, Change::Leave),
        None => Plan::Wait,
    }
}

// In `$a[..]`: one byte is passed, and at `]` the frame is left.
#[tactic(auto, using(crate::proofs::Looks::var_offsets))]
pub fn var_offset(src: &[u8], at: usize, end: bool) -> Plan
    requires { Here src.now at }
    ensures { Plans src.now end (var_offset end at (drop at src.now)) result }
{
    if src.len() <= at {
        let refusal = Plan::Refused {
            refusal: Refusal::UnexpectedEndOfFile,
            place: at,
        };
        return plan::ending(end, refusal);
    }
    if src[at] == b']' {
        return plan::goes(at + 1, Change::Leave);
    }
    plan::goes(at + 1, Change::Keep)
}
