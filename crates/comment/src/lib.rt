// Comments at Scripting: `//` and `#` up to LF, `?>` or the end, `/*` through the first `*/` after it.
// Of the Rust: the rows of `scripting` that read comments. Here the LF is not taken, `/*/` is open, and an open `/*`
// is refused.
#![tactic(auto)]

ghost use Rattle.std.specs.Prelude.{◌≡◌, ◌+◌, ◌≤◌, ◌<◌, length, get_or, drop, MatchOption};
ghost use Rattle.source.specs.Code.{RunEnd};
ghost use Rattle.outcome.specs.Comments.{is_next, ends, end_taken, comment_end, endless, comment_at, slash, hash};
ghost use Rattle.plan.specs.Code.{Plans};
ghost use Rattle.comment.specs.Code.{is_inner};

use byte::Refusal;
use outcome::{Change, CommentEnd, CommentKind};
use plan::Plan;
use token::Kind;

// `src`, `at`, `end` stay parameters: `slash` and `hash` are asked with them, and each place would be a new struct.

// Whether this byte stands at a place.
#[tactic(auto, using(crate::proofs::Ends::nexts))]
fn is_next(src: &[u8], at: usize, c: u8) -> bool
    ensures { result ≡ is_next c (drop at src.now) }
{
    src.get(at) == Some(&c)
}

// Whether a comment has its end at a place.
#[tactic(auto, using(crate::proofs::Ends::endings))]
fn ends_at(kind: CommentKind, src: &[u8], at: usize) -> bool
    requires { (at < length src.now) × (length src.now ≤ 65536) }
    ensures { result ≡ ends kind (get_or src.now at 0) (drop (at + 1) src.now) }
{
    let b = src[at];
    match kind {
        CommentKind::SingleLine => {
            let next = is_next(src, at + 1, b'>');
            (b == b'\n') | ((b == b'?') & next)
        }
        CommentKind::MultiLine => {
            let next = is_next(src, at + 1, b'/');
            (b == b'*') & next
        }
    }
}

// Where the bytes from `at` on that begin no end are over.
#[tactic(auto, using(crate::proofs::Ends::inners), unfolding(crate::specs::Code::is_inner))]
fn inner_end(kind: CommentKind, src: &[u8], at: usize) -> usize
    requires { at ≤ length src.now }
    ensures { RunEnd (is_inner kind) src.now at result }
{
    match kind {
        CommentKind::SingleLine => source::stop_end(src, at, b'\n', b'?', b'\n', b'?'),
        CommentKind::MultiLine => {
            let i = source::pass_blocks::<16>(src, at, b'*');
            source::stop_end(src, i, b'*', b'*', b'*', b'*')
        }
    }
}

// The first byte from `at` on that may begin an end.
#[tactic(auto, using(crate::proofs::Ends::mark_none))]
fn next_mark(kind: CommentKind, src: &[u8], at: usize) -> Option<usize>
    requires { at ≤ length src.now }
    ensures { MatchOption result (RunEnd (is_inner kind) src.now at (length src.now)) (λ n. RunEnd (is_inner kind) src.now at n × (n < length src.now)) }
{
    let n = inner_end(kind, src, at);
    (n < src.len()).then_some(n)
}

// How many bytes of the comment at a place come before its end, `k` of them passed.
#[tactic(auto, using(crate::proofs::Ends::searching))]
fn comment_end(kind: CommentKind, src: &[u8], at: usize, k: usize, end: bool) -> CommentEnd
    requires { (at + k ≤ length src.now) × (length src.now ≤ 65536) }
    ensures { result ≡ comment_end kind end k (drop (at + k) src.now) }
{
    let mut from = at + k;
    // A loop by hand: an iterator over the bytes would ask each of them, and the search for an end passes blocks.
    while let Some(n) = next_mark(kind, src, from) {
        if ends_at(kind, src, n) {
            return CommentEnd::At(n - at);
        }
        from = n + 1;
    }
    if end {
        return CommentEnd::Over;
    }
    CommentEnd::Undecided
}

// How many bytes of its end a comment takes.
#[tactic(auto, using(crate::proofs::Comments::taken_arm), unfolding(outcome::specs::Comments::end_taken))]
fn end_taken(kind: CommentKind) -> usize
    ensures { result ≡ end_taken kind }
{
    match kind {
        CommentKind::SingleLine => 0,
        CommentKind::MultiLine => 2,
    }
}

// The comment at a place that has no end: it is over with the source, but an open `/*` is refused there.
#[tactic(auto, using(crate::proofs::Comments::endlesses))]
fn endless(kind: CommentKind, src: &[u8], at: usize, end: bool) -> Plan
    requires { (at ≤ length src.now) × (length src.now ≤ 65536) }
    ensures { Plans src.now end (endless kind at (drop at src.now)) result }
{
    match kind {
        CommentKind::SingleLine => {
            plan::one_token(u32::from(Kind::Comment), at, src.len() - at, Change::Keep)
        }
        CommentKind::MultiLine => Plan::Refused {
            refusal: Refusal::UnexpectedEndOfFile,
            place: src.len(),
        },
    }
}

// The comment at a place, `k` bytes of which were passed.
#[tactic(auto, using(crate::proofs::Comments::commenting))]
fn comment(kind: CommentKind, src: &[u8], at: usize, k: usize, end: bool) -> Plan
    requires { (at + k ≤ length src.now) × (length src.now ≤ 65536) }
    ensures { Plans src.now end (comment_at kind k end at (drop at src.now) (drop (at + k) src.now)) result }
{
    match comment_end(kind, src, at, k, end) {
        CommentEnd::At(j) => {
            let len = j + end_taken(kind);
            plan::one_token(u32::from(Kind::Comment), at, len, Change::Keep)
        }
        CommentEnd::Over => endless(kind, src, at, end),
        CommentEnd::Undecided => Plan::Wait,
    }
}

// The `/` at a place: with another `/` or a `*` it begins a comment.
#[tactic(auto, using(crate::proofs::Comments::slashes))]
pub fn slash(src: &[u8], at: usize, end: bool) -> Plan
    requires { (at < length src.now) × (length src.now ≤ 65536) }
    ensures { Plans src.now end (slash end at (drop at src.now) (drop (at + 1) src.now)) result }
{
    let i = at + 1;
    match src.get(i) {
        Some(b'/') => comment(CommentKind::SingleLine, src, at, 2, end),
        Some(b'*') => comment(CommentKind::MultiLine, src, at, 2, end),
        Some(_) => plan::goes(i, Change::Keep),
        None => plan::ending(end, plan::goes(i, Change::Keep)),
    }
}

// The `#` at a place: it begins a comment, but `#[` does not.
#[tactic(auto, using(crate::proofs::Comments::hashes))]
pub fn hash(src: &[u8], at: usize, end: bool) -> Plan
    requires { (at < length src.now) × (length src.now ≤ 65536) }
    ensures { Plans src.now end (hash end at (drop at src.now) (drop (at + 1) src.now)) result }
{
    let i = at + 1;
    if is_next(src, i, b'[') {
        return plan::goes(i, Change::Keep);
    }
    comment(CommentKind::SingleLine, src, at, 1, end)
}
