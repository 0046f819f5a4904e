// The mode Initial: inline text up to the first tag. Of the Rust: `initial` of mod.rs.
// A look never goes further than the one byte that decides; where that byte lies past the part, it is undecided.
// In order: the tag at a `<`; the first tag of a text; the plan.
#![tactic(auto)]

ghost use Rattle.std.specs.Prelude.{◌≡◌, ◌+◌, ◌≤◌, ◌<◌, ◌==◌, not, length, drop, codes, zip, MatchOption, if◌then◌else◌};
ghost use Rattle.std.specs.List.{list_any};
ghost use Rattle.std.specs.Char.{to_ascii_lowercase};
ghost use Rattle.byte.specs.Words.{bytes};
ghost use Rattle.source.specs.Code.{RunEnd};
ghost use Rattle.outcome.specs.declared.Tag.{Tag};
ghost use Rattle.outcome.specs.Initials.{full_tag, open_tag, tag, tagged, tag_length, initial};
ghost use Rattle.plan.specs.Code.{Here, Plans};
ghost use Rattle.initial.specs.Code.{is_no_less, LessAt, tag_kind, tag_plan, over_plan};

use outcome::{Change, OpenTagKind, Tag, Tagged};
use plan::{Plan, Work};
use state::Frame;
use token::Kind;

// `src`, `at`, `end` stay parameters, as in comment.

// The text ends after `<?` or letters of the full tag.
// As `last` of escape: one function for all types would take both answers, and say no more than this `if`.
#[tactic(auto, using(crate::proofs::Tags::last_tags))]
fn last_tag(end: bool) -> Tag
    ensures { result ≡ if end then Tag.Open OpenTagKind.Short else Tag.Undecided }
{
    if end {
        return Tag::Open(OpenTagKind::Short);
    }
    Tag::Undecided
}

// Whether a byte comes that is not its letter of `php`, in any case.
fn is_other(rest: &[u8]) -> bool
    ensures { result ≡ list_any (λ p. not (p.1 == to_ascii_lowercase p.0)) (zip rest.now (codes "php")) }
{
    rest.iter()
        .zip(b"php")
        .any(|(b, letter)| *letter != b.to_ascii_lowercase())
}

// After `<?`, where no `=` stands.
#[tactic(auto, using(crate::proofs::Tags::full_tags))]
fn full_tag(src: &[u8], at: usize, end: bool) -> Tag
    requires { at ≤ length src.now }
    ensures { result ≡ full_tag end (bytes "php") (drop at src.now) }
{
    let rest = &src[at..];
    if is_other(rest) {
        return Tag::Open(OpenTagKind::Short);
    }
    if rest.len() < 3 {
        return last_tag(end);
    }
    Tag::Open(OpenTagKind::Full)
}

// After `<?`.
#[tactic(auto, using(crate::proofs::Tags::open_tags))]
fn open_tag(src: &[u8], at: usize, end: bool) -> Tag
    ensures { result ≡ open_tag end (drop at src.now) }
{
    match src.get(at) {
        Some(b'=') => Tag::Open(OpenTagKind::Echo),
        Some(_) => full_tag(src, at, end),
        None => last_tag(end),
    }
}

// After a `<`.
#[tactic(auto, using(crate::proofs::Tags::tags))]
fn tag_at(src: &[u8], at: usize, end: bool) -> Tag
    ensures { result ≡ tag end (drop at src.now) }
{
    match src.get(at) {
        Some(b'?') => open_tag(src, at + 1, end),
        Some(_) => Tag::None,
        None if end => Tag::None,
        None => Tag::Undecided,
    }
}

// The first `<` from `at` on.
#[tactic(auto, using(crate::proofs::Tags::less))]
fn next_less(src: &[u8], at: usize) -> Option<usize>
    requires { at ≤ length src.now }
    ensures { MatchOption result (RunEnd is_no_less src.now at (length src.now)) (λ n. LessAt src.now at n) }
{
    let n = source::stop_end(src, at, b'<', b'<', b'<', b'<');
    (n < src.len()).then_some(n)
}

// The first tag from `at` on.
#[tactic(auto, using(crate::proofs::Tags::finding))]
fn find_tag(src: &[u8], at: usize, end: bool) -> Tagged
    requires { at ≤ length src.now }
    ensures { result ≡ tagged end at (drop at src.now) }
{
    let mut from = at;
    // A loop by hand: an iterator over the bytes would ask each of them, and the search for `<` passes eight at a
    // time.
    while let Some(i) = next_less(src, from) {
        match tag_at(src, i + 1, end) {
            Tag::Open(kind) => return Tagged::At { kind, place: i },
            Tag::None => from = i + 1,
            Tag::Undecided => return Tagged::Undecided,
        }
    }
    if end {
        return Tagged::Over;
    }
    Tagged::Undecided
}

// A tag's kind as a token. No From: neither type is of this crate.
#[tactic(auto, using(crate::proofs::Tags::tag_kind_arm), unfolding(crate::specs::Code::tag_kind))]
fn tag_kind(kind: OpenTagKind) -> Kind
    ensures { result ≡ tag_kind kind }
{
    match kind {
        OpenTagKind::Full => Kind::OpenTagFull,
        OpenTagKind::Echo => Kind::OpenTagEcho,
        OpenTagKind::Short => Kind::OpenTagShort,
    }
}

// How many bytes a tag has.
#[tactic(auto, using(crate::proofs::Tags::tag_length_arm), unfolding(outcome::specs::Initials::tag_length))]
fn tag_length(kind: OpenTagKind) -> usize
    ensures { (result ≡ tag_length kind) × (result ≤ 5) }
{
    match kind {
        OpenTagKind::Full => 5,
        OpenTagKind::Echo => 3,
        OpenTagKind::Short => 2,
    }
}

// The text from `at` up to the tag at `place`, if there is some, and the tag with its own span.
#[tactic(auto, using(crate::proofs::Initials::plans))]
fn tag_plan(at: usize, kind: OpenTagKind, place: usize) -> Plan
    requires { (at ≤ place) × (place ≤ 65536) }
    ensures { result ≡ tag_plan at kind place }
{
    let after = place + tag_length(kind);
    let text = plan::copied(u32::from(Kind::InlineHtml), 0, at, at, place);
    let tag = plan::copied(u32::from(tag_kind(kind)), 0, place, place, after);
    plan::parted(text, tag, after, Change::Swap(Frame::Scripting))
}

// The text from `at` up to the end, which has no tag: it is written even when empty.
#[tactic(auto, using(crate::proofs::Initials::plans))]
fn over_plan(at: usize, hi: usize) -> Plan
    requires { at ≤ hi }
    ensures { result ≡ over_plan at hi }
{
    let text = plan::copied(u32::from(Kind::InlineHtml), 0, at, at, hi);
    Plan::Told(Work {
        drafts: plan::only(text),
        after: hi,
        change: Change::Keep,
        finished: true,
    })
}

// The step of the mode Initial.
#[tactic(auto, using(crate::proofs::Initials::initials))]
pub fn initial(src: &[u8], at: usize, end: bool) -> Plan
    requires { Here src.now at }
    ensures { Plans src.now end (initial end at (drop at src.now)) result }
{
    match find_tag(src, at, end) {
        Tagged::At { kind, place } => tag_plan(at, kind, place),
        Tagged::Over => over_plan(at, src.len()),
        Tagged::Undecided => Plan::Wait,
    }
}
