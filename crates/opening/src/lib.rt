// The opening of a text block: `<<<`, a label of 1 to 64 bytes that may stand in single quotes, and a break.
// Of the Rust: the arms of `scripting` that begin with `<<<`. A look never goes further than the one byte that
// decides; where that byte lies past the part, it is undecided. In order: from the break back to the first `<`, then
// the plan.
#![tactic(auto)]

ghost use Rattle.std.specs.Prelude.{◌≡◌, ◌+◌, ◌≤◌, ◌<◌, not, length, take, drop, position, IfSome};
ghost use Rattle.byte.specs.Bytes.{is_identifier};
ghost use Rattle.outcome.specs.Openings.{last_opening, line_feed, doc_break, doc_quote, doc_end, doc_name, doc_start, doc_label, third_less};
ghost use Rattle.outcome.specs.Openings.{opening, doc_frame, opened};
ghost use Rattle.outcome.specs.declared.DocStringKind.{DocStringKind};
ghost use Rattle.plan.specs.Code.{Plans};
ghost use Rattle.opening.specs.Code.{block_plan};

use outcome::{Change, DocStringKind, Opening};
use plan::Plan;
use state::{Frame, Label};

// `src`, `n`, `end` stay parameters: what is left is told by `drop n src`, and the plan has bounds of its own.

// What the text's end tells of an opening that it cuts off: none, or undecided while more may come.
// As `last` of escape: one function for all types would take both answers, and say no more than this `if`.
#[tactic(auto, using(crate::proofs::Looks::last_openings))]
fn last_opening(end: bool) -> Opening
    ensures { result ≡ last_opening end }
{
    if end {
        return Opening::Other;
    }
    Opening::Undecided
}

// A block whose label was read: what stands after its name decides.
#[derive(Clone, Copy)]
struct Labelled {
    kind: DocStringKind,
    start: usize,
    len: usize,
}

impl Labelled {
    // The block's LF.
    #[tactic(auto, using(crate::proofs::Looks::line_feeds))]
    fn line_feed(self, src: &[u8], n: usize, end: bool) -> Opening
        ensures { result ≡ line_feed self.kind self.start self.len end n (drop n src.now) }
    {
        match src.get(n) {
            Some(b'\n') => Opening::Block {
                kind: self.kind,
                start: self.start,
                len: self.len,
                after: n + 1,
            },
            Some(_) => Opening::Other,
            None => last_opening(end),
        }
    }

    // After the label: LF, or CR and LF.
    #[tactic(auto, using(crate::proofs::Looks::doc_breaks))]
    fn doc_break(self, src: &[u8], n: usize, end: bool) -> Opening
        ensures { result ≡ doc_break self.kind self.start self.len end n (drop n src.now) }
    {
        match src.get(n) {
            Some(b'\r') => self.line_feed(src, n + 1, end),
            Some(_) => self.line_feed(src, n, end),
            None => last_opening(end),
        }
    }

    // After a nowdoc block's label, which stands in quotes.
    #[tactic(auto, using(crate::proofs::Looks::doc_quotes))]
    fn doc_quote(self, src: &[u8], n: usize, end: bool) -> Opening
        requires { self.kind ≡ DocStringKind.Nowdoc }
        ensures { result ≡ doc_quote self.start self.len end n (drop n src.now) }
    {
        match src.get(n) {
            Some(b'\'') => self.doc_break(src, n + 1, end),
            Some(_) => Opening::Other,
            None => last_opening(end),
        }
    }

    // After the label of either block.
    #[tactic(auto, using(crate::proofs::Looks::doc_ends))]
    fn doc_end(self, src: &[u8], n: usize, end: bool) -> Opening
        ensures { result ≡ doc_end self.kind self.start self.len end n (drop n src.now) }
    {
        match self.kind {
            DocStringKind::Heredoc => self.doc_break(src, n, end),
            DocStringKind::Nowdoc => self.doc_quote(src, n, end),
        }
    }
}

// The first byte of a text that ends a label, of the 64 that are looked at: a label has at most 64, one of which
// came before.
fn label_end(rest: &[u8]) -> Option<usize>
    ensures first { result ≡ position (λ b. not (is_identifier b)) (take 64 rest.now) }
    ensures within { IfSome result (λ k. k < length rest.now) }
{
    rest.iter().take(64).position(|b| !byte::is_identifier(*b))
}

// After the label's first byte, which stands at `start`.
#[tactic(auto, using(crate::proofs::Looks::names))]
fn doc_name(src: &[u8], n: usize, end: bool, kind: DocStringKind, start: usize) -> Opening
    requires { n ≤ length src.now }
    ensures { result ≡ doc_name kind start 1 end n (drop n src.now) }
{
    let rest = &src[n..];
    match label_end(rest) {
        Some(k) => {
            let len = k + 1;
            Labelled { kind, start, len }.doc_end(src, n + k, end)
        }
        None if rest.len() < 64 => last_opening(end),
        None => Opening::Other,
    }
}

// At the label's first byte.
#[tactic(auto, using(crate::proofs::Looks::doc_starts))]
fn doc_start(src: &[u8], n: usize, end: bool, kind: DocStringKind) -> Opening
    ensures { result ≡ doc_start kind end n (drop n src.now) }
{
    match src.get(n) {
        Some(b) if byte::is_start(*b) => doc_name(src, n + 1, end, kind, n),
        Some(_) => Opening::Other,
        None => last_opening(end),
    }
}

// After `<<<`.
#[tactic(auto, using(crate::proofs::Looks::doc_labels))]
fn doc_label(src: &[u8], n: usize, end: bool) -> Opening
    ensures { result ≡ doc_label end n (drop n src.now) }
{
    match src.get(n) {
        Some(b'\'') => doc_start(src, n + 1, end, DocStringKind::Nowdoc),
        Some(_) => doc_start(src, n, end, DocStringKind::Heredoc),
        None => last_opening(end),
    }
}

// After `<<`.
#[tactic(auto, using(crate::proofs::Looks::third_lesses))]
fn third_less(src: &[u8], n: usize, end: bool) -> Opening
    ensures { result ≡ third_less end n (drop n src.now) }
{
    match src.get(n) {
        Some(b'<') => doc_label(src, n + 1, end),
        Some(_) => Opening::Other,
        None => last_opening(end),
    }
}

// After `<`.
#[tactic(auto, using(crate::proofs::Looks::openings))]
fn opening_at(src: &[u8], n: usize, end: bool) -> Opening
    ensures { result ≡ opening end n (drop n src.now) }
{
    match src.get(n) {
        Some(b'<') => third_less(src, n + 1, end),
        Some(_) => Opening::Other,
        None => last_opening(end),
    }
}

// The frame in which a block is read.
// No From: both types are of crates below.
#[tactic(auto, using(crate::proofs::Openings::doc_frame_arm), unfolding(outcome::specs::Openings::doc_frame))]
fn doc_frame(kind: DocStringKind, label: Label) -> Frame
    ensures { result ≡ doc_frame kind label }
{
    match kind {
        DocStringKind::Heredoc => Frame::Heredoc(label),
        DocStringKind::Nowdoc => Frame::Nowdoc(label),
    }
}

// A block opens: nothing is written.
// `as`: it fits by the contract, and `try_from` would bring an arm that never comes.
#[tactic(auto, using(crate::proofs::Openings::block_plan_made))]
fn block_plan(kind: DocStringKind, start: usize, len: usize, after: usize) -> Plan
    requires { (start < 65536) × (len ≤ 64) }
    ensures { result ≡ block_plan kind start len after }
{
    let label = Label {
        start: start as u16,
        len: len as u16,
    };
    plan::goes(after, Change::Swap(doc_frame(kind, label)))
}

// The step at the `<` at `at` of a script: a block opens, or one byte is passed.
#[tactic(auto, using(crate::proofs::Openings::blocks))]
pub fn open_block(src: &[u8], at: usize, end: bool) -> Plan
    requires { (at < length src.now) × (length src.now ≤ 65536) }
    ensures { Plans src.now end (opened at (opening end (at + 1) (drop (at + 1) src.now))) result }
{
    match opening_at(src, at + 1, end) {
        Opening::Block {
            kind,
            start,
            len,
            after,
        } => block_plan(kind, start, len, after),
        Opening::Other => plan::goes(at + 1, Change::Keep),
        Opening::Undecided => Plan::Wait,
    }
}
