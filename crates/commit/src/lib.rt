// From a plan to records, value bytes and numbers, or to a refusal that leaves all as it was. It knows no session.
// Of the Rust: what `tokenize`'s loop does with a routine's answer. In order: spans; values; records; room and the
// whole.
#![tactic(auto)]

ghost use Rattle.std.specs.Prelude.{◌≡◌, ◌+◌, ◌*◌, ◌≤◌, length};
ghost use Rattle.byte.specs.Laid.{laid};
ghost use Rattle.token.specs.Records.{record_of};
ghost use Rattle.plan.specs.declared.Plan.{Plan};
ghost use Rattle.plan.specs.Code.{made, piece_of, drafts_of, pieces_of, outcome_of};
ghost use Rattle.commit.specs.Records.{span_at, answer_of, stays};
ghost use Rattle.commit.specs.Code.{draft_token, total_of, Ahead, Writes, Drawn, DraftFits, DraftPut, past_draft, PastFits};
ghost use Rattle.commit.specs.Code.{DraftsFit, DraftsPut, is_full, advanced, Advances, Works, CommitsPlan};
ghost use Rattle.commit.specs.Code.{CommittedAs, CommittedPlan};

use byte::{Refusal, RefusalName};
use outcome::Change;
use plan::{Draft, Drafts, Making, Plan, Work};
use source::Span;
use state::{Answer, Label};
use token::Token;
use unit::Mode;

// The cursor and the two fill marks.
// Marks beside the list and the pool: a host lends both, and reads from its session how far they are filled.
#[derive(Clone, Copy)]
pub struct Mark {
    pub span: Span,
    pub tokens: u32,
    pub bytes: u32,
}

// What a step comes to, without the session: answer, cursor, marks and the change of frame.
#[derive(Clone, Copy)]
pub struct Next<R = Refusal> {
    pub answer: Answer<R>,
    pub mark: Mark,
    pub change: Change,
}

// What a step is written from: the source, whether its end is announced, the scratch part, and where the step ends.
#[derive(Clone, Copy)]
struct Step<'a> {
    src: &'a [u8],
    end: bool,
    scratch: &'a [u8],
    after: usize,
}

// The span of a place from the cursor on.
#[tactic(auto, using(crate::proofs::Spans::span_at_stays))]
pub fn span_at(src: &[u8], p: Span, place: usize) -> Span
    requires { Ahead src.now p place }
    ensures { result ≡ span_at src.now p place }
{
    let at = p.position as usize;
    if place == at {
        return p;
    }
    source::past(&src[at..place], p)
}

// A refusal: the numbers are as they were.
fn stay<R: Copy>(refusal: R, span: Span, m: Mark) -> Next<R>
    ensures { result ≡ stays refusal span m }
{
    Next {
        answer: Answer::Refused { refusal, span },
        mark: m,
        change: Change::Keep,
    }
}

// The value of a draft, in the pool from the mark on.
// Always inlined: as a call it makes numbers take 77.6 instructions a byte, and the limit is 77.
#[inline(always)]
#[tactic(auto, using(crate::proofs::Values::writing))]
fn write_value(step: Step, d: Draft, pool: &mut [u8], mark: usize)
    requires { Writes step.src.now step.end step.scratch.now d (length pool.old) mark }
    ensures { pool.new ≡ laid pool.old mark (made step.entry.src.now step.entry.end d) }
{
    let src = step.src;
    let from = d.from;
    let to = d.to;
    let len = d.len;
    match d.making {
        Making::Copied => token::put_value(&src[from..to], pool, mark),
        Making::Held { .. } => token::put_value(&step.scratch[..len], pool, mark),
        Making::Text { mode, label } => {
            let name = plan::label_bytes(src, label);
            let part = &mut pool[mark..mark + len];
            text::read_text(mode, src, name, from, step.end, part);
        }
        Making::Number => number::write_number(src, from, to, &mut pool[mark..]),
        Making::Sheet { blank, width } => {
            sheet::write_sheet(&src[..to], from, blank, width, len, &mut pool[mark..]);
        }
    }
}

// The token of a draft whose value stands in the pool from the mark on. The step ends at `after`.
// `as`, here and below: it fits by the contract, and `try_from` would bring an arm that never comes.
fn token_of(src: &[u8], after: usize, m: Mark, d: Draft) -> Token
    requires { Drawn src.now after m.span d }
    ensures { result ≡ draft_token src.now after m d }
{
    Token {
        kind: d.kind,
        detail: d.detail as u32,
        span: span_at(src, m.span, d.place),
        start: m.bytes,
        len: d.len as u32,
        end: after as u32,
    }
}

// A draft's record, at its place in the list.
fn put_record(step: Step, m: Mark, d: Draft, list: &mut [u32])
    requires { Drawn step.src.now step.after m.span d × (m.tokens * 8 + 8 ≤ length list.old) }
    ensures { list.new ≡ laid list.old (m.tokens * 8) (record_of (draft_token step.entry.src.now step.entry.after m d)) }
{
    let token = token_of(step.src, step.after, m, d);
    token::put_token(list, m.tokens as usize, token);
}

// The marks after a draft.
fn past_draft(m: Mark, d: Draft) -> Mark
    requires { PastFits m d }
    ensures { result ≡ past_draft m d }
{
    let span = m.span;
    Mark {
        span,
        tokens: m.tokens + 1,
        bytes: m.bytes + d.len as u32,
    }
}

// A draft's value and record, from the marks on, and the marks after it.
// Always inlined: as a call for each of three callers it makes numbers take 83.7 instructions a byte, and the limit
// is 77.
#[inline(always)]
#[tactic(auto, using(crate::proofs::Records::draft_put))]
fn put_draft(step: Step, m: Mark, d: Draft, list: &mut [u32], pool: &mut [u8]) -> Mark
    requires { DraftFits step.src.now step.end step.scratch.now step.after m d (length list.old) (length pool.old) }
    ensures { DraftPut step.entry.src.now step.entry.after m d (piece_of step.entry.src.now step.entry.end d) list.old pool.old result list.new pool.new }
{
    write_value(step, d, pool, m.bytes as usize);
    put_record(step, m, d, list);
    past_draft(m, d)
}

// How many drafts there are.
fn count_of(ds: Drafts) -> u32
    ensures { result ≡ length (drafts_of ds) }
{
    match ds {
        Drafts::None => 0,
        Drafts::One(_) => 1,
        Drafts::Two(_, _) => 2,
    }
}

// How many value bytes drafts have.
#[tactic(auto, unfolding(crate::specs::Code::total_of))]
fn total(ds: Drafts) -> usize
    requires { total_of (drafts_of ds) ≤ 65536 }
    ensures { result ≡ total_of (drafts_of ds) }
{
    match ds {
        Drafts::None => 0,
        Drafts::One(d) => d.len,
        Drafts::Two(d, e) => d.len + e.len,
    }
}

// The values and records of drafts, one after another, from the marks on.
#[tactic(auto, using(crate::proofs::Records::putting))]
fn put_drafts(step: Step, m: Mark, ds: Drafts, list: &mut [u32], pool: &mut [u8])
    requires { DraftsFit step.src.now step.end step.scratch.now step.after m ds (length list.old) (length pool.old) }
    ensures { DraftsPut step.entry.src.now step.entry.after m (pieces_of step.entry.src.now step.entry.end ds) list.old pool.old list.new pool.new }
{
    match ds {
        Drafts::None => {}
        Drafts::One(d) => {
            put_draft(step, m, d, list, pool);
        }
        Drafts::Two(d, e) => {
            let next = put_draft(step, m, d, list, pool);
            put_draft(step, next, e, list, pool);
        }
    }
}

// Whether a frame would be the 65th.
#[tactic(auto, unfolding(crate::specs::Code::is_full))]
fn is_full(change: Change, depth: u32) -> bool
    ensures { result ≡ is_full change depth }
{
    matches!(change, Change::Enter(_)) && 64 <= depth
}

// Done, or nothing is left to read.
fn answer_of<R: Copy>(finished: bool) -> Answer<R>
    ensures { result ≡ answer_of finished }
{
    if finished {
        Answer::Finished
    } else {
        Answer::Done
    }
}

// The numbers after `count` tokens with `len` value bytes.
fn advance<R: Copy>(src: &[u8], m: Mark, w: Work, count: u32, len: u32) -> Next<R>
    requires { Advances src.now m w count len }
    ensures { result ≡ advanced src.now m w count len }
{
    let answer = answer_of(w.finished);
    let span = span_at(src, m.span, w.after);
    let mark = Mark {
        span,
        tokens: m.tokens + count,
        bytes: m.bytes + len,
    };
    let change = w.change;
    Next {
        answer,
        mark,
        change,
    }
}

// What a plan tells, where no frame is the 65th: refused where there is no room, else written.
#[tactic(auto, using(crate::proofs::Nexts::works))]
fn write_work<R: RefusalName>(
    step: Step,
    m: Mark,
    w: Work,
    list: &mut [u32],
    pool: &mut [u8],
) -> Next<R>
    requires works { Works step.src.now step.end step.scratch.now m w (length list.old) (length pool.old) }
    requires ends { step.after ≡ w.after }
    ensures { CommittedAs R.named step.entry.src.now m list.old pool.old (outcome_of step.entry.src.now step.entry.end (Plan.Told w)) result list.new pool.new }
{
    let drafts = w.drafts;
    let count = count_of(drafts);
    let len = total(drafts) as u32;
    let room = token::room(list.len(), pool.len(), m.tokens, m.bytes, count, len);
    if let Err(refusal) = room {
        return stay(R::named(refusal), m.span, m);
    }
    put_drafts(step, m, drafts, list, pool);
    advance(step.src, m, w, count, len)
}

// A plan becomes numbers, records and value bytes, or a refusal. Order: what the plan refuses, 9, 7, 8.
// The plan's own refusal is passed on as it is, be it a Refusal or any number.
// A value that is held stands in the scratch part.
#[tactic(auto, using(crate::proofs::Nexts::commits))]
pub fn commit<R: RefusalName>(
    src: &[u8],
    end: bool,
    m: Mark,
    depth: u32,
    plan: Plan<R>,
    scratch: &[u8],
    list: &mut [u32],
    pool: &mut [u8],
) -> Next<R>
    requires { CommitsPlan src.now end scratch.now m plan (length list.old) (length pool.old) }
    ensures { CommittedPlan R.named src.now end m depth list.old pool.old plan result list.new pool.new }
{
    match plan {
        Plan::Told(w) => {
            let change = w.change;
            if is_full(change, depth) {
                return stay(R::named(Refusal::StackFull), m.span, m);
            }
            let after = w.after;
            let step = Step {
                src,
                end,
                scratch,
                after,
            };
            write_work(step, m, w, list, pool)
        }
        Plan::Refused { refusal, place } => {
            let span = span_at(src, m.span, place);
            stay(refusal, span, m)
        }
        Plan::Wait => stay(R::named(Refusal::Wait), m.span, m),
    }
}
