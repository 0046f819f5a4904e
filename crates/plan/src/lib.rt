// Plans: what a routine answers before anything is written. A plan holds no session and no table.
// In order: how a value comes about, tokens to be written, the plan; then the plans that the modes make again and
// again.
#![tactic(auto)]

ghost use Rattle.std.specs.Prelude.{◌≡◌, ◌+◌, ◌-◌, ◌≤◌};
ghost use Rattle.state.specs.Bounds.{label_bytes, no_label};
ghost use Rattle.plan.specs.Code.{Named, copied_draft, no_drafts, one_draft, work_plan, goes_plan, one_plan, parted_plan, ending_plan};

use byte::Refusal;
use outcome::Change;
use state::Label;
use unit::Mode;

// How a token's value comes about.
#[derive(Clone, Copy)]
pub enum Making {
    // The source's own bytes.
    Copied,
    // The value of a text, which stands at the start of the scratch part; a mode without a label has an empty range.
    Held { mode: Mode, label: Label },
    // The same of a text that is longer than the scratch part: it is read again.
    Text { mode: Mode, label: Label },
    Number,
    // The rows of a sheet without their indentation and the last break: which byte, and how many.
    Sheet { blank: u8, width: usize },
}

// A token to be written: its value has `len` bytes and comes from the source's bytes from `from` up to `to`.
#[derive(Clone, Copy)]
pub struct Draft {
    // The number that its record bears.
    pub kind: u32,
    pub detail: usize,
    // The place whose span it bears.
    pub place: usize,
    pub making: Making,
    pub from: usize,
    pub to: usize,
    pub len: usize,
}

// The tokens that a step writes, in order.
#[derive(Clone, Copy)]
pub enum Drafts {
    None,
    One(Draft),
    Two(Draft, Draft),
}

// What a step does: what it writes, the place after, the change of frame, and whether nothing is left to read.
#[derive(Clone, Copy)]
pub struct Work {
    pub drafts: Drafts,
    pub after: usize,
    pub change: Change,
    pub finished: bool,
}

// What a routine answers. Three answers, as of a scan: `call_waits` tells a wait from a refusal.
#[derive(Clone, Copy)]
pub enum Plan<R = Refusal> {
    Told(Work),
    Refused { refusal: R, place: usize },
    Wait,
}

// The range of a mode that has no label.
// No Option: `Named` is told of a label of no bytes too.
pub fn no_label() -> Label
    ensures { result ≡ no_label }
{
    Label { start: 0, len: 0 }
}

// The bytes that a label names: that part of the source itself.
pub fn label_bytes(src: &[u8], label: Label) -> &[u8]
    requires { Named src.now label }
    ensures { result.now ≡ label_bytes src.now label }
{
    let start = usize::from(label.start);
    let end = start + usize::from(label.len);
    &src[start..end]
}

// A token whose value is the source's own bytes.
pub fn copied(kind: u32, detail: usize, place: usize, from: usize, to: usize) -> Draft
    requires { from ≤ to }
    ensures { result ≡ copied_draft kind detail place from to }
{
    Draft {
        kind,
        detail,
        place,
        making: Making::Copied,
        from,
        to,
        len: to - from,
    }
}

// No token.
pub fn none() -> Drafts
    ensures { result ≡ no_drafts }
{
    Drafts::None
}

// One token.
pub fn only(draft: Draft) -> Drafts
    ensures { result ≡ one_draft draft }
{
    Drafts::One(draft)
}

// These are written, and something is left to read.
fn told(drafts: Drafts, after: usize, change: Change) -> Plan
    ensures { result ≡ work_plan drafts after change }
{
    Plan::Told(Work {
        drafts,
        after,
        change,
        finished: false,
    })
}

// Nothing is written.
pub fn goes(after: usize, change: Change) -> Plan
    ensures { result ≡ goes_plan after change }
{
    told(Drafts::None, after, change)
}

// One token is written.
pub fn one(draft: Draft, after: usize, change: Change) -> Plan
    ensures { result ≡ one_plan draft after change }
{
    told(Drafts::One(draft), after, change)
}

// The `k` bytes at a place as a token.
pub fn one_token(kind: u32, at: usize, k: usize, change: Change) -> Plan
    requires { at + k ≤ 65536 }
    ensures { result ≡ one_plan (copied_draft kind 0 at at (at + k)) (at + k) change }
{
    let to = at + k;
    one(copied(kind, 0, at, at, to), to, change)
}

// Nothing is left of the text: the plan at the announced end, else wait.
// As `last` of escape: one function for all types would take both answers, and say no more than this `if`.
pub fn ending<R: Copy>(end: bool, p: Plan<R>) -> Plan<R>
    ensures { result ≡ ending_plan end p }
{
    if end {
        return p;
    }
    Plan::Wait
}

// A text's part, if it is not empty, and the token after it.
pub fn parted(part: Draft, draft: Draft, after: usize, change: Change) -> Plan
    ensures { result ≡ parted_plan part draft after change }
{
    if part.len == 0 {
        return one(draft, after, change);
    }
    told(Drafts::Two(part, draft), after, change)
}
