// The text modes, quoted literals and numbers: a scan measures the text, and its plan says which tokens are written
// of it.
// Of the Rust: what double_quote, shell_exec, docstring and nowdoc push after their loops, and `tokenize_number`.
#![tactic(auto)]

ghost use Rattle.std.specs.Prelude.{◌≡◌, ◌+◌, ◌≤◌, drop, if◌then◌else◌};
ghost use Rattle.state.specs.Bounds.{label_bytes};
ghost use Rattle.token.specs.declared.Kind.{Kind};
ghost use Rattle.unit.specs.Readings.{text_at, gap, text_end};
ghost use Rattle.number.specs.Numbers.{number_at};
ghost use Rattle.outcome.specs.Texts.{stop_detail, variable_change, stop_change, is_left};
ghost use Rattle.outcome.specs.Texts.{text_read, numbered};
ghost use Rattle.outcome.specs.Steps.{nowdoc};
ghost use Rattle.plan.specs.Code.{Here, Named, Plans, PlansIn};
ghost use Rattle.drafts.specs.Code.{doc_kind, quote_kind, stop_kind, number_kind};
ghost use Rattle.drafts.specs.Code.{made_draft, is_held, text_making, text_draft, sheet_draft, text_plan};
ghost use Rattle.drafts.specs.Code.{literal_kind, literal_plan, Placed, read_plan};

use number::Literal;
use outcome::Change;
use plan::{Draft, Making, Plan};
use state::{Frame, Label, Reading};
use text::Scanned;
use token::Kind;
use unit::{Follow, Indentation, Mode, Stop};

// `src`, `at`, `end` stay parameters, as in modes; a scan's fields come singly, each function takes other ones.

// The kind of an EndDocString by its indentation, which is never mixed.
// A function, as those below, no From: a Kind is token's, and what it is made of is unit's and number's.
#[tactic(auto, unfolding(crate::specs::Code::doc_kind))]
fn doc_kind(ind: Indentation) -> Kind
    ensures { result ≡ doc_kind ind }
{
    match ind {
        Indentation::Space => Kind::EndDocStringSpace,
        Indentation::Tab => Kind::EndDocStringTab,
        Indentation::None | Indentation::Mixed => Kind::EndDocStringNone,
    }
}

// The kind of a closing quote.
#[tactic(auto, unfolding(crate::specs::Code::quote_kind))]
fn quote_kind(mode: Mode) -> Kind
    ensures { result ≡ quote_kind mode }
{
    match mode {
        Mode::ShellExec => Kind::Backtick,
        _ => Kind::DoubleQuote,
    }
}

// The kind of the token that ends a text.
#[tactic(auto, unfolding(crate::specs::Code::stop_kind))]
fn stop_kind(mode: Mode, stop: Stop) -> Kind
    ensures { result ≡ stop_kind mode stop }
{
    match stop {
        Stop::Quote => quote_kind(mode),
        Stop::Interpolation => Kind::StringPart,
        Stop::DollarLeftBrace => Kind::DollarLeftBrace,
        Stop::LeftBrace => Kind::LeftBrace,
        Stop::Variable(_) => Kind::Variable,
        Stop::Label { indentation, .. } => doc_kind(indentation),
    }
}

// The indentation amount for EndDocString, else 0.
// 0 and no Option: it is a record's second number, which is 0 for the other kinds.
#[tactic(auto, unfolding(outcome::specs::Texts::stop_detail))]
fn stop_detail(stop: Stop) -> usize
    ensures { result ≡ stop_detail stop }
{
    match stop {
        Stop::Label { amount, .. } => amount,
        _ => 0,
    }
}

// The frame that comes on top after a variable.
#[tactic(auto, unfolding(outcome::specs::Texts::variable_change))]
fn variable_change(f: Follow) -> Change
    ensures { result ≡ variable_change f }
{
    match f {
        Follow::Other => Change::Keep,
        Follow::Offset => Change::Enter(Frame::VarOffset),
        Follow::Property => Change::Enter(Frame::LookingForProperty),
    }
}

// What the token that ends a text does to the mode stack.
#[tactic(auto, unfolding(outcome::specs::Texts::stop_change))]
fn stop_change(stop: Stop) -> Change
    ensures { result ≡ stop_change stop }
{
    match stop {
        Stop::Interpolation => Change::Swap(Frame::DoubleQuote),
        Stop::DollarLeftBrace => Change::Enter(Frame::LookingForVarname),
        Stop::LeftBrace => Change::Enter(Frame::Scripting),
        Stop::Variable(f) => variable_change(f),
        Stop::Quote | Stop::Label { .. } => Change::Swap(Frame::Scripting),
    }
}

// A token whose value is made: `len` bytes.
fn made_draft(kind: Kind, place: usize, making: Making, from: usize, to: usize, len: usize) -> Draft
    ensures { result ≡ made_draft kind place making from to len }
{
    Draft {
        kind: u32::from(kind),
        detail: 0,
        place,
        making,
        from,
        to,
        len,
    }
}

// Where a text ends that has this stop: before the break and the blanks of a closing line.
#[tactic(auto, unfolding(unit::specs::Readings::gap, unit::specs::Readings::text_end))]
fn text_end(stop: Stop, from: usize) -> usize
    requires { gap stop ≤ from }
    ensures { result ≡ text_end stop from }
{
    match stop {
        Stop::Label { amount, .. } => from - amount - 1,
        _ => from,
    }
}

// Whether a text's value of `len` bytes stands in a scratch part of `room` bytes. A nowdoc's does not: its label is
// looked for, and nothing is written.
#[tactic(auto, unfolding(crate::specs::Code::is_held))]
fn is_held(mode: Mode, len: usize, room: usize) -> bool
    ensures { result ≡ is_held mode len room }
{
    !matches!(mode, Mode::Nowdoc) && len <= room
}

// How a text's value comes about that is not the source's own bytes.
#[tactic(auto, unfolding(crate::specs::Code::text_making))]
fn text_making(mode: Mode, label: Label, held: bool) -> Making
    ensures { result ≡ text_making mode label held }
{
    if held {
        Making::Held { mode, label }
    } else {
        Making::Text { mode, label }
    }
}

// A text's value of `len` bytes: where nothing was escaped it is the source's own bytes.
#[tactic(auto, unfolding(crate::specs::Code::text_draft))]
fn text_draft(
    kind: Kind,
    place: usize,
    making: Making,
    at: usize,
    len: usize,
    stop: Stop,
    from: usize,
) -> Draft
    requires { at + len + gap stop ≤ from }
    ensures { result ≡ text_draft kind place making at len stop from }
{
    if at + len == text_end(stop, from) {
        return plan::copied(u32::from(kind), 0, place, at, at + len);
    }
    made_draft(kind, place, making, at, from, len)
}

// A sheet's value of `len` bytes: its rows up to the closing line. Without an indentation it is the source's own
// bytes.
#[tactic(auto, unfolding(crate::specs::Code::sheet_draft))]
fn sheet_draft(at: usize, len: usize, stop: Stop, from: usize) -> Draft
    requires { at + len + stop_detail stop ≤ from }
    ensures { result ≡ sheet_draft at len stop from }
{
    let width = stop_detail(stop);
    if width == 0 {
        return plan::copied(u32::from(Kind::StringPart), 0, at, at, at + len);
    }
    let blank = sheet::blank_of(stop);
    let making = Making::Sheet { blank, width };
    made_draft(Kind::StringPart, at, making, at, from - width, len)
}

// A mode's text, and what ends it. Both tokens bear the span where the call began.
#[tactic(auto, unfolding(crate::specs::Code::text_plan))]
fn text_plan(mode: Mode, part: Draft, stop: Stop, from: usize, after: usize) -> Plan
    requires { from ≤ after }
    ensures { result ≡ text_plan mode part stop from after }
{
    let kind = u32::from(stop_kind(mode, stop));
    let closing = plan::copied(kind, stop_detail(stop), part.place, from, after);
    plan::parted(part, closing, after, stop_change(stop))
}

// A nowdoc block read as a sheet.
#[tactic(auto, using(crate::proofs::Works::sheeting))]
pub fn sheet_mode(src: &[u8], label: Label, at: usize, end: bool) -> Plan
    requires { Here src.now at × Named src.now label }
    ensures { Plans src.now end (nowdoc Reading.Sheet (label_bytes src.now label) end at (drop at src.now)) result }
{
    let scan = sheet::scan_sheet(src, plan::label_bytes(src, label), at, end);
    match scan {
        Scanned::Text {
            len,
            stop,
            from,
            after,
        } => {
            let part = sheet_draft(at, len, stop, from);
            text_plan(Mode::Nowdoc, part, stop, from, after)
        }
        Scanned::Refused { refusal, place } => Plan::Refused { refusal, place },
        Scanned::Wait => Plan::Wait,
    }
}

// Whether a stop is an interpolation, which is left to `double_quote`.
#[tactic(auto, unfolding(outcome::specs::Texts::is_left))]
fn is_left(stop: Stop) -> bool
    ensures { result ≡ is_left stop }
{
    matches!(stop, Stop::Interpolation)
}

// The kind of a literal; none for a mode.
#[tactic(auto, unfolding(crate::specs::Code::literal_kind))]
fn literal_kind(mode: Mode) -> Option<Kind>
    ensures { result ≡ literal_kind mode }
{
    match mode {
        Mode::Single => Some(Kind::LiteralSingleQuotedString),
        Mode::Double(_) => Some(Kind::LiteralDoubleQuotedString),
        _ => None,
    }
}

// The kind of a literal's token: before an interpolation it is a part.
fn value_kind(kind: Kind, left: bool) -> Kind
    ensures { result ≡ (if left then Kind.StringPart else kind) }
{
    if left { Kind::StringPart } else { kind }
}

// A literal: one token; before an interpolation its part.
#[tactic(auto, unfolding(crate::specs::Code::literal_plan))]
fn literal_plan(draft: Draft, left: bool, after: usize) -> Plan
    ensures { result ≡ literal_plan draft left after }
{
    let change = if left {
        Change::Swap(Frame::DoubleQuote)
    } else {
        Change::Keep
    };
    plan::one(draft, after, change)
}

// The plan of a text that was measured: a literal, which bears the span of `place`, or a mode's. The scratch part has
// `room` bytes.
#[tactic(auto, using(crate::proofs::Texts::read_plans))]
fn read_plan(mode: Mode, place: usize, label: Label, at: usize, room: usize, scan: Scanned) -> Plan
    requires { Placed at scan }
    ensures { result ≡ read_plan mode place label at room scan }
{
    match scan {
        Scanned::Text {
            len,
            stop,
            from,
            after,
        } => {
            let making = text_making(mode, label, is_held(mode, len, room));
            match literal_kind(mode) {
                None => {
                    let part = text_draft(Kind::StringPart, at, making, at, len, stop, from);
                    text_plan(mode, part, stop, from, after)
                }
                Some(kind) => {
                    let left = is_left(stop);
                    let kind = value_kind(kind, left);
                    let value = text_draft(kind, place, making, at, len, stop, from);
                    literal_plan(value, left, after)
                }
            }
        }
        Scanned::Refused { refusal, place } => Plan::Refused { refusal, place },
        Scanned::Wait => Plan::Wait,
    }
}

// The text from `at` on, up to what ends it. A value that is not the source's own bytes stays in the scratch part,
// if it fits there.
#[tactic(auto, using(crate::proofs::Texts::texts))]
pub fn text(
    mode: Mode,
    src: &[u8],
    label: Label,
    place: usize,
    at: usize,
    end: bool,
    scratch: &mut [u8],
) -> Plan
    requires { Here src.now at × Named src.now label }
    ensures { PlansIn src.now end scratch.new (text_read mode place at (drop at src.now) (text_at mode (label_bytes src.now label) end at (drop at src.now))) result }
{
    let scan = text::scan_text(mode, src, plan::label_bytes(src, label), at, end, scratch);
    read_plan(mode, place, label, at, scratch.len(), scan)
}

// The kind of a number's token.
#[tactic(auto, unfolding(crate::specs::Code::number_kind))]
fn number_kind(literal: Literal) -> Kind
    ensures { result ≡ number_kind literal }
{
    match literal {
        Literal::Integer => Kind::LiteralInteger,
        Literal::Float => Kind::LiteralFloat,
    }
}

// The number at a place, as one token that bears the span of `place`.
#[tactic(auto, using(crate::proofs::Works::numbering))]
pub fn number(place: usize, src: &[u8], at: usize, end: bool) -> Plan
    requires { Here src.now at }
    ensures { Plans src.now end (numbered place (number_at end at (drop at src.now))) result }
{
    let Some(scan) = number::scan_number(src, at, end) else {
        return Plan::Wait;
    };
    let kind = number_kind(scan.literal);
    let draft = made_draft(kind, place, Making::Number, at, scan.after, scan.len);
    plan::one(draft, scan.after, Change::Keep)
}
