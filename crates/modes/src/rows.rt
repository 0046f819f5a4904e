// What a call reads: which routine is asked, and of which text, by one look at the call, the frame and the byte there.
ghost use Rattle.std.specs.Prelude.{◌≡◌, true, get_or, if◌then◌else◌};
ghost use Rattle.state.specs.Bounds.{is_frame, is_scripting};
ghost use Rattle.plan.specs.Code.{Here};
ghost use Rattle.modes.specs.Code.{plain_row, digit_way, nowdoc_way, scripts, steps, calls, Reads};

use crate::passing;
use byte::Octal;
use outcome::Call;
use state::{Choices, Frame, Label, Reading};
use unit::Mode;

// The routine that is asked. No closure: each is called at one place of `plan_of`, and is inlined there.
#[derive(Clone, Copy)]
pub enum Way {
    Number,
    Text,
    // A nowdoc block read as a sheet.
    Sheet,
    Initial,
    // The table's rows that no number and no literal begins with.
    Scripting,
    Varname,
    Property,
    Offset,
    // A reading without Scripting on top.
    Refused,
}

// What is read: the mode and the place where the text starts are a text's alone, the label a text's or a sheet's.
// One struct, no fields of `Way`'s: the clause `Reads` tells label and start of every row.
#[derive(Clone, Copy)]
pub struct Row {
    pub way: Way,
    pub mode: Mode,
    pub label: Label,
    pub start: usize,
}

// What has no label.
#[tactic(auto, using(crate::proofs::Calls::plain_row_made))]
fn plain(way: Way, mode: Mode, start: usize) -> Row
    ensures { result ≡ plain_row way mode start }
{
    Row {
        way,
        mode,
        label: plan::no_label(),
        start,
    }
}

// At Scripting: a digit at a place begins a number, and so does a `.` before one.
#[tactic(auto, using(crate::proofs::Calls::digit_ways))]
fn digit_way(src: &[u8], i: usize) -> Way
    ensures { result ≡ digit_way (get_or src.now i 0) }
{
    match src.get(i) {
        Some(b) if byte::is_digit(*b) => Way::Number,
        Some(_) => Way::Scripting,
        None => Way::Scripting,
    }
}

// At Scripting: a literal, a number, or another row of the table.
#[tactic(auto, using(crate::proofs::Calls::script_rows))]
fn script_row(octals: Octal, src: &[u8], at: usize) -> Row
    requires { Here src.now at }
    ensures { Reads (scripts octals src.now at) src.now at result }
{
    if src.len() <= at {
        return plain(Way::Scripting, Mode::Nowdoc, at);
    }
    let b = src[at];
    match b {
        b'\'' => plain(Way::Text, Mode::Single, at + 1),
        b'"' => plain(Way::Text, Mode::Double(octals), at + 1),
        b'.' => plain(digit_way(src, at + 1), Mode::Nowdoc, at),
        _ => plain(digit_way(src, at), Mode::Nowdoc, at),
    }
}

// A nowdoc block, as the session has it read.
#[tactic(auto, using(crate::proofs::Calls::nowdoc_way_arm), unfolding(crate::specs::Code::nowdoc_way))]
fn nowdoc_way(nowdocs: Reading) -> Way
    ensures { result ≡ nowdoc_way nowdocs }
{
    match nowdocs {
        Reading::Ported => Way::Text,
        Reading::Sheet => Way::Sheet,
    }
}

// What a step reads.
#[tactic(auto, using(crate::proofs::Calls::step_rows))]
fn step_row(src: &[u8], f: Frame, choices: Choices, at: usize) -> Row
    requires { Here src.now at × (is_frame src.now f ≡ true) }
    ensures { Reads (steps f src.now choices at) src.now at result }
{
    let nowdocs = choices.nowdocs;
    let octals = choices.octals;
    match f {
        Frame::Initial => plain(Way::Initial, Mode::Nowdoc, at),
        Frame::Scripting => script_row(octals, src, at),
        Frame::DoubleQuote => plain(Way::Text, Mode::DoubleQuote(octals), at),
        Frame::ShellExec => plain(Way::Text, Mode::ShellExec, at),
        Frame::Heredoc(label) => Row {
            way: Way::Text,
            mode: Mode::Heredoc(octals),
            label,
            start: at,
        },
        Frame::Nowdoc(label) => Row {
            way: nowdoc_way(nowdocs),
            mode: Mode::Nowdoc,
            label,
            start: at,
        },
        Frame::LookingForVarname => plain(Way::Varname, Mode::Nowdoc, at),
        Frame::LookingForProperty => plain(Way::Property, Mode::Nowdoc, at),
        Frame::VarOffset => plain(Way::Offset, Mode::Nowdoc, at),
    }
}

// What a reading reads, which wants Scripting on top.
#[tactic(auto, using(crate::proofs::Calls::reading_rows))]
fn reading_row(f: Frame, way: Way, mode: Mode, at: usize) -> Row
    ensures { result ≡ plain_row (if is_scripting f then way else Way.Refused) mode at }
{
    if passing::is_scripting(f) {
        return plain(way, mode, at);
    }
    plain(Way::Refused, mode, at)
}

// What a call reads with this frame on top.
#[tactic(auto, using(crate::proofs::Calls::call_rows))]
pub fn row_of(call: Call, src: &[u8], f: Frame, choices: Choices, at: usize) -> Row
    requires { Here src.now at × (is_frame src.now f ≡ true) }
    ensures { Reads (calls call f src.now choices at) src.now at result }
{
    let octals = choices.octals;
    match call {
        Call::Step => step_row(src, f, choices, at),
        Call::Number => reading_row(f, Way::Number, Mode::Nowdoc, at),
        Call::Single => reading_row(f, Way::Text, Mode::Single, at),
        Call::Double => reading_row(f, Way::Text, Mode::Double(octals), at),
    }
}
