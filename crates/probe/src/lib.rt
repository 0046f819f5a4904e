// The readings one at a time, as numbers, for the comparison with the Rust. A `&[u8]` crosses as a pointer and a
// length.
// Any numbers at all may come in: what can't be taken is refused by its number, and nothing is written then.
// In order: a mode and a stop as numbers; the scan asked for; the two functions for texts; the two for numbers.
#![tactic(auto)]

ghost use Rattle.std.specs.Prelude.{◌≡◌};
ghost use Rattle.byte.specs.Refusals.{number_of};
ghost use Rattle.text.specs.Code.{measured};
ghost use Rattle.probe.specs.Probes.{mode_of, asked, stop_number, amount_of, refusal, numbered, Valued};
ghost use Rattle.probe.specs.Literals.{literal_number, counted, asked_number, NumberValued};

use byte::{Octal, Refusal};
use number::Literal;
use text::Scanned;
use unit::{Follow, Indentation, Mode, Stop};

// What a scan found. Refused: `number` is not 0, and `place` says where. A text: what ended it as `stop`, the amount
// of a label's indentation as `detail`, from where to where that stands, and how many bytes the value has.
#[repr(C)]
#[derive(Clone, Copy)]
pub struct Probed {
    pub number: u32,
    pub stop: u32,
    pub place: usize,
    pub detail: usize,
    pub from: usize,
    pub after: usize,
    pub len: usize,
}

// The mode of a number, 0 to 8; from 6 on, octal escapes are read as the manual has them.
// Functions, no From: the types are of crates below, and any number gives a mode.
#[tactic(auto, unfolding(crate::specs::Probes::mode_of))]
fn mode_of(n: u32) -> Mode
    ensures { result ≡ mode_of n }
{
    match n {
        0 => Mode::Single,
        1 => Mode::Double(Octal::Rust),
        2 => Mode::DoubleQuote(Octal::Rust),
        3 => Mode::ShellExec,
        4 => Mode::Heredoc(Octal::Rust),
        6 => Mode::Double(Octal::Manual),
        7 => Mode::DoubleQuote(Octal::Manual),
        8 => Mode::Heredoc(Octal::Manual),
        _ => Mode::Nowdoc,
    }
}

#[tactic(auto, unfolding(crate::specs::Probes::stop_number))]
fn follow_number(f: Follow) -> u32
    ensures { result ≡ stop_number (Stop.Variable f) }
{
    match f {
        Follow::Other => 4,
        Follow::Offset => 5,
        Follow::Property => 6,
    }
}

#[tactic(auto, unfolding(crate::specs::Probes::stop_number))]
fn label_number(ind: Indentation, amount: usize) -> u32
    ensures { result ≡ stop_number (Stop.Label ind amount) }
{
    match ind {
        Indentation::None => 7,
        Indentation::Space => 8,
        Indentation::Tab => 9,
        Indentation::Mixed => 10,
    }
}

// What ended a text, as a number.
#[tactic(auto, unfolding(crate::specs::Probes::stop_number))]
fn stop_number(stop: Stop) -> u32
    ensures { result ≡ stop_number stop }
{
    match stop {
        Stop::Quote => 0,
        Stop::Interpolation => 1,
        Stop::DollarLeftBrace => 2,
        Stop::LeftBrace => 3,
        Stop::Variable(follow) => follow_number(follow),
        Stop::Label {
            indentation,
            amount,
        } => label_number(indentation, amount),
    }
}

// The amount of a label's indentation; 0 for another stop.
// As the `stop_detail` of drafts, on which this crate does not stand.
#[tactic(auto, unfolding(crate::specs::Probes::amount_of))]
fn amount_of(stop: Stop) -> usize
    ensures { result ≡ amount_of stop }
{
    match stop {
        Stop::Label { amount, .. } => amount,
        _ => 0,
    }
}

// No text: a refusal or wait, by its number, and where.
fn refusal(why: Refusal, place: usize) -> Probed
    ensures { result ≡ refusal (number_of why) place }
{
    Probed {
        number: u32::from(why),
        stop: 0,
        place,
        detail: 0,
        from: 0,
        after: 0,
        len: 0,
    }
}

#[tactic(auto, unfolding(crate::specs::Probes::numbered))]
fn numbered(s: Scanned) -> Probed
    ensures { result ≡ numbered s }
{
    match s {
        Scanned::Text {
            len,
            stop,
            from,
            after,
        } => Probed {
            number: 0,
            stop: stop_number(stop),
            place: 0,
            detail: amount_of(stop),
            from,
            after,
            len,
        },
        Scanned::Refused {
            refusal: why,
            place,
        } => refusal(why, place),
        Scanned::Wait => refusal(Refusal::Wait, 0),
    }
}

// A reading that can't be asked for.
fn refused(refusal: Refusal) -> Scanned
    ensures { result ≡ Scanned.Refused refusal 0 }
{
    Scanned::Refused { refusal, place: 0 }
}

// The reading asked for, measured; or why there is none.
#[tactic(auto, using(crate::proofs::Probes::askings))]
fn scanned(mode: u32, src: &[u8], label: &[u8], at: usize, end: u32) -> Scanned
    ensures { result ≡ measured (asked mode src.now label.now at end) }
{
    if 65536 < src.len() {
        return refused(Refusal::TooLarge);
    }
    if 8 < mode || src.len() < at || 64 < label.len() {
        return refused(Refusal::OutOfPlace);
    }
    text::scan_text(mode_of(mode), src, label, at, end != 0, &mut [])
}

// A text from `at` on: what ended it and how long its value is. With `end` 0, more may come after the source.
#[tactic(auto, using(crate::proofs::Probes::numbered_same))]
#[unsafe(no_mangle)]
pub extern "C" fn puretakoi_probe_text(
    mode: u32,
    src: &[u8],
    label: &[u8],
    at: usize,
    end: u32,
) -> Probed
    ensures { result ≡ numbered (measured (asked mode src.now label.now at end)) }
{
    numbered(scanned(mode, src, label, at, end))
}

// The value of the same text, at the start of a part. The answer is 0, or a refusal and nothing is written: 8 where
// it does not fit.
#[unsafe(no_mangle)]
pub extern "C" fn puretakoi_probe_value(
    mode: u32,
    src: &[u8],
    label: &[u8],
    at: usize,
    end: u32,
    value: &mut [u8],
) -> u32
    ensures { Valued value.old (asked mode src.now label.now at end) result value.new }
{
    match scanned(mode, src, label, at, end) {
        Scanned::Text { len, .. } => {
            if value.len() < len {
                return u32::from(Refusal::PoolFull);
            }
            text::read_text(mode_of(mode), src, label, at, end != 0, &mut value[..len]);
            0
        }
        Scanned::Refused { refusal, .. } => u32::from(refusal),
        Scanned::Wait => u32::from(Refusal::Wait),
    }
}

#[tactic(auto, unfolding(crate::specs::Literals::literal_number))]
fn literal_number(literal: Literal) -> u32
    ensures { result ≡ literal_number literal }
{
    match literal {
        Literal::Integer => 0,
        Literal::Float => 1,
    }
}

// A number without its bytes: its kind stands as `stop`.
#[tactic(auto, using(crate::proofs::Literals::countings))]
fn counted(scan: Option<number::Scanned>) -> Probed
    ensures { result ≡ counted scan }
{
    let Some(found) = scan else {
        return refusal(Refusal::Wait, 0);
    };
    Probed {
        number: 0,
        stop: literal_number(found.literal),
        place: 0,
        detail: 0,
        from: found.after,
        after: found.after,
        len: found.len,
    }
}

// A number from `at` on: its kind, the place after it and how long its value is.
// The tests stand in each: `NumberValued` and `asked_number` are clauses of their own.
#[tactic(auto, using(crate::proofs::Literals::numbers_asked))]
#[unsafe(no_mangle)]
pub extern "C" fn puretakoi_probe_number(src: &[u8], at: usize, end: u32) -> Probed
    ensures { result ≡ asked_number src.now at end }
{
    if 65536 < src.len() {
        return refusal(Refusal::TooLarge, 0);
    }
    if src.len() < at {
        return refusal(Refusal::OutOfPlace, 0);
    }
    counted(number::scan_number(src, at, end != 0))
}

// The value of the same number, at the start of a part. The answer is 0, or a refusal and nothing is written.
#[tactic(auto, using(crate::proofs::Literals::number_values))]
#[unsafe(no_mangle)]
pub extern "C" fn puretakoi_probe_number_value(
    src: &[u8],
    at: usize,
    end: u32,
    value: &mut [u8],
) -> u32
    ensures { NumberValued src.now at end value.old result value.new }
{
    if 65536 < src.len() {
        return u32::from(Refusal::TooLarge);
    }
    if src.len() < at {
        return u32::from(Refusal::OutOfPlace);
    }
    let Some(found) = number::scan_number(src, at, end != 0) else {
        return u32::from(Refusal::Wait);
    };
    if found.len > value.len() {
        return u32::from(Refusal::PoolFull);
    }
    number::write_number(src, at, found.after, value);
    0
}
