// Escapes: what a backslash and the bytes after it stand for, and code points in UTF-8.
// Of the Rust: the escapes of its string routines, read by one reader. In the order of unit's definitions, Digits
// and then Escapes.
#![tactic(auto)]

ghost use Rattle.std.specs.Prelude.{◌≡◌, false, ltb, ◌+◌, ◌*◌, ◌≤◌, ◌<◌, length, drop, if◌then◌else◌, MatchOption};
ghost use Rattle.byte.specs.Laid.{laid};
ghost use Rattle.unit.specs.declared.TextUnit.{TextUnit};
ghost use Rattle.unit.specs.Digits.{digit_value, is_scalar, utf8};
ghost use Rattle.unit.specs.Escapes.{last, backslash, letter_value, overflowing, fitted, digits, hex, code_point, braced, escape, quote_escape};

use byte::{Octal, Refusal};
use unit::TextUnit;

// The value of a digit of this base; none of any other byte.
#[tactic(auto, using(crate::proofs::Digits::digit_told))]
fn digit_of(b: u8, base: u32) -> Option<u32>
    requires { (2 ≤ base) × (base ≤ 16) }
    ensures { MatchOption result (base ≤ digit_value b) (λ d. (d ≡ digit_value b) × (d < base)) }
{
    char::from(b).to_digit(base)
}

// How many bytes a code point has in UTF-8. No `char::len_utf8`: this is told of surrogates and larger numbers too.
#[tactic(auto, using(crate::proofs::Digits::utf8_lengths))]
pub fn utf8_len(code: u32) -> usize
    ensures { result ≡ length (utf8 code) }
{
    if code < 0x80 {
        return 1;
    }
    if code < 0x800 {
        return 2;
    }
    if code < 0x10000 {
        return 3;
    }
    4
}

// Bytes at a place of a part.
// As token's `put_value`: this crate does not stand on that one. How many is a constant, so `memcpy` isn't called.
#[tactic(auto, unfolding(byte::specs::Laid::laid))]
fn put<const N: usize>(dst: &mut [u8], at: usize, bytes: &[u8; N])
    requires { at + length bytes.now ≤ length dst.old }
    ensures { dst.new ≡ laid dst.old at bytes.now }
{
    dst[at..at + N].copy_from_slice(bytes);
}

// A code point in UTF-8, at a place of a part. No `char::encode_utf8`: it would refuse surrogates.
// `as`, here and below: it fits by the contract, and `try_from` would bring an arm that never comes.
#[tactic(auto, using(crate::proofs::Digits::utf8_writes))]
pub fn put_utf8(dst: &mut [u8], at: usize, code: u32)
    requires { (code < 1114112) × (at + length (utf8 code) ≤ length dst.old) }
    ensures { dst.new ≡ laid dst.old at (utf8 code) }
{
    if code < 0x80 {
        put(dst, at, &[code as u8]);
        return;
    }
    let last = (0x80 + code % 64) as u8;
    if code < 0x800 {
        put(dst, at, &[(0xC0 + code / 64) as u8, last]);
        return;
    }
    let before = (0x80 + code / 64 % 64) as u8;
    if code < 0x10000 {
        put(dst, at, &[(0xE0 + code / 4096) as u8, before, last]);
        return;
    }
    let second = (0x80 + code / 4096 % 64) as u8;
    put(
        dst,
        at,
        &[(0xF0 + code / 262144) as u8, second, before, last],
    );
}

// `src`, `at`, `end` stay parameters: four private functions alone take all three, under two kinds of bounds.

// Nothing is left: this at the announced end, else undecided.
// As `last_tag` and its kin: one function for all would take both answers, and say no more than this `if`.
fn last(end: bool, unit: TextUnit) -> TextUnit
    ensures { result ≡ last end unit }
{
    if end {
        return unit;
    }
    TextUnit::Undecided
}

// The backslash stands for itself.
fn backslash(at: usize) -> TextUnit
    ensures { result ≡ backslash at }
{
    TextUnit::Byte {
        value: b'\\',
        after: at,
    }
}

// The byte that a backslash and this letter stand for; none where the two are no escape.
#[tactic(auto, using(crate::proofs::Escapes::letters_told), unfolding(unit::specs::Escapes::letter_value))]
fn letter_value(b: u8) -> Option<u8>
    ensures { MatchOption result (256 ≤ letter_value b) (λ v. v ≡ letter_value b) }
{
    match b {
        b'n' => Some(b'\n'),
        b'r' => Some(b'\r'),
        b't' => Some(b'\t'),
        b'v' => Some(0x0B),
        b'e' => Some(0x1B),
        b'f' => Some(0x0C),
        b'\\' | b'$' | b'"' => Some(b),
        _ => None,
    }
}

// A value over 255, after its digits.
#[tactic(auto, using(crate::proofs::Escapes::overflowing_arm), unfolding(unit::specs::Escapes::overflowing))]
fn overflowing(octals: Octal, value: u32, n: usize) -> TextUnit
    ensures { result ≡ overflowing octals value n }
{
    match octals {
        Octal::Rust => TextUnit::Fault {
            refusal: Refusal::InvalidOctalEscape,
            place: n,
        },
        Octal::Manual => TextUnit::Byte {
            value: (value % 256) as u8,
            after: n,
        },
    }
}

// Digits with this value end before n.
#[tactic(auto, using(crate::proofs::Escapes::choices), unfolding(unit::specs::Escapes::fitted))]
fn fitted(octals: Octal, value: u32, n: usize) -> TextUnit
    ensures { result ≡ fitted octals value n }
{
    if let Ok(value) = u8::try_from(value) {
        return TextUnit::Byte { value, after: n };
    }
    overflowing(octals, value, n)
}

// After a digit of a base with this value: at most MORE digits follow.
#[tactic(auto, using(crate::proofs::Escapes::digit_runs))]
fn digits_at<const BASE: u32, const MORE: usize>(
    octals: Octal,
    src: &[u8],
    at: usize,
    end: bool,
    first: u32,
) -> TextUnit
    requires few { MORE ≤ 2 }
    requires base { (2 ≤ BASE) × (BASE ≤ 16) }
    requires first { first < 16 }
    requires inside { at ≤ length src.now }
    ensures { result ≡ digits octals end BASE MORE first at (drop at src.now) }
{
    let mut value = first;
    for n in at..at + MORE {
        if src.len() <= n {
            let unit = fitted(octals, value, n);
            return last(end, unit);
        }
        let Some(digit) = digit_of(src[n], BASE) else {
            return fitted(octals, value, n);
        };
        value = value * BASE + digit;
    }
    fitted(octals, value, at + MORE)
}

// `\x`, its `x` at `at`.
#[tactic(auto, using(crate::proofs::Escapes::hexes))]
fn hex_at(octals: Octal, src: &[u8], at: usize, end: bool) -> TextUnit
    requires { at < length src.now }
    ensures { result ≡ hex octals end at (drop (at + 1) src.now) }
{
    let n = at + 1;
    if src.len() <= n {
        let unit = backslash(at);
        return last(end, unit);
    }
    let Some(digit) = digit_of(src[n], 16) else {
        return backslash(at);
    };
    digits_at::<16, 1>(octals, src, n + 1, end, digit)
}

// One digit more. From 0x110000 on the value no longer grows: what is no code point stays none.
#[tactic(auto, using(crate::proofs::Escapes::choices))]
fn grown(value: u32, digit: u32) -> u32
    requires { digit < 16 }
    ensures { result ≡ (if ltb value 1114112 then value * 16 + digit else value) }
{
    if value < 0x110000 {
        return value * 16 + digit;
    }
    value
}

// A value in closed braces.
#[tactic(auto, using(crate::proofs::Digits::scalar_point))]
fn closed(code: u32, after: usize) -> TextUnit
    ensures { result ≡ (if is_scalar code then TextUnit.Point code after else TextUnit.Fault Refusal.InvalidUnicodeEscape after) }
{
    if char::from_u32(code).is_some() {
        return TextUnit::Point { code, after };
    }
    TextUnit::Fault {
        refusal: Refusal::InvalidUnicodeEscape,
        place: after,
    }
}

// After `\u{`.
#[tactic(auto, using(crate::proofs::Escapes::pointing))]
fn code_point_at(src: &[u8], at: usize, end: bool) -> TextUnit
    requires { at ≤ length src.now }
    ensures { result ≡ code_point end false 0 at (drop at src.now) }
{
    let mut value = None;
    for n in at..src.len() {
        let Some(digit) = digit_of(src[n], 16) else {
            return match value {
                Some(code) if src[n] == b'}' => closed(code, n + 1),
                _ => TextUnit::Fault {
                    refusal: Refusal::InvalidUnicodeEscape,
                    place: n,
                },
            };
        };
        value = Some(grown(value.unwrap_or(0), digit));
    }
    let fault = TextUnit::Fault {
        refusal: Refusal::InvalidUnicodeEscape,
        place: src.len(),
    };
    last(end, fault)
}

// `\u`, its `u` at `at`.
#[tactic(auto, using(crate::proofs::Escapes::bracings), unfolding(unit::specs::Escapes::braced))]
fn braced_at(src: &[u8], at: usize, end: bool) -> TextUnit
    requires { at < length src.now }
    ensures { result ≡ braced end at (drop (at + 1) src.now) }
{
    let n = at + 1;
    if src.len() <= n {
        let unit = backslash(at);
        return last(end, unit);
    }
    if src[n] == b'{' {
        return code_point_at(src, n + 1, end);
    }
    backslash(at)
}

// What stands after the backslash before `at`, in double quotes and heredocs.
#[tactic(auto, using(crate::proofs::Escapes::escapes))]
pub fn escape_at(octals: Octal, src: &[u8], at: usize, end: bool) -> TextUnit
    requires { (at ≤ length src.now) × (length src.now ≤ 65536) }
    ensures { result ≡ escape octals end at (drop at src.now) }
{
    if src.len() <= at {
        let unit = backslash(at);
        return last(end, unit);
    }
    let b = src[at];
    if let Some(value) = letter_value(b) {
        return TextUnit::Byte {
            value,
            after: at + 1,
        };
    }
    if let Some(digit) = digit_of(b, 8) {
        return digits_at::<8, 2>(octals, src, at + 1, end, digit);
    }
    if b == b'x' {
        return hex_at(octals, src, at, end);
    }
    if b == b'u' {
        return braced_at(src, at, end);
    }
    backslash(at)
}

// The same in single quotes.
#[tactic(auto, using(crate::proofs::Escapes::quote_escapes))]
pub fn quote_escape_at(src: &[u8], at: usize, end: bool) -> TextUnit
    requires { (at ≤ length src.now) × (length src.now ≤ 65536) }
    ensures { result ≡ quote_escape end at (drop at src.now) }
{
    if src.len() <= at {
        let unit = backslash(at);
        return last(end, unit);
    }
    let b = src[at];
    if (b == b'\'') | (b == b'\\') {
        return TextUnit::Byte {
            value: b,
            after: at + 1,
        };
    }
    backslash(at)
}
