// Bytes: their classes; the refusals, by name and by number; and the choice that decides one byte.
// Of the Rust: the byte tests of its macros, and error.rs.
#![tactic(auto, using(crate::proofs::Table::tests))]

ghost use Rattle.std.specs.Prelude.{ℕ, ◌≡◌, ◌≤◌, if◌then◌else◌};
ghost use Rattle.byte.specs.Bytes.{is_digit, is_octal, is_hex, is_letter, is_start, is_identifier, is_blank, is_no_break, is_none_of};
ghost use Rattle.byte.specs.declared.Refusal.{Refusal};
ghost use Rattle.byte.specs.Refusals.{number_of};
ghost use Rattle.byte.specs.Classes.{is_sign, is_alone, classes_of};

mod classes;

use classes::{Class, is_classed};

// Why a call refuses (document 01, "Refusal numbers").
#[derive(Clone, Copy, PartialEq, Eq)]
pub enum Refusal {
    UnexpectedEndOfFile,
    InvalidUnicodeEscape,
    InvalidOctalEscape,
    InvalidDocIndentation,
    // Neither arrow nor identifier where a property should stand.
    NoProperty,
    // More must come before this can be told.
    Wait,
    ListFull,
    PoolFull,
    // A frame would be the 65th.
    StackFull,
    // The call does not fit: a skip past the end, a pop of the last frame, a pushed label that is none, a reading
    // without Scripting on top.
    OutOfPlace,
    TooLarge,
    BadSession,
    // Sheet reading: another byte inside the indentation.
    StrayIndentation,
}

// The number by which a host knows a refusal.
impl From<Refusal> for u32 {
    ghost from_gives = { λ refusal number. number ≡ number_of refusal };

    fn from(refusal: Refusal) -> u32 {
        match refusal {
            Refusal::UnexpectedEndOfFile => 1,
            Refusal::InvalidUnicodeEscape => 2,
            Refusal::InvalidOctalEscape => 3,
            Refusal::InvalidDocIndentation => 4,
            Refusal::NoProperty => 5,
            Refusal::Wait => 6,
            Refusal::ListFull => 7,
            Refusal::PoolFull => 8,
            Refusal::StackFull => 9,
            Refusal::OutOfPlace => 10,
            Refusal::TooLarge => 11,
            Refusal::BadSession => 12,
            Refusal::StrayIndentation => 13,
        }
    }
}

// What names a refusal, and has a number: a Refusal, or any number itself.
pub trait RefusalName: Copy {
    ghost named: { Refusal → Self };

    ghost number: { Self → ℕ };

    // The name of a refusal.
    fn named(refusal: Refusal) -> Self
        ensures { result ≡ named refusal };

    // The number by which a host knows what is named.
    fn number(self) -> u32
        ensures { result ≡ number self };
}

impl RefusalName for Refusal {
    ghost named = { λ refusal. refusal };

    ghost number = { number_of };

    fn named(refusal: Refusal) -> Refusal {
        refusal
    }

    fn number(self) -> u32 {
        u32::from(self)
    }
}

impl RefusalName for u32 {
    ghost named = { number_of };

    ghost number = { λ number. number };

    fn named(refusal: Refusal) -> u32 {
        u32::from(refusal)
    }

    fn number(self) -> u32 {
        self
    }
}

// What an octal escape over 255 stands for: `\400` to `\777`.
#[derive(Clone, Copy)]
pub enum Octal {
    // Nothing: it is refused, as in the Rust.
    Rust,
    // The number's low eight bits, one byte, as in the PHP manual.
    Manual,
}

// A decimal digit.
pub fn is_digit(b: u8) -> bool
    ensures { result ≡ is_digit b }
{
    is_classed(b, Class::O, Class::E)
}

// A digit of an octal escape.
pub fn is_octal(b: u8) -> bool
    ensures { result ≡ is_octal b }
{
    is_classed(b, Class::O, Class::O)
}

// A hex digit, in either letter case.
pub fn is_hex(b: u8) -> bool
    ensures { result ≡ is_hex b }
{
    is_classed(b, Class::O, Class::H)
}

// A letter of ASCII.
pub fn is_letter(b: u8) -> bool
    ensures { result ≡ is_letter b }
{
    is_classed(b, Class::H, Class::L)
}

// What an identifier may start with.
pub fn is_start(b: u8) -> bool
    ensures { result ≡ is_start b }
{
    is_classed(b, Class::H, Class::U)
}

// What may stand in an identifier after its start.
pub fn is_identifier(b: u8) -> bool
    ensures { result ≡ is_identifier b }
{
    is_classed(b, Class::O, Class::U)
}

// A space or a tab.
pub fn is_blank(b: u8) -> bool
    ensures { result ≡ is_blank b }
{
    is_classed(b, Class::B, Class::B)
}

// Neither a sign nor an identifier byte: at Scripting it is passed alone.
pub fn is_alone(b: u8) -> bool
    ensures { result ≡ is_alone b }
{
    is_classed(b, Class::N, Class::B)
}

// One of ' " ` . { } ? < / #, each of which begins a row of its own in the table for Scripting.
pub fn is_sign(b: u8) -> bool
    ensures { result ≡ is_sign b }
{
    is_classed(b, Class::S, Class::S)
}

// All that a byte counts as, a flag each.
pub fn classes_of(b: u8) -> u32
    ensures { result ≡ classes_of b }
{
    u32::from(is_blank(b))
        + u32::from(is_octal(b)) * 2
        + u32::from(is_digit(b)) * 4
        + u32::from(is_hex(b)) * 8
        + u32::from(is_letter(b)) * 16
        + u32::from(is_start(b)) * 32
        + u32::from(is_identifier(b)) * 64
        + u32::from(is_sign(b)) * 128
}

// No LF.
#[tactic(auto, unfolding(crate::specs::Bytes::is_no_break))]
pub fn is_no_break(b: u8) -> bool
    ensures { result ≡ is_no_break b }
{
    b != b'\n'
}

// None of four bytes.
#[tactic(auto, unfolding(crate::specs::Bytes::is_none_of))]
pub fn is_none_of(w: u8, x: u8, y: u8, z: u8, b: u8) -> bool
    ensures { result ≡ is_none_of w x y z b }
{
    (b != w) & (b != x) & (b != y) & (b != z)
}
