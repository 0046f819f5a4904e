// The value of a literal's text: no `_`, and `e` for `E` outside hexadecimal.
ghost use Rattle.std.specs.Prelude.{◌≡◌, ◌≤◌, length};
ghost use Rattle.byte.specs.Laid.{laid};
ghost use Rattle.number.specs.declared.Base.{Base};
ghost use Rattle.number.specs.Numbers.{lower_exponent, spelling, spelled};

use crate::Base;

// How many bytes of a literal's text its value has: all but `_`.
// A loop by hand: it is compiled to count many bytes at once, which `filter` and `count` are not.
#[tactic(auto, using(crate::proofs::Writing::counting))]
pub fn spelled_length(part: &[u8]) -> usize
    ensures { result ≡ length (spelled Base.Decimal part.now) }
{
    let mut len = 0;
    for &b in part {
        if b != b'_' {
            len += 1;
        }
    }
    len
}

// `E` is stored as `e`.
#[tactic(auto, using(crate::proofs::Writing::lowering))]
fn lower_exponent(b: u8) -> u8
    ensures { result ≡ lower_exponent b }
{
    if b == b'E' { b'e' } else { b }
}

// A byte of a literal as its value has it.
#[tactic(auto, using(crate::proofs::Writing::spellings))]
fn spelling(base: Base, b: u8) -> u8
    ensures { result ≡ spelling base b }
{
    match base {
        Base::Hex => b,
        _ => lower_exponent(b),
    }
}

// The value of a literal's text, written to the start of a part.
#[tactic(auto, using(crate::proofs::Writing::storing))]
pub fn write_spelled(part: &[u8], base: Base, dst: &mut [u8])
    requires { length (spelled base part.now) ≤ length dst.old }
    ensures { dst.new ≡ laid dst.old 0 (spelled base part.now) }
{
    // The bytes that are kept so far: not the loop's index.
    let mut len = 0;
    for b in part {
        if *b != b'_' {
            dst[len] = spelling(base, *b);
            len += 1;
        }
    }
}
