// Number literals: how long the one at a place is, of which kind, and its value.
// Of the Rust: `tokenize_number`, `read_digits`, `read_digits_fn`, `parse_int` of mod.rs. Where no number stands it
// answers as the Rust does.
#![tactic(auto)]

ghost use Rattle.std.specs.Prelude.{◌≡◌, ◌+◌, ◌<◌, ◌≤◌, length, drop};
ghost use Rattle.byte.specs.Laid.{laid};
ghost use Rattle.number.specs.Numbers.{is_one, base_named, base_of, is_exponent, is_sign, last, digits_more, digits, signed};
ghost use Rattle.number.specs.Numbers.{power, exponent, fraction, digit_ahead, power_ahead, marked, tail, decimal, prefixed};
ghost use Rattle.number.specs.Numbers.{number_at, scanned, value_of};
ghost use Rattle.number.specs.Code.{place_of, extent_of, closing_extent, WidthAt, stopped};

mod value;

// What a number literal is.
#[derive(Clone, Copy)]
pub enum Literal {
    Integer,
    Float,
}

// What a scan found: the literal, the place after it, and how many bytes its value has.
#[derive(Clone, Copy)]
pub struct Scanned {
    pub literal: Literal,
    pub after: usize,
    pub len: usize,
}

// What a literal's digits are of.
#[derive(Clone, Copy)]
pub enum Base {
    Binary,
    Octal,
    Decimal,
    Hex,
}

// A look ahead at what follows: three answers with names of their own, which an Option<bool> would not say.
#[derive(Clone, Copy)]
enum Ahead {
    Yes,
    No,
    // The part ends before it is decided.
    Undecided,
}

// Where a literal ends, and its kind.
#[derive(Clone, Copy)]
struct Extent {
    literal: Literal,
    after: usize,
}

// A place of a part, and whether the part ends for good.
#[derive(Clone, Copy)]
struct Place<'a> {
    src: &'a [u8],
    at: usize,
    end: bool,
    ghost inside: { at ≤ length src.now },
}

// A digit of a base.
#[tactic(auto, using(crate::proofs::Runs::is_one_arm), unfolding(crate::specs::Numbers::is_one))]
fn is_one(base: Base, b: u8) -> bool
    ensures { result ≡ is_one base b }
{
    match base {
        Base::Binary => (b'0' <= b) & (b <= b'1'),
        Base::Octal => byte::is_octal(b),
        Base::Decimal => byte::is_digit(b),
        Base::Hex => byte::is_hex(b),
    }
}

// The base that the letter after a 0 names.
#[tactic(auto, using(crate::proofs::Runs::bases))]
fn base_named(b: u8) -> Base
    ensures { result ≡ base_named b }
{
    if (b == b'b') | (b == b'B') {
        return Base::Binary;
    }
    if (b == b'o') | (b == b'O') {
        return Base::Octal;
    }
    if (b == b'x') | (b == b'X') {
        return Base::Hex;
    }
    Base::Decimal
}

// The base that the first two bytes at a place name.
#[tactic(auto, using(crate::proofs::Runs::bases))]
fn base_at(src: &[u8], at: usize) -> Base
    requires { at ≤ length src.now }
    ensures { result ≡ base_of (drop at src.now) }
{
    if src.len() - at < 2 {
        return Base::Decimal;
    }
    if src[at] != b'0' {
        return Base::Decimal;
    }
    base_named(src[at + 1])
}

// The letter before an exponent.
#[tactic(auto, unfolding(crate::specs::Numbers::is_exponent))]
fn is_exponent(b: u8) -> bool
    ensures { result ≡ is_exponent b }
{
    (b == b'e') | (b == b'E')
}

#[tactic(auto, unfolding(crate::specs::Numbers::is_sign))]
fn is_sign(b: u8) -> bool
    ensures { result ≡ is_sign b }
{
    (b == b'+') | (b == b'-')
}

// Digits are all that is left of a number.
#[tactic(auto, unfolding(crate::specs::Code::closing_extent))]
fn closing_extent(literal: Literal, place: Option<usize>) -> Option<Extent>
    ensures { result ≡ closing_extent literal place }
{
    let after = place?;
    Some(Extent { literal, after })
}

impl<'a> Place<'a> {
    // Another place of the same part.
    fn moved(&self, at: usize) -> Place<'a>
        requires { at ≤ length self.now.src.now }
        ensures { (result.src.now ≡ self.now.src.now) × (result.at ≡ at) × (result.end ≡ self.now.end) }
    {
        Place {
            src: self.src,
            at,
            end: self.end,
        }
    }

    // Where digits end if the part ends here. None, here and of the extents below: more must come.
    #[tactic(auto, using(crate::proofs::Runs::last_told))]
    fn last(&self) -> Option<usize>
        ensures { result ≡ place_of (last self.now.end self.now.at) }
    {
        self.end.then_some(self.at)
    }

    // How many bytes the next digit takes, after another: 2 with a `_` before it.
    #[tactic(auto, using(crate::proofs::Runs::widths))]
    fn digit_width(&self, base: Base) -> Option<usize>
        ensures { WidthAt base self.now.src.now self.now.at result }
    {
        if self.src.len() <= self.at {
            return None;
        }
        if is_one(base, self.src[self.at]) {
            return Some(1);
        }
        if self.src[self.at] != b'_' {
            return None;
        }
        if self.src.len() - self.at < 2 {
            return None;
        }
        is_one(base, self.src[self.at + 1]).then_some(2)
    }

    // Where digits end with no digit ahead: a `_` that the part ends with may still stand between two.
    #[tactic(auto, using(crate::proofs::Runs::stops))]
    fn digits_stop(&self) -> Option<usize>
        ensures { result ≡ place_of (stopped self.now.end self.now.at (drop self.now.at self.now.src.now)) }
    {
        if self.src.len() <= self.at {
            return self.last();
        }
        if self.src[self.at] != b'_' {
            return Some(self.at);
        }
        if self.src.len() - self.at < 2 {
            return self.last();
        }
        Some(self.at)
    }

    // Where the digits after a digit end.
    #[tactic(auto, using(crate::proofs::Runs::passing))]
    fn digits_more_end(&self, base: Base) -> Option<usize>
        ensures { result ≡ place_of (digits_more base self.now.end self.now.at (drop self.now.at self.now.src.now)) }
    {
        let mut at = self.at;
        // A digit is one byte or two: no range and no iterator goes by such steps.
        while let Some(width) = self.moved(at).digit_width(base) {
            at += width;
        }
        self.moved(at).digits_stop()
    }

    // Where digits end: at the place itself where there are none. Inlined: a place then stays in registers.
    #[inline(always)]
    #[tactic(auto, using(crate::proofs::Runs::digits_ends))]
    fn digits_end(&self, base: Base) -> Option<usize>
        ensures { result ≡ place_of (digits base self.now.end self.now.at (drop self.now.at self.now.src.now)) }
    {
        if self.src.len() <= self.at {
            return self.last();
        }
        if !is_one(base, self.src[self.at]) {
            return Some(self.at);
        }
        self.moved(self.at + 1).digits_more_end(base)
    }

    // Where the exponent ends whose letter stands before the place.
    #[tactic(auto, using(crate::proofs::Runs::signed_ends))]
    fn signed_end(&self) -> Option<usize>
        ensures { result ≡ place_of (signed self.now.end self.now.at (drop self.now.at self.now.src.now)) }
    {
        if self.src.len() <= self.at {
            return self.last();
        }
        if is_sign(self.src[self.at]) {
            return self.moved(self.at + 1).digits_end(Base::Decimal);
        }
        self.digits_end(Base::Decimal)
    }

    // A float whose exponent's letter stands before the place.
    #[tactic(auto, using(crate::proofs::Extents::power_told))]
    fn power_extent(&self) -> Option<Extent>
        ensures { result ≡ extent_of (power self.now.end self.now.at (drop self.now.at self.now.src.now)) }
    {
        closing_extent(Literal::Float, self.signed_end())
    }

    // A float after its point's digits: an exponent is taken, bare or not.
    #[tactic(auto, using(crate::proofs::Extents::exponents))]
    fn exponent_extent(&self) -> Option<Extent>
        ensures { result ≡ extent_of (exponent self.now.end self.now.at (drop self.now.at self.now.src.now)) }
    {
        if self.src.len() <= self.at {
            return closing_extent(Literal::Float, self.last());
        }
        if is_exponent(self.src[self.at]) {
            return self.moved(self.at + 1).power_extent();
        }
        closing_extent(Literal::Float, Some(self.at))
    }

    // A float after its point.
    #[tactic(auto, using(crate::proofs::Extents::fractions))]
    fn fraction_extent(&self) -> Option<Extent>
        ensures { result ≡ extent_of (fraction self.now.end self.now.at (drop self.now.at self.now.src.now)) }
    {
        let after = self.digits_end(Base::Decimal)?;
        self.moved(after).exponent_extent()
    }

    // Whether a digit follows.
    #[tactic(auto, using(crate::proofs::Extents::aheads), unfolding(crate::specs::Numbers::digit_ahead))]
    fn digit_ahead(&self) -> Ahead
        ensures { result ≡ digit_ahead self.now.end (drop self.now.at self.now.src.now) }
    {
        if self.src.len() <= self.at {
            if self.end {
                return Ahead::No;
            }
            return Ahead::Undecided;
        }
        if byte::is_digit(self.src[self.at]) {
            return Ahead::Yes;
        }
        Ahead::No
    }

    // Whether a digit follows, or a sign and a digit.
    #[tactic(auto, using(crate::proofs::Extents::aheads))]
    fn power_ahead(&self) -> Ahead
        ensures { result ≡ power_ahead self.now.end (drop self.now.at self.now.src.now) }
    {
        if self.src.len() <= self.at {
            return self.digit_ahead();
        }
        if is_sign(self.src[self.at]) {
            return self.moved(self.at + 1).digit_ahead();
        }
        self.digit_ahead()
    }

    // An `e` after whole digits: it makes a float only where digits follow.
    #[tactic(auto, using(crate::proofs::Extents::marks))]
    fn marked_extent(&self) -> Option<Extent>
        requires { self.now.at < length self.now.src.now }
        ensures { result ≡ extent_of (marked self.now.end self.now.at (drop (self.now.at + 1) self.now.src.now)) }
    {
        match self.moved(self.at + 1).power_ahead() {
            Ahead::Yes => self.moved(self.at + 1).power_extent(),
            Ahead::No => closing_extent(Literal::Integer, Some(self.at)),
            Ahead::Undecided => None,
        }
    }

    // A number after its whole digits.
    #[tactic(auto, using(crate::proofs::Extents::tails))]
    fn tail_extent(&self) -> Option<Extent>
        ensures { result ≡ extent_of (tail self.now.end self.now.at (drop self.now.at self.now.src.now)) }
    {
        if self.src.len() <= self.at {
            return closing_extent(Literal::Integer, self.last());
        }
        if self.src[self.at] == b'.' {
            return self.moved(self.at + 1).fraction_extent();
        }
        if is_exponent(self.src[self.at]) {
            return self.marked_extent();
        }
        closing_extent(Literal::Integer, Some(self.at))
    }

    // A decimal number.
    #[tactic(auto, using(crate::proofs::Extents::decimals))]
    fn decimal_extent(&self) -> Option<Extent>
        ensures { result ≡ extent_of (decimal self.now.end self.now.at (drop self.now.at self.now.src.now)) }
    {
        let after = self.digits_end(Base::Decimal)?;
        self.moved(after).tail_extent()
    }

    // A number whose base its first two bytes name.
    #[tactic(auto, using(crate::proofs::Extents::prefixed_told))]
    fn prefixed_extent(&self, base: Base) -> Option<Extent>
        requires { self.now.at + 2 ≤ length self.now.src.now }
        ensures { result ≡ extent_of (prefixed base self.now.end self.now.at (drop self.now.at self.now.src.now)) }
    {
        closing_extent(Literal::Integer, self.moved(self.at + 2).digits_end(base))
    }

    // Where the number at a place ends, and its kind.
    #[tactic(auto, using(crate::proofs::Extents::numbers))]
    fn number_extent(&self) -> Option<Extent>
        ensures { result ≡ extent_of (number_at self.now.end self.now.at (drop self.now.at self.now.src.now)) }
    {
        // An arm each: so each base has a loop of its own over its digits.
        match base_at(self.src, self.at) {
            Base::Binary => self.prefixed_extent(Base::Binary),
            Base::Octal => self.prefixed_extent(Base::Octal),
            Base::Decimal => self.decimal_extent(),
            Base::Hex => self.prefixed_extent(Base::Hex),
        }
    }
}

// How many bytes the value of the number from `at` up to `after` has.
#[tactic(auto, using(crate::proofs::Writing::value_of_length))]
fn value_length(src: &[u8], at: usize, after: usize) -> usize
    requires at_le_after { at ≤ after }
    requires after_in_bounds { after ≤ length src.now }
    ensures { result ≡ length (value_of src.now at after) }
{
    value::spelled_length(&src[at..after])
}

// The number at a place: its kind, the place after it, and the length of its value; None: more must come.
#[tactic(auto, using(crate::proofs::Writing::scans))]
pub fn scan_number(src: &[u8], at: usize, end: bool) -> Option<Scanned>
    requires { at ≤ length src.now }
    ensures { result ≡ scanned (number_at end at (drop at src.now)) }
{
    let Extent { literal, after } = Place { src, at, end }.number_extent()?;
    let len = value_length(src, at, after);
    Some(Scanned {
        literal,
        after,
        len,
    })
}

// The value of the number from `at` up to `after`, written to the start of a part; no other place of it changes.
#[tactic(auto, using(crate::proofs::Writing::values))]
pub fn write_number(src: &[u8], at: usize, after: usize, dst: &mut [u8])
    requires at_le_after { at ≤ after }
    requires after_in_bounds { after ≤ length src.now }
    requires after_in_bounds_2 { length (value_of src.now at after) ≤ length dst.old }
    ensures { dst.new ≡ laid dst.old 0 (value_of src.now at after) }
{
    let base = base_at(src, at);
    value::write_spelled(&src[at..after], base, dst);
}
