// The source: the first break or stop from a place on, the cursor, the identifier at a place; bytes by words (words).
// Of the Rust: state/source.rs, and `peek_identifier` of mod.rs. A cursor is a value beside the lent bytes.
#![tactic(auto)]

ghost use Rattle.std.specs.Prelude.{◌≡◌, ℕ, Bool, false, not, ◌+◌, ◌-◌, ◌^◌, ◌<◌, ◌≤◌, length, take, drop};
ghost use Rattle.byte.specs.Words.{every};
ghost use Rattle.byte.specs.Bytes.{is_identifier, is_no_break, is_none_of};
ghost use Rattle.source.specs.Cursor.{passed_byte, passed};
ghost use Rattle.source.specs.Code.{Reaches, breaks, Unbroken, LineStart, RunEnd, Passing, IdentifierEnd};
ghost use Rattle.source.specs.Identifiers.{identifier_at};
ghost use Rattle.source.specs.Code.{word_of, marks_of, is_not};

mod words;

// A place in a script. Lines and columns count from 1, columns in bytes; the position counts from 0.
#[derive(Clone, Copy)]
pub struct Span {
    pub line: u32,
    pub column: u32,
    pub position: u32,
}

// The first place from `at` on whose byte fails a test; the end where there is none.
// The end and no Option: `RunEnd` tells where a run ends, and most callers go on from there.
pub fn end_of<F: Fn(u8) -> bool>(src: &[u8], at: usize, test: F) -> usize
    requires inside { at ≤ length src.now }
    requires callable { F.IsAlwaysCallable test }
    ensures { (class : ℕ → Bool) → ((b : ℕ) (r : Bool) → F.post test b r → r ≡ class b) → RunEnd class src.now at result }
{
    let passed = src[at..].iter().position(|b| !test(*b));
    at + passed.unwrap_or(src.len() - at)
}

// Whether a byte stands in a part. Always inlined, so that a block's size picks one branch of `contains`.
#[inline(always)]
fn has(part: &[u8], c: u8) -> bool
    ensures { result ≡ not (every (is_not c) part.now) }
{
    part.contains(&c)
}

// From `at` on past blocks of N bytes, up to one with the byte `c` or to fewer than N.
pub fn pass_blocks<const N: usize>(src: &[u8], at: usize, c: u8) -> usize
    requires inside { at ≤ length src.now }
    requires size { (0 < N) × (N < 2 ^ 63) }
    ensures passes { Passing (is_not c) src.now at result }
    ensures stops { N ≤ length src.now - result → every (is_not c) (take N (drop result src.now)) ≡ false }
{
    let (blocks, _) = src[at..].as_chunks::<N>();
    let passed = blocks.iter().position(
        |block| -> bool
            ensures { result ≡ not (every (is_not c) block.now) }
        { has(block, c) },
    );
    at + passed.unwrap_or(blocks.len()) * N
}

// The first LF from `at` on; the end where there is none. Always inlined, for it is asked up to three times a row.
#[inline(always)]
#[tactic(auto, using(crate::proofs::Runs::passing_run))]
pub fn break_end(src: &[u8], at: usize) -> usize
    requires { at ≤ length src.now }
    ensures { RunEnd is_no_break src.now at result }
{
    let (blocks, _) = src[at..].as_chunks::<8>();
    // A loop, which knows that a block stands there; after `pass_blocks` that would be asked once more.
    for (k, block) in blocks.iter().enumerate() {
        if has(block, b'\n') {
            let i = at + k * 8;
            return i + end_of(&src[i..i + 8], 0, byte::is_no_break);
        }
    }
    end_of(src, at + blocks.len() * 8, byte::is_no_break)
}

// The top bit of each of eight bytes that is one of four.
#[tactic(auto, using(crate::proofs::Marks::marks_four))]
fn stop_marks(block: &[u8; 8], w: u8, x: u8, y: u8, z: u8) -> u64
    ensures { result ≡ word_of (marks_of (is_none_of w x y z) block.now) }
{
    words::marks(block, w)
        | words::marks(block, x)
        | words::marks(block, y)
        | words::marks(block, z)
}

// From `at` on past blocks of 8 bytes, up to one of the four bytes or to fewer than 8.
fn stop_blocks(src: &[u8], at: usize, w: u8, x: u8, y: u8, z: u8) -> usize
    requires { at ≤ length src.now }
    ensures { Passing (is_none_of w x y z) src.now at result }
{
    let (blocks, _) = src[at..].as_chunks::<8>();
    for (k, block) in blocks.iter().enumerate() {
        let m = stop_marks(block, w, x, y, z);
        if m != 0 {
            return at + k * 8 + words::before(m);
        }
    }
    at + blocks.len() * 8
}

// The first place from `at` on where one of four bytes stands; the end where there is none.
// Four bytes and no array: the definition `is_none_of` takes them one by one.
pub fn stop_end(src: &[u8], at: usize, w: u8, x: u8, y: u8, z: u8) -> usize
    requires { at ≤ length src.now }
    ensures { RunEnd (is_none_of w x y z) src.now at result }
{
    let i = stop_blocks(src, at, w, x, y, z);
    end_of(src, i, |b| byte::is_none_of(w, x, y, z, b))
}

// The cursor past one byte.
#[tactic(auto, using(crate::proofs::Cursor::passing_byte))]
pub fn past_byte(p: Span, b: u8) -> Span
    requires { Reaches p 1 }
    ensures { result ≡ passed_byte p b }
{
    if b == b'\n' {
        return Span {
            line: p.line + 1,
            column: 1,
            position: p.position + 1,
        };
    }
    Span {
        column: p.column + 1,
        position: p.position + 1,
        ..p
    }
}

// The LFs of a short part: eight bits hold their number, so that many bytes are counted at once.
fn breaks_in(part: &[u8]) -> u8
    requires { length part.now < 256 }
    ensures { result ≡ breaks part.now }
{
    part.iter().map(|b| u8::from(*b == b'\n')).sum()
}

// The LFs of a block of 64 bytes, as a number that can be added up.
fn breaks_in_block(block: &[u8; 64]) -> u32
    ensures { result ≡ breaks block.now }
{
    u32::from(breaks_in(block))
}

// The LFs of a part, by blocks of 64 bytes and the bytes after them.
fn breaks(part: &[u8]) -> u32
    requires { length part.now < 4294967296 }
    ensures { result ≡ breaks part.now }
{
    let (blocks, rest) = part.as_chunks::<64>();
    let whole: u32 = blocks.iter().map(breaks_in_block).sum();
    whole + u32::from(breaks_in(rest))
}

// From the end back past blocks of 8 bytes, up to one with an LF or to fewer than 8.
fn last_block(part: &[u8]) -> usize
    ensures { Unbroken part.now result }
{
    let (_, blocks) = part.as_rchunks::<8>();
    let passed = blocks.iter().rev().position(|block| has(block, b'\n'));
    part.len() - passed.unwrap_or(blocks.len()) * 8
}

// The place after the last LF of a part; 0 where there is none.
fn line_start(part: &[u8]) -> usize
    ensures { LineStart part.now result }
{
    let end = last_block(part);
    let passed = part[..end].iter().rev().position(|b| *b == b'\n');
    end - passed.unwrap_or(end)
}

// The cursor past a part with LFs: they are counted, and only the last line's bytes make its column.
// Never inlined, so that `past` is small and can be.
// `as`, here and below: it fits by the contract, and `try_from` would bring an arm that never comes.
#[inline(never)]
#[tactic(auto, using(crate::proofs::Counts::passing_lines))]
fn past_lines(part: &[u8], p: Span) -> Span
    requires reaches { Reaches p (length part.now) }
    requires broken { every (is_not 10) part.now ≡ false }
    ensures { result ≡ passed p part.now }
{
    let len = part.len() as u32;
    let start = line_start(part);
    Span {
        line: p.line + breaks(&part[0..start]),
        column: len - start as u32 + 1,
        position: p.position + len,
    }
}

// The cursor past all bytes of a part.
#[tactic(auto, using(crate::proofs::Counts::passing_lines))]
pub fn past(part: &[u8], p: Span) -> Span
    requires { Reaches p (length part.now) }
    ensures { result ≡ passed p part.now }
{
    if has(part, b'\n') {
        return past_lines(part, p);
    }
    let len = part.len() as u32;
    Span {
        column: p.column + len,
        position: p.position + len,
        ..p
    }
}

// Where the run of identifier bytes from `at` on ends, digits in its first place too.
pub fn run_end(src: &[u8], at: usize) -> usize
    requires { at ≤ length src.now }
    ensures { RunEnd is_identifier src.now at result }
{
    end_of(src, at, byte::is_identifier)
}

// Where the identifier at a place ends: at the place itself where there is none.
#[tactic(auto, using(crate::proofs::Identifiers::identifiers))]
pub fn identifier_end(src: &[u8], at: usize) -> usize
    requires { at ≤ length src.now }
    ensures { IdentifierEnd src.now at result }
{
    if src.len() <= at {
        return at;
    }
    if !byte::is_start(src[at]) {
        return at;
    }
    run_end(src, at + 1)
}

// The identifier at a place: that part of the source itself, empty where there is none or the place lies past the end.
#[tactic(auto, using(crate::proofs::Identifiers::identifiers))]
pub fn peek_identifier(src: &[u8], at: usize) -> &[u8]
    ensures { result.now ≡ identifier_at src.now at }
{
    if src.len() < at {
        return &src[0..0];
    }
    let end = identifier_end(src, at);
    &src[at..end]
}
