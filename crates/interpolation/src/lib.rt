// Interpolations in a text: `${`, `{` before a `$`, and variables with what follows their name.
// Of the Rust: the arms of double_quote, shell_exec and heredoc that begin with `$` or `{`, and of the double-quoted
// literal.
// A look never goes further than the one byte that decides; where that byte lies past the part, it is undecided: None.
#![tactic(auto)]

ghost use Rattle.std.specs.Prelude.{◌≡◌, ◌+◌, ◌≤◌, ◌<◌, ℕ, Option, length, drop, slice_index, unwrap_or};
ghost use Rattle.unit.specs.declared.TextUnit.{TextUnit};
ghost use Rattle.unit.specs.Escapes.{last};
ghost use Rattle.unit.specs.Interpolations.{plain, property, arrow, question_arrow, follow, variable, name, dollar, brace, found, find_dollar, find_brace};

use unit::{Follow, Stop, TextUnit};

// After an arrow: a property begins with a start byte.
#[tactic(auto, unfolding(unit::specs::Interpolations::property))]
fn property(rest: &[u8], end: bool) -> Option<Follow>
    ensures { result ≡ property end rest.now }
{
    match rest {
        [] => end.then_some(Follow::Other),
        [b, ..] if byte::is_start(*b) => Some(Follow::Property),
        [_, ..] => Some(Follow::Other),
    }
}

// After `-`.
#[tactic(auto, unfolding(unit::specs::Interpolations::arrow))]
fn arrow(rest: &[u8], end: bool) -> Option<Follow>
    ensures { result ≡ arrow end rest.now }
{
    match rest {
        [] => end.then_some(Follow::Other),
        [b'>', after @ ..] => property(after, end),
        [_, ..] => Some(Follow::Other),
    }
}

// After `?`.
#[tactic(auto, unfolding(unit::specs::Interpolations::question_arrow))]
fn question_arrow(rest: &[u8], end: bool) -> Option<Follow>
    ensures { result ≡ question_arrow end rest.now }
{
    match rest {
        [] => end.then_some(Follow::Other),
        [b'-', after @ ..] => arrow(after, end),
        [_, ..] => Some(Follow::Other),
    }
}

// What follows a variable's name.
#[tactic(auto, unfolding(unit::specs::Interpolations::follow))]
fn follow(rest: &[u8], end: bool) -> Option<Follow>
    ensures { result ≡ follow end rest.now }
{
    match rest {
        [] => end.then_some(Follow::Other),
        [b'[', ..] => Some(Follow::Offset),
        [b'-', after @ ..] => arrow(after, end),
        [b'?', after @ ..] => question_arrow(after, end),
        [_, ..] => Some(Follow::Other),
    }
}

// A variable from its `$` to n.
#[tactic(auto, unfolding(unit::specs::Interpolations::variable))]
fn variable_of(from: usize, n: usize, look: Option<Follow>) -> TextUnit
    ensures { result ≡ variable from n look }
{
    match look {
        Some(f) => TextUnit::Ends {
            stop: Stop::Variable(f),
            from,
            after: n,
        },
        None => TextUnit::Undecided,
    }
}

// The rest of a variable's name, whose `$` stands at `from`.
fn name_at(src: &[u8], from: usize, at: usize, end: bool) -> TextUnit
    requires { at ≤ length src.now }
    ensures { result ≡ name end from at (drop at src.now) }
{
    let n = source::run_end(src, at);
    let look = follow(&src[n..], end);
    variable_of(from, n, look)
}

// The sign at n, by the byte after it: what the two begin, or the sign itself.
fn sign_at<F: FnOnce(u8) -> Option<TextUnit>>(
    src: &[u8],
    n: usize,
    sign: u8,
    end: bool,
    begun: F,
) -> TextUnit
    requires here { n < length src.now }
    requires callable { n + 1 < length src.now → F.pre begun (slice_index src.now (n + 1)) }
    ensures last { length src.now ≤ n + 1 → result ≡ last end (plain sign n) }
    ensures next { n + 1 < length src.now → (r : Option TextUnit) × F.post begun (slice_index src.now (n + 1)) r × (result ≡ unwrap_or r (plain sign n)) }
{
    let after = n + 1;
    let itself = TextUnit::Byte { value: sign, after };
    match src.get(after) {
        Some(b) => begun(*b).unwrap_or(itself),
        None if end => itself,
        None => TextUnit::Undecided,
    }
}

// The `$` at n: `${`, a variable, or the sign itself.
pub fn dollar_at(src: &[u8], n: usize, end: bool) -> TextUnit
    requires { n < length src.now }
    ensures { result ≡ dollar end n (drop (n + 1) src.now) }
{
    let after = n + 2;
    sign_at(src, n, b'$', end, |b| match b {
        b'{' => Some(TextUnit::Ends {
            stop: Stop::DollarLeftBrace,
            from: n,
            after,
        }),
        _ if byte::is_start(b) => Some(name_at(src, n, after, end)),
        _ => None,
    })
}

// The `{` at n: before a `$`, or the sign itself.
pub fn brace_at(src: &[u8], n: usize, end: bool) -> TextUnit
    requires { n < length src.now }
    ensures { result ≡ brace end n (drop (n + 1) src.now) }
{
    let taken = TextUnit::Ends {
        stop: Stop::LeftBrace,
        from: n,
        after: n + 1,
    };
    sign_at(src, n, b'{', end, |b| (b == b'$').then_some(taken))
}

// An interpolation that a literal leaves to `double_quote`.
fn found_at(n: usize) -> TextUnit
    ensures { result ≡ found n }
{
    TextUnit::Ends {
        stop: Stop::Interpolation,
        from: n,
        after: n,
    }
}

// The `$` at n of a literal.
pub fn find_dollar(src: &[u8], n: usize, end: bool) -> TextUnit
    requires { n < length src.now }
    ensures { result ≡ find_dollar end n (drop (n + 1) src.now) }
{
    let begun = |b: u8| (b == b'{' || byte::is_start(b)).then_some(found_at(n));
    sign_at(src, n, b'$', end, begun)
}

// The `{` at n of a literal.
pub fn find_brace(src: &[u8], n: usize, end: bool) -> TextUnit
    requires { n < length src.now }
    ensures { result ≡ find_brace end n (drop (n + 1) src.now) }
{
    let begun = |b: u8| (b == b'$').then_some(found_at(n));
    sign_at(src, n, b'{', end, begun)
}
