// What stands at a place of a text, mode by mode, and how far the bytes that stand for themselves go.
ghost use Rattle.std.specs.Prelude.{◌≡◌, ◌+◌, ◌≤◌, length, get_or, drop};
ghost use Rattle.source.specs.Code.{RunEnd};
ghost use Rattle.unit.specs.declared.Mode.{Mode};
ghost use Rattle.unit.specs.declared.TextUnit.{TextUnit};
ghost use Rattle.unit.specs.Units.{unit_at};
ghost use Rattle.text.specs.Code.{Here, is_plain};

use unit::{Mode, Stop, TextUnit};

// What stands at n in a mode. Only heredoc and nowdoc look at the label.
#[tactic(auto, unfolding(unit::specs::Units::unit_at))]
pub fn unit_at(m: Mode, src: &[u8], label: &[u8], n: usize, end: bool) -> TextUnit
    requires { Here src.now n × (length label.now ≤ 64) }
    ensures { result ≡ unit_at m label.now end n (get_or src.now n 0) (drop (n + 1) src.now) }
{
    match (m, src[n]) {
        (Mode::Single, b'\'')
        | (Mode::Double(_) | Mode::DoubleQuote(_), b'"')
        | (Mode::ShellExec, b'`') => TextUnit::Ends {
            stop: Stop::Quote,
            from: n,
            after: n + 1,
        },
        (Mode::Single, b'\\') => escape::quote_escape_at(src, n + 1, end),
        (Mode::Double(octals) | Mode::DoubleQuote(octals) | Mode::Heredoc(octals), b'\\') => {
            escape::escape_at(octals, src, n + 1, end)
        }
        (Mode::Double(_), b'$') => interpolation::find_dollar(src, n, end),
        (Mode::Double(_), b'{') => interpolation::find_brace(src, n, end),
        (Mode::DoubleQuote(_) | Mode::ShellExec | Mode::Heredoc(_), b'$') =>
            interpolation::dollar_at(src, n, end),
        (Mode::DoubleQuote(_) | Mode::ShellExec | Mode::Heredoc(_), b'{') =>
            interpolation::brace_at(src, n, end),
        (Mode::Heredoc(_) | Mode::Nowdoc, b'\n') => closer::line_at(src, label, n, end),
        (_, value) => TextUnit::Byte {
            value,
            after: n + 1,
        },
    }
}

// Where the bytes from `at` on that stand for themselves end.
#[tactic(auto, unfolding(crate::specs::Code::is_plain))]
pub fn plain_end(m: Mode, src: &[u8], at: usize) -> usize
    requires { at ≤ length src.now }
    ensures { RunEnd (is_plain m) src.now at result }
{
    match m {
        Mode::Single => source::stop_end(src, at, b'\'', b'\\', b'\'', b'\\'),
        Mode::Double(_) | Mode::DoubleQuote(_) => source::stop_end(
            src, at, b'"', b'\\', b'$', b'{',
        ),
        Mode::ShellExec => source::stop_end(src, at, b'`', b'$', b'{', b'`'),
        Mode::Heredoc(_) => source::stop_end(src, at, b'\n', b'\\', b'$', b'{'),
        Mode::Nowdoc => source::break_end(src, at),
    }
}
