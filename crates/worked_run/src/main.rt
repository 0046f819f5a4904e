// Runs every worked sheet of document 01, starred or not, and of requests P1, P2 and P5 through step or a reading, and
// prints what came of it: a line a text. A line is the letter, then each token (kind, line, column, position, detail,
// length, and the value's bytes in hexadecimal), then `end` or `finished` and the position, or `refused`, the number
// and its line, column and position.
// A line of sheets x and y has marks in place of that, for 32 bytes from the one named on, as each follows a label:
// c where the block closes, r where the label begins a row, w where the step waits.
#![tactic(auto)]

use byte::{Octal, Refusal};
use outcome::Call;
use shown::Refused;
use state::{Answer, Choices, Frame, Label, Reading, Session, Slot, Turn};
use std::io;
use std::io::Write;

// The bytes of a value, as two digits each.
fn print_bytes<W: Write>(out: &mut W, value: &[u8]) -> io::Result<()> {
    for b in value {
        write!(out, "{b:02x}")?;
    }
    Ok(())
}

// A value in brackets: `len` bytes of the pool from `start` on.
fn print_value<W: Write>(out: &mut W, pool: &[u8], start: u32, len: u32) -> io::Result<()> {
    let start = start as usize;
    let Some(value) = pool.get(start..start + len as usize) else {
        return Ok(());
    };
    write!(out, " (")?;
    print_bytes(out, value)?;
    write!(out, ");")
}

// The first `count` tokens of the list, each with its value.
fn print_tokens<W: Write>(out: &mut W, list: &[u32], count: u32, pool: &[u8]) -> io::Result<()> {
    for record in list.chunks_exact(8).take(count as usize) {
        if let Some(row) = shown::row_of(record) {
            write!(out, " {row}")?;
            print_value(out, pool, row.start, row.len)?;
        }
    }
    Ok(())
}

// The answer, and the position after it where the call was done.
fn print_answer<W: Write>(out: &mut W, answer: Answer, position: u32) -> io::Result<()> {
    match answer {
        Answer::Done => write!(out, " end {position}"),
        Answer::Finished => write!(out, " finished {position}"),
        Answer::Refused { refusal, span } => {
            let refused = Refused { refusal, span };
            write!(out, " {refused}")
        }
    }
}

// The line of a text: its sheet's letter, the tokens written, and the answer.
fn print_turn<W: Write>(
    out: &mut W,
    letter: u8,
    t: Turn,
    list: &[u32],
    pool: &[u8],
) -> io::Result<()> {
    let name = letter as char;
    let s = t.session;
    write!(out, "{name}:")?;
    print_tokens(out, list, s.tokens, pool)?;
    print_answer(out, t.answer, s.position)?;
    writeln!(out)
}

// Nowdoc blocks and octal escapes as the Rust reads them.
fn ported() -> Choices {
    Choices {
        nowdocs: Reading::Ported,
        octals: Octal::Rust,
    }
}

// Nowdoc blocks as sheets.
fn as_sheets() -> Choices {
    Choices {
        nowdocs: Reading::Sheet,
        octals: Octal::Rust,
    }
}

// Octal escapes as the manual has them.
fn as_manual() -> Choices {
    Choices {
        nowdocs: Reading::Ported,
        octals: Octal::Manual,
    }
}

// A session at the beginning with this frame.
fn standing(f: Frame, choices: Choices) -> Session {
    let mut s = state::fresh(choices);
    s.frames[0] = Slot { frame: f };
    s
}

// One call over a text, with room for three tokens and thirty-two value bytes.
fn called<W: Write>(
    out: &mut W,
    letter: u8,
    call: Call,
    s: Session,
    src: &[u8],
    end: bool,
) -> io::Result<()> {
    let mut list = [0u32; 24];
    let mut pool = [0u8; 32];
    let t = walk::calls(call, src, end, 1, s, &mut list, &mut pool);
    print_turn(out, letter, t, &list, &pool)
}

// A step over a text.
fn step<W: Write>(
    out: &mut W,
    letter: u8,
    f: Frame,
    choices: Choices,
    src: &[u8],
    end: bool,
) -> io::Result<()> {
    called(out, letter, Call::Step, standing(f, choices), src, end)
}

// A reading of a text.
fn reading<W: Write>(out: &mut W, letter: u8, call: Call, src: &[u8], end: bool) -> io::Result<()> {
    called(
        out,
        letter,
        call,
        standing(Frame::Scripting, ported()),
        src,
        end,
    )
}

// Sheets a to c: the mode Initial.
fn initial_sheets<W: Write>(out: &mut W) -> io::Result<()> {
    step(out, b'a', Frame::Initial, ported(), b"", true)?;
    step(out, b'b', Frame::Initial, ported(), b"a<?PHPx", true)?;
    step(out, b'c', Frame::Initial, ported(), b"<?p", false)?;
    step(out, b'c', Frame::Initial, ported(), b"<?px", false)
}

// Sheets d to h: quoted strings.
fn quoted_sheets<W: Write>(out: &mut W) -> io::Result<()> {
    reading(out, b'd', Call::Single, b"a\\'b\\n'", true)?;
    reading(out, b'e', Call::Double, b"\\377\"", true)?;
    reading(out, b'f', Call::Double, b"\\400\"", true)?;
    reading(out, b'g', Call::Double, b"\\u{20AC}\"", true)?;
    reading(out, b'h', Call::Double, b"\\u{}\"", true)?;
    reading(out, b'h', Call::Double, b"\\u{110000}\"", true)
}

// Sheets i to k: numbers.
fn number_sheets<W: Write>(out: &mut W) -> io::Result<()> {
    reading(out, b'i', Call::Number, b"1__0", true)?;
    reading(out, b'i', Call::Number, b"0x", true)?;
    reading(out, b'j', Call::Number, b"1E5", true)?;
    reading(out, b'j', Call::Number, b"1.5e+x", true)?;
    reading(out, b'k', Call::Number, b"1e", false)?;
    reading(out, b'k', Call::Number, b"1e+x", false)
}

// A nowdoc block whose label EOT starts at this place of the text.
fn nowdoc(start: u16) -> Frame {
    Frame::Nowdoc(Label { start, len: 3 })
}

// Sheets l to p: text blocks, the last two as sheets.
fn block_sheets<W: Write>(out: &mut W) -> io::Result<()> {
    let x = Label { start: 3, len: 1 };
    step(out, b'l', nowdoc(4), ported(), b"a\n  EOTX", true)?;
    step(out, b'm', nowdoc(4), ported(), b"a\n \tEOT", true)?;
    step(out, b'n', Frame::Heredoc(x), ported(), b"a\n$x;", true)?;
    step(
        out,
        b'o',
        nowdoc(13),
        as_sheets(),
        b"  ab\n   c\n\n  EOT",
        true,
    )?;
    step(out, b'p', nowdoc(5), as_sheets(), b" a\n  EOT", true)
}

// Sheets q to w: a street whose name begins with the label, and the label at the end of a script and of a part. The
// last is ported.
fn caption_sheets<W: Write>(out: &mut W) -> io::Result<()> {
    let street = b"ab\nEOTstrasse\nc\nEOT;";
    step(out, b'q', nowdoc(16), as_sheets(), street, true)?;
    step(out, b'r', nowdoc(11), as_sheets(), b"EOTstrasse\nEOT", true)?;
    step(out, b's', nowdoc(2), as_sheets(), b"a\nEOT", true)?;
    step(out, b't', nowdoc(2), as_sheets(), b"a\nEOT", false)?;
    step(out, b't', nowdoc(2), as_sheets(), b"a\nEOT;", false)?;
    step(out, b't', nowdoc(2), as_sheets(), b"a\nEOTs", false)?;
    step(
        out,
        b'u',
        nowdoc(13),
        as_sheets(),
        b"EOTstrasse\n  EOT",
        true,
    )?;
    step(
        out,
        b'v',
        nowdoc(13),
        as_sheets(),
        b" \tEOTstrasse\nEOT",
        true,
    )?;
    step(out, b'w', nowdoc(16), ported(), street, true)
}

// The mark of an answer to a text that ends after the label and one byte.
fn mark_of(answer: Answer) -> u8 {
    match answer {
        Answer::Done => b'c',
        Answer::Finished => b'?',
        Answer::Refused { refusal, .. } => {
            if refusal == Refusal::Wait {
                return b'w';
            }
            if refusal == Refusal::UnexpectedEndOfFile {
                return b'r';
            }
            b'?'
        }
    }
}

// The mark of a byte after the label.
fn print_mark<W: Write>(out: &mut W, b: u8, end: bool) -> io::Result<()> {
    let src = [b'a', b'\n', b'E', b'O', b'T', b];
    let mut list = [0u32; 24];
    let mut pool = [0u8; 32];
    let s = standing(nowdoc(2), as_sheets());
    let t = walk::calls(Call::Step, &src, end, 1, s, &mut list, &mut pool);
    let mark = mark_of(t.answer) as char;
    write!(out, "{mark}")
}

// The beginning of a line of marks: the letter, and the first byte.
fn print_first<W: Write>(out: &mut W, letter: u8, b: u8) -> io::Result<()> {
    let name = letter as char;
    write!(out, "{name}: {b:02x} ")
}

// Sheet x with the end announced, y with more: a row, and the label with each byte after it.
fn behind_label<W: Write>(out: &mut W, letter: u8, end: bool) -> io::Result<()> {
    for b in 0..=255u8 {
        if b & 31 == 0 {
            print_first(out, letter, b)?;
        }
        print_mark(out, b, end)?;
        if b & 31 == 31 {
            writeln!(out)?;
        }
    }
    Ok(())
}

// A step over a script's text.
fn script<W: Write>(out: &mut W, letter: u8, src: &[u8], end: bool) -> io::Result<()> {
    step(out, letter, Frame::Scripting, ported(), src, end)
}

// Sheets z and A to D: how comments begin and end.
fn comment_sheets<W: Write>(out: &mut W) -> io::Result<()> {
    script(out, b'z', b"#\n", true)?;
    script(out, b'z', b"//a\nb", true)?;
    script(out, b'z', b"#a?>", true)?;
    script(out, b'A', b"#[a", true)?;
    script(out, b'B', b"/*", true)?;
    script(out, b'B', b"/*/", true)?;
    script(out, b'B', b"/*/*/", true)?;
    script(out, b'C', b"/*it's\n*/'", true)?;
    script(out, b'D', b"#\r", true)?;
    script(out, b'D', b"//a\r\n", true)
}

// Sheets E to G: what waits where more is announced, what is settled, and a script that ends in a comment.
fn part_sheets<W: Write>(out: &mut W) -> io::Result<()> {
    script(out, b'E', b"/", false)?;
    script(out, b'E', b"#", false)?;
    script(out, b'E', b"//a", false)?;
    script(out, b'E', b"//a?", false)?;
    script(out, b'E', b"/*a*", false)?;
    script(out, b'F', b"/x", false)?;
    script(out, b'F', b"#[", false)?;
    script(out, b'F', b"//a\n", false)?;
    script(out, b'F', b"#?>", false)?;
    script(out, b'F', b"/*?>*/", false)?;
    script(out, b'G', b"//a", true)?;
    script(out, b'G', b"#", true)
}

// A double-quoted literal after its opening quote, octal escapes as these choices have them.
fn double<W: Write>(
    out: &mut W,
    letter: u8,
    choices: Choices,
    src: &[u8],
    end: bool,
) -> io::Result<()> {
    let s = standing(Frame::Scripting, choices);
    called(out, letter, Call::Double, s, src, end)
}

// Sheets H and I: octal escapes over 255 as the manual has them; their bytes begin nothing.
fn octal_sheets<W: Write>(out: &mut W) -> io::Result<()> {
    double(out, b'H', as_manual(), b"\\400\"", true)?;
    double(out, b'H', as_manual(), b"\\777\"", true)?;
    double(out, b'H', as_manual(), b"\\501\"", true)?;
    double(out, b'H', as_manual(), b"\\4000\"", true)?;
    double(out, b'H', as_manual(), b"\\377\"", true)?;
    double(out, b'I', as_manual(), b"\\442\"", true)?;
    double(out, b'I', as_manual(), b"\\444a\"", true)?;
    double(out, b'I', as_manual(), b"\\573$a\"", true)
}

// Sheets J to L: the same in Scripting, after an interpolation and in a heredoc; and what waits.
fn octal_mode_sheets<W: Write>(out: &mut W) -> io::Result<()> {
    let x = Label { start: 6, len: 1 };
    step(out, b'J', Frame::Scripting, as_manual(), b"\"\\400\"", true)?;
    step(out, b'J', Frame::Scripting, ported(), b"\"\\400\"", true)?;
    step(out, b'J', Frame::DoubleQuote, as_manual(), b"\\400$a", true)?;
    step(out, b'J', Frame::DoubleQuote, ported(), b"\\400$a", true)?;
    step(
        out,
        b'K',
        Frame::Heredoc(x),
        as_manual(),
        b"a\\412$x;",
        true,
    )?;
    step(
        out,
        b'K',
        Frame::Heredoc(x),
        as_manual(),
        b"a\\400\nx;",
        true,
    )?;
    step(out, b'K', Frame::Heredoc(x), ported(), b"a\\400\nx;", true)?;
    double(out, b'L', ported(), b"\\40", false)?;
    double(out, b'L', as_manual(), b"\\40", false)?;
    double(out, b'L', ported(), b"\\400", false)?;
    double(out, b'L', as_manual(), b"\\400", false)?;
    double(out, b'L', as_manual(), b"\\400\"", false)
}

// Every sheet, in the order of document 01, then those of the requests.
fn main(rt: HostRuntime) -> io::Result<()> {
    let mut out = io::writer(&rt);
    initial_sheets(&mut out)?;
    quoted_sheets(&mut out)?;
    number_sheets(&mut out)?;
    block_sheets(&mut out)?;
    caption_sheets(&mut out)?;
    behind_label(&mut out, b'x', true)?;
    behind_label(&mut out, b'y', false)?;
    comment_sheets(&mut out)?;
    part_sheets(&mut out)?;
    octal_sheets(&mut out)?;
    octal_mode_sheets(&mut out)?;
    out.flush()
}
