// Reads a script from standard input and prints its tokens, a row each: kind, line, column, position, detail, value
// length, and where the step ended that wrote it.
// Then `end` and the position, or `refused`, the number and its line, column and position.
#![tactic(auto)]

ghost use Rattle.std.specs.Prelude.{length, ◌≤◌, IfOk};

use byte::{Octal, Refusal};
use outcome::Call;
use shown::Refused;
use state::{Answer, Choices, Reading};
use std::io;
use std::io::{Read, Write};

// The rows of the first `count` tokens.
fn print_rows<W: Write>(out: &mut W, list: &[u32], count: u32) -> io::Result<()> {
    for record in list.chunks_exact(8).take(count as usize) {
        if let Some(row) = shown::row_of(record) {
            let end = row.end;
            writeln!(out, "{row} {end}")?;
        }
    }
    Ok(())
}

// Whether a refusal says that a table is full.
fn is_full(refusal: Refusal) -> bool {
    matches!(refusal, Refusal::ListFull | Refusal::PoolFull)
}

// Walks to the script's end; where a table is full the rows are printed and both are emptied, and they have room for
// any step. A step that is done moves the cursor on or is the one after a `${`, so there are no more than two to a
// byte.
fn print_script<W: Write>(out: &mut W, src: &[u8]) -> io::Result<()> {
    let mut list = [0u32; 2048];
    let mut pool = [0u8; 16384];
    let choices = Choices {
        nowdocs: Reading::Ported,
        octals: Octal::Rust,
    };
    let mut s = state::fresh(choices);
    for _ in 0..32770 {
        let t = walk::calls(Call::Step, src, true, 32770, s, &mut list, &mut pool);
        s = t.session;
        print_rows(out, &list, s.tokens)?;
        match t.answer {
            Answer::Done => {}
            Answer::Finished => {
                let position = s.position;
                return writeln!(out, "end {position}");
            }
            Answer::Refused { refusal, span } => {
                if !is_full(refusal) {
                    let refused = Refused { refusal, span };
                    return writeln!(out, "{refused}");
                }
            }
        }
        s.tokens = 0;
        s.bytes = 0;
    }
    Ok(())
}

// Reads until the buffer is full or the input ends, and says how many bytes there are.
fn read_full<R: Read>(input: &mut R, buffer: &mut [u8]) -> io::Result<usize>
    ensures { IfOk result (λ n. n ≤ length buffer.new) }
{
    let mut done = 0;
    // Nothing is counted by ones here: each read gives as many bytes as it likes.
    while done < buffer.len() {
        let n = input.read(&mut buffer[done..])?;
        if n == 0 {
            break;
        }
        done += n;
    }
    Ok(done)
}

fn main(rt: HostRuntime) -> io::Result<()> {
    let mut buffer = [0u8; 16385];
    let Ok(n) = read_full(&mut rt.reader(), &mut buffer) else {
        return eprintln!(rt;
            "rows: standard input can't be read: give it a script, as in rows < sheet.php"
        );
    };
    let mut out = io::writer(&rt);
    if 16384 < n {
        let refused = Refused {
            refusal: Refusal::TooLarge,
            span: state::origin(),
        };
        writeln!(&mut out, "{refused}")?;
    } else {
        print_script(&mut out, &buffer[..n])?;
    }
    out.flush()
}
