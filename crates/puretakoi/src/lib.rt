// Functions that a host in C or Rust calls; include/puretakoi.h tells each. A `&[u8]` crosses as a pointer and a
// length, a session and an answer as lent numbers. Any numbers at all may come in: what can't be taken is refused by
// its number.
// In order: the calls without a session; a fresh session; the step, the walk and the three readings; skip, push and
// pop; the record file; the record under the finger.
#![tactic(auto)]

ghost use Rattle.std.specs.Prelude.{◌≡◌, length, ◌/◌, ◌≤◌, SomeIff, true};
ghost use Rattle.source.specs.Identifiers.{identifier_at};
ghost use Rattle.state.specs.Calls.{skipped, pushed, popped};
ghost use Rattle.outcome.specs.declared.Call.{Call};
ghost use Rattle.token.specs.Files.{file_of, list_of, to_file_refusal, to_list_refusal};
ghost use Rattle.puretakoi.specs.Told.{told_number, Tells};
ghost use Rattle.puretakoi.specs.Places.{is_small, past_refusal, past_numbers, Past};
ghost use Rattle.layout.specs.Sessions.{frame_in, session_in};
ghost use Rattle.puretakoi.specs.Calls.{are_long, Crossed, Answered, Turns, Walked, fresh_refusal, fresh_numbers, Begun, Filed};
ghost use Rattle.byte.specs.Classes.{classes_of};
ghost use Rattle.byte.specs.Laid.{laid};
ghost use Rattle.puretakoi.specs.Finds.{found_numbers, Finds};

use byte::Refusal;
use outcome::Call;
use source::Span;
use state::Session;

// How long the identifier at a place of the source is; 0 where there is none.
#[unsafe(no_mangle)]
pub extern "C" fn puretakoi_peek_identifier(src: &[u8], at: usize) -> usize
    ensures { result ≡ length (identifier_at src.now at) }
{
    source::peek_identifier(src, at).len()
}

// All that a byte counts as, a flag each.
#[unsafe(no_mangle)]
pub extern "C" fn puretakoi_classes_of(b: u8) -> u32
    ensures { result ≡ classes_of b }
{
    byte::classes_of(b)
}

// Whether no number of a place is over 65,537.
#[tactic(auto, unfolding(crate::specs::Places::is_small))]
fn is_small(p: Span) -> bool
    ensures { result ≡ is_small p }
{
    (p.line <= 65537) & (p.column <= 65537) & (p.position <= 65537)
}

// The number that a host is given: a refusal's, or 0.
fn told_number(told: Result<(), Refusal>) -> u32
    ensures { result ≡ told_number told }
{
    match told {
        Ok(()) => 0,
        Err(refusal) => u32::from(refusal),
    }
}

// The cursor past all bytes of a part, in three numbers that are changed there.
// Refused: a part over 65,536 bytes (11), no three numbers (10), a number over 65,537 (12).
#[tactic(auto, using(crate::proofs::Places::pasts))]
fn past(part: &[u8], span: &mut [u32]) -> Result<(), Refusal>
    ensures { Tells (past_refusal part.now span.old) (past_numbers part.now span.old) span.old result span.new }
{
    if 65536 < part.len() {
        return Err(Refusal::TooLarge);
    }
    if span.len() != 3 {
        return Err(Refusal::OutOfPlace);
    }
    let from = Span {
        line: span[0],
        column: span[1],
        position: span[2],
    };
    if !is_small(from) {
        return Err(Refusal::BadSession);
    }
    let to = source::past(part, from);
    span.copy_from_slice(&[to.line, to.column, to.position]);
    Ok(())
}

// The same for a host: line, column and position stand in three lent numbers. The answer is the refusal, or 0.
#[tactic(auto, using(crate::proofs::Places::past_told))]
#[unsafe(no_mangle)]
pub extern "C" fn puretakoi_past(part: &[u8], span: &mut [u32]) -> u32
    ensures { Past part.now span.old result span.new }
{
    told_number(past(part, span))
}

// Whether a session and an answer have their numbers.
#[tactic(auto, unfolding(crate::specs::Calls::are_long))]
fn are_long(session: usize, answer: usize) -> bool
    ensures { result ≡ are_long session answer }
{
    (199 <= session) & (5 <= answer)
}

// The session in a host's numbers, where it has its numbers and the answer too.
#[tactic(auto, using(crate::proofs::Calls::session_long))]
fn session_of(session: &[u32], answer: &[u32]) -> Option<Session>
    ensures { SomeIff result (are_long (length session.now) (length answer.now) ≡ true) (session_in session.now) }
{
    if are_long(session.len(), answer.len()) {
        Some(layout::session_in(session))
    } else {
        None
    }
}

// A session before its script, with its choices.
#[tactic(auto, using(crate::proofs::Calls::begun))]
fn fresh(choices: u32, session: &mut [u32]) -> Result<(), Refusal>
    ensures { Tells (fresh_refusal (length session.old) choices) (fresh_numbers choices session.old) session.old result session.new }
{
    if session.len() < 199 {
        return Err(Refusal::OutOfPlace);
    }
    if !layout::are_choices(choices) {
        return Err(Refusal::BadSession);
    }
    layout::put_session(session, state::fresh(layout::choices_in(choices)));
    Ok(())
}

// The same for a host.
#[tactic(auto, using(crate::proofs::Calls::fresh_told))]
#[unsafe(no_mangle)]
pub extern "C" fn puretakoi_fresh(choices: u32, session: &mut [u32]) -> u32
    ensures { Begun choices session.old result session.new }
{
    told_number(fresh(choices, session))
}

// A call and the steps after it, at most `most` in all. Where none is wanted, or the first is refused, the session
// stays as it was.
// A sixth number of the answer, where there is one, tells how many were done.
#[tactic(auto, using(crate::proofs::Calls::session_long, crate::proofs::Calls::answer_long, crate::proofs::Walks::turning))]
fn turns(
    call: Call,
    src: &[u8],
    end: u32,
    most: u32,
    session: &mut [u32],
    list: &mut [u32],
    pool: &mut [u8],
    answer: &mut [u32],
) -> u32
    ensures { Turns call src.now end most session.old list.old pool.old answer.old result session.new list.new pool.new answer.new }
{
    if !are_long(session.len(), answer.len()) {
        return u32::from(Refusal::OutOfPlace);
    }
    let r = walk::turns(call, src, end != 0, most, session, list, pool);
    let a = r.answer;
    let refusal = layout::refusal_in(a);
    layout::put_answer(answer, a);
    if 6 <= answer.len() {
        answer[5] = r.done;
    }
    refusal
}

// One step: the routine of the top frame reads on from the cursor.
// One function a call, here and below: these are the names that a host in C knows.
#[unsafe(no_mangle)]
pub extern "C" fn puretakoi_step(
    src: &[u8],
    end: u32,
    session: &mut [u32],
    list: &mut [u32],
    pool: &mut [u8],
    answer: &mut [u32],
) -> u32
    ensures { Answered Call.Step src.now end session.old list.old pool.old answer.old result session.new list.new pool.new answer.new }
{
    turns(Call::Step, src, end, 1, session, list, pool, answer)
}

// At most `most` steps, up to one that is not done. Where there is none, or the first is refused, the session stays
// as it was.
#[unsafe(no_mangle)]
pub extern "C" fn puretakoi_walk(
    src: &[u8],
    end: u32,
    most: u32,
    session: &mut [u32],
    list: &mut [u32],
    pool: &mut [u8],
    answer: &mut [u32],
) -> u32
    ensures { Walked src.now end most session.old list.old pool.old answer.old result session.new list.new pool.new answer.new }
{
    turns(Call::Step, src, end, most, session, list, pool, answer)
}

// The number at the cursor.
#[unsafe(no_mangle)]
pub extern "C" fn puretakoi_read_number(
    src: &[u8],
    end: u32,
    session: &mut [u32],
    list: &mut [u32],
    pool: &mut [u8],
    answer: &mut [u32],
) -> u32
    ensures { Answered Call.Number src.now end session.old list.old pool.old answer.old result session.new list.new pool.new answer.new }
{
    turns(Call::Number, src, end, 1, session, list, pool, answer)
}

// The single-quoted string whose text starts at the cursor.
#[unsafe(no_mangle)]
pub extern "C" fn puretakoi_read_single(
    src: &[u8],
    end: u32,
    session: &mut [u32],
    list: &mut [u32],
    pool: &mut [u8],
    answer: &mut [u32],
) -> u32
    ensures { Answered Call.Single src.now end session.old list.old pool.old answer.old result session.new list.new pool.new answer.new }
{
    turns(Call::Single, src, end, 1, session, list, pool, answer)
}

// The double-quoted string whose text starts at the cursor.
#[unsafe(no_mangle)]
pub extern "C" fn puretakoi_read_double(
    src: &[u8],
    end: u32,
    session: &mut [u32],
    list: &mut [u32],
    pool: &mut [u8],
    answer: &mut [u32],
) -> u32
    ensures { Answered Call.Double src.now end session.old list.old pool.old answer.old result session.new list.new pool.new answer.new }
{
    turns(Call::Double, src, end, 1, session, list, pool, answer)
}

// The cursor goes on by `count` bytes.
#[tactic(auto, using(crate::proofs::Calls::crossings))]
#[unsafe(no_mangle)]
pub extern "C" fn puretakoi_skip(
    src: &[u8],
    count: usize,
    session: &mut [u32],
    answer: &mut [u32],
) -> u32
    ensures { Crossed (skipped src.now (session_in session.old) count) session.old answer.old result session.new answer.new }
{
    let Some(s) = session_of(session, answer) else {
        return u32::from(Refusal::OutOfPlace);
    };
    let t = state::skip(src, s, count);
    layout::put_turn(t, session, answer)
}

// One frame more: its number, and its label's start and length.
#[tactic(auto, using(crate::proofs::Calls::crossings))]
#[unsafe(no_mangle)]
pub extern "C" fn puretakoi_push(
    src: &[u8],
    frame: u32,
    start: u32,
    len: u32,
    session: &mut [u32],
    answer: &mut [u32],
) -> u32
    ensures { Crossed (pushed src.now (session_in session.old) (frame_in frame start len)) session.old answer.old result session.new answer.new }
{
    let Some(s) = session_of(session, answer) else {
        return u32::from(Refusal::OutOfPlace);
    };
    let t = state::push(src, s, layout::frame_in(frame, start, len));
    layout::put_turn(t, session, answer)
}

// One frame less.
#[tactic(auto, using(crate::proofs::Calls::crossings))]
#[unsafe(no_mangle)]
pub extern "C" fn puretakoi_pop(src: &[u8], session: &mut [u32], answer: &mut [u32]) -> u32
    ensures { Crossed (popped src.now (session_in session.old)) session.old answer.old result session.new answer.new }
{
    let Some(s) = session_of(session, answer) else {
        return u32::from(Refusal::OutOfPlace);
    };
    let t = state::pop(src, s);
    layout::put_turn(t, session, answer)
}

// All records of a list as a file: 32 bytes a record, little-endian, no header.
#[unsafe(no_mangle)]
pub extern "C" fn puretakoi_list_to_file(list: &[u32], file: &mut [u8]) -> u32
    ensures { Filed (to_file_refusal (length list.now) (length file.old)) file.old (file_of list.now) result file.new }
{
    layout::refusal_in(token::list_to_file(list, file))
}

// All records of a file as a list.
#[unsafe(no_mangle)]
pub extern "C" fn puretakoi_file_to_list(file: &[u8], list: &mut [u32]) -> u32
    ensures { Filed (to_list_refusal (length file.now) (length list.old)) list.old (list_of (length file.now / 4) file.now) result list.new }
{
    layout::refusal_in(token::file_to_list(file, list))
}

// What was found, and the number of looks.
fn put_found(slice: &mut [u32], found: Option<u32>, looks: u32)
    requires { 3 ≤ length slice.old }
    ensures { slice.new ≡ laid slice.old 0 (found_numbers found looks) }
{
    let numbers = match found {
        None => [0, 0, looks],
        Some(number) => [1, number, looks],
    };
    slice[..3].copy_from_slice(&numbers);
}

// Which record is under the finger: the last of the first `count` whose position is at or before the byte `at`.
// A fourth number of `found`, where there is one, tells where the step ended that wrote it.
#[unsafe(no_mangle)]
pub extern "C" fn puretakoi_find(list: &[u32], count: usize, at: usize, found: &mut [u32]) -> u32
    ensures { Finds list.now count at found.old result found.new }
{
    if found.len() < 3 {
        return u32::from(Refusal::OutOfPlace);
    }
    match lookup::find(list, count, at) {
        Ok(looked) => {
            put_found(found, looked.found, looked.looks);
            if 4 <= found.len() {
                found[3] = looked.end;
            }
            0
        }
        Err(refused) => u32::from(refused.refusal),
    }
}
