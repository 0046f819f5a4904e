// The walk: a call and, where it is done, as many steps after it as are wanted, over the numbers of a host's
// session. The gate is asked once; a slot is read where its frame is on top, and written where a step changes it;
// the place is read once and written once.
// A step and each reading is a walk of one call.
#![tactic(auto)]

ghost use Rattle.std.specs.Prelude.{◌≡◌, ◌≤◌, length};
ghost use Rattle.layout.specs.Sessions.{session_in};
ghost use Rattle.plan.specs.Code.{Here};
ghost use Rattle.modes.specs.Code.{Near};
ghost use Rattle.lexer.specs.Turns.{Gives, mark_of};
ghost use Rattle.demands.specs.Walks.{called_on, is_done};
ghost use Rattle.walk.specs.Walks.{Walks};
ghost use Rattle.walk.specs.Code.{top_in, frame_after, GoesAlong, placed_at, ended_at, Deep, Opened, Changes, Changed};

use commit::Mark;
use lexer::Place;
use outcome::{Call, Change};
use source::Span;
use state::{Answer, Frame, Session, Turn};

// Where the depth, the marks and the choices stand in a session's numbers.
const DEPTH: usize = 3;

const TOKENS: usize = 4;

const BYTES: usize = 5;

const CHOICES: usize = 6;

// How a walk ended: its last answer, and how many of its calls were done.
#[derive(Clone, Copy)]
pub struct Ended {
    pub answer: Answer,
    pub done: u32,
}

// Done, and not finished.
#[tactic(auto, unfolding(demands::specs::Walks::is_done))]
fn is_done(a: Answer) -> bool
    ensures { result ≡ is_done a }
{
    matches!(a, Answer::Done)
}

// The cursor and the marks in a session's numbers.
fn mark_in(session: &[u32]) -> Mark
    requires { 199 ≤ length session.now }
    ensures { result ≡ mark_of (session_in session.now) }
{
    let span = layout::span_in(session);
    Mark {
        span,
        tokens: session[TOKENS],
        bytes: session[BYTES],
    }
}

// The place is written to a session's numbers, with the depth and the marks.
fn put_at(session: &mut [u32], at: Place)
    requires { 199 ≤ length session.old }
    ensures { session.new ≡ placed_at at.mark at.depth session.old }
{
    let mark = at.mark;
    layout::put_place(session, mark.span, at.depth, mark.tokens, mark.bytes);
}

// The place where a walk ends, but where its first call is refused: then it has not begun.
fn put_end(session: &mut [u32], begun: bool, answer: Answer, at: Place)
    requires { 199 ≤ length session.old }
    ensures { session.new ≡ ended_at begun answer at.mark at.depth session.old }
{
    if begun || layout::is_unrefused(answer) {
        put_at(session, at);
    }
}

// A frame that is entered, or that takes another's place, is written to its slot. Gives the depth after the change.
#[tactic(auto, using(crate::proofs::Writes::changed_place), unfolding(lexer::specs::Turns::depth_after, crate::specs::Code::numbers_after))]
fn change_frame(session: &mut [u32], depth: u32, change: Change) -> u32
    requires { Changes session.old depth change }
    ensures { Changed session.old depth change result session.new }
{
    match change {
        Change::Keep => depth,
        Change::Swap(f) => {
            layout::put_frame(session, depth as usize - 1, f);
            depth
        }
        Change::Enter(f) => {
            layout::put_frame(session, depth as usize, f);
            depth + 1
        }
        Change::Leave => depth - 1,
    }
}

// The frame on top of a session's slots.
fn top_in(session: &[u32], depth: u32) -> Frame
    requires { Deep session.now depth }
    ensures { result ≡ top_in session.now depth }
{
    layout::frame_at(session, depth as usize - 1)
}

// The frame on top after a change, at the depth after it; f was on top before.
#[tactic(auto, unfolding(crate::specs::Code::frame_after))]
fn frame_after(session: &[u32], depth: u32, f: Frame, change: Change) -> Frame
    requires { Deep session.now depth }
    ensures { result ≡ frame_after f change (top_in session.now depth) }
{
    match change {
        Change::Keep => f,
        Change::Swap(g) => g,
        Change::Enter(g) => g,
        Change::Leave => top_in(session, depth),
    }
}

// Where steps end that only pass bytes, and how many are left there.
// As `PassedOn` of modes, with the marks beside the place.
#[derive(Clone, Copy)]
struct Along {
    mark: Mark,
    left: u32,
}

// Steps in a row that only pass bytes.
#[tactic(auto, using(crate::proofs::Passed::goes_along))]
fn go_along(call: Call, src: &[u8], f: Frame, mark: Mark, left: u32) -> Along
    requires { Here src.now mark.span.position × Near mark.span }
    ensures { GoesAlong call src.now f mark left result.mark result.left }
{
    let r = modes::pass_on(call, src, f, mark.span, left);
    let span = r.span;
    let after = Mark {
        span,
        tokens: mark.tokens,
        bytes: mark.bytes,
    };
    Along {
        mark: after,
        left: r.left,
    }
}

// After the gate, where a call is wanted. Steps that only pass bytes are told in a row, ahead of a step by its plan.
#[tactic(auto, using(crate::proofs::Walking::walking_deep, crate::proofs::Walking::walking_first, crate::proofs::Walking::walking_end))]
fn walk_on(
    first: Call,
    src: &[u8],
    end: bool,
    most: u32,
    session: &mut [u32],
    list: &mut [u32],
    pool: &mut [u8],
) -> Ended
    requires { Opened most src.now session.old (length list.old) (length pool.old) }
    ensures { Walks first most src.now end session.old list.old pool.old result session.new list.new pool.new }
{
    let choices = layout::choices_in(session[CHOICES]);
    let mut call = first;
    let mut at = Place {
        mark: mark_in(session),
        depth: session[DEPTH],
    };
    let mut left = most;
    let mut f = top_in(session, at.depth);
    // No `for`: a turn takes as many of `left` as there are steps in a row that only pass bytes.
    while 0 < left {
        let r = go_along(call, src, f, at.mark, left);
        at.mark = r.mark;
        left = r.left;
        if left == 0 {
            break;
        }
        let x = lexer::step_at(call, src, end, f, choices, at, list, pool);
        at.mark = x.mark;
        let answer = x.answer;
        if !is_done(answer) {
            put_end(session, left < most, answer, at);
            return Ended {
                answer,
                done: most - left,
            };
        }
        call = Call::Step;
        left -= 1;
        let change = x.change;
        at.depth = change_frame(session, at.depth, change);
        f = frame_after(session, at.depth, f, change);
    }
    put_at(session, at);
    Ended {
        answer: Answer::Done,
        done: most,
    }
}

// A call, and at most `most` in all with the steps after it, up to one that is not done: over the host's own
// numbers. The gate is asked also where none is wanted. Where none is, or the first is refused, they stay as they
// were.
// Its parameters are what a host lends, one by one.
#[tactic(auto, using(crate::proofs::Walks::walks))]
pub fn turns(
    call: Call,
    src: &[u8],
    end: bool,
    most: u32,
    session: &mut [u32],
    list: &mut [u32],
    pool: &mut [u8],
) -> Ended
    requires { 199 ≤ length session.old }
    ensures { Walks call most src.now end session.old list.old pool.old result session.new list.new pool.new }
{
    if let Err(refusal) = layout::gate_in(src, list.len(), pool.len(), session) {
        let span = state::origin();
        return Ended {
            answer: Answer::Refused { refusal, span },
            done: 0,
        };
    }
    if most == 0 {
        return Ended {
            answer: Answer::Done,
            done: 0,
        };
    }
    walk_on(call, src, end, most, session, list, pool)
}

// The same with the session by value. With `most` 1 it is a step, in which the routine of the top frame reads on
// from the cursor; or a reading: the number at the cursor, or the quoted string whose text starts there. 11 and 12
// come first, then 10 for a reading without Scripting on top, then what the routine refuses, 9, 7, 8.
pub fn calls(
    call: Call,
    src: &[u8],
    end: bool,
    most: u32,
    s: Session,
    list: &mut [u32],
    pool: &mut [u8],
) -> Turn
    ensures { Gives (called_on call most src.now end s list.old pool.old) result list.new pool.new }
{
    let mut numbers = [0u32; 199];
    layout::put_session(&mut numbers, s);
    let r = turns(call, src, end, most, &mut numbers, list, pool);
    let answer = r.answer;
    let session = layout::session_in(&numbers);
    Turn { answer, session }
}
