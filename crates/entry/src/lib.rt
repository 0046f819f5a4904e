// Every call in the host's own session: it is taken out, the walk is made by value, and the session of its turn is
// stored back. Nothing is decided here.
#![tactic(auto)]

ghost use Rattle.demands.specs.Walks.{called_on};
ghost use Rattle.entry.specs.Entries.{Entered};

use outcome::Call;
use state::{Answer, Session};

// A call and the steps after it, at most `most` in all.
pub fn calls(
    call: Call,
    src: &[u8],
    end: bool,
    most: u32,
    session: &mut Session,
    list: &mut [u32],
    pool: &mut [u8],
) -> Answer
    ensures { Entered (called_on call most src.now end session.old list.old pool.old) result session.new list.new pool.new }
{
    let t = walk::calls(call, src, end, most, *session, list, pool);
    *session = t.session;
    t.answer
}
