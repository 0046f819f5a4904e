// The lexer's core: one step or reading over numbers and the top frame.
// Of the Rust: what `tokenize`'s loop does in one turn. The gate, steps that only pass bytes, the change of frame
// and the turns one after another are crate walk's.
// What step and the readings give in a session is told in specs/.
#![tactic(auto)]

ghost use Rattle.std.specs.Prelude.{length};
ghost use Rattle.commit.specs.Code.{Committed};
ghost use Rattle.lexer.specs.Code.{outcome_at, Standing};

use commit::{Mark, Next};
use outcome::Call;
use state::{Choices, Frame};

// Where a step stands, but for the frames: the cursor and the marks, and the depth of the mode stack.
#[derive(Clone, Copy)]
pub struct Place {
    pub mark: Mark,
    pub depth: u32,
}

// One call, over numbers and the top frame: its plan is made and committed. A text's value that is short stays in
// the scratch part until it is written.
#[tactic(auto, using(crate::proofs::Calls::steps))]
pub fn step_at(
    call: Call,
    src: &[u8],
    end: bool,
    f: Frame,
    choices: Choices,
    at: Place,
    list: &mut [u32],
    pool: &mut [u8],
) -> Next
    requires { Standing src.now f at.mark (length list.old) (length pool.old) }
    ensures { Committed src.now at.mark list.old pool.old (outcome_at call src.now end f choices at) result list.new pool.new }
{
    let m = at.mark;
    let depth = at.depth;
    let mut scratch = [0u8; 256];
    let plan = modes::plan_of(
        call,
        src,
        end,
        f,
        choices,
        depth,
        m.span.position as usize,
        &mut scratch,
    );
    commit::commit(src, end, m, depth, plan, &scratch, list, pool)
}
