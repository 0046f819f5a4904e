// The modes: what a call does, by the top frame. A routine answers with a plan and writes nothing.
// Of the Rust: the routines that `tokenize` calls, one a frame.
// In order: LookingForVarname, LookingForProperty and VarOffset (lookings); Scripting's table (scripting); a step of
// it that only passes bytes (passing); what a call reads (rows); and here the plan of any call. Numbers, texts and
// sheets are the crate drafts, the mode Initial is the crate initial.
#![tactic(auto)]

ghost use Rattle.std.specs.Prelude.{◌≡◌, true, drop};
ghost use Rattle.state.specs.Bounds.{is_frame};
ghost use Rattle.outcome.specs.Steps.{call_at};
ghost use Rattle.plan.specs.Code.{Here, PlansIn};

use byte::Refusal;
use outcome::Call;
use plan::Plan;
use rows::Way;
use state::{Choices, Frame};

mod lookings;
mod passing;
mod rows;
mod scripting;

pub use passing::{is_scripting, pass_on};

// The plan of a call with this frame on top, from a place on. Each routine is called here alone; a text fills the
// scratch part.
#[tactic(auto, using(crate::proofs::Calls::planned), unfolding(crate::specs::Code::way_outcome))]
pub fn plan_of(
    call: Call,
    src: &[u8],
    end: bool,
    f: Frame,
    choices: Choices,
    depth: u32,
    at: usize,
    scratch: &mut [u8],
) -> Plan
    requires { Here src.now at × (is_frame src.now f ≡ true) }
    ensures { PlansIn src.now end scratch.new (call_at call f src.now choices depth end at (drop at src.now)) result }
{
    let row = rows::row_of(call, src, f, choices, at);
    let way = row.way;
    let mode = row.mode;
    match way {
        Way::Number => drafts::number(at, src, at, end),
        Way::Text => drafts::text(mode, src, row.label, at, row.start, end, scratch),
        Way::Sheet => drafts::sheet_mode(src, row.label, at, end),
        Way::Initial => initial::initial(src, at, end),
        Way::Scripting => scripting::scripting(src, at, end, depth),
        Way::Varname => lookings::looking_for_varname(src, at, end),
        Way::Property => lookings::looking_for_property(src, at, end),
        Way::Offset => lookings::var_offset(src, at, end),
        Way::Refused => Plan::Refused {
            refusal: Refusal::OutOfPlace,
            place: at,
        },
    }
}
