// The choices of a session as flags in one number, both ways.
// Functions, no From and TryFrom: any number gives choices, and all these types are of crates below.
ghost use Rattle.std.specs.Prelude.{◌≡◌};
ghost use Rattle.layout.specs.Sessions.{choices_number, are_choices, choices_in};

use byte::Octal;
use state::{Choices, Reading};

// Whether no bit of a number is set but flags.
pub fn are_choices(number: u32) -> bool
    ensures { result ≡ are_choices number }
{
    number < 4
}

// The choices in a number's flags.
#[tactic(auto, unfolding(crate::specs::Sessions::reading_in, crate::specs::Sessions::octal_in))]
pub fn choices_in(number: u32) -> Choices
    ensures { result ≡ choices_in number }
{
    Choices {
        nowdocs: if number % 2 == 0 {
            Reading::Ported
        } else {
            Reading::Sheet
        },
        octals: if number / 2 % 2 == 0 {
            Octal::Rust
        } else {
            Octal::Manual
        },
    }
}

// The choices as flags in one number.
#[tactic(auto, unfolding(crate::specs::Sessions::reading_flag, crate::specs::Sessions::octal_flag))]
pub fn choices_number(choices: Choices) -> u32
    ensures { result ≡ choices_number choices }
{
    let sheets = matches!(choices.nowdocs, Reading::Sheet);
    let manual = matches!(choices.octals, Octal::Manual);
    u32::from(sheets) + 2 * u32::from(manual)
}
