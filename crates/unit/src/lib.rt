// What a text is made of: the words in which the six text readings, their units and what ends them are told.
// The definitions and theorems over them stand in specs/ and proofs/; the code that follows them in the crates
// escape, interpolation, closer and text.
#![tactic(auto)]

use byte::{Octal, Refusal};

// How a text is read: the Rust's two string routines, its four modes. Those with octal escapes bear the choice of what
// one over 255 stands for.
#[derive(Clone, Copy)]
pub enum Mode {
    Single,
    Double(Octal),
    DoubleQuote(Octal),
    ShellExec,
    Heredoc(Octal),
    Nowdoc,
}

// What follows a variable's name: `[`, an arrow and a start byte, or anything else.
#[derive(Clone, Copy)]
pub enum Follow {
    Other,
    Offset,
    Property,
}

// The blanks before a closing label.
#[derive(Clone, Copy)]
pub enum Indentation {
    None,
    Space,
    Tab,
    Mixed,
}

// A label against the text: it stands there, it does not, or the part ends before that is told.
// Three answers by name, of which an Option<bool> would say less.
#[derive(Clone, Copy)]
pub enum Match {
    Whole,
    Other,
    Undecided,
}

// What ends a text.
#[derive(Clone, Copy)]
pub enum Stop {
    // The closing quote or backtick.
    Quote,
    // A literal meets an interpolation, which is left to `double_quote`.
    Interpolation,
    // `${`
    DollarLeftBrace,
    // `{` before a `$`, which is not taken.
    LeftBrace,
    // `$name`
    Variable(Follow),
    // A text block's closing label after its indentation.
    Label {
        indentation: Indentation,
        amount: usize,
    },
}

// What stands at a place of a text. `after` is the place after it. A table tells all five by name: a Result round
// three of them would be taken apart at every place.
#[derive(Clone, Copy)]
pub enum TextUnit {
    // One byte of the value.
    Byte {
        value: u8,
        after: usize,
    },
    // A code point of the value, in UTF-8.
    Point {
        code: u32,
        after: usize,
    },
    // The text ends here; a token of its own has the source from `from` to `after` as its value.
    Ends {
        stop: Stop,
        from: usize,
        after: usize,
    },
    // A refusal, and where.
    Fault {
        refusal: Refusal,
        place: usize,
    },
    // The part ends before it is told.
    Undecided,
}
