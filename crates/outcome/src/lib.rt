// What a step comes to: the words in which the modes, the step and the three readings are told.
// The definitions and theorems over them stand in specs/ and proofs/; the code that follows them in the crates modes
// and lexer.
#![tactic(auto)]

use state::Frame;

// What is asked for: a step, or one of the three readings.
#[derive(Clone, Copy)]
pub enum Call {
    Step,
    Number,
    Single,
    Double,
}

// What a step does to the mode stack.
#[derive(Clone, Copy)]
pub enum Change {
    Keep,
    // The top frame becomes this one.
    Swap(Frame),
    // This frame comes on top.
    Enter(Frame),
    // The top frame goes.
    Leave,
}

// The tags that open a script.
#[derive(Clone, Copy)]
pub enum OpenTagKind {
    // `<?php` in any letter case.
    Full,
    // `<?=`
    Echo,
    // `<?`
    Short,
}

// What stands at a `<` of inline text. Three answers with names: an Option of an Option would be no plainer, and
// no generic type would: the definitions `tag`, `tagged`, `opening` and `comment_end` answer with these arms.
#[derive(Clone, Copy)]
pub enum Tag {
    Open(OpenTagKind),
    None,
    // The part ends before it is told.
    Undecided,
}

// The first tag of inline text: three answers with names, as above.
#[derive(Clone, Copy)]
pub enum Tagged {
    At { kind: OpenTagKind, place: usize },
    // The text is over and has none.
    Over,
    Undecided,
}

// The text blocks.
#[derive(Clone, Copy)]
pub enum DocStringKind {
    Heredoc,
    Nowdoc,
}

// What stands at a `<` of a script: a block opens, with its label's range and the place after its break; or another
// byte. Three answers with names, as of a tag.
#[derive(Clone, Copy)]
pub enum Opening {
    Block {
        kind: DocStringKind,
        start: usize,
        len: usize,
        after: usize,
    },
    Other,
    Undecided,
}

// The comments: `//` and `#` begin one of a single line, `/*` one that may have many.
// A match where it is asked, no trait: these are the clauses of `ends`, `end_taken` and `endless`.
#[derive(Clone, Copy)]
pub enum CommentKind {
    SingleLine,
    MultiLine,
}

// How many bytes of a comment come before its end. Three answers with names, as of a tag.
#[derive(Clone, Copy)]
pub enum CommentEnd {
    At(usize),
    // The text is over, and there was none.
    Over,
    Undecided,
}
