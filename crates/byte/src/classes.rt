// The class of each of the 256 bytes, in one table, and the look there. The order of the classes makes each test a
// look for those from one to another: octal digits O; digits O E; hex digits O E H; letters H L; what an identifier
// starts with H L U; identifier bytes O E H L U; what is passed alone N B; blanks B; signs S.
ghost use Rattle.std.specs.Prelude.{◌≡◌, ◌≤◌};
ghost use Rattle.byte.specs.Classes.{class_of};
ghost use Rattle.byte.specs.Code.{is_from, class_number, Table, Bits, Holds};

use Class::{B, E, H, L, N, O, S, U};

#[derive(Clone, Copy, PartialEq, Eq, PartialOrd, Ord)]
pub enum Class {
    // A sign, which begins a row of its own in document 01's table for Scripting: ' " ` . { } ? < / #
    S,
    // A digit from 0 to 7.
    O,
    // The digits 8 and 9.
    E,
    // A letter that is a hex digit: A to F, a to f.
    H,
    // Any other letter of ASCII.
    L,
    // The underscore, and the bytes from 0x80 to 0xFF.
    U,
    // None of the others.
    N,
    // A blank: a space or a tab.
    B,
}

// The byte's first hex digit tells the row, its second the column.
const CLASSES: [[Class; 16]; 16] = [
    //0 1  2  3  4  5  6  7  8  9  A  B  C  D  E  F
    [N, N, N, N, N, N, N, N, N, B, N, N, N, N, N, N], // 0
    [N, N, N, N, N, N, N, N, N, N, N, N, N, N, N, N], // 1
    [B, N, S, S, N, N, N, S, N, N, N, N, N, N, S, S], // 2
    [O, O, O, O, O, O, O, O, E, E, N, N, S, N, N, S], // 3
    [N, H, H, H, H, H, H, L, L, L, L, L, L, L, L, L], // 4
    [L, L, L, L, L, L, L, L, L, L, L, N, N, N, N, U], // 5
    [S, H, H, H, H, H, H, L, L, L, L, L, L, L, L, L], // 6
    [L, L, L, L, L, L, L, L, L, L, L, S, N, S, N, N], // 7
    [U, U, U, U, U, U, U, U, U, U, U, U, U, U, U, U], // 8
    [U, U, U, U, U, U, U, U, U, U, U, U, U, U, U, U], // 9
    [U, U, U, U, U, U, U, U, U, U, U, U, U, U, U, U], // A
    [U, U, U, U, U, U, U, U, U, U, U, U, U, U, U, U], // B
    [U, U, U, U, U, U, U, U, U, U, U, U, U, U, U, U], // C
    [U, U, U, U, U, U, U, U, U, U, U, U, U, U, U, U], // D
    [U, U, U, U, U, U, U, U, U, U, U, U, U, U, U, U], // E
    [U, U, U, U, U, U, U, U, U, U, U, U, U, U, U, U], // F
];

// The table, whose entries are the classes of their bytes.
fn table() -> [[Class; 16]; 16]
    ensures { Table result }
{
    CLASSES
}

// A row as sixteen bits, the first entry's the lowest: 1 for a class that is looked for.
#[inline(always)]
fn bits(row: &[Class; 16], first: Class, last: Class) -> u64
    ensures { Bits first last row.now result }
{
    let mut set = 0;
    for (i, class) in row.iter().enumerate() {
        set += u64::from((first <= *class) & (*class <= last)) << i;
    }
    set
}

// A quarter of the table from a row on, a bit for each of its sixty-four bytes.
// One loop over all sixty-four is too long to be computed ahead: `is_identifier` then has 233 instructions, not 12.
#[inline(always)]
fn set_of(row: usize, first: Class, last: Class) -> u64
    requires { row ≤ 12 }
    ensures { Holds first last row result }
{
    let rows = table();
    bits(&rows[row], first, last)
        + (bits(&rows[row + 1], first, last) << 16)
        + (bits(&rows[row + 2], first, last) << 32)
        + (bits(&rows[row + 3], first, last) << 48)
}

// Whether a byte's class is one of those from the first to the last.
pub fn is_classed(b: u8, first: Class, last: Class) -> bool
    ensures { result ≡ is_from (class_number first) (class_number last) (class_of b) }
{
    // Each arm names its row, so that the compiler makes four numbers of the table.
    let set = match b / 64 {
        0 => set_of(0x0, first, last),
        1 => set_of(0x4, first, last),
        2 => set_of(0x8, first, last),
        _ => set_of(0xC, first, last),
    };
    (set >> (b % 64)) % 2 == 1
}
