// Eight bytes as one number: the marks of a byte that is looked for, and how many bytes stand before the first mark.
// No byte carries into the next.
ghost use Rattle.std.specs.Prelude.{◌≡◌, ◌+◌, ◌/◌, ◌<◌, ◌≤◌};
ghost use Rattle.std.specs.Int.Bits.{bit_and};
ghost use Rattle.std.specs.Int.Count.{count_trailing_zeros};
ghost use Rattle.source.specs.Code.{word_of, marks_of, repeated, is_not};

// A byte eight times.
#[tactic(auto, unfolding(crate::specs::Code::repeated))]
fn eightfold(b: u8) -> u64
    ensures { (result ≡ repeated 8 b) × (b < 256) }
{
    u64::from(b) * 0x0101010101010101
}

// Seven bits of each byte, and 127 to each.
#[tactic(auto, unfolding(crate::specs::Code::repeated))]
fn raised(x: u64) -> u64
    ensures { result ≡ bit_and x (repeated 8 127) + repeated 8 127 }
{
    (x & 0x7f7f7f7f7f7f7f7f) + 0x7f7f7f7f7f7f7f7f
}

// The top bit of each of eight bytes that is c: the first of them is the lowest of the word.
#[tactic(auto, using(crate::proofs::Marks::marks_word))]
pub fn marks(block: &[u8; 8], c: u8) -> u64
    ensures { result ≡ word_of (marks_of (is_not c) block.now) }
{
    let x = u64::from_le_bytes(*block) ^ eightfold(c);
    !(raised(x) | x) & 0x8080808080808080
}

// How many bytes stand before the first mark; 8 where there is none.
pub fn before(marks: u64) -> usize
    ensures { (result ≡ count_trailing_zeros 64 marks / 8) × (result ≤ 8) }
{
    marks.trailing_zeros() as usize / 8
}
