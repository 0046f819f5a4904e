// Which token is under the finger: the last record of a list whose position is at or before a byte (document 02, P3),
// and where the step ended that wrote it (P4).
// The list is only read, and at most 17 of its records are looked at. Any list, count and byte may come.
#![tactic(auto)]

ghost use Rattle.std.specs.Prelude.{◌≡◌, ◌*◌, ◌≤◌, length};
ghost use Rattle.source.specs.Cursor.{origin};
ghost use Rattle.lookup.specs.Lookups.{position_in, end_in, record_before, searched, told, find_refusal, looked_up};

use byte::Refusal;
use source::Span;

// What a look-up comes to.
#[derive(Clone, Copy)]
pub struct Looked {
    // The number of the record that was found, if any.
    pub found: Option<u32>,
    // How many records were looked at.
    pub looks: u32,
    // Where the step ended that wrote it; 0 for none, as the definition `end_in` has it and a host is told.
    pub end: u32,
}

// Why nothing was looked at.
#[derive(Clone, Copy)]
pub struct Refused {
    pub refusal: Refusal,
    pub span: Span,
}

// A refusal of a call without a session bears a script's beginning.
impl From<Refusal> for Refused {
    ghost from_gives = { λ refusal refused. refused ≡ record { refusal = refusal; span = origin } };

    fn from(refusal: Refusal) -> Refused {
        let span = state::origin();
        Refused { refusal, span }
    }
}

// Refusals 11 and 12 of `find`, of a list of so many numbers.
#[tactic(auto, unfolding(crate::specs::Lookups::find_refusal))]
fn find_refusal(list: usize, count: usize) -> Result<(), Refusal>
    ensures { result ≡ find_refusal list count }
{
    if 65537 < list / 8 {
        return Err(Refusal::TooLarge);
    }
    if list / 8 < count {
        return Err(Refusal::BadSession);
    }
    Ok(())
}

// The number of the last of so many records.
#[tactic(auto, using(crate::proofs::Lookups::before_same))]
fn record_before(count: u32) -> Option<u32>
    ensures { result ≡ record_before count }
{
    count.checked_sub(1)
}

// Where the step ended that wrote the last of so many records: its eighth number, or 0 for none.
#[tactic(auto, using(crate::proofs::Lookups::ends))]
fn end_before(list: &[u32], count: u32) -> u32
    requires { (count ≤ 65537) × (count * 8 ≤ length list.now) }
    ensures { result ≡ end_in list.now (record_before count) }
{
    match record_before(count) {
        None => 0,
        Some(number) => list[number as usize * 8 + 7],
    }
}

// The search over the first `count` records: those before `low` are taken for at or before the byte, those from
// `high` on for after it.
#[tactic(auto, using(crate::proofs::Lookups::searching))]
fn search(list: &[u32], count: u32, at: usize) -> Looked
    requires { (count ≤ 65537) × (count * 8 ≤ length list.now) }
    ensures { result ≡ told list.now (searched (position_in list.now) at 0 count) }
{
    let mut low = 0;
    let mut high = count;
    let mut looks = 0;
    // By hand: `find_looks` promises the looks, which the library's `partition_point` does not count.
    while low < high {
        let middle = (low + high) / 2;
        looks += 1;
        if at < list[middle as usize * 8 + 4] as usize {
            high = middle;
        } else {
            low = middle + 1;
        }
    }
    Looked {
        found: record_before(low),
        looks,
        end: end_before(list, low),
    }
}

// The last record of the first `count` whose position is at or before the byte `at`, and how many were looked at.
// Refused: a list over 65,537 places (11), a count above its places (12).
// `as`, here and below: it fits by the contract, and `try_from` would bring an arm that never comes.
#[tactic(auto, using(crate::proofs::Lookups::finding))]
pub fn find(list: &[u32], count: usize, at: usize) -> Result<Looked, Refused>
    ensures { result ≡ looked_up list.now count at }
{
    find_refusal(list.len(), count)?;
    Ok(search(list, count as u32, at))
}
