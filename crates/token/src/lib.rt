// Tokens: their kinds, their records in the lent list, their values in the lent pool, and the record file.
// Of the Rust: token.rs. The list is lent numbers, eight a token; a write touches its own places and no other.
#![tactic(auto)]

ghost use Rattle.std.specs.Prelude.{◌≡◌, ◌+◌, ◌*◌, ◌≤◌, ◌<◌, length, take, drop};
ghost use Rattle.source.specs.Cursor.{origin};
ghost use Rattle.byte.specs.Laid.{laid};
ghost use Rattle.token.specs.Kinds.{kind_number};
ghost use Rattle.token.specs.Records.{record_of, room_refusal};
ghost use Rattle.token.specs.Files.{little_endian, number_at, file_of, list_of, records_refusal, to_file_refusal, to_list_refusal, ToFile, ToList};

use byte::Refusal;
use source::Span;
use state::Answer;

// The kinds of tokens (document 01, "Token list").
#[derive(Clone, Copy, PartialEq, Eq)]
pub enum Kind {
    InlineHtml,
    OpenTagFull,
    OpenTagEcho,
    OpenTagShort,
    StringPart,
    DollarLeftBrace,
    LeftBrace,
    DoubleQuote,
    Backtick,
    Variable,
    EndDocStringNone,
    EndDocStringSpace,
    EndDocStringTab,
    Identifier,
    QuestionArrow,
    Arrow,
    LiteralSingleQuotedString,
    LiteralDoubleQuotedString,
    LiteralInteger,
    LiteralFloat,
    // Of document 02, P2.
    Comment,
}

// The number by which a record names a kind.
impl From<Kind> for u32 {
    ghost from_gives = { λ kind number. number ≡ kind_number kind };

    fn from(kind: Kind) -> u32 {
        match kind {
            Kind::InlineHtml => 1,
            Kind::OpenTagFull => 2,
            Kind::OpenTagEcho => 3,
            Kind::OpenTagShort => 4,
            Kind::StringPart => 5,
            Kind::DollarLeftBrace => 6,
            Kind::LeftBrace => 7,
            Kind::DoubleQuote => 8,
            Kind::Backtick => 9,
            Kind::Variable => 10,
            Kind::EndDocStringNone => 11,
            Kind::EndDocStringSpace => 12,
            Kind::EndDocStringTab => 13,
            Kind::Identifier => 14,
            Kind::QuestionArrow => 15,
            Kind::Arrow => 16,
            Kind::LiteralSingleQuotedString => 17,
            Kind::LiteralDoubleQuotedString => 18,
            Kind::LiteralInteger => 19,
            Kind::LiteralFloat => 20,
            Kind::Comment => 21,
        }
    }
}

// A token whose value stands in the pool: `len` bytes from `start` on. The step that wrote it ended at `end`.
#[derive(Clone, Copy)]
pub struct Token {
    // The number of a `Kind`; in a list that a host lends it may be any number.
    pub kind: u32,
    // The indentation amount of an EndDocString, else 0.
    pub detail: u32,
    pub span: Span,
    pub start: u32,
    pub len: u32,
    pub end: u32,
}

// Whether `count` records and `len` value bytes fit from the marks on: 7 or 8 where they don't. To be asked before
// any write.
// Numbers, no struct: Mark is the crate commit's, above this one.
#[tactic(auto, unfolding(crate::specs::Records::room_refusal))]
pub fn room(
    list: usize,
    pool: usize,
    tokens: u32,
    bytes: u32,
    count: u32,
    len: u32,
) -> Result<(), Refusal>
    ensures { result ≡ room_refusal list pool tokens bytes count len }
{
    if list / 8 < tokens as usize + count as usize {
        return Err(Refusal::ListFull);
    }
    if pool < bytes as usize + len as usize {
        return Err(Refusal::PoolFull);
    }
    Ok(())
}

// One record, at its place.
pub fn put_token(list: &mut [u32], place: usize, t: Token)
    requires { place * 8 + 8 ≤ length list.old }
    ensures { list.new ≡ laid list.old (place * 8) (record_of t) }
{
    let at = place * 8;
    let record = [
        t.kind,
        t.detail,
        t.span.line,
        t.span.column,
        t.span.position,
        t.start,
        t.len,
        t.end,
    ];
    list[at..at + 8].copy_from_slice(&record);
}

// Eight bytes, read before any is written: they become one load and one store. By `copy_from_slice` each block would
// be asked whether it lies over the other, and a block as an array would become a call of a host's `memcpy`.
#[tactic(auto, using(crate::proofs::Copies::eight_copied))]
fn copy_8(part: &[u8], from: usize, rest: &mut [u8], to: usize)
    requires { (from + 8 ≤ length part.now) × (to + 8 ≤ length rest.old) }
    ensures { rest.new ≡ laid rest.old to (take 8 (drop from part.now)) }
{
    let a = part[from];
    let b = part[from + 1];
    let c = part[from + 2];
    let d = part[from + 3];
    let e = part[from + 4];
    let f = part[from + 5];
    let g = part[from + 6];
    let h = part[from + 7];
    rest[to] = a;
    rest[to + 1] = b;
    rest[to + 2] = c;
    rest[to + 3] = d;
    rest[to + 4] = e;
    rest[to + 5] = f;
    rest[to + 6] = g;
    rest[to + 7] = h;
}

// Fewer than eight, one by one. Never inlined: beside a local part its loop would become a call of a host's `memcpy`.
#[inline(never)]
fn copy_few(part: &[u8], rest: &mut [u8])
    requires { length part.now ≤ length rest.old }
    ensures { rest.new ≡ laid rest.old 0 part.now }
{
    for (i, b) in part.iter().enumerate() {
        rest[i] = *b;
    }
}

// The bytes of a part, copied to the start of another by blocks of eight: the last block lies over the one before.
fn copy(part: &[u8], rest: &mut [u8])
    requires { length part.now ≤ length rest.old }
    ensures { rest.new ≡ laid rest.old 0 part.now }
{
    if part.len() < 8 {
        copy_few(part, rest);
        return;
    }
    let last = part.len() - 8;
    let mut i = 0;
    // A turn passes eight bytes, and the last block lies over, so no iterator counts the places.
    while i < last {
        copy_8(part, i, rest, i);
        i += 8;
    }
    copy_8(part, last, rest, last);
}

// A value in the pool from its fill mark on: the free rest of the pool is passed on as a part.
pub fn put_value(part: &[u8], pool: &mut [u8], mark: usize)
    requires { mark + length part.now ≤ length pool.old }
    ensures { pool.new ≡ laid pool.old mark part.now }
{
    copy(part, &mut pool[mark..]);
}

// One number of a record, as four bytes of a file, the lowest first.
fn put_number(file: &mut [u8], at: usize, n: u32)
    requires { at + 4 ≤ length file.old }
    ensures { file.new ≡ laid file.old at (little_endian n) }
{
    file[at..at + 4].copy_from_slice(&n.to_le_bytes());
}

// The number in four bytes of a file.
#[tactic(auto, unfolding(crate::specs::Files::number_at))]
fn number_at(file: &[u8], at: usize) -> u32
    requires { at + 4 ≤ length file.now }
    ensures { result ≡ number_at file.now at }
{
    u32::from_le_bytes([file[at], file[at + 1], file[at + 2], file[at + 3]])
}

// Of so many places, `unit` to a record, and room for so many records: 11 for too many, 10 for a broken one, or
// `full`.
#[tactic(auto, unfolding(crate::specs::Files::records_refusal))]
fn records_refusal(size: usize, unit: usize, room: usize, full: Refusal) -> Result<(), Refusal>
    requires { 0 < unit }
    ensures { result ≡ records_refusal size unit room full }
{
    if 65537 < size / unit {
        return Err(Refusal::TooLarge);
    }
    if size % unit != 0 {
        return Err(Refusal::OutOfPlace);
    }
    if room < size / unit {
        return Err(full);
    }
    Ok(())
}

// Refusals 11, 10 and 8 of `list_to_file`.
#[tactic(auto, unfolding(crate::specs::Files::records_refusal, crate::specs::Files::to_file_refusal))]
fn to_file_refusal(list: usize, file: usize) -> Result<(), Refusal>
    ensures { result ≡ to_file_refusal list file }
{
    records_refusal(list, 8, file / 32, Refusal::PoolFull)
}

// Refusals 11, 10 and 7 of `file_to_list`.
#[tactic(auto, unfolding(crate::specs::Files::records_refusal, crate::specs::Files::to_list_refusal))]
fn to_list_refusal(file: usize, list: usize) -> Result<(), Refusal>
    ensures { result ≡ to_list_refusal file list }
{
    if 65537 < list / 8 {
        return Err(Refusal::TooLarge);
    }
    records_refusal(file, 32, list / 8, Refusal::ListFull)
}

// A refusal of a call without a session bears a script's beginning.
fn refuse(refusal: Refusal) -> Answer
    ensures { result ≡ Answer.Refused refusal origin }
{
    Answer::Refused {
        refusal,
        span: state::origin(),
    }
}

// Each number of the list as four bytes from the file's start on.
fn put_numbers(list: &[u32], file: &mut [u8])
    requires { length list.now * 4 ≤ length file.old }
    ensures { file.new ≡ laid file.old 0 (file_of list.now) }
{
    for (i, n) in list.iter().enumerate() {
        put_number(file, i * 4, *n);
    }
}

// The first `count` numbers of the file from the list's start on.
// By index: std says nothing of a slice after an adapter of `iter_mut`.
fn put_list(file: &[u8], count: usize, list: &mut [u32])
    requires { (count * 4 ≤ length file.now) × (count ≤ length list.old) }
    ensures { list.new ≡ laid list.old 0 (list_of count file.now) }
{
    for i in 0..count {
        list[i] = number_at(file, i * 4);
    }
}

// All records of a list as a file: 32 bytes a record, little-endian, no header.
// Refused: a list over 65,537 tokens (11) or of no whole number of records (10), a file with less room (8).
// An Answer, no Result: the clauses `ToFile` and `ToList` speak of one.
#[tactic(auto, unfolding(crate::specs::Files::to_file_refusal, crate::specs::Files::file_answer, crate::specs::Files::file_after))]
pub fn list_to_file(list: &[u32], file: &mut [u8]) -> Answer
    ensures { ToFile list.now file.old result file.new }
{
    if let Err(refusal) = to_file_refusal(list.len(), file.len()) {
        return refuse(refusal);
    }
    put_numbers(list, file);
    Answer::Done
}

// All records of a file as a list.
// Refused: a file or a list over 65,537 tokens (11), a file of no whole number of records (10), a list with fewer
// places (7).
#[tactic(auto, unfolding(crate::specs::Files::to_list_refusal, crate::specs::Files::file_answer, crate::specs::Files::file_after))]
pub fn file_to_list(file: &[u8], list: &mut [u32]) -> Answer
    ensures { ToList file.now list.old result list.new }
{
    if let Err(refusal) = to_list_refusal(file.len(), list.len()) {
        return refuse(refusal);
    }
    put_list(file, file.len() / 4, list);
    Answer::Done
}
