// The codes of docs/RULES.md: why an entry refuses its input, and the number that goes with the code. What is done has code 0.
#![tactic(auto)]

ghost use Rattle.std.specs.Prelude.{◌≡◌};
ghost use Rattle.code.specs.Code.{code_of, number_of, refused, answer_of};
ghost use Rattle.code.specs.Narrow.{rank_of, narrow_of};

#[derive(Clone, Copy)]
pub enum Code {
    VlqLeftover,
    VlqOverflow,
    BadSegmentSize(u32),
    BadSourceReference(u32),
    BadNameReference(u32),
    WideValue(u32),
    TableFull,
    NoRoom(u64),
    LineGoesBack(u32),
    BadChunk,
    BadTable,
    TooBig(u32),
    MoreThanOneSource,
    BadNames,
    OddList,
    Unsorted(u32),
}

// A code's rank among the codes, from 1.
fn rank_of(c: Code) -> u64
    ensures { result ≡ rank_of c }
{
    match c {
        Code::VlqLeftover => 1,
        Code::VlqOverflow => 2,
        Code::BadSegmentSize(_) => 3,
        Code::BadSourceReference(_) => 4,
        Code::BadNameReference(_) => 5,
        Code::WideValue(_) => 6,
        Code::TableFull => 7,
        Code::NoRoom(_) => 8,
        Code::LineGoesBack(_) => 9,
        Code::BadChunk => 10,
        Code::BadTable => 11,
        Code::TooBig(_) => 12,
        Code::MoreThanOneSource => 13,
        Code::BadNames => 14,
        Code::OddList => 15,
        Code::Unsorted(_) => 16,
    }
}

// The code's number in the table of docs/RULES.md. It is the rank but for the codes behind a gap: two questions in place of one take
// no table.
pub fn code_of(c: Code) -> u64
    ensures { result ≡ code_of c }
{
    match c {
        Code::OddList => 17,
        Code::Unsorted(_) => 22,
        _ => rank_of(c),
    }
}

// The number of a code that has one of 32 bits; 0 for every other.
fn narrow_number(c: Code) -> u64
    ensures { result ≡ narrow_of c }
{
    match c {
        Code::VlqLeftover => 0,
        Code::VlqOverflow => 0,
        Code::BadSegmentSize(n) => n as u64,
        Code::BadSourceReference(n) => n as u64,
        Code::BadNameReference(n) => n as u64,
        Code::WideValue(n) => n as u64,
        Code::TableFull => 0,
        Code::NoRoom(_) => 0,
        Code::LineGoesBack(n) => n as u64,
        Code::BadChunk => 0,
        Code::BadTable => 0,
        Code::TooBig(n) => n as u64,
        Code::MoreThanOneSource => 0,
        Code::BadNames => 0,
        Code::OddList => 0,
        Code::Unsorted(n) => n as u64,
    }
}

// The number that goes with the code; 0 where the table lists none. Two questions in place of one take no table of jumps.
pub fn number_of(c: Code) -> u64
    ensures { result ≡ number_of c }
{
    match c {
        Code::NoRoom(n) => n,
        _ => narrow_number(c),
    }
}

// What goes out to another language: a code and its number, both 0 where it is done.
#[repr(C)]
#[derive(Clone, Copy)]
pub struct Answer {
    pub code: u64,
    pub number: u64,
}

impl From<Code> for Answer {
    ghost from_gives = { λ c a. a ≡ refused c };

    fn from(c: Code) -> Answer {
        Answer {
            code: code_of(c),
            number: number_of(c),
        }
    }
}

// The answer of an entry that gives nothing but whether it is done.
pub fn answer_of(r: Result<(), Code>) -> Answer
    ensures { result ≡ answer_of r }
{
    match r {
        Ok(()) => Answer { code: 0, number: 0 },
        Err(c) => Answer::from(c),
    }
}
