// What one segment does to the running numbers: steps 1 to 5 of docs/RULES.md, Mappings, in its order.
#![tactic(auto)]

ghost use Rattle.std.specs.Prelude.{◌≡◌, Ok};
ghost use Rattle.apply.specs.declared.About.{About};
ghost use Rattle.apply.specs.Apply.{refusal, kept, columned, mapped, named, shown, four, five, counted, applied};
ghost use Rattle.apply.specs.Small.{Small, broken};

use code::Code;
use segment::Segment;
use sums::Unkept;
use token::Token;
use value::Mode;
use vlq::Broken;

// The six running numbers, and the place in the text. In this order the compiler makes no pair of them, and decode's loop has
// fewer instructions.
#[derive(Clone, Copy, Default)]
pub struct State {
    pub dst_line: u32,
    pub src_line: u32,
    pub dst_col: u32,
    pub src_col: u32,
    pub source_id: u32,
    pub name_id: u32,
    pub at: usize,
}

// What a text is held to: the mode, and how many sources and names there are.
#[derive(Clone, Copy)]
pub struct Limits {
    pub mode: Mode,
    pub sources: u32,
    pub names: u32,
}

// What a refusal is about: the whole segment, one of its first five fields, or the place where a value broke.
#[derive(Clone, Copy)]
pub enum About {
    Whole,
    Field(u32),
    Place(usize),
}

// Why a segment is not taken.
#[derive(Clone, Copy)]
pub struct Refusal {
    pub code: Code,
    pub about: About,
}

// A value that broke refuses its segment at the place where it did.
impl From<Broken> for Refusal {
    ghost from_gives = { λ b r. r ≡ broken b };

    fn from(b: Broken) -> Refusal {
        match b {
            Broken::Leftover(place) => Refusal {
                code: Code::VlqLeftover,
                about: About::Place(place),
            },
            Broken::Overflow(place) => Refusal {
                code: Code::VlqOverflow,
                about: About::Place(place),
            },
        }
    }
}

fn at_field(code: Code, field: u32) -> Refusal
    ensures { result ≡ refusal code (About.Field field) }
{
    Refusal {
        code,
        about: About::Field(field),
    }
}

// A sum that is kept, or the refusal of its field.
fn kept(sum: Result<u32, Unkept>, field: u32) -> Result<u32, Refusal>
    ensures { result ≡ kept sum field (λ n. Ok n) }
{
    match sum {
        Ok(n) => Ok(n),
        Err(Unkept::Negative) => Err(at_field(Code::BadSegmentSize(0), field)),
        Err(Unkept::Wide) => Err(at_field(Code::WideValue(field), field)),
    }
}

// The token that shows the running numbers with these ids. Where its segment begins is said when it is placed.
fn token_of(s: State, source_id: u32, name_id: u32) -> Token
    ensures { result ≡ shown s source_id name_id }
{
    Token {
        dst_line: s.dst_line,
        dst_col: s.dst_col,
        src_line: s.src_line,
        src_col: s.src_col,
        source_id,
        name_id,
        segment: token::NONE,
    }
}

// 1. The column; the place moves past the segment. That a segment is small is a clause here and below, and no invariant of Segment:
// definitions make segments too, and each would have to carry the proof.
#[tactic(auto, using(crate::proofs::Laws::held), unfolding(crate::specs::Apply::columned))]
fn column(limits: Limits, s: State, g: Segment) -> Result<State, Refusal>
    requires { Small g }
    ensures { result ≡ columned limits.mode s g }
{
    let nums = g.nums;
    let dst_col = kept(sums::advance(limits.mode, s.dst_col, nums[0]), 0)?;
    Ok(State {
        dst_col,
        at: g.next,
        ..s
    })
}

// 3, 4. The source, then its line, then its column.
#[tactic(auto, using(crate::proofs::Laws::held), unfolding(crate::specs::Apply::mapped))]
fn source(limits: Limits, s: State, g: Segment) -> Result<State, Refusal>
    requires { Small g }
    ensures { result ≡ mapped limits.mode limits.sources s g }
{
    let nums = g.nums;
    let Some(source_id) = sums::source_after(s.source_id, nums[1], limits.sources) else {
        return Err(at_field(Code::BadSourceReference(s.source_id), 1));
    };
    let src_line = kept(sums::advance(limits.mode, s.src_line, nums[2]), 2)?;
    let src_col = kept(sums::advance(limits.mode, s.src_col, nums[3]), 3)?;
    Ok(State {
        source_id,
        src_line,
        src_col,
        ..s
    })
}

// 5. The name.
#[tactic(auto, using(crate::proofs::Laws::held), unfolding(crate::specs::Apply::named))]
fn name(limits: Limits, s: State, g: Segment) -> Result<State, Refusal>
    requires { Small g }
    ensures { result ≡ named limits.mode limits.names s g }
{
    let nums = g.nums;
    let name_id = kept(sums::name_after(limits.mode, s.name_id, nums[4]), 4)?;
    if name_id < limits.names {
        return Ok(State { name_id, ..s });
    }
    Err(at_field(Code::BadNameReference(name_id), 4))
}

// Four fields: a source and no name.
#[tactic(auto, unfolding(crate::specs::Apply::four))]
fn apply_four(limits: Limits, s: State, g: Segment) -> Result<(Token, State), Refusal>
    requires { Small g }
    ensures { result ≡ four limits.mode limits.sources s g }
{
    let r = source(limits, s, g)?;
    Ok((token_of(r, r.source_id, token::NONE), r))
}

// Five fields: a source and a name.
#[tactic(auto, unfolding(crate::specs::Apply::five))]
fn apply_five(limits: Limits, s: State, g: Segment) -> Result<(Token, State), Refusal>
    requires { Small g }
    ensures { result ≡ five limits.mode limits.sources limits.names s g }
{
    let r = source(limits, s, g)?;
    let q = name(limits, r, g)?;
    Ok((token_of(q, q.source_id, q.name_id), q))
}

// 2. The field count.
#[tactic(auto, unfolding(crate::specs::Apply::counted))]
fn apply_count(limits: Limits, s: State, g: Segment) -> Result<(Token, State), Refusal>
    requires { Small g }
    ensures { result ≡ counted limits.mode limits.sources limits.names s g }
{
    let count = g.count;
    match count {
        1 => Ok((token_of(s, token::NONE, token::NONE), s)),
        4 => apply_four(limits, s, g),
        5 => apply_five(limits, s, g),
        _ => Err(Refusal {
            code: Code::BadSegmentSize((count % 4294967296) as u32),
            about: About::Whole,
        }),
    }
}

// A segment whose values are all read: none of the first five is too wide, then steps 1 to 5.
#[tactic(auto, unfolding(crate::specs::Apply::applied))]
pub fn apply_segment(limits: Limits, s: State, g: Segment) -> Result<(Token, State), Refusal>
    requires { Small g }
    ensures { result ≡ applied limits.mode limits.sources limits.names s g }
{
    if let Some(field) = g.wide {
        return Err(at_field(Code::WideValue(field), field));
    }
    let r = column(limits, s, g)?;
    apply_count(limits, r, g)
}
