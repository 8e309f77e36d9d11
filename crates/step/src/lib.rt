// The next token of a text: delimiters are passed, and a segment is taken, by the short way where that can be done.
#![tactic(auto)]

ghost use Rattle.std.specs.Prelude.{◌≡◌, ◌+◌, ◌<◌, ◌^◌, Ok, Some, length, eqb};
ghost use Rattle.list.specs.Pick.{pick};
ghost use Rattle.token.specs.Table.{no_id};
ghost use Rattle.digits.specs.Digits.{is_delim};
ghost use Rattle.step.specs.Step.{commaed, lined, step_at};
ghost use Rattle.step.specs.Ways.{told, segmented_at, offset_in, stepped_in, taken_at, short_step, Opens, Closes, Passed};
ghost use Rattle.short.specs.Short.{Fit};

use apply::{About, Limits, Refusal, State};
use code::Code;
use short::Near;
use token::Token;

// Why the next segment is not taken, and where the fault lies.
#[derive(Clone, Copy)]
pub struct Refused {
    pub code: Code,
    pub offset: usize,
}

// The one place where a refusal's offset is chosen.
fn offset_of(s: &[u8], begin: usize, about: About) -> usize
    ensures { result ≡ offset_in s.now begin about }
{
    match about {
        About::Whole => begin,
        About::Field(field) => segment::field_at(s, begin, field),
        About::Place(place) => place,
    }
}

// The step of a segment. The token says its segment's start as well, modulo 2^32: whoever places it looks first whether that is the
// start.
fn step_of(
    s: &[u8],
    begin: usize,
    a: Result<(Token, State), Refusal>,
) -> Result<Option<(Token, usize, State)>, Refused>
    ensures { result ≡ told (stepped_in s.now begin a) }
{
    match a {
        Ok((t, after)) => {
            let t = token::with_segment(t, (begin % 4294967296) as u32);
            Ok(Some((t, begin, after)))
        }
        Err(r) => Err(Refused {
            code: r.code,
            offset: offset_of(s, begin, r.about),
        }),
    }
}

// The segment at the state's place, read and taken.
fn take(s: &[u8], limits: Limits, st: State) -> Result<(Token, State), Refusal>
    ensures { result ≡ taken_at limits.mode limits.sources limits.names s.now st }
{
    let g = segment::parse_vlq_segment(s, limits.mode, st.at)?;
    apply::apply_segment(limits, st, g)
}

// A segment in general.
fn general_step(
    s: &[u8],
    limits: Limits,
    st: State,
) -> Result<Option<(Token, usize, State)>, Refused>
    ensures { result ≡ told (segmented_at limits.mode limits.sources limits.names s.now st) }
{
    step_of(s, st.at, take(s, limits, st))
}

fn shown_name(k: usize, name_id: u32) -> u32
    ensures { result ≡ pick (eqb k 5) name_id no_id }
{
    if k == 5 {
        return name_id;
    }
    token::NONE
}

fn short_step(st: State, n: Near, k: usize, len: usize, limits: Limits) -> (Token, usize, State)
    requires { Fit n k limits.sources limits.names × (st.at + len < 2 ^ 64) }
    ensures { Ok (Some result) ≡ told (short_step st n k len) }
{
    let after = State {
        dst_line: st.dst_line,
        src_line: n.src_line as u32,
        dst_col: n.dst_col as u32,
        src_col: n.src_col as u32,
        source_id: n.source_id as u32,
        name_id: n.name_id as u32,
        at: st.at + len,
    };
    let t = Token {
        dst_line: after.dst_line,
        dst_col: after.dst_col,
        src_line: after.src_line,
        src_col: after.src_col,
        source_id: after.source_id,
        name_id: shown_name(k, after.name_id),
        segment: (st.at % 4294967296) as u32,
    };
    (t, st.at, after)
}

// One segment: by the short way where its tests hold, else, and for every refusal, in general.
fn segment_step(
    s: &[u8],
    limits: Limits,
    st: State,
) -> Result<Option<(Token, usize, State)>, Refused>
    requires { st.at < length s.now }
    ensures { result ≡ told (segmented_at limits.mode limits.sources limits.names s.now st) }
{
    let at = st.at;
    if at + 6 <= s.len() {
        if let Some(shape) = short::try_fast_4_or_5_segment(s, at) {
            let n = short::near_all(shape, st);
            if short::fits(n, shape.fields, limits) {
                return Ok(Some(short_step(st, n, shape.fields, shape.len, limits)));
            }
        }
    }
    general_step(s, limits, st)
}

// `,` or `;`. Most segments begin with a letter, which is above both.
fn between(b: u8) -> bool
    ensures { result ≡ is_delim b }
{
    if 60 <= b {
        return false;
    }
    digits::is_delim(b)
}

fn crossed(st: State, b: u8) -> State
    requires { st.at + 1 < 2 ^ 64 }
    ensures { result ≡ pick (eqb b 59) (lined st) (commaed st) }
{
    let at = st.at + 1;
    if b == 59 {
        return State {
            dst_line: st.dst_line.wrapping_add(1),
            dst_col: 0,
            at,
            ..st
        };
    }
    State { at, ..st }
}

// Past the delimiters that stand at the state's place. The place is a part of the state, which each delimiter moves, and no index of the
// loop's own; so it is no `for`.
pub fn next_segment(s: &[u8], from: State) -> State
    ensures { Passed s.now from result }
{
    let mut st = from;
    while st.at < s.len() {
        let at = st.at;
        let b = s[at];
        if between(b) {
            st = crossed(st, b);
        } else {
            return st;
        }
    }
    st
}

// The same from the end of a segment on: the delimiter there need not be looked for.
pub fn next_after(s: &[u8], st: State) -> State
    requires { Closes s.now st }
    ensures { Passed s.now st result }
{
    let at = st.at;
    if at < s.len() {
        return next_segment(s, crossed(st, s[at]));
    }
    st
}

// The next token, the place where its segment begins and the state after it, where no delimiter stands at the state's place; none at the
// end.
pub fn take_segment(
    s: &[u8],
    limits: Limits,
    st: State,
) -> Result<Option<(Token, usize, State)>, Refused>
    requires { Opens s.now st }
    ensures { result ≡ told (step_at limits.mode limits.sources limits.names s.now st) }
{
    if st.at < s.len() {
        return segment_step(s, limits, st);
    }
    Ok(None)
}
