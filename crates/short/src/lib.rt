// The short way: a segment of four or five values, of which the first three have one digit each and the others up to four, the
// second is 0 and none is minus zero, as most are. Its tests are sufficient and no more: whatever fails one of them, and every
// refusal, is left to the general way.
#![tactic(auto)]

ghost use Rattle.std.specs.Prelude.{◌≡◌, ◌+◌, ◌-◌, ◌*◌, ◌^◌, ◌<◌, ◌≤◌, true, IfSome, length, ◌==◌, nat_lt, slice_index};
ghost use Rattle.list.specs.Pick.{pick};
ghost use Rattle.short.specs.Short.{Bytes, Ones, Stepping, Reading, move_of, Three, Shaped, Stepped, Nears, Fit};

use apply::{Limits, State};

// How many fields there are, and how many bytes they take. A step is 16 more than a
// value: in `steps` a byte for the first field and, as its third byte, one for the third; `col` for the fourth and `name` for the
// fifth, both modulo 2^64; 16 for the fifth where there are four.
#[derive(Clone, Copy)]
pub struct Shape {
    pub fields: usize,
    pub len: usize,
    pub steps: u32,
    pub col: u64,
    pub name: u64,
}

// The five running numbers after these values; 2^32 or more where a sum leaves 0 to 4,294,967,295.
#[derive(Clone, Copy)]
pub struct Near {
    pub dst_col: u64,
    pub source_id: u64,
    pub src_line: u64,
    pub src_col: u64,
    pub name_id: u64,
}

// The digits of four bytes, given what each has above `A`; none where one is not `A` to `Z` or `a` to `f`. The latter
// have 32 to 37 above `A`: with 12 less they have to be below 26 as well, and with 6 less they are the digits 26 to 31.
// `B`, minus zero, is left to the general way: the difference below has the highest bit of a byte exactly where v has 1.
fn four_digits(t: u32) -> Option<u32>
    ensures { IfSome result (Ones t) }
{
    let high = t & 0x80808080;
    if high != 0 {
        return None;
    }
    let twelves = (t & 0x20202020) / 8 * 3;
    let v = t - twelves;
    let over = ((v + 0x66666666) | (0x80808080 - (v ^ 0x01010101))) & 0x80808080;
    if over != 0 {
        return None;
    }
    Some(v + twelves / 2)
}

// The steps of four digits: half of each, added to 16 or, where the digit is odd, taken from it.
fn four_steps(d: u32) -> u32
    requires { Bytes 32 d }
    ensures { Stepping d result }
{
    let odd = d & 0x01010101;
    let half = (d - odd) / 2;
    half + 0x10101010 - 2 * (half & (odd * 15))
}

// The steps of four bytes; none where one has no value of one digit, or minus zero.
fn steps_of(w: u32) -> Option<u32>
    ensures { IfSome result (Reading w) }
{
    let d = four_digits(w.wrapping_sub(0x41414141))?;
    Some(four_steps(d))
}

fn five_or_four(b: u8) -> usize
    ensures { result ≡ pick (nat_lt b 60) 4 5 }
{
    if b < 60 {
        return 4;
    }
    5
}

// The fifth byte, or `A`, which steps by 0, in the place of a delimiter.
fn fifth(b: u8) -> u32
    ensures { result ≡ pick (nat_lt b 60) 65 b }
{
    if b < 60 {
        return 65;
    }
    b as u32
}

// Four bytes of which the second is `A`, with another in its place.
fn with_second(w: u32, x: u32) -> u32
    requires { (16640 ≤ w) × (w - 16640 + x * 256 < 2 ^ 32) }
    ensures { result ≡ w - 16640 + x * 256 }
{
    w - 16640 + x * 256
}

// The step of a number of several digits: half of it added to 16 or, where it is odd, taken from it.
fn move_of(bits: u64) -> u64
    ensures { result ≡ move_of bits }
{
    if bits % 2 == 1 {
        return 16u64.wrapping_sub(bits / 2);
    }
    16 + bits / 2
}

// A fourth value of up to four digits, then a delimiter, or a fifth such value and then a delimiter.
fn few_after(s: &[u8], at: usize, steps: u32) -> Option<Shape>
    requires { (at + 12 ≤ length s.now) × Three s.now at steps }
    ensures { IfSome result (Shaped s.now at) }
{
    let f = vlq::few_digits(s, at + 3)?;
    if f.bits == 1 {
        return None;
    }
    let p = at + 3 + f.count;
    if digits::is_delim(s[p]) {
        return Some(Shape {
            fields: 4,
            len: 3 + f.count,
            steps,
            col: move_of(f.bits),
            name: 16,
        });
    }
    let g = vlq::few_digits(s, p)?;
    if g.bits == 1 {
        return None;
    }
    if digits::is_delim(s[p + g.count]) {
        return Some(Shape {
            fields: 5,
            len: 3 + f.count + g.count,
            steps,
            col: move_of(f.bits),
            name: move_of(g.bits),
        });
    }
    None
}

// The first three values have one digit each, and the others up to four. `A` stands in for the fourth byte.
fn try_few(s: &[u8], at: usize) -> Option<Shape>
    requires { (at + 12 ≤ length s.now) × (slice_index s.now (at + 1) ≡ 65) }
    ensures { IfSome result (Shaped s.now at) }
{
    let steps = steps_of(digits::four_of(s, at) % 16777216 + 1090519040)?;
    few_after(s, at, steps)
}

// The delimiter is looked for before the digits: where it stands at the fifth or sixth byte, most segments have values of one digit
// each. What has not is tried with more of them, if the text has twelve bytes left.
pub fn try_fast_4_or_5_segment(s: &[u8], at: usize) -> Option<Shape>
    requires { at + 6 ≤ length s.now }
    ensures { IfSome result (Shaped s.now at) }
{
    if s[at + 1] != 65 {
        return None;
    }
    let b = s[at + 4];
    let fields = five_or_four(b);
    if digits::is_delim(s[at + fields]) {
        if let Some(steps) = steps_of(with_second(digits::four_of(s, at), fifth(b))) {
            return Some(Shape {
                fields,
                len: fields,
                steps,
                col: (steps / 16777216) as u64,
                name: (steps / 256 % 256) as u64,
            });
        }
    }
    if at + 12 <= s.len() {
        return try_few(s, at);
    }
    None
}

// A running number after a step: `e` is 16 more than the step, modulo 2^64.
fn moved_by(base: u32, e: u64) -> u64
    ensures { Stepped result base e }
{
    (base as u64)
        .wrapping_add(e)
        .wrapping_add(18446744073709551600)
}

pub fn near_all(shape: Shape, st: State) -> Near
    ensures { Nears shape st result }
{
    Near {
        dst_col: moved_by(st.dst_col, (shape.steps % 256) as u64),
        source_id: st.source_id as u64,
        src_line: moved_by(st.src_line, (shape.steps / 65536 % 256) as u64),
        src_col: moved_by(st.src_col, shape.col),
        name_id: moved_by(st.name_id, shape.name),
    }
}

// What the name's sum must be below: 2^32 where there is no name, since its step is 0 then.
fn most(k: usize, names: u32) -> u64
    ensures { result ≡ pick (k == 5) «names» 4294967296 }
{
    if k == 5 {
        return names as u64;
    }
    4294967296
}

// Whether every sum may be taken.
pub fn fits(n: Near, k: usize, limits: Limits) -> bool
    ensures { result ≡ true → Fit n k limits.sources limits.names }
{
    if most(k, limits.names) <= n.name_id {
        return false;
    }
    let all = n.dst_col | n.src_line | n.src_col;
    if 4294967296 <= all {
        return false;
    }
    n.source_id < limits.sources as u64
}
