// Reads the digits of one value.
#![tactic(auto)]

ghost use Rattle.std.specs.Prelude.{◌≡◌, ◌+◌, ◌*◌, ◌/◌, ◌%◌, ◌^◌, ◌<◌, ◌≤◌, eqb, IfSome, length};
ghost use Rattle.list.specs.Pick.{pick};
ghost use Rattle.vlq.specs.Vlq.{vlq_at};
ghost use Rattle.vlq.specs.Several.{FewAt, FewIn, Plain, each, end_of, high_of, low_of, bad_of, five_of, bits_of, count_of};

// Where a value broke: cut short, or too long.
#[derive(Clone, Copy)]
pub enum Broken {
    Leftover(usize),
    Overflow(usize),
}

// What the digit `d`, after `k` others, pushes out of 64 bits: the top one of the thirteenth digit's five.
fn lost_of(k: u64, d: u64) -> u64
    ensures { result ≡ pick (eqb k 12) (d % 32 / 16) 0 }
{
    if k == 12 {
        return d % 32 / 16;
    }
    0
}

// The low five bits of the digit `d`, after `k` digits, put above `cur`, but for what they push out.
fn put_digit(cur: u64, k: u64, d: u64) -> u64
    requires { (k < 13) × (cur < 2 ^ (5 * k)) }
    ensures { result ≡ (cur + d % 32 * 2 ^ (5 * k)) % 2 ^ 64 }
{
    let lost = lost_of(k, d);
    cur + ((d % 32 - 16 * lost) << (5 * k))
}

// A number of few digits: its bits, and how many digits it has.
#[derive(Clone, Copy)]
pub struct Few {
    pub bits: u64,
    pub count: usize,
}

// Four bytes at once: `w` is made of four bytes below 128, and what these functions give has a number in the place of each. No sum or
// difference leaves its byte. The first: bit 7 where the byte is 64 to 102, the last digit of a value if it is a digit.
fn ends_of(w: u32) -> u32
    requires { Plain w }
    ensures { result ≡ each end_of w }
{
    (w * 2) & (0xe6e6_e6e6 - w) & 0x8080_8080
}

// 1 where the byte is 64 or more.
fn high_of(w: u32) -> u32
    requires { Plain w }
    ensures { result ≡ each high_of w }
{
    (w & 0x4040_4040) / 64
}

// 1 where the byte is below 48.
fn low_of(w: u32) -> u32
    requires { Plain w }
    ensures { result ≡ each low_of w }
{
    ((0xafaf_afaf - w) & 0x8080_8080) / 128
}

// 0 where the byte is one of the 64 characters. From 64 on they are 1 to 26 modulo 32, the letters; below 64 at most 25, as `9` is, and
// below 48 `+` and `/` alone, which differ in bit 2.
fn bad_of(w: u32, l: u32, u: u32) -> u32
    requires { Plain w × ((l ≡ each high_of w) × (u ≡ each low_of w)) }
    ensures { result ≡ each bad_of w }
{
    let q = (w + 0x1f1f_1f1f) & 0x1f1f_1f1f;
    ((q + 0x6767_6767 - l) & 0x8080_8080) | ((w ^ 0x2b2b_2b2b) & (u * 251))
}

// The low five bits of the digit that the byte is: modulo 32, `A` is 1 more than its digit, `a` 7 more, `0` 4 less, `+` 13 more and `/` 16.
fn fives_of(w: u32, l: u32, u: u32) -> u32
    requires { Plain w × ((l ≡ each high_of w) × (u ≡ each low_of w)) }
    ensures { result ≡ each five_of w }
{
    let c = (w & 0x2020_2020) / 32;
    let p = (w & (u * 4)) / 4;
    (w + u * 15 + 0x0a0a_0a0a - p * 3 - c * 6 - l * 11) & 0x1f1f_1f1f
}

// The number of four digits whose low five bits these are.
fn bits_of(x: u32) -> u64
    ensures { result ≡ bits_of x }
{
    (x % 256 + x / 256 % 256 * 32 + x / 65536 % 256 * 1024 + x / 16777216 * 32768) as u64
}

// How many bytes there are up to the first in which a bit is set.
fn count_of(f: u32) -> usize
    ensures { result ≡ count_of f }
{
    (u32::trailing_zeros(f) / 8 + 1) as usize
}

// A number that ends within four bytes, or none where that is not known. How many digits it has is as good as random, so that it is data
// and no branch. The tests are sufficient and no more.
fn few_of(w: u32) -> Option<Few>
    ensures { IfSome result (FewIn w) }
{
    if (w & 0x8080_8080) != 0 {
        return None;
    }
    let f = ends_of(w);
    if f == 0 {
        return None;
    }
    // All bits of the bytes up to the first that ends a value.
    let m = f ^ (f - 1);
    let l = high_of(w);
    let u = low_of(w);
    let bad = bad_of(w, l, u);
    if (bad & m) != 0 {
        return None;
    }
    Some(Few {
        bits: bits_of(fives_of(w, l, u) & m),
        count: count_of(f),
    })
}

pub fn few_digits(s: &[u8], at: usize) -> Option<Few>
    requires { at + 4 ≤ length s.now }
    ensures { IfSome result (FewAt s.now at) }
{
    few_of(digits::four_of(s, at))
}

// What stands at a place of the text: nothing more of its segment; or a number, as its low 64 bits, the bit above them and the place
// after it. At most thirteen digits: a delimiter or the end where a digit is due comes before a fourteenth.
pub fn next_vlq(s: &[u8], at: usize) -> Result<Option<(u64, u64, usize)>, Broken>
    ensures { result ≡ vlq_at s.now at }
{
    if s.len() <= at {
        return Ok(None);
    }
    if digits::is_delim(s[at]) {
        return Ok(None);
    }
    if at + 4 <= s.len() {
        if let Some(few) = few_digits(s, at) {
            return Ok(Some((few.bits, 0, at + few.count)));
        }
    }
    let mut cur: u64 = 0;
    let mut k: u64 = 0;
    for i in at..s.len() {
        let d = digits::code_of(s[i]);
        if d == 64 {
            return Err(Broken::Leftover(i));
        }
        if 13 <= k {
            return Err(Broken::Overflow(i));
        }
        let next = put_digit(cur, k, d as u64);
        if d < 32 {
            return Ok(Some((next, lost_of(k, d as u64), i + 1)));
        }
        cur = next;
        k += 1;
    }
    Err(Broken::Leftover(s.len()))
}
