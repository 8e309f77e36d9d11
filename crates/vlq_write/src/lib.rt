// Writes one value in the fewest digits.
//
// The bytes and the place in them stay two parameters here and above: `Put` says of both in one equation what a struct of the two would
// need an invariant for as well.
#![tactic(auto)]

ghost use Rattle.std.specs.Prelude.{◌≡◌, ◌+◌, ◌-◌, ◌^◌, ◌<◌, ◌≤◌, length, ◌==◌, nat_lt};
ghost use Rattle.list.specs.Pick.{pick};
ghost use Rattle.digits.specs.Digits.{char_of};
ghost use Rattle.digits.specs.Tables.{writing};
ghost use Rattle.list.specs.Put.{Put};
ghost use Rattle.vlq_write.specs.Few.{Few, GoesOn, low_char};
ghost use Rattle.vlq_write.specs.Near.{near_writing, Off};
ghost use Rattle.vlq_write.specs.Size.{Reaches, StepSize};
ghost use Rattle.vlq_write.specs.Write.{vlq_value, write_of};

// The characters of the steps from -15 to 15, which take one digit.
pub const B64_NEAR: [u8; 31] = *b"fdbZXVTRPNLJHFDACEGIKMOQSUWYace";

// Both tables, and that they hold these characters. Writing makes them once and lends them down, so that a character is one load from
// the stack: a static's address is made anew at each place that reads it, and a constant array itself is.
#[derive(Drop)]
pub struct Tables {
    digits: [u8; 64],
    near: [u8; 31],
    ghost digits_are: { digits ≡ writing },
    ghost near_are: { near ≡ near_writing },
}

impl Tables {
    pub fn new() -> Tables {
        Tables {
            digits: digits::B64_CHARS,
            near: B64_NEAR,
        }
    }
}

// The character of a digit.
fn digit_char(tables: &Tables, d: u64) -> u8
    requires { d < 64 }
    ensures { result ≡ char_of d }
{
    tables.digits[d as usize]
}

// The step from `b` to `a`. Which way it goes is as good as random, so size and sign are data and no branch.
pub fn vlq_value(a: u32, b: u32) -> u64
    ensures { result ≡ vlq_value a b }
{
    a.abs_diff(b) as u64 * 2 + u64::from(a < b)
}

fn over(v: u64, m: u64) -> u64
    ensures { Reaches v m result }
{
    u64::from(m <= v)
}

// One branch, on whether the digits are more than two; how many they are then is data.
fn vlq_size(v: u64) -> u64
    requires { v < 2 ^ 35 }
    ensures { result ≡ length (write_of v) }
{
    if v < 1024 {
        return 1 + over(v, 32);
    }
    3 + over(v, 32768) + over(v, 1048576) + over(v, 33554432) + over(v, 1073741824)
}

// How many digits the step from `b` to `a` takes.
pub fn step_size(a: u32, b: u32) -> u64
    ensures { StepSize a b result }
{
    vlq_size(vlq_value(a, b))
}

// Writes the digits of `num` from `at` on, and gives the place after them. How many they are shows only at the last, so it is no `for`.
fn put_digits(tables: &Tables, out: &mut [u8], at: usize, num: u64) -> usize
    requires { at + length (write_of num) ≤ length out.old }
    ensures { Put out.old at (write_of num) result out.new }
{
    let mut n = num;
    let mut i = at;
    while 32 <= n {
        out[i] = digit_char(tables, n % 32 + 32);
        n /= 32;
        i += 1;
    }
    out[i] = digit_char(tables, n);
    i + 1
}

// The same by itself, for a caller that has no tables.
pub fn encode_vlq(out: &mut [u8], at: usize, num: u64) -> usize
    requires { at + length (write_of num) ≤ length out.old }
    ensures { Put out.old at (write_of num) result out.new }
{
    put_digits(&Tables::new(), out, at, num)
}

// What is added to the lowest digit of `n`: 32 where others follow it.
fn goes_on(n: u64) -> u64
    ensures { GoesOn n result }
{
    if n < 32 { 0 } else { 32 }
}

// The character of the lowest digit of `n`.
fn low_char(tables: &Tables, n: u64) -> u8
    ensures { result ≡ low_char n }
{
    digit_char(tables, n % 32 + goes_on(n))
}

// The character `c` where the value has such a digit, else the byte that stands there.
fn kept(n: u64, c: u8, old: u8) -> u8
    ensures { result ≡ pick (n == 0) old c }
{
    if n == 0 { old } else { c }
}

// Writes two, three or four digits by four stores. How many they are is as good as random, so that it is data and no
// branch: the last two stores put back the byte that stands there where there is no such digit.
fn put_few(tables: &Tables, out: &mut [u8], at: usize, num: u64) -> usize
    requires few { Few num }
    requires at_in_bounds { at + 4 ≤ length out.old }
    ensures { Put out.old at (write_of num) result out.new }
{
    let n1 = num / 32;
    let n2 = n1 / 32;
    let n3 = n2 / 32;
    out[at] = digit_char(tables, num % 32 + 32);
    out[at + 1] = low_char(tables, n1);
    let c2 = low_char(tables, n2);
    out[at + 2] = kept(n2, c2, out[at + 2]);
    let c3 = digit_char(tables, n3 % 32);
    out[at + 3] = kept(n3, c3, out[at + 3]);
    at + 2 + over(n1, 32) as usize + over(n2, 32) as usize
}

// 15 more than the step from `b` to `a`: below 31 for the steps from -15 to 15 and for no other.
fn off(a: u32, b: u32) -> u64
    ensures { Off a b result }
{
    (a as u64 + 15).wrapping_sub(b as u64)
}

fn near_char(tables: &Tables, x: u64) -> u8
    requires { x < 31 }
    ensures { result ≡ char_of (vlq_value x 15) }
{
    tables.near[x as usize]
}

// Writes the step from `b` to `a`. Most take one digit, which a table gives for the difference: neither size nor sign is
// made for them.
#[inline]
pub fn put_step(tables: &Tables, out: &mut [u8], at: usize, a: u32, b: u32) -> usize
    requires { at + length (write_of (vlq_value a b)) ≤ length out.old }
    ensures { Put out.old at (write_of (vlq_value a b)) result out.new }
{
    let x = off(a, b);
    if x < 31 {
        out[at] = near_char(tables, x);
        return at + 1;
    }
    let v = vlq_value(a, b);
    if v < 1048576 && 4 <= out.len() - at {
        return put_few(tables, out, at, v);
    }
    put_digits(tables, out, at, v)
}
