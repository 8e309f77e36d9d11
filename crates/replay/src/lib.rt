// Recorded answers as text: lines of numbers and lines of bytes, in a block of bytes.
#![tactic(auto)]

ghost use Rattle.std.specs.Prelude.{◌≡◌, ◌<◌, ◌≤◌, length};
ghost use Rattle.replay.specs.Counts.{IsPrefixLen};

use code::Code;
use std::io;

// Records met in a group, and those that agreed.
#[derive(Clone, Copy, Default)]
pub struct Tally {
    pub records: u64,
    pub agreed: u64,
}

// 480 sevens: what the numbers of a record are read into, and what is lent to an entry. The `ensures` gives only the length.
pub fn sevens() -> [u32; 480]
    ensures { 480 ≡ length result }
{
    [7; 480]
}

// Where the line from a place on ends: at its newline or at the block's end.
pub fn line_end(s: &[u8], from: usize) -> usize
    requires { from ≤ length s.now }
    ensures { (from ≤ result) × (result ≤ length s.now) }
{
    match s[from..].iter().position(|b| *b == b'\n') {
        Some(k) => from + k,
        None => s.len(),
    }
}

// The place after a line's end.
pub fn after(s: &[u8], end: usize) -> usize
    requires { end ≤ length s.now }
    ensures within { (end ≤ result) × (result ≤ length s.now) }
    ensures past { end < length s.now → end < result }
{
    if end < s.len() {
        return end + 1;
    }
    end
}

// A number with one more byte: a digit, or the dash that is the whole of 4,294,967,295.
fn pushed(value: u32, b: u8) -> u32 {
    if b < 48 {
        return u32::MAX;
    }
    value.wrapping_mul(10).wrapping_add(u32::from(b - 48))
}

// The number that a word is, up to a space.
fn number_of(word: &[u8]) -> u32 {
    let mut value: u32 = 0;
    for b in word {
        if *b == b' ' {
            return value;
        }
        value = pushed(value, *b);
    }
    value
}

// The numbers of a line, with one space between them, as far as there is room for them; how many.
pub fn numbers(s: &[u8], out: &mut [u32]) -> usize
    ensures { IsPrefixLen result out.new }
{
    let mut words = s.split_inclusive(|b| *b == b' ');
    for i in 0..out.len() {
        let Some(word) = words.next() else {
            return i;
        };
        out[i] = number_of(word);
    }
    out.len()
}

// Whether a list begins with these items and holds one item past them.
pub fn holds<T: Copy + PartialEq>(list: &[T], first: &[T], rest: T) -> bool {
    match list.strip_prefix(first) {
        Some(past) => past.iter().all(|x| *x == rest),
        None => false,
    }
}

// Prints the counts of the group that ends, if there is one.
pub fn ended(rt: &impl Print, t: Option<Tally>) -> io::Result<()> {
    let Some(group) = t else {
        return Ok(());
    };
    println!(rt; "{} of {} agree", group.agreed, group.records)
}

// Prints a group's name, after the counts of the one before it.
pub fn began(rt: &impl Print, t: Option<Tally>, name: &[u8]) -> io::Result<Option<Tally>> {
    ended(rt, t)?;
    rt.write_all(name)?;
    rt.write_all(b": ")?;
    Ok(Some(Tally::default()))
}

// Counts a record of a group; one that disagrees is printed.
pub fn counted(
    rt: &impl Print,
    t: Option<Tally>,
    agrees: bool,
    record: &[u8],
) -> io::Result<Option<Tally>> {
    if !agrees {
        rt.write_all(b"\ndiffers: ")?;
        rt.write_all(record)?;
        rt.write_all(b"\n")?;
    }
    Ok(t.map(|group| Tally {
        records: group.records.wrapping_add(1),
        agreed: group.agreed.wrapping_add(u64::from(agrees)),
    }))
}

// A number of a record as 64 bits.
pub fn wide(n: u32) -> u64 {
    u64::from(n)
}

// Whether an answer has the record's code and number, which are 0 where it is done.
pub fn answers(r: Result<(), Code>, code: u32, number: u32) -> bool {
    let a = code::answer_of(r);
    a.code == wide(code) && a.number == wide(number)
}
