// Reads the values of one segment, all of them, before anything is tested.
#![tactic(auto)]

ghost use Rattle.std.specs.Prelude.{◌≡◌, drop};
ghost use Rattle.segment.specs.Segment.{segment_at};
ghost use Rattle.segment.specs.Fields.{parsed_at, place_from, widened};

use value::Mode;
use vlq::Broken;

// The first five values, 0 where there are fewer; the first of them that is too wide, if one is; how many there are; and the place after
// them.
#[derive(Clone, Copy)]
pub struct Segment {
    pub nums: [i64; 5],
    pub wide: Option<u32>,
    pub count: usize,
    pub next: usize,
}

// The next value, in general: nothing more of the segment; or the value, none where it is too wide, and the place after it.
#[tactic(auto, unfolding(crate::specs::Fields::parsed_at))]
fn next_value(s: &[u8], mode: Mode, at: usize) -> Result<Option<(Option<i64>, usize)>, Broken>
    ensures { result ≡ parsed_at mode s.now at }
{
    let Some((bits, lost, next)) = vlq::next_vlq(s, at)? else {
        return Ok(None);
    };
    Ok(Some((value::value_of(mode, bits, lost), next)))
}

// The next value. Most have one digit, and that is a capital.
fn next_field(s: &[u8], mode: Mode, at: usize) -> Result<Option<(Option<i64>, usize)>, Broken>
    ensures { result ≡ parsed_at mode s.now at }
{
    if at < s.len() {
        let d = s[at].wrapping_sub(65);
        if d < 26 {
            return Ok(Some((value::value_of(mode, d as u64, 0), at + 1)));
        }
    }
    next_value(s, mode, at)
}

// The first field that is too wide, where the one of this index is: that found before, or this if it is one of the first five.
fn first_wide(wide: Option<u32>, count: usize) -> Option<u32>
    ensures { result ≡ widened wide count }
{
    if wide.is_none() && count < 5 {
        return Some(count as u32);
    }
    wide
}

pub fn parse_vlq_segment(s: &[u8], mode: Mode, at: usize) -> Result<Segment, Broken>
    ensures { result ≡ segment_at mode s.now at }
{
    let mut nums = [0i64; 5];
    let mut wide: Option<u32> = None;
    let mut count: usize = 0;
    let mut i = at;
    while let Some((value, next)) = next_field(s, mode, i)? {
        match value {
            Some(x) => {
                if count < 5 {
                    nums[count] = x;
                }
            }
            None => wide = first_wide(wide, count),
        }
        count += 1;
        i = next;
    }
    Ok(Segment {
        nums,
        wide,
        count,
        next: i,
    })
}

// Where a field of the segment at a place begins: past so many digits that end a value. Only a refusal asks, so that taking a segment
// does not keep the places.
pub fn field_at(s: &[u8], at: usize, field: u32) -> usize
    ensures { result ≡ place_from field at (drop at s.now) }
{
    let mut k = field;
    for i in at..s.len() {
        if k == 0 {
            return i;
        }
        if digits::code_of(s[i]) < 32 {
            k -= 1;
        }
    }
    usize::max(at, s.len())
}
