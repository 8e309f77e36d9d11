// The value rule: from the number that digits make, as its low 64 bits and the bit above them, to the value.
#![tactic(auto)]

ghost use Rattle.std.specs.Prelude.{◌≡◌, ◌+◌, ◌*◌, ◌^◌};
ghost use Rattle.value.specs.Standard.{signed};
ghost use Rattle.value.specs.Value.{as_signed, sign_of, value_of};

// How a text is judged. Lenient is the crate's way; checked takes each value by ECMA-426 and refuses what lenient reduces modulo 2^32.
#[derive(Clone, Copy)]
pub enum Mode {
    Lenient,
    Checked,
}

// The bits of a 64-bit number, read as a signed one.
pub fn to_signed(n: u64) -> i64
    ensures { result ≡ as_signed n }
{
    n.cast_signed()
}

// Half of `cur`, rounded down, and negated where its lowest bit is set.
pub fn decode_sign(cur: i64) -> i64
    ensures { result ≡ sign_of cur }
{
    let mag = cur >> 1;
    if cur & 1 == 1 { -mag } else { mag }
}

// By ECMA-426, which judges the whole number: its half, the magnitude, stays below 2^31, or it is too wide and no value; minus zero is
// -2^31.
fn standard_value(bits: u64, lost: u64) -> Option<i64>
    ensures { result ≡ signed (bits + 2 ^ 64 * lost) }
{
    if 0 < lost {
        return None;
    }
    if 4294967296 <= bits {
        return None;
    }
    if bits == 1 {
        return Some(-2147483648);
    }
    Some(decode_sign(bits as i64))
}

fn judge(mode: Mode, bits: u64, lost: u64) -> Option<i64>
    ensures { result ≡ value_of mode bits lost }
{
    match mode {
        Mode::Lenient => Some(decode_sign(to_signed(bits))),
        Mode::Checked => standard_value(bits, lost),
    }
}

// The one place where a number becomes a value, or none where it is too wide. Nearly every number is below 2^32 and not minus zero: the
// modes agree on it.
pub fn value_of(mode: Mode, bits: u64, lost: u64) -> Option<i64>
    ensures { result ≡ value_of mode bits lost }
{
    if lost == 0 {
        if bits < 4294967296 {
            if bits != 1 {
                return Some(decode_sign(bits as i64));
            }
        }
    }
    judge(mode, bits, lost)
}
