// The sixty-four characters: what each byte reads as, and what each digit is written as.
#![tactic(auto)]

ghost use Rattle.std.specs.Prelude.{◌≡◌, ◌+◌, ◌<◌, ◌≤◌, length, get_or};
ghost use Rattle.digits.specs.Digits.{class_of, char_of, is_delim};
ghost use Rattle.digits.specs.Tables.{word};

// The characters of the digits 0 to 63.
pub const B64_CHARS: [u8; 64] =
    *b"ABCDEFGHIJKLMNOPQRSTUVWXYZabcdefghijklmnopqrstuvwxyz0123456789+/";

// The same, where they lie once: a constant array is made anew at each use, and a static is not.
static CHARS: [u8; 64] = B64_CHARS;

// `,` or `;`: of the 256 numbers 17 b + 21, modulo 256, theirs are 1 and 0. One comparison, so that nothing branches on which it is.
pub fn is_delim(b: u8) -> bool
    ensures { result ≡ is_delim b }
{
    (b as u32 * 17 + 21) % 256 < 2
}

// What a byte reads as: its digit, 0 to 63, or 64 for a delimiter.
pub fn code_of(b: u8) -> u8
    ensures { result ≡ class_of b }
{
    match b {
        65..=90 => b - 65,
        97..=122 => b - 71,
        48..=57 => b + 4,
        43 => 62,
        44 => 64,
        59 => 64,
        _ => 63,
    }
}

// Four bytes as one number, the first lowest, so that all can be compared with a range at once.
pub fn four_of(s: &[u8], at: usize) -> u32
    requires { at + 4 ≤ length s.now }
    ensures { result ≡ word (get_or s.now at 0) (get_or s.now (at + 1) 0) (get_or s.now (at + 2) 0) (get_or s.now (at + 3) 0) }
{
    u32::from_le_bytes([s[at], s[at + 1], s[at + 2], s[at + 3]])
}

// The character of a digit.
pub fn digit_char(d: u64) -> u8
    requires { d < 64 }
    ensures { result ≡ char_of d }
{
    CHARS[d as usize]
}
