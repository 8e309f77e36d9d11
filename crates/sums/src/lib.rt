// A running number and a value: the sum, and what each mode makes of it. A sum is its 64 bits: one that is not below 0 is that
// number, and a negative one lies at 2^63 or above.
#![tactic(auto)]

ghost use Rattle.std.specs.Prelude.{◌≡◌, ◌^◌, ◌≤◌, pos, ◌+ℤ◌, unsigned_abs};
ghost use Rattle.value.specs.Value.{as_signed};
ghost use Rattle.sums.specs.Sums.{sum_of, id_of, name_sum_of, widest_of};

use value::Mode;

// Why a sum is not kept.
#[derive(Clone, Copy)]
pub enum Unkept {
    Negative,
    Wide,
}

// The 64 bits of the sum: what value::to_signed reads as it.
fn sum_of(base: u32, v: i64) -> u64
    requires { unsigned_abs v ≤ 2 ^ 62 }
    ensures { as_signed result ≡ pos base +ℤ v }
{
    (base as u64).wrapping_add(v.cast_unsigned())
}

// The largest sum that a mode keeps. A negative one, as its bits, is larger in both.
#[tactic(auto, unfolding(crate::specs::Sums::widest_of))]
fn widest(mode: Mode) -> u64
    ensures { result ≡ widest_of mode }
{
    match mode {
        Mode::Lenient => 9223372036854775807,
        Mode::Checked => 4294967295,
    }
}

// The column, the source line or the source column after a value. One comparison finds that a sum is kept.
pub fn advance(mode: Mode, base: u32, v: i64) -> Result<u32, Unkept>
    requires { unsigned_abs v ≤ 2 ^ 62 }
    ensures { result ≡ sum_of mode (pos base +ℤ v) }
{
    let sum = sum_of(base, v);
    if sum <= widest(mode) {
        return Ok((sum % 4294967296) as u32);
    }
    if 9223372036854775808 <= sum {
        return Err(Unkept::Negative);
    }
    Err(Unkept::Wide)
}

// The source id after a value, none where it is outside. A negative sum, as its bits, lies past every count.
pub fn source_after(base: u32, v: i64, count: u32) -> Option<u32>
    requires { unsigned_abs v ≤ 2 ^ 62 }
    ensures { result ≡ id_of count (pos base +ℤ v) }
{
    let sum = sum_of(base, v);
    if sum < count as u64 {
        return Some(sum as u32);
    }
    None
}

// The name id after a value. The low 32 bits of a sum are the sum modulo 2^32, of a negative one too.
pub fn name_after(mode: Mode, base: u32, v: i64) -> Result<u32, Unkept>
    requires { unsigned_abs v ≤ 2 ^ 62 }
    ensures { result ≡ name_sum_of mode (pos base +ℤ v) }
{
    let sum = sum_of(base, v);
    if sum < 4294967296 {
        return Ok(sum as u32);
    }
    match mode {
        Mode::Lenient => Ok((sum % 4294967296) as u32),
        Mode::Checked => Err(Unkept::Wide),
    }
}
