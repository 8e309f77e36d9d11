// A recorded answer of decoding, held to what the library gives.
#![tactic(auto)]

ghost use Rattle.std.specs.Prelude.{◌≤◌, length};

// Into the first numbers of a table that holds sevens.
fn decodes(numbers: &[u32], text: &[u8], table: &mut [u32], room: usize) -> bool
    requires in_bounds { 5 ≤ length numbers.now }
    requires room_in_bounds { room ≤ length table.old }
{
    let d = decode::decode_lenient(text, numbers[0], numbers[1], &mut table[..room]);
    replay::answers(d.end, numbers[2], numbers[3])
        && d.offset as u64 == replay::wide(numbers[4])
        && d.tokens == (numbers.len() - 5) / token::WIDTH
        && replay::holds(table, &numbers[5..], 7)
}

// Sources, names, code, number, offset, tokens. The text. With more room than it takes, and with just enough.
pub fn decode_agrees(numbers: &[u32], text: &[u8]) -> bool {
    if numbers.len() < 5 || 485 < numbers.len() {
        return false;
    }
    let mut wide = replay::sevens();
    let mut exact = replay::sevens();
    decodes(numbers, text, &mut wide, 480) && decodes(numbers, text, &mut exact, numbers.len() - 5)
}
