// A recorded answer of writing, held to what the library gives.
#![tactic(auto)]

ghost use Rattle.std.specs.Prelude.{◌≤◌, ◌≡◌, length};

use token::TokenChunk;

// No `From` here and below: neither type is of this crate.
fn chunk_in(n: &[u32]) -> TokenChunk
    requires { 8 ≤ length n.now }
{
    TokenChunk {
        start: n[0],
        end: n[1],
        prev_dst_line: n[2],
        prev_dst_col: n[3],
        prev_src_line: n[4],
        prev_src_col: n[5],
        prev_name_id: n[6],
        prev_source_id: n[7],
    }
}

fn numbers_of(c: TokenChunk) -> [u32; 8]
    ensures { 8 ≡ length result }
{
    [
        c.start,
        c.end,
        c.prev_dst_line,
        c.prev_dst_col,
        c.prev_src_line,
        c.prev_src_col,
        c.prev_name_id,
        c.prev_source_id,
    ]
}

// Into the first bytes of some that are sevens.
fn writes(numbers: &[u32], text: &[u8], out: &mut [u8], room: usize) -> bool
    requires in_bounds { 16 ≤ length numbers.now }
    requires room_in_bounds { room ≤ length out.old }
{
    let Ok(written) = encode::serialize_mappings(
        &numbers[16..],
        chunk_in(numbers),
        &mut out[..room],
    ) else {
        return false;
    };
    written.bytes == text.len()
        && numbers_of(written.next)[..] == numbers[8..16]
        && replay::holds(out, text, 7)
}

// A chunk, the chunk after it, tokens. The text. With more room than it takes, and with just enough.
pub fn write_agrees(numbers: &[u32], text: &[u8]) -> bool {
    if numbers.len() < 16 || 3000 < text.len() {
        return false;
    }
    let mut wide = [7u8; 3000];
    let mut exact = [7u8; 3000];
    writes(numbers, text, &mut wide, 3000) && writes(numbers, text, &mut exact, text.len())
}
