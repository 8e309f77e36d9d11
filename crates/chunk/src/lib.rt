// Writes one token after a state: how many bytes it takes, the bytes, and the state after it.
//
// An id that is none stays a number: so it stands in the table, which C lends. The sizes are no second use of what writes, since they are
// made without a branch.
#![tactic(auto)]

ghost use Rattle.std.specs.Prelude.{◌≡◌, ◌+◌, ◌≤◌, length, replicate};
ghost use Rattle.list.specs.Pick.{pick};
ghost use Rattle.token.specs.Table.{is_none};
ghost use Rattle.list.specs.Put.{Put};
ghost use Rattle.chunk.specs.Chunk.{lead, base_of, spelled, bytes_of, after};
ghost use Rattle.chunk.specs.Parts.{LeadSize, NameSize, source_of, SourceSize};

use token::{Token, TokenChunk};
use vlq_write::Tables;

// The column that a token's column is counted from.
pub fn base_of(p: TokenChunk, t: Token) -> u32
    ensures { result ≡ base_of p t }
{
    if p.prev_dst_line == t.dst_line {
        p.prev_dst_col
    } else {
        0
    }
}

// The state that a token leaves. Here and below an id is none by the number that C's tables hold, and is no Option.
pub fn after(p: TokenChunk, t: Token) -> TokenChunk
    ensures { result ≡ after p t }
{
    let bare = TokenChunk {
        prev_dst_line: t.dst_line,
        prev_dst_col: t.dst_col,
        ..p
    };
    if t.source_id == token::NONE {
        return bare;
    }
    let sourced = TokenChunk {
        prev_src_line: t.src_line,
        prev_src_col: t.src_col,
        prev_source_id: t.source_id,
        ..bare
    };
    if t.name_id == token::NONE {
        return sourced;
    }
    TokenChunk {
        prev_name_id: t.name_id,
        ..sourced
    }
}

// The bytes before a token's fields: `,`, `;`s or none.
fn lead_size(first: bool, from: u32, to: u32) -> u64
    requires { from ≤ to }
    ensures { LeadSize first from to result }
{
    if from == to {
        return u64::from(!first);
    }
    (to - from) as u64
}

// The name that is stepped to: the previous one where there is none.
fn name_of(p: TokenChunk, t: Token) -> u32
    ensures { result ≡ pick (is_none t.name_id) p.prev_name_id t.name_id }
{
    if t.name_id == token::NONE {
        p.prev_name_id
    } else {
        t.name_id
    }
}

// 1 for a token without a name, else 0.
fn unnamed(t: Token) -> u64
    ensures { result ≡ pick (is_none t.name_id) 1 0 }
{
    u64::from(t.name_id == token::NONE)
}

// Whether a token has a name is as good as random, so that it is data and no branch: a step of nothing takes one digit.
fn name_size(p: TokenChunk, t: Token) -> u64
    ensures { NameSize p t result }
{
    vlq_write::step_size(name_of(p, t), p.prev_name_id) - unnamed(t)
}

// The fields after the first, of a token with a source.
fn source_size(p: TokenChunk, t: Token) -> u64
    ensures { SourceSize p t result }
{
    vlq_write::step_size(t.source_id, p.prev_source_id)
        + vlq_write::step_size(t.src_line, p.prev_src_line)
        + vlq_write::step_size(t.src_col, p.prev_src_col)
        + name_size(p, t)
}

// All the bytes of a token.
pub fn token_size(first: bool, p: TokenChunk, t: Token) -> u64
    requires { p.prev_dst_line ≤ t.dst_line }
    ensures { result ≡ length (bytes_of first p t) }
{
    let n = lead_size(first, p.prev_dst_line, t.dst_line)
        + vlq_write::step_size(t.dst_col, base_of(p, t));
    if t.source_id == token::NONE {
        return n;
    }
    n + source_size(p, t)
}

// A loop, and not `fill`: inline, `fill` takes registers from the loop that writes the tokens, and out of line it misses a bar of speed
// (docs/LOOK-BACK.md).
fn put_semis(out: &mut [u8], at: usize, count: u32) -> usize
    requires { at + count ≤ length out.old }
    ensures { Put out.old at (replicate count 59) result out.new }
{
    let mut i = at;
    let mut k: u32 = 0;
    while k < count {
        out[i] = b';';
        i += 1;
        k += 1;
    }
    i
}

// The first `;` is stored by itself: most tokens advance one line at the most, and the loop is a call.
fn put_lead(out: &mut [u8], at: usize, first: bool, from: u32, to: u32) -> usize
    requires from_le_to { from ≤ to }
    requires to_in_bounds { at + length (lead first from to) ≤ length out.old }
    ensures { Put out.old at (lead first from to) result out.new }
{
    if from == to {
        if first {
            return at;
        }
        out[at] = b',';
        return at + 1;
    }
    out[at] = b';';
    if to - from == 1 {
        return at + 1;
    }
    put_semis(out, at + 1, to - from - 1)
}

// The fields after the first, of a token with a source.
fn put_source(tables: &Tables, out: &mut [u8], at: usize, p: TokenChunk, t: Token) -> usize
    requires { at + length (spelled (source_of p t)) ≤ length out.old }
    ensures { Put out.old at (spelled (source_of p t)) result out.new }
{
    let a = vlq_write::put_step(tables, out, at, t.source_id, p.prev_source_id);
    let b = vlq_write::put_step(tables, out, a, t.src_line, p.prev_src_line);
    let c = vlq_write::put_step(tables, out, b, t.src_col, p.prev_src_col);
    if t.name_id == token::NONE {
        return c;
    }
    vlq_write::put_step(tables, out, c, t.name_id, p.prev_name_id)
}

// All the bytes of a token, from `at` on; the place after them.
pub fn put_token(
    tables: &Tables,
    out: &mut [u8],
    at: usize,
    first: bool,
    p: TokenChunk,
    t: Token,
) -> usize
    requires prev_dst_line_bound { p.prev_dst_line ≤ t.dst_line }
    requires t_in_bounds { at + length (bytes_of first p t) ≤ length out.old }
    ensures { Put out.old at (bytes_of first p t) result out.new }
{
    let a = put_lead(out, at, first, p.prev_dst_line, t.dst_line);
    let b = vlq_write::put_step(tables, out, a, t.dst_col, base_of(p, t));
    if t.source_id == token::NONE {
        return b;
    }
    put_source(tables, out, b, p, t)
}
