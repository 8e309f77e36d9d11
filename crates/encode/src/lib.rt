// Writes a chunk of a token table as text, into lent bytes.
#![tactic(auto)]

ghost use Rattle.std.specs.Result.{MatchResult};
ghost use Rattle.encode.specs.Encode.{Encodes};
ghost use Rattle.encode.specs.Passes.{Backs, Bounded, Counted, Inside, Rising, Writable, Writes};

use code::Code;
use token::TokenChunk;
use vlq_write::Tables;

// The bytes written, and the state for the chunk that begins where this one ends.
#[derive(Clone, Copy)]
pub struct Encoded {
    pub bytes: usize,
    pub next: TokenChunk,
}

// The pass over the lines, which gives the last: nothing is written before it has found none that goes back.
fn lines(table: &[u32], chunk: TokenChunk) -> Result<u32, Code>
    requires { Inside table.now chunk }
    ensures { MatchResult result (Rising table.now chunk) (Backs table.now chunk) }
{
    let mut line = chunk.prev_dst_line;
    for i in chunk.start as usize..chunk.end as usize {
        let t = token::token_at(table, i);
        if t.dst_line < line {
            return Err(Code::LineGoesBack(i as u32));
        }
        line = t.dst_line;
    }
    Ok(line)
}

// The pass that looks at the lines and counts the bytes, where a bound does not say enough.
fn measured(table: &[u32], chunk: TokenChunk) -> Result<u64, Code>
    requires { Inside table.now chunk }
    ensures { MatchResult result (Counted table.now chunk) (Backs table.now chunk) }
{
    let mut p = chunk;
    let mut n: u64 = 0;
    for i in chunk.start as usize..chunk.end as usize {
        let t = token::token_at(table, i);
        if t.dst_line < p.prev_dst_line {
            return Err(Code::LineGoesBack(i as u32));
        }
        n += chunk::token_size(i == 0, p, t);
        p = chunk::after(p, t);
    }
    Ok(n)
}

// Writes a chunk that fits and whose lines do not go back.
fn write_all(tables: &Tables, table: &[u32], chunk: TokenChunk, out: &mut [u8]) -> Encoded
    requires { Writable table.now chunk out.old }
    ensures { Writes table.now chunk out.old result out.new }
{
    let mut p = chunk;
    let mut at: usize = 0;
    for i in chunk.start as usize..chunk.end as usize {
        let t = token::token_at(table, i);
        at = chunk::put_token(tables, out, at, i == 0, p, t);
        p = chunk::after(p, t);
    }
    Encoded {
        bytes: at,
        next: TokenChunk {
            start: chunk.end,
            end: chunk.end,
            ..p
        },
    }
}

// A bound that the room holds spares measuring: 36 bytes for each token and one for each line advanced. Where not even
// the first part of it fits, one pass does both.
fn needed(table: &[u32], chunk: TokenChunk, room: u64) -> Result<u64, Code>
    requires { Inside table.now chunk }
    ensures { MatchResult result (Bounded table.now chunk room) (Backs table.now chunk) }
{
    let most = (chunk.end - chunk.start) as u64 * 36;
    if most <= room {
        let last = lines(table, chunk)?;
        let with = most + (last - chunk.prev_dst_line) as u64;
        if with <= room {
            return Ok(with);
        }
    }
    measured(table, chunk)
}

// Lent 36 bytes for each token and one for each line advanced, it need not measure.
pub fn serialize_mappings(table: &[u32], chunk: TokenChunk, out: &mut [u8]) -> Result<Encoded, Code>
    ensures { Encodes table.now chunk out.old result out.new }
{
    if token::bad_table(table.len()) {
        return Err(Code::BadTable);
    }
    if chunk.end < chunk.start {
        return Err(Code::BadChunk);
    }
    if token::places_in(table.len()) < chunk.end as usize {
        return Err(Code::BadChunk);
    }
    let needed = needed(table, chunk, out.len() as u64)?;
    if (out.len() as u64) < needed {
        return Err(Code::NoRoom(needed));
    }
    let tables = Tables::new();
    Ok(write_all(&tables, table, chunk, out))
}
