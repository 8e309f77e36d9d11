// Demand 3 of docs/RULES.md, running: writes a table in chunks of every size, joins the bytes, decodes them in both modes and compares.
// It does so with two tables: the first has a step to a source column that is too wide for checked mode, the second has none.
#![tactic(auto)]

ghost use Rattle.std.specs.Prelude.{◌≤◌};

use std::io;
use token::{Token, TokenChunk};

// The i-th token of a list that meets the premises: every third has no source and repeats the source position. No source column is
// larger than `most`.
fn token_of(most: u32, i: u32) -> Token
    requires { 32 ≤ most }
{
    let k = i % 32;
    let from = k - k % 3;
    let bare = Token {
        dst_line: k / 4,
        dst_col: k % 4 * 1000,
        src_line: (from + 1) * 70000,
        src_col: most - from,
        source_id: token::NONE,
        name_id: token::NONE,
        segment: token::NONE,
    };
    if k % 3 == 2 {
        return bare;
    }
    Token {
        source_id: k % 5,
        name_id: name_of(k),
        segment: k,
        ..bare
    }
}

fn name_of(k: u32) -> u32 {
    if k % 2 == 0 {
        return token::NONE;
    }
    k % 100 * 40 % 1000
}

// The table of 24 tokens.
fn table_of(most: u32) -> [u32; 168]
    requires { 32 ≤ most }
{
    let mut table = [0u32; 168];
    for i in 0..24u32 {
        token::put_token(&mut table, i as usize, token_of(most, i));
    }
    table
}

// Writes the table in chunks of `size` tokens; how many bytes they come to.
fn write_in_chunks(table: &[u32], size: u32, out: &mut [u8]) -> usize {
    let mut c = TokenChunk::default();
    let mut at: usize = 0;
    for _ in 0..25 {
        c.end = c.start.saturating_add(size).min(24);
        let Some(room) = out.get_mut(at..) else {
            return at;
        };
        let Ok(written) = encode::serialize_mappings(table, c, room) else {
            return at;
        };
        at = at.saturating_add(written.bytes);
        c = written.next;
    }
    at
}

// Whether two tables hold the same tokens; where a segment begins is not compared.
fn same(a: &[u32; 168], b: &[u32; 168]) -> bool {
    a.iter()
        .zip(b.iter())
        .enumerate()
        .all(|(i, (x, y))| i % token::WIDTH == 6 || x == y)
}

fn print_yes(rt: &impl Print, yes: bool) -> io::Result<()> {
    print!(rt; " {}", if yes { "yes" } else { "no" })
}

// A text, decoded in both modes.
fn print_both(rt: &impl Print, text: &[u8], table: &[u32; 168]) -> io::Result<()> {
    let mut lenient = [7u32; 168];
    decode::decode_lenient(text, 5, 1000, &mut lenient);
    print_yes(rt, same(&lenient, table))?;
    let mut checked = [7u32; 168];
    decode::decode_checked(text, 5, 1000, &mut checked);
    print_yes(rt, same(&checked, table))
}

fn print_run(
    rt: &impl Print,
    size: u32,
    table: &[u32; 168],
    whole: usize,
    out: &mut [u8],
) -> io::Result<()> {
    let n = write_in_chunks(table, size, out);
    print!(rt; "{size}")?;
    print_yes(rt, n == whole)?;
    if let Some(text) = out.get(..n) {
        print_both(rt, text, table)?;
    }
    println!(rt)
}

fn run_all(rt: &impl Print, table: &[u32; 168], out: &mut [u8]) -> io::Result<()> {
    print!(rt; "premises")?;
    print_yes(rt, premises::meets_premises(table, 5, 1000))?;
    print_yes(rt, checked_premises::meets_checked_premises(table, 5, 1000))?;
    let whole = write_in_chunks(table, 24, out);
    println!(rt; "\nbytes {whole}")?;
    for size in 1..=24 {
        print_run(rt, size, table, whole, out)?;
    }
    Ok(())
}

fn main(rt: HostRuntime) -> io::Result<()> {
    let mut out = [0u8; 4096];
    run_all(&rt, &table_of(4294967295), &mut out)?;
    run_all(&rt, &table_of(2147483647), &mut out)
}
