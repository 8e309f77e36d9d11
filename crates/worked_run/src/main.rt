// Decodes the worked texts of docs/RULES.md in both modes: for each mode a line with the code, the number with it, how many tokens
// were written and the offset, and then the tokens.
#![tactic(auto)]

ghost use Rattle.std.specs.Prelude.{◌≤◌};

use decode::Decoded;
use std::io;

// No answer has more tokens.
const PLACES: usize = 2;

// The first n tokens, a line each.
fn print_tokens(rt: &impl Print, table: &[u32; PLACES * token::WIDTH], n: usize) -> io::Result<()>
    requires { n ≤ 2 }
{
    let mut out = [0u8; PLACES * lines::EACH];
    let end = lines::put_tokens(table, n, &mut out, 0);
    rt.write_all(&out[..end])
}

// What a decode in a mode gave.
fn print_decoded(
    rt: &impl Print,
    mode: &str,
    d: Decoded,
    table: &[u32; PLACES * token::WIDTH],
) -> io::Result<()>
    requires { d.tokens ≤ 2 }
{
    let a = code::answer_of(d.end);
    println!(rt; "{mode} {} {} {} {}", a.code, a.number, d.tokens, d.offset)?;
    print_tokens(rt, table, d.tokens)
}

// A text with its counts, in both modes.
fn row(rt: &impl Print, text: &[u8], sources: u32, names: u32) -> io::Result<()> {
    rt.write_all(b"\"")?;
    rt.write_all(text)?;
    println!(rt; "\" {sources} {names}")?;
    let mut table = [0u32; PLACES * token::WIDTH];
    let lenient = decode::decode_lenient(text, sources, names, &mut table);
    print_decoded(rt, "lenient", lenient, &table)?;
    let mut table = [0u32; PLACES * token::WIDTH];
    let checked = decode::decode_checked(text, sources, names, &mut table);
    print_decoded(rt, "checked", checked, &table)
}

fn main(rt: HostRuntime) -> io::Result<()> {
    row(&rt, b"", 0, 0)?;
    row(&rt, b"A", 0, 0)?;
    row(&rt, b"AAAA", 0, 0)?;
    row(&rt, b"ACAA", 1, 0)?;
    row(&rt, b"AAAAD", 1, 1)?;
    row(&rt, b"DAA", 1, 0)?;
    row(&rt, b"AADA", 1, 0)?;
    row(&rt, b"AAAD", 1, 0)?;
    row(&rt, b"gAADA", 1, 0)?;
    row(&rt, b"AAA", 1, 0)?;
    row(&rt, b"AAAAAA", 1, 1)?;
    row(&rt, b"+/////D", 0, 0)?;
    row(&rt, b"ggggggE", 0, 0)?;
    row(&rt, b"+/////H", 0, 0)?;
    row(&rt, b"ggggggI", 0, 0)?;
    row(&rt, b"AAggggggIA", 1, 0)?;
    row(&rt, b"D+/////HA", 1, 0)?;
    row(&rt, b"AAAAA+/////H", 1, 1)?;
    row(&rt, b"+/////D,+/////D,E", 0, 0)?;
    row(&rt, b"B", 0, 0)?;
    row(&rt, b"hA", 0, 0)?;
    row(&rt, b"AAAAB", 1, 1)?;
    row(&rt, b"hgggggE", 0, 0)?;
    row(&rt, b"ggggggggggggA", 0, 0)?;
    row(&rt, b"ggggggggggggQ", 0, 0)?;
    row(&rt, b"hgggggggggggQ", 0, 0)?;
    row(&rt, b"gggggggggggggA", 0, 0)?;
    row(&rt, b"ggggggggggggg,", 0, 0)?;
    row(&rt, b"!", 0, 0)?;
    row(&rt, b"A,!", 0, 0)?;
    row(&rt, b"!A", 0, 0)?;
    row(&rt, b"A,A,AAAA", 1, 0)?;
    row(&rt, b",,A;;A", 0, 0)?;
    row(&rt, b"AAEG;C", 1, 0)
}
