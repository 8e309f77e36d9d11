// Runs the writer on the tables of docs/RULES.md's worked texts, whole, cut and refused, and prints what it wrote.
#![tactic(auto)]

use code::Answer;
use std::io;
use token::TokenChunk;

// The tokens from `start` up to `end`, after zeros.
fn zeros(start: u32, end: u32) -> TokenChunk {
    TokenChunk {
        start,
        end,
        ..TokenChunk::default()
    }
}

// The code, its number, and the text; then the state for the next chunk.
fn run(
    rt: &impl Print,
    table: &[u32],
    chunk: TokenChunk,
    out: &mut [u8],
) -> io::Result<TokenChunk> {
    match encode::serialize_mappings(table, chunk, out) {
        Ok(written) => {
            print!(rt; "0 0 ")?;
            rt.write_all(&out[..written.bytes])?;
            println!(rt)?;
            Ok(written.next)
        }
        Err(c) => {
            let a = Answer::from(c);
            println!(rt; "{} {} ", a.code, a.number)?;
            Ok(chunk)
        }
    }
}

fn main(rt: HostRuntime) -> io::Result<()> {
    let pair: [u32; 14] = [
        0, 0, 2, 3, 0, 4294967295, 0, 1, 1, 2, 3, 4294967295, 4294967295, 5,
    ];
    let twins: [u32; 14] = [0, 0, 0, 0, 0, 4294967295, 7, 0, 0, 0, 0, 0, 4294967295, 9];
    let mut out = [0u8; 64];
    run(&rt, &pair, zeros(0, 2), &mut out)?;
    let cut = run(&rt, &pair, zeros(0, 1), &mut out)?;
    run(&rt, &pair, TokenChunk { end: 2, ..cut }, &mut out)?;
    run(&rt, &twins, zeros(0, 2), &mut out)?;
    let half = run(&rt, &twins, zeros(0, 1), &mut out)?;
    run(&rt, &twins, TokenChunk { end: 2, ..half }, &mut out)?;
    let mut five = [0u8; 5];
    run(&rt, &pair, zeros(0, 2), &mut five)?;
    let mut six = [0u8; 6];
    run(&rt, &pair, zeros(0, 2), &mut six)?;
    run(&rt, &pair, zeros(2, 1), &mut out)?;
    run(&rt, &pair[..12], zeros(0, 1), &mut out)?;
    let behind = TokenChunk {
        prev_dst_line: 1,
        ..zeros(0, 2)
    };
    run(&rt, &pair, behind, &mut out)?;
    Ok(())
}
