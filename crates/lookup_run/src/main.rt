// Looks positions up in small tables and prints each answer, its code and its number, on a line.
#![tactic(auto)]

use std::io;
use token::Token;

// Stores a token at a line and a column, where the table has a place for it.
fn put(table: &mut [u32], i: usize, line: u32, col: u32) {
    if i < token::places_in(table.len()) {
        token::put_token(
            table,
            i,
            Token {
                dst_line: line,
                dst_col: col,
                src_line: 0,
                src_col: 0,
                source_id: token::NONE,
                name_id: token::NONE,
                segment: token::NONE,
            },
        );
    }
}

fn ask(rt: &impl Print, table: &[u32], line: u32, col: u32) -> io::Result<()> {
    let a = lookup::found_out(lookup::lookup_token(table, line, col));
    println!(rt; "{} {}", a.code, a.number)
}

// Before, at, between and past the tokens of a line; equal columns; a line with none.
fn sorted(rt: &impl Print) -> io::Result<()> {
    let mut t = [0u32; 35];
    put(&mut t, 0, 0, 2);
    put(&mut t, 1, 0, 5);
    put(&mut t, 2, 1, 0);
    put(&mut t, 3, 1, 0);
    put(&mut t, 4, 3, 4);
    ask(rt, &t, 0, 1)?;
    ask(rt, &t, 0, 2)?;
    ask(rt, &t, 0, 4)?;
    ask(rt, &t, 0, 5)?;
    ask(rt, &t, 0, 4294967295)?;
    ask(rt, &t, 1, 0)?;
    ask(rt, &t, 2, 9)?;
    ask(rt, &t, 3, 3)?;
    ask(rt, &t, 3, 4)?;
    Ok(())
}

// Lines and columns that fall, and equal columns apart.
fn unsorted(rt: &impl Print) -> io::Result<()> {
    let mut t = [0u32; 42];
    put(&mut t, 0, 1, 7);
    put(&mut t, 1, 0, 1);
    put(&mut t, 2, 1, 3);
    put(&mut t, 3, 0, 0);
    put(&mut t, 4, 1, 7);
    put(&mut t, 5, 1, 5);
    ask(rt, &t, 0, 0)?;
    ask(rt, &t, 0, 1)?;
    ask(rt, &t, 1, 2)?;
    ask(rt, &t, 1, 4)?;
    ask(rt, &t, 1, 6)?;
    ask(rt, &t, 1, 7)?;
    ask(rt, &t, 1, 9)?;
    Ok(())
}

// The last position there is.
fn largest(rt: &impl Print) -> io::Result<()> {
    let mut t = [0u32; 7];
    put(&mut t, 0, 4294967295, 4294967295);
    ask(rt, &t, 4294967295, 4294967294)?;
    ask(rt, &t, 4294967295, 4294967295)?;
    Ok(())
}

// No token, and lengths that are no table's.
fn lengths(rt: &impl Print) -> io::Result<()> {
    let t = [0u32; 8];
    ask(rt, &t[0..0], 0, 0)?;
    ask(rt, &t[0..6], 0, 0)?;
    ask(rt, &t[0..7], 0, 0)?;
    ask(rt, &t, 0, 0)?;
    Ok(())
}

fn main(rt: HostRuntime) -> io::Result<()> {
    sorted(&rt)?;
    unsorted(&rt)?;
    largest(&rt)?;
    lengths(&rt)
}
