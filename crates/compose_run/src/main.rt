// Composes maps whose answers are written down: the code, its number and the count of added names, the lent result and
// the lent list of added names, and for each id whether its name exists, where it stands and its bytes.
#![tactic(auto)]

ghost use Rattle.std.specs.Prelude.{◌≤◌, length};

use code::{Answer, Code};
use compose::Map;
use names::{Joined, Names};
use std::io;

// A table's numbers, a token a line; no line ends after the last where it is no whole token.
fn print_rows(rt: &impl Print, numbers: &[u32]) -> io::Result<()> {
    for (i, &x) in numbers.iter().enumerate() {
        if x == token::NONE {
            rt.write_all(b"-")?;
        } else {
            rt.print(x)?;
        }
        let ends = i % token::WIDTH == token::WIDTH - 1;
        rt.write_all(if ends { b"\n" } else { b" " })?;
    }
    Ok(())
}

fn print_name(rt: &impl Print, names: Joined<'_, '_>, id: u32) -> io::Result<()> {
    let exists = if names.name_exists(id) { "yes" } else { "no" };
    let (start, end, list) = match names.name_place(id) {
        Some(p) if p.outer => (p.start, p.end, "outer"),
        Some(p) => (p.start, p.end, "inner"),
        None => (0, 0, "inner"),
    };
    print!(rt; "{id} {exists} {start} {end} {list} [")?;
    rt.write_all(names.name_of(id))?;
    rt.write_all(b"]\n")
}

fn print_line(rt: &impl Print, text: &[u8]) -> io::Result<()> {
    rt.write_all(text)?;
    rt.write_all(b"\n")
}

// A composition's answer, and what the lent lists hold then.
fn print_composed(
    rt: &impl Print,
    r: Result<usize, Code>,
    res: &[u32],
    added: &[u32],
) -> io::Result<()> {
    let Answer { code, number } = code::answer_of(r.map(|_| ()));
    let count = r.unwrap_or(0);
    println!(rt; "code {code} {number} added {count}")?;
    print_rows(rt, res)?;
    print_line(rt, b"")?;
    print_rows(rt, added)?;
    print_line(rt, b"")
}

// One composition and all of its answer, with the names of the ids below a limit.
fn run(
    rt: &impl Print,
    outer: Map<'_>,
    sources: u32,
    inner: Map<'_>,
    res: &mut [u32],
    added: &mut [u32],
    limit: u32,
) -> io::Result<()> {
    let r = compose::compose(outer, sources, inner, res, added);
    print_composed(rt, r, res, added)?;
    let names = Joined {
        inner: inner.names,
        outer: outer.names,
        added,
    };
    for id in 0..limit {
        print_name(rt, names, id)?;
    }
    Ok(())
}

// A number below 36 by its digit; none by anything else.
fn number(digit: u8) -> u32 {
    match digit {
        b'0'..=b'9' => (digit - 48) as u32,
        b'a'..=b'z' => (digit - 87) as u32,
        _ => token::NONE,
    }
}

// A table's numbers, a digit each.
fn fill(digits: &[u8], table: &mut [u32]) {
    for (place, &digit) in table.iter_mut().zip(digits) {
        *place = number(digit);
    }
}

// Unsorted, with equal columns, a token with a name and no source, and a name id past its list. No segment begins where an outer
// token's does, so that the result tells whose place it keeps.
fn inner_table() -> [u32; 49] {
    let mut t = [0u32; 49];
    fill(b"10a10-n04k210o00u30-p04v40-q2055-1r37x529s32y621t", &mut t);
    t
}

fn outer_table() -> [u32; 91] {
    let mut t = [0u32; 91];
    fill(
        b"000501a030303b061900c090475d0c3701e0f3601f0i2001g0l4004h0o88-1i101002j14010--121004l110002m",
        &mut t,
    );
    t
}

const OUTER_NAMES: &[u8] = b"betagammagammaalpha";

const OUTER_ENDS: [usize; 5] = [4, 9, 9, 14, 19];

const INNER_NAMES: &[u8] = b"alphabeta";

const INNER_ENDS: [usize; 2] = [5, 9];

fn map_of<'a>(table: &'a [u32], text: &'a [u8], ends: &'a [usize]) -> Map<'a> {
    Map {
        table,
        names: Names { text, ends },
    }
}

// Found and not, the inner token's name and the outer's, equal names once, an empty name, a name id past its list.
fn maps(rt: &impl Print) -> io::Result<()> {
    let inner = inner_table();
    let outer = outer_table();
    let mut result = [7u32; 100];
    let mut added = [77u32; 6];
    print_line(rt, b"maps")?;
    run(
        rt,
        map_of(&outer, OUTER_NAMES, &OUTER_ENDS),
        1,
        map_of(&inner, INNER_NAMES, &INNER_ENDS),
        &mut result,
        &mut added,
        5,
    )
}

// The same maps with so many places of working memory, which hold numbers already: it takes 19.
fn maps_with(rt: &impl Print, label: &[u8], places: usize) -> io::Result<()>
    requires { places ≤ 19 }
{
    let inner = inner_table();
    let outer = outer_table();
    let mut result = [7u32; 100];
    let mut added = [77u32; 6];
    let mut work = [1u32; 19];
    print_line(rt, label)?;
    let r = compose::compose_with(
        map_of(&outer, OUTER_NAMES, &OUTER_ENDS),
        1,
        map_of(&inner, INNER_NAMES, &INNER_ENDS),
        &mut result,
        &mut added,
        &mut work[..places],
    );
    print_composed(rt, r, &result, &added)
}

// One composition over the names of "xy", into so many numbers and so many places.
fn small(
    rt: &impl Print,
    label: &[u8],
    outer: Map<'_>,
    sources: u32,
    inner: Map<'_>,
    numbers: usize,
    room: usize,
) -> io::Result<()>
    requires { (numbers ≤ 7) × (room ≤ 2) }
{
    let mut result = [7u32; 7];
    let mut added = [77u32; 2];
    print_line(rt, label)?;
    run(
        rt,
        outer,
        sources,
        inner,
        &mut result[..numbers],
        &mut added[..room],
        2,
    )
}

// A table with the names of "xy".
fn xy<'a>(table: &'a [u32], ends: &'a [usize]) -> Map<'a> {
    map_of(table, b"xy", ends)
}

// A bad table, and every later test failing too.
fn bad_tables(rt: &impl Print) -> io::Result<()> {
    let outer = [0u32, 0, 0, 0, 0, 0, 5];
    let inner = [0u32, 0, 8, 9, 0, token::NONE, 6];
    let fall = [2usize, 1];
    let past = [3usize];
    small(
        rt,
        b"sources",
        xy(&outer[..6], &fall),
        2,
        xy(&inner[..6], &past),
        6,
        0,
    )?;
    small(
        rt,
        b"outer table",
        xy(&outer[..6], &fall),
        1,
        xy(&inner, &past),
        6,
        0,
    )?;
    small(
        rt,
        b"inner table",
        xy(&outer, &fall),
        1,
        xy(&inner[..6], &past),
        6,
        0,
    )
}

// A bad list, or too little room, and every later test failing too.
fn bad_names(rt: &impl Print) -> io::Result<()> {
    let outer = [0u32, 0, 0, 0, 0, 0, 5];
    let inner = [0u32];
    let ends = [2usize];
    let fall = [2usize, 1];
    let past = [3usize];
    small(
        rt,
        b"outer names",
        xy(&outer, &fall),
        1,
        xy(&inner[..0], &past),
        6,
        0,
    )?;
    small(
        rt,
        b"inner names",
        xy(&outer, &ends),
        1,
        xy(&inner[..0], &past),
        6,
        0,
    )?;
    small(
        rt,
        b"full",
        xy(&outer, &ends),
        1,
        xy(&inner[..0], &past[..0]),
        6,
        0,
    )?;
    small(
        rt,
        b"room",
        xy(&outer, &ends),
        1,
        xy(&inner[..0], &past[..0]),
        7,
        0,
    )
}

// Equal names, and empty tables, lists and names.
fn empties(rt: &impl Print) -> io::Result<()> {
    let outer = [0u32, 0, 0, 0, 0, 0, 5];
    let inner = [0u32, 0, 8, 9, 0, token::NONE, 6];
    let all = [2usize];
    let none = [0usize];
    let both = [0usize, 2];
    small(rt, b"equal", xy(&outer, &all), 1, xy(&inner, &both), 7, 1)?;
    small(rt, b"empty", xy(&outer, &none), 1, xy(&inner, &both), 7, 1)?;
    small(
        rt,
        b"no names",
        xy(&outer, &all),
        1,
        xy(&inner, &both[..0]),
        7,
        2,
    )?;
    small(
        rt,
        b"no inner",
        xy(&outer, &all),
        1,
        xy(&inner[..0], &both),
        7,
        2,
    )?;
    small(
        rt,
        b"no outer",
        xy(&outer[..0], &all),
        0,
        xy(&inner, &both),
        7,
        2,
    )?;
    small(
        rt,
        b"nothing",
        xy(&outer[..0], &all[..0]),
        0,
        xy(&inner[..0], &both[..0]),
        0,
        0,
    )
}

fn main(rt: HostRuntime) -> io::Result<()> {
    maps(&rt)?;
    bad_tables(&rt)?;
    bad_names(&rt)?;
    empties(&rt)?;
    maps_with(&rt, b"with working memory", 19)?;
    maps_with(&rt, b"with too little", 18)
}
