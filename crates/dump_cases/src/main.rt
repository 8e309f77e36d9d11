// Dumps many inputs, each given as a line with its number and its length and then so many bytes.
#![tactic(auto)]

ghost use Rattle.std.specs.Prelude.{◌<◌, ◌≤◌, length, IfOk, IfSome};

use std::io;

// Dumps the first case, and answers how many bytes it takes; none where there is no whole case.
fn one_case(rt: &impl Print, cases: &[u8]) -> io::Result<Option<usize>>
    ensures { IfOk result (λ case. IfSome case (λ n. (0 < n) × (n ≤ length cases.now))) }
{
    let Some(line) = first_line::first_line(cases) else {
        return Ok(None);
    };
    let end = line.text + line.names as usize;
    if cases.len() < end {
        return Ok(None);
    }
    println!(rt; "case {}", line.sources)?;
    dump::dump(rt, &cases[line.text..end])?;
    Ok(Some(end))
}

fn each_case(rt: &impl Print, cases: &[u8]) -> io::Result<()> {
    let mut rest = cases;
    while let Some(size) = one_case(rt, rest)? {
        rest = &rest[size..];
    }
    Ok(())
}

fn main(rt: HostRuntime) -> io::Result<()> {
    let mut input = [0u8; 65536];
    let n = input::read_full(&mut rt.reader(), &mut input)?;
    each_case(&rt, &input[..n])
}
