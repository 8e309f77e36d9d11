// Replays the recorded answers on standard input: for each group of records, how many agree with what the library gives.
//
// A line that begins with `#` names the group of records after it. A record is two lines: a letter for the entry and numbers, and
// then a text or more numbers. Other lines are empty. The input is read in blocks of 4,096 bytes, and no record lies across two.
#![tactic(auto)]

ghost use Rattle.std.specs.Prelude.{◌<◌, ◌≤◌, length, IfOk};

use replay::Tally;
use std::io;

// The place after a record, and the counts with it.
#[derive(Clone, Copy)]
struct Passed {
    next: usize,
    tally: Option<Tally>,
}

fn agrees(kind: u8, numbers: &mut [u32], text: &[u8]) -> bool {
    match kind {
        b'd' => replay_decode::decode_agrees(numbers, text),
        b'w' => replay_encode::write_agrees(numbers, text),
        b't' => replay_translate::translate_agrees(numbers, text),
        b'l' => replay_translate::lookup_agrees(numbers),
        b'c' => replay_compose::compose_agrees(numbers, text),
        b'm' => replay_many::many_agrees(numbers, text),
        b'v' => replay_compare::compare_agrees(numbers, text),
        _ => false,
    }
}

fn record_agrees(head: &[u8], text: &[u8]) -> bool {
    let [kind, _, line @ ..] = head else {
        return false;
    };
    let mut numbers = replay::sevens();
    let n = replay::numbers(line, &mut numbers);
    agrees(*kind, &mut numbers[..n], text)
}

// What begins at a place of a block: a group's name, a record, or an empty line.
fn turn(rt: &impl Print, block: &[u8], at: usize, t: Option<Tally>) -> io::Result<Passed>
    requires { at ≤ length block.now }
    ensures { IfOk result (λ p. (p.next ≤ length block.now) × (at < length block.now → at < p.next)) }
{
    let end = replay::line_end(block, at);
    let from = replay::after(block, end);
    if at == end {
        return Ok(Passed {
            next: from,
            tally: t,
        });
    }
    if block[at] == b'#' {
        return Ok(Passed {
            next: from,
            tally: replay::began(rt, t, &block[at..end])?,
        });
    }
    let to = replay::line_end(block, from);
    let ok = record_agrees(&block[at..end], &block[from..to]);
    Ok(Passed {
        next: replay::after(block, to),
        tally: replay::counted(rt, t, ok, &block[at..to])?,
    })
}

fn in_block(rt: &impl Print, block: &[u8], tally: Option<Tally>) -> io::Result<Option<Tally>> {
    let mut t = tally;
    let mut at: usize = 0;
    while at < block.len() {
        let passed = turn(rt, block, at, t)?;
        at = passed.next;
        t = passed.tally;
    }
    Ok(t)
}

// Everything that standard input has, block by block. Nothing says that an input ends, so the blocks are counted.
fn main(rt: HostRuntime) -> io::Result<()> {
    let mut reader = rt.reader();
    let mut t = None;
    for _ in 0..1000000 {
        let mut block = [0u8; 4096];
        let n = input::read_full(&mut reader, &mut block)?;
        if n == 0 {
            return replay::ended(&rt, t);
        }
        t = in_block(&rt, &block[..n], t)?;
    }
    Ok(())
}
