// Finds the tokens at many generated positions, with the table read once.
#![tactic(auto)]

ghost use Rattle.std.specs.Prelude.{◌≡◌, ℕ, false, ◌<◌, ◌≤◌, length, get_or};
ghost use Rattle.token.specs.Table.{places, bad_table};
ghost use Rattle.lookup.specs.Lookup.{best_of};
ghost use Rattle.lookup.specs.Parts.{Between};
ghost use Rattle.order.specs.Keys.{key_of};
ghost use Rattle.lookup_many.specs.Many.{pairs, many_to, LooksMany};
ghost use Rattle.lookup_many.specs.Blocks.{Spans, Held};
ghost use Rattle.lookup_many.specs.Places.{pair_at, found_in, place_of, Filled};

use code::Code;
use lookup::Position;
use token::NONE;

// So many tokens are looked at together.
const BLOCK: usize = 64;

// Of tokens that are looked at together: the least and the greatest of their positions, and the latest token at the greatest.
#[derive(Clone, Copy)]
struct Block {
    least: u64,
    most: u64,
    last: u32,
}

// The k-th of the list.
pub fn pair_at(positions: &[u32], k: usize) -> Position
    requires { k < pairs (length positions.now) }
    ensures { result ≡ pair_at positions.now k }
{
    Position {
        line: positions[2 * k],
        col: positions[2 * k + 1],
    }
}

// The tokens from `from` up to `to`; there is at least one.
fn block_of(table: &[u32], from: usize, to: usize) -> Block
    requires { Between table.now from to × (from < to) }
    ensures { Spans table.now from to result }
{
    let first = order::key_at(table, from);
    let mut least = first;
    let mut most = first;
    let mut last = from;
    for i in from + 1..to {
        let p = order::key_at(table, i);
        if p < least {
            least = p;
        }
        if most <= p {
            most = p;
            last = i;
        }
    }
    let last = last as u32;
    Block { least, most, last }
}

// The best token before `to` for a position whose line the block does not end before, where `found` is the best before `from`. Only a block
// that the position lies within is read again.
fn best_past(
    table: &[u32],
    from: usize,
    to: usize,
    b: Block,
    p: Position,
    found: Option<u32>,
) -> Option<u32>
    requires spans { Between table.now from to × (Spans table.now from to b × (found ≡ best_of table.now p.line p.col from)) }
    requires around { key_of p.line 0 ≤ b.most }
    ensures { result ≡ best_of table.now p.line p.col to }
{
    if order::key_of(p.line, p.col) < b.most {
        return lookup::best_in(table, from, to, p, found);
    }
    if let Some(i) = found {
        if b.most < order::key_at(table, i as usize) {
            return found;
        }
    }
    Some(b.last)
}

// What a place of the lent list holds, as what is found. The list is lent by C: it holds NONE where there is no token.
fn found_in(place: u32) -> Option<u32>
    ensures { result ≡ found_in place }
{
    if place == NONE {
        return None;
    }
    Some(place)
}

// What is found, as its place holds it.
pub fn place_of(found: Option<u32>) -> u32
    ensures { result ≡ place_of found }
{
    found.unwrap_or(NONE)
}

// What `best_past` says, as the places of the lent list hold it. Most blocks say nothing of a position: then its place stays, and is not
// turned into what is found and back.
fn past_block(table: &[u32], from: usize, to: usize, b: Block, p: Position, place: u32) -> u32
    requires { Between table.now from to × (Spans table.now from to b × (found_in place ≡ best_of table.now p.line p.col from)) }
    ensures { result ≡ place_of (best_of table.now p.line p.col to) }
{
    if order::key_of(p.line, p.col) < b.least {
        return place;
    }
    if b.most < order::key_of(p.line, 0) {
        return place;
    }
    place_of(best_past(table, from, to, b, p, found_in(place)))
}

// The place of each pair holds what `f` makes of the pair and of what the place held.
pub fn each_place<F: Fn(Position, u32) -> u32>(positions: &[u32], found: &mut [u32], f: F)
    requires fits { pairs (length positions.now) ≤ length found.old }
    requires can { (k : ℕ) → k < pairs (length positions.now) → F.pre f (pair_at positions.now k) (get_or found.old k 0) }
    ensures { Filled (λ k n. F.post f (pair_at positions.now k) (get_or found.old k 0) n) (pairs (length positions.now)) found.old found.new }
{
    for k in 0..positions.len() / 2 {
        found[k] = f(pair_at(positions, k), found[k]);
    }
}

// One block, for every pair.
fn look_block(table: &[u32], from: usize, to: usize, positions: &[u32], found: &mut [u32])
    requires { (Between table.now from to × (from < to)) × ((pairs (length positions.now) ≤ length found.old) × Held table.now positions.now from found.old found.old) }
    ensures { Held table.now positions.now to found.old found.new }
{
    let b = block_of(table, from, to);
    each_place(
        positions,
        found,
        |p: Position, place: u32| -> u32
            requires { Between table.now from to × (Spans table.now from to b × (found_in place ≡ best_of table.now p.line p.col from)) }
            ensures { result ≡ place_of (best_of table.entry.now p.line p.col to) }
        { past_block(table, from, to, b, p, place) },
    );
}

// Before the first token there is none.
fn none_yet(table: &[u32], positions: &[u32], found: &mut [u32])
    requires { pairs (length positions.now) ≤ length found.old }
    ensures { Held table.now positions.now 0 found.old found.new }
{
    found[..positions.len() / 2].fill(NONE);
}

// What the call answers, by the lengths alone.
pub fn code_for(table: &[u32], positions: &[u32], room: usize) -> Result<(), Code>
    ensures { result ≡ many_to table.now positions.now room }
{
    if token::bad_table(table.len()) {
        return Err(Code::BadTable);
    }
    if positions.len() % 2 == 1 {
        return Err(Code::OddList);
    }
    let asked = positions.len() / 2;
    if room < asked {
        return Err(Code::NoRoom(asked as u64));
    }
    Ok(())
}

// All blocks, one after another. The step is a block and no index that is counted: with `step_by` the last one would end past the table. That
// the table is one stays a clause: see lookup::look_in.
pub fn look_all(table: &[u32], positions: &[u32], found: &mut [u32])
    requires { (bad_table (length table.now) ≡ false) × (pairs (length positions.now) ≤ length found.old) }
    ensures { Held table.now positions.now (places (length table.now)) found.old found.new }
{
    none_yet(table, positions, found);
    let places = token::places_in(table.len());
    let mut i = 0;
    while i < places {
        let to = places.min(i + BLOCK);
        look_block(table, i, to, positions, found);
        i = to;
    }
}

// For each pair of line and column the index of its token, 4,294,967,295 where there is none: what one lookup after another says.
pub fn lookup_many(table: &[u32], positions: &[u32], found: &mut [u32]) -> Result<(), Code>
    ensures { LooksMany table.now positions.now found.old result found.new }
{
    code_for(table, positions, found.len())?;
    look_all(table, positions, found);
    Ok(())
}
