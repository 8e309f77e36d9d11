// Finds the token at a generated position.
#![tactic(auto)]

ghost use Rattle.std.specs.Prelude.{◌≡◌, false, ◌<◌, eqb, leb, length};
ghost use Rattle.list.specs.Pick.{both};
ghost use Rattle.token.specs.Table.{bad_table, places, token_at};
ghost use Rattle.lookup.specs.Lookup.{Looks, best_of, lookup_of, found_out};
ghost use Rattle.lookup.specs.Parts.{Between};

use code::{Answer, Code};
use token::NONE;

// A generated position.
#[derive(Clone, Copy)]
pub struct Position {
    pub line: u32,
    pub col: u32,
}

// What a lookup answers in the form in which it goes out: code 0 carries the index, or NONE where there is no token.
pub fn found_out(found: Result<Option<u32>, Code>) -> Answer
    ensures { result ≡ found_out found }
{
    match found {
        Ok(Some(i)) => Answer {
            code: 0,
            number: i as u64,
        },
        Ok(None) => Answer {
            code: 0,
            number: NONE as u64,
        },
        Err(c) => Answer::from(c),
    }
}

// Whether the token at `i` is taken in place of the best so far; `least` is that one's column, 0 where there is none. Most tokens
// are on another line: nothing else of them is read.
fn takes(table: &[u32], i: usize, p: Position, least: u32) -> bool
    requires { i < places (length table.now) }
    ensures { result ≡ both (eqb (token_at table.now i).dst_line p.line) (both (leb (token_at table.now i).dst_col p.col) (leb least (token_at table.now i).dst_col)) }
{
    if token::line_at(table, i) != p.line {
        return false;
    }
    let t = token::token_at(table, i);
    if p.col < t.dst_col {
        return false;
    }
    least <= t.dst_col
}

// The best token before `to`, where `found` is the best before `from`.
pub fn best_in(
    table: &[u32],
    from: usize,
    to: usize,
    p: Position,
    found: Option<u32>,
) -> Option<u32>
    requires { Between table.now from to × (found ≡ best_of table.now p.line p.col from) }
    ensures { result ≡ best_of table.now p.line p.col to }
{
    let mut best = found;
    let mut least = match found {
        Some(i) => token::token_at(table, i as usize).dst_col,
        None => 0,
    };
    for i in from..to {
        if takes(table, i, p, least) {
            best = Some(i as u32);
            least = token::token_at(table, i).dst_col;
        }
    }
    best
}

// The lookup in a table that is known to be one. That it is stays a clause, here and above, and is no invariant of a type, since
// docs/PROMISES.md names these functions and what they ask.
pub fn look_in(table: &[u32], p: Position) -> Option<u32>
    requires { bad_table (length table.now) ≡ false }
    ensures { result ≡ lookup_of table.now p.line p.col }
{
    best_in(table, 0, token::places_in(table.len()), p, None)
}

// The token at a position: the largest column up to the asked one on its line, among equals the latest in the table.
pub fn lookup_token(table: &[u32], line: u32, col: u32) -> Result<Option<u32>, Code>
    ensures { Looks table.now line col result }
{
    if token::bad_table(table.len()) {
        return Err(Code::BadTable);
    }
    Ok(look_in(table, Position { line, col }))
}
