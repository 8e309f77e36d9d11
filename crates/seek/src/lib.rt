// Finds the tokens at positions that come one after another: in a sorted table by halving, near the last place first.
#![tactic(auto)]

ghost use Rattle.std.specs.Prelude.{◌≡◌, false, IfSome, length};
ghost use Rattle.token.specs.Table.{bad_table};
ghost use Rattle.order.specs.Keys.{Rising};
ghost use Rattle.halving.specs.Within.{Within};
ghost use Rattle.seek.specs.Seek.{Halvable, Seeks};

use lookup::Position;

// How many tokens from the last place on are near.
const NEAR: usize = 16;

// So many tokens from the one at `base` on.
#[derive(Clone, Copy)]
struct Part {
    base: usize,
    size: usize,
}

// The index of the token that is found, and the place that the next position is sought from, in a table that is halved.
#[derive(Clone, Copy)]
pub struct Sought {
    pub at: Option<u32>,
    pub place: Option<usize>,
}

// Where a position is looked for: among the tokens near the last place if it lies there, else among all. One comparison asks whether
// it lies at or past that place and before the end of what is near.
fn part_from(table: &[u32], from: usize, asked: u64) -> Part
    requires { Halvable table.now from }
    ensures { Within table.now asked result.base result.size }
{
    let tokens = token::places_in(table.len());
    let left = tokens - from;
    let low = order::key_at(table, from);
    if NEAR < left {
        let high = order::key_at(table, from + NEAR);
        if asked.wrapping_sub(low) < high - low {
            return Part {
                base: from,
                size: NEAR,
            };
        }
    } else if low <= asked {
        return Part {
            base: from,
            size: left,
        };
    }
    Part {
        base: 0,
        size: tokens,
    }
}

// Of a part's tokens, the one that the position leads to.
fn last_within(table: &[u32], part: Part, asked: u64) -> usize
    requires { Rising table.now × Within table.now asked part.base part.size }
    ensures { Within table.now asked result 1 }
{
    let mut base = part.base;
    let mut size = part.size;
    while 4 <= size {
        base = halving::quartered(table, base, size, asked);
        size -= 3 * (size / 4);
    }
    halving::last_of_few(table, base, size, asked)
}

// Where halving begins, in a table that is sorted and has a token: another is not halved.
pub fn first_place(table: &[u32]) -> Option<usize>
    ensures { IfSome result (Halvable table.now) }
{
    if token::places_in(table.len()) == 0 {
        return None;
    }
    if order::is_sorted(table) {
        return Some(0);
    }
    None
}

// The token at a position: by halving, from a place, or by looking at all of them. That the table is one stays a clause: see
// lookup::look_in.
pub fn seek(table: &[u32], place: Option<usize>, p: Position) -> Sought
    requires { (bad_table (length table.now) ≡ false) × IfSome place (Halvable table.now) }
    ensures { Seeks table.now place p.line p.col result }
{
    let Some(from) = place else {
        return Sought {
            at: lookup::look_in(table, p),
            place: None,
        };
    };
    let asked = order::key_of(p.line, p.col);
    let last = last_within(table, part_from(table, from, asked), asked);
    Sought {
        at: halving::best_at(table, last, p),
        place: Some(last),
    }
}
