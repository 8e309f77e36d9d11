// Where tokens stand, by line and then column, and whether a table is sorted so.
#![tactic(auto)]

ghost use Rattle.std.specs.Prelude.{◌≡◌, ◌*◌, ◌<◌, ◌≤◌, length};
ghost use Rattle.token.specs.Table.{places};
ghost use Rattle.order.specs.Order.{sorted, first_fall};
ghost use Rattle.order.specs.Keys.{key_of, key_at, Rise, Settles, FallsBehind};

// A position as one number, in the order of line, then column.
pub fn key_of(line: u32, col: u32) -> u64
    ensures { result ≡ key_of line col }
{
    (line as u64) * 4294967296 + (col as u64)
}

// Where the i-th token stands.
pub fn key_at(table: &[u32], i: usize) -> u64
    requires { i < places (length table.now) }
    ensures { result ≡ key_at table.now i }
{
    let t = token::token_at(table, i);
    key_of(t.dst_line, t.dst_col)
}

// Whether no token falls in the first four parts, of so many tokens each. They are read side by side: memory hands out four places
// sooner than one after the other.
fn parts_rise(table: &[u32], part: usize) -> bool
    requires { 4 * part < places (length table.now) }
    ensures { Settles (Rise table.now 0 (4 * part)) result }
{
    let mut a = key_at(table, 0);
    let mut b = key_at(table, part);
    let mut c = key_at(table, 2 * part);
    let mut d = key_at(table, 3 * part);
    for i in 0..part {
        let next = i + 1;
        let p = key_at(table, next);
        let q = key_at(table, part + next);
        let r = key_at(table, 2 * part + next);
        let s = key_at(table, 3 * part + next);
        if p < a {
            return false;
        }
        if q < b {
            return false;
        }
        if r < c {
            return false;
        }
        if s < d {
            return false;
        }
        a = p;
        b = q;
        c = r;
        d = s;
    }
    true
}

// Behind `from` and up to `to`: the first token that stands before the one before it.
fn fall_behind(table: &[u32], from: usize, to: usize) -> Option<usize>
    requires { (from ≤ to) × (to < places (length table.now)) }
    ensures { FallsBehind table.now from to result }
{
    let mut before = key_at(table, from);
    for i in from..to {
        let at = i + 1;
        let key = key_at(table, at);
        if key < before {
            return Some(at);
        }
        before = key;
    }
    None
}

// Whether no token of the table stands before the one before it, by line, then column.
pub fn is_sorted(table: &[u32]) -> bool
    ensures { result ≡ sorted table.now }
{
    let tokens = token::places_in(table.len());
    if tokens == 0 {
        return true;
    }
    let last = tokens - 1;
    let part = last / 4;
    parts_rise(table, part) && fall_behind(table, 4 * part, last).is_none()
}

// The index of the first token that stands before the one before it.
pub fn first_fall(table: &[u32]) -> Option<usize>
    ensures { result ≡ first_fall table.now }
{
    if is_sorted(table) {
        return None;
    }
    fall_behind(table, 0, token::places_in(table.len()) - 1)
}
