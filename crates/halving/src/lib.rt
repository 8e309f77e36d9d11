// Finds the token at a position in a sorted table, by tokens that the position is held against.
#![tactic(auto)]

ghost use Rattle.std.specs.Prelude.{◌≡◌, false, ◌+◌, ◌-◌, ◌*◌, ◌/◌, ◌<◌, ◌≤◌, ltb, length, get_or};
ghost use Rattle.list.specs.Pick.{pick};
ghost use Rattle.token.specs.Table.{places, bad_table};
ghost use Rattle.order.specs.Keys.{key_of, key_at, Rising};
ghost use Rattle.lookup.specs.Lookup.{lookup_of};
ghost use Rattle.halving.specs.Within.{count_of, Within};

use lookup::Position;
use token::WIDTH;

// 1 where the token whose numbers begin at `at` is at or before the position, else 0. What is counted is no branch: whether a token is
// past the position is as good as random.
fn counted_at(numbers: &[u32], at: usize, asked: u64) -> usize
    requires { at + 1 < length numbers.now }
    ensures { result ≡ count_of (key_of (get_or numbers.now at 0) (get_or numbers.now (at + 1) 0)) asked }
{
    usize::from(order::key_of(numbers[at], numbers[at + 1]) <= asked)
}

// Halves twice: of `size` tokens, where the part begins that the position leads to. Three tokens are read at once, as numbers behind
// those of the first: so their places are three sums and no products.
pub fn quartered(table: &[u32], base: usize, size: usize, asked: u64) -> usize
    requires { (Rising table.now × (4 ≤ size)) × Within table.now asked base size }
    ensures { Within table.now asked result (size - 3 * (size / 4)) }
{
    let part = size / 4;
    let step = WIDTH * part;
    let at = WIDTH * base;
    let rest = &table[at..];
    let first = counted_at(rest, step, asked);
    let second = counted_at(rest, 2 * step, asked);
    let third = counted_at(rest, 3 * step, asked);
    base + part * (first + second + third)
}

// The same for the k-th token behind the one at `base`, where there are so many.
fn counted_of(table: &[u32], base: usize, k: usize, size: usize, asked: u64) -> usize
    requires { base + size ≤ places (length table.now) }
    ensures { result ≡ pick (ltb k size) (count_of (key_at table.now (base + k)) asked) 0 }
{
    if k < size {
        return counted_at(table, WIDTH * (base + k), asked);
    }
    0
}

// Of the three tokens at the most that are left, the one that the position leads to.
pub fn last_of_few(table: &[u32], base: usize, size: usize, asked: u64) -> usize
    requires { (Rising table.now × (size ≤ 3)) × Within table.now asked base size }
    ensures { Within table.now asked result 1 }
{
    let second = counted_of(table, base, 1, size, asked);
    let third = counted_of(table, base, 2, size, asked);
    base + second + third
}

// The token at a position that leads to the one at `last`. That the table is one stays a clause, here and below: see lookup::look_in.
pub fn best_at(table: &[u32], last: usize, p: Position) -> Option<u32>
    requires { ((bad_table (length table.now) ≡ false) × Rising table.now) × Within table.now (key_of p.line p.col) last 1 }
    ensures { result ≡ lookup_of table.now p.line p.col }
{
    let t = token::token_at(table, last);
    if t.dst_line != p.line {
        return None;
    }
    if p.col < t.dst_col {
        return None;
    }
    Some(last as u32)
}

// The same where three tokens at the most are left.
pub fn best_of_few(table: &[u32], base: usize, size: usize, p: Position) -> Option<u32>
    requires { ((bad_table (length table.now) ≡ false) × (Rising table.now × (size ≤ 3))) × Within table.now (key_of p.line p.col) base size }
    ensures { result ≡ lookup_of table.now p.line p.col }
{
    let last = last_of_few(table, base, size, order::key_of(p.line, p.col));
    best_at(table, last, p)
}
