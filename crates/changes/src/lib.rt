// Two sorted tables walked side by side: one turn, and the entry that it gives.
#![tactic(auto)]

ghost use Rattle.std.specs.Prelude.{◌≡◌, [], ◌∷◌, ◌+◌, ◌≤◌, length, Option};
ghost use Rattle.list.specs.Put.{Put};
ghost use Rattle.changes.specs.Changes.{agree, three_of};
ghost use Rattle.changes.specs.Turns.{entry_of, turn_of, Ahead, Turns};

use token::{NONE, Token};

// What differs: a token that one table has alone, or one of each.
#[derive(Clone, Copy)]
pub enum Kind {
    OnlyLeft,
    OnlyRight,
    Different,
}

// The kind of the entry that the next tokens of both tables give, if they give one, and where both tables go on.
#[derive(Clone, Copy)]
pub struct Turn {
    pub kind: Option<Kind>,
    pub i: usize,
    pub j: usize,
}

// Whether two tokens have the same numbers; where their segments begin is not compared.
fn same_six(t: Token, u: Token) -> bool
    ensures { result ≡ agree t u }
{
    t.dst_line == u.dst_line
        && t.dst_col == u.dst_col
        && t.src_line == u.src_line
        && t.src_col == u.src_col
        && t.source_id == u.source_id
        && t.name_id == u.name_id
}

fn turned(kind: Option<Kind>, i: usize, j: usize) -> Turn
    ensures { result ≡ turn_of kind i j }
{
    Turn { kind, i, j }
}

// The next token of one table, or of both where they stand together.
pub fn next_turn(left: &[u32], right: &[u32], i: usize, j: usize) -> Turn
    requires { Ahead left.now right.now i j }
    ensures { Turns left.now right.now i j result }
{
    if token::places_in(right.len()) <= j {
        return turned(Some(Kind::OnlyLeft), i + 1, j);
    }
    if token::places_in(left.len()) <= i {
        return turned(Some(Kind::OnlyRight), i, j + 1);
    }
    let t = token::token_at(left, i);
    let u = token::token_at(right, j);
    let p = order::key_of(t.dst_line, t.dst_col);
    let q = order::key_of(u.dst_line, u.dst_col);
    if p < q {
        return turned(Some(Kind::OnlyLeft), i + 1, j);
    }
    if q < p {
        return turned(Some(Kind::OnlyRight), i, j + 1);
    }
    if same_six(t, u) {
        return turned(None, i + 1, j + 1);
    }
    turned(Some(Kind::Different), i + 1, j + 1)
}

// The three numbers of an entry; answers the place behind them.
fn put_three(out: &mut [u32], at: usize, kind: u32, left: u32, right: u32) -> usize
    requires { at + 3 ≤ length out.old }
    ensures { Put out.old at (kind ∷ left ∷ right ∷ []) result out.new }
{
    out[at] = kind;
    out[at + 1] = left;
    out[at + 2] = right;
    at + 3
}

// The entry of a kind, of these two tokens; answers the place behind it. The list goes to C: it holds the kinds as numbers.
pub fn put_entry(out: &mut [u32], at: usize, kind: Kind, i: u32, j: u32) -> usize
    requires { at + 3 ≤ length out.old }
    ensures { Put out.old at (three_of (entry_of kind i j)) result out.new }
{
    match kind {
        Kind::OnlyLeft => put_three(out, at, 1, i, NONE),
        Kind::OnlyRight => put_three(out, at, 2, NONE, j),
        Kind::Different => put_three(out, at, 3, i, j),
    }
}
