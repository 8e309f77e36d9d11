// Moves tokens by a line offset and two id offsets.
#![tactic(auto)]

ghost use Rattle.std.specs.Prelude.{◌≡◌, ℕ, true, false, ◌<◌, length, None};
ghost use Rattle.token.specs.Table.{places, token_at, tokens_of, over};
ghost use Rattle.translate.specs.Translate.{id_moved, id_too_big, too_big, all_moved, first_too_big, translates_to, Translates};
ghost use Rattle.translate.specs.Covers.{from_one, cover_with, cover_fits, Over};
ghost use Rattle.translate.specs.Looks.{AllSmall, Looks};

use code::Code;
use token::{NONE, Token};

// How far tokens are moved.
#[derive(Clone, Copy)]
pub struct Offsets {
    pub line: u32,
    pub source: u32,
    pub name: u32,
}

// Lies over some tokens: none has a line past its line, or an id past its source or name. Ids are counted from 1, so that none is 0:
// the zeros lie over no token.
#[derive(Clone, Copy, Default)]
pub struct Cover {
    pub line: u32,
    pub source: u32,
    pub name: u32,
}

fn from_one(id: u32) -> u32
    ensures { result ≡ from_one id }
{
    id.wrapping_add(1)
}

// The cover with one more token under it. Bits are put together and nothing is compared: which ids are none is as good as random, and
// a branch on them takes longer than all else.
fn cover_with(c: Cover, t: Token) -> Cover
    ensures { result ≡ cover_with c t }
{
    Cover {
        line: c.line | t.dst_line,
        source: c.source | from_one(t.source_id),
        name: c.name | from_one(t.name_id),
    }
}

// The same for two tokens, as the pass over all tokens reads them.
pub fn cover_both(c: Cover, t: Token, u: Token) -> Cover
    ensures { Over c t u result }
{
    cover_with(cover_with(c, t), u)
}

// Whether no sum passes the range: then no token under the cover is too big. Tests what is left of the range, so that nothing wraps.
pub fn cover_fits(c: Cover, by: Offsets) -> bool
    ensures { result ≡ cover_fits by.line by.source by.name c }
{
    by.line <= NONE - c.line && by.source <= NONE - c.source && by.name <= NONE - c.name
}

// Whether a line sum would pass the range, or an id sum reach none: a cover over one token alone says so exactly.
pub fn too_big(t: Token, by: Offsets) -> bool
    ensures { result ≡ too_big by.line by.source by.name t }
{
    !cover_fits(cover_with(Cover::default(), t), by)
}

// None stays none. An id is a number of C's table before and after, and no Option.
fn id_moved(id: u32, offset: u32) -> u32
    requires { id_too_big id offset ≡ false }
    ensures { result ≡ id_moved id offset }
{
    if id == NONE {
        return id;
    }
    id + offset
}

// A token that is not too big, moved.
pub fn moved(t: Token, by: Offsets) -> Token
    requires { too_big by.line by.source by.name t ≡ false }
    ensures { result ≡ Rattle.translate.specs.Translate.moved by.line by.source by.name t }
{
    Token {
        dst_line: t.dst_line + by.line,
        source_id: id_moved(t.source_id, by.source),
        name_id: id_moved(t.name_id, by.name),
        ..t
    }
}

// Yes only if none of so many tokens is too big, which `at` reads. No where one is, or where numbers are so large that their bits
// together pass the range. The two halves are read side by side: memory hands out two places sooner than one after the other. Of an
// odd number they share a token.
fn none_too_big<F: Fn(usize) -> Token>(count: usize, at: &F, by: Offsets) -> bool
    requires { (k : ℕ) → k < count → F.pre at.now k }
    ensures { result ≡ true → AllSmall (F.post at.now) by.line by.source by.name count }
{
    let other = count / 2;
    let half = count - other;
    let mut c = Cover::default();
    for i in 0..half {
        c = cover_both(c, at(i), at(other + i));
    }
    cover_fits(c, by)
}

// Looks whether one of so many tokens is too big, which `at` reads: token by token only if one may be.
pub fn look<F: Fn(usize) -> Token>(count: usize, at: F, by: Offsets) -> Result<(), Code>
    requires few { count < 4294967296 }
    requires can { (k : ℕ) → k < count → F.pre at k }
    ensures { Looks (F.post at) by.line by.source by.name count result }
{
    if none_too_big(count, &at, by) {
        return Ok(());
    }
    for i in 0..count {
        if too_big(at(i), by) {
            return Err(Code::TooBig(i as u32));
        }
    }
    Ok(())
}

// What translating the table answers; the table is only looked at.
fn answer_for(table: &[u32], by: Offsets) -> Result<(), Code>
    ensures { result ≡ translates_to by.line by.source by.name table.now }
{
    if token::bad_table(table.len()) {
        return Err(Code::BadTable);
    }
    look(
        token::places_in(table.len()),
        |i: usize| -> Token
            requires { i < places (length table.now) }
            ensures { result ≡ token_at table.entry.now i }
        { token::token_at(table, i) },
        by,
    )
}

// Each token of a table is moved where none is too big.
fn move_all(table: &mut [u32], by: Offsets)
    requires { first_too_big by.line by.source by.name 0 (tokens_of table.old) ≡ None }
    ensures { table.new ≡ over (all_moved by.line by.source by.name (tokens_of table.old)) table.old }
{
    for i in 0..token::places_in(table.len()) {
        let t = token::token_at(table, i);
        token::put_token(table, i, moved(t, by));
    }
}

// Translates a whole table in place.
pub fn translate(
    table: &mut [u32],
    line_offset: u32,
    source_offset: u32,
    name_offset: u32,
) -> Result<(), Code>
    ensures { Translates line_offset source_offset name_offset table.old result table.new }
{
    let by = Offsets {
        line: line_offset,
        source: source_offset,
        name: name_offset,
    };
    answer_for(table, by)?;
    move_all(table, by);
    Ok(())
}
