// Whether a table meets the premises under which what is written reads back.
#![tactic(auto)]

ghost use Rattle.std.specs.Prelude.{◌≡◌};
ghost use Rattle.premises.specs.Before.{before_next};
ghost use Rattle.premises.specs.Premises.{id_within, follows, Decides};

use token::Token;

// What a token is held to: the line of the token before it, and the source position of the latest token with a source.
#[derive(Clone, Copy, Default)]
pub struct Before {
    pub line: u32,
    pub src_line: u32,
    pub src_col: u32,
}

impl Before {
    // What the token behind `t` is held to.
    fn after(self, t: Token) -> Before
        ensures { result ≡ before_next self t }
    {
        let moved = Before {
            line: t.dst_line,
            ..self
        };
        if t.source_id == token::NONE {
            return moved;
        }
        Before {
            src_line: t.src_line,
            src_col: t.src_col,
            ..moved
        }
    }
}

// An id is none or below its count. None is a number here: so it stands in the table, which C lends.
fn id_within(count: u32, id: u32) -> bool
    ensures { result ≡ id_within count id }
{
    if id == token::NONE {
        return true;
    }
    id < count
}

// The token may stand there. Its ids are numbers, as C's tables hold them, and no Options.
pub fn follows_ok(sources: u32, names: u32, before: Before, t: Token) -> bool
    ensures { result ≡ follows sources names before.line before.src_line before.src_col t }
{
    if t.dst_line < before.line {
        return false;
    }
    if !id_within(sources, t.source_id) {
        return false;
    }
    if !id_within(names, t.name_id) {
        return false;
    }
    if t.source_id != token::NONE {
        return true;
    }
    if t.name_id != token::NONE {
        return false;
    }
    if t.src_line != before.src_line {
        return false;
    }
    t.src_col == before.src_col
}

// Yes exactly for a table that meets them; what is then written surely reads back.
pub fn meets_premises(table: &[u32], sources: u32, names: u32) -> bool
    ensures { Decides table.now sources names result }
{
    if token::bad_table(table.len()) {
        return false;
    }
    let mut before = Before::default();
    for i in 0..token::places_in(table.len()) {
        let t = token::token_at(table, i);
        if !follows_ok(sources, names, before, t) {
            return false;
        }
        before = before.after(t);
    }
    true
}
