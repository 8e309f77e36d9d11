// Whether a table meets the premises of checked mode too: what is written then reads back in both modes.
#![tactic(auto)]

ghost use Rattle.std.specs.Prelude.{◌≡◌};
ghost use Rattle.vlq_write.specs.Write.{vlq_value};
ghost use Rattle.chunk.specs.Chunk.{fields_of};
ghost use Rattle.value.specs.declared.Mode.{Mode};
ghost use Rattle.checked_premises.specs.Checked.{takes, takes_each, DecidesChecked};

use premises::Before;
use token::{Token, TokenChunk};

// The step from b to a is written within the standard's limit.
fn near(a: u32, b: u32) -> bool
    ensures { result ≡ takes Mode.Checked (vlq_value a b) }
{
    a.abs_diff(b) < 2147483648
}

// So is each step of the token, after a state. Its ids are numbers, as C's tables hold them, and no Options.
fn near_all(p: TokenChunk, t: Token) -> bool
    ensures { result ≡ takes_each Mode.Checked (fields_of p t) }
{
    if !near(t.dst_col, chunk::base_of(p, t)) {
        return false;
    }
    if t.source_id == token::NONE {
        return true;
    }
    if !near(t.source_id, p.prev_source_id) {
        return false;
    }
    if !near(t.src_line, p.prev_src_line) {
        return false;
    }
    if !near(t.src_col, p.prev_src_col) {
        return false;
    }
    if t.name_id == token::NONE {
        return true;
    }
    near(t.name_id, p.prev_name_id)
}

// Yes exactly for a table that meets both; what is then written surely reads back, in checked mode too.
pub fn meets_checked_premises(table: &[u32], sources: u32, names: u32) -> bool
    ensures { DecidesChecked table.now sources names result }
{
    if token::bad_table(table.len()) {
        return false;
    }
    let mut p = TokenChunk::default();
    for i in 0..token::places_in(table.len()) {
        let t = token::token_at(table, i);
        let before = Before {
            line: p.prev_dst_line,
            src_line: p.prev_src_line,
            src_col: p.prev_src_col,
        };
        if !premises::follows_ok(sources, names, before, t) {
            return false;
        }
        if !near_all(p, t) {
            return false;
        }
        p = chunk::after(p, t);
    }
    true
}
