// The lines that dumpmap prints, written into lent bytes: each function writes from a place on, and gives the place after.
#![tactic(auto)]

ghost use Rattle.std.specs.Prelude.{[], ◌∷◌, ◌++◌, ◌+◌, ◌*◌, ◌≤◌, length};
ghost use Rattle.list.specs.Put.{Put};
ghost use Rattle.token.specs.Table.{places, tokens_from};
ghost use Rattle.decimal.specs.Decimal.{figures_of};
ghost use Rattle.lines.specs.Lines.{id_text, token_line, token_lines, count_line, end_line, input_line};
ghost use Rattle.lines.specs.Parts.{spaced, PutMost};

use code::{Answer, Code};
use token::Token;

// The most bytes of the first line, which has a number of 64 bits.
pub const FIRST: usize = 28;

// The most bytes of a token's line: six numbers of 32 bits.
pub const EACH: usize = 66;

// The most bytes of the last line, which has three numbers of 64 bits.
pub const LAST: usize = 70;

// The bytes of a word.
fn put_word(out: &mut [u8], at: usize, word: &[u8]) -> usize
    requires { at + length word.now ≤ length out.old }
    ensures { Put out.old at word.now result out.new }
{
    let end = at + word.len();
    out[at..end].copy_from_slice(word);
    end
}

// A number, and the byte after it.
fn put_number(out: &mut [u8], at: usize, n: u64, after: u8) -> usize
    requires { at + length (figures_of n ++ (after ∷ [])) ≤ length out.old }
    ensures { Put out.old at (figures_of n ++ (after ∷ [])) result out.new }
{
    let i = decimal::put_decimal(out, at, n);
    out[i] = after;
    i + 1
}

// An id, a dash where it is none, which is a number in the table, and the byte after it.
fn put_id(out: &mut [u8], at: usize, id: u32, after: u8) -> usize
    requires { at + length (id_text id ++ (after ∷ [])) ≤ length out.old }
    ensures { Put out.old at (id_text id ++ (after ∷ [])) result out.new }
{
    if id == token::NONE {
        out[at] = b'-';
        out[at + 1] = after;
        return at + 2;
    }
    put_number(out, at, id as u64, after)
}

// A line and a column, each with the space after it.
fn put_position(out: &mut [u8], at: usize, line: u64, col: u64) -> usize
    requires { at + length (spaced line ++ spaced col) ≤ length out.old }
    ensures { Put out.old at (spaced line ++ spaced col) result out.new }
{
    let after_line = put_number(out, at, line, b' ');
    put_number(out, after_line, col, b' ')
}

// A token's line.
fn put_token(out: &mut [u8], at: usize, t: Token) -> usize
    requires { at + 66 ≤ length out.old }
    ensures { PutMost 66 out.old at (token_line t) result out.new }
{
    let after_dst = put_position(out, at, t.dst_line as u64, t.dst_col as u64);
    let after_src = put_position(out, after_dst, t.src_line as u64, t.src_col as u64);
    let after_source = put_id(out, after_src, t.source_id, b' ');
    put_id(out, after_source, t.name_id, b'\n')
}

// A line for each of the first n tokens of a table.
pub fn put_tokens(table: &[u32], n: usize, out: &mut [u8], at: usize) -> usize
    requires n_bound { n ≤ places (length table.now) }
    requires n_in_bounds { at + 66 * n ≤ length out.old }
    ensures { PutMost (66 * n) out.old at (token_lines (tokens_from table.now 0 n)) result out.new }
{
    let mut next = at;
    for i in 0..n {
        next = put_token(out, next, token::token_at(table, i));
    }
    next
}

// The first line: how many tokens there are.
pub fn put_count(out: &mut [u8], at: usize, n: usize) -> usize
    requires { at + 28 ≤ length out.old }
    ensures { PutMost 28 out.old at (count_line n) result out.new }
{
    let i = put_word(out, at, b"tokens ");
    put_number(out, i, n as u64, b'\n')
}

// The last line: 0 where the text was read to its end; of a refusal the code, its number, 0 too, and where it stands.
pub fn put_end(out: &mut [u8], at: usize, end: Result<(), Code>, offset: usize) -> usize
    requires { at + 70 ≤ length out.old }
    ensures { PutMost 70 out.old at (end_line end offset) result out.new }
{
    let after_end = put_word(out, at, b"end ");
    let Err(code) = end else {
        return put_number(out, after_end, 0, b'\n');
    };
    let refusal = Answer::from(code);
    let after_no = put_number(out, after_end, refusal.code, b' ');
    let after_number = put_number(out, after_no, refusal.number, b' ');
    let after_at = put_word(out, after_number, b"at ");
    put_number(out, after_at, offset as u64, b'\n')
}

// The line of an input that is not taken.
pub fn put_input(out: &mut [u8], at: usize) -> usize
    requires { at + 6 ≤ length out.old }
    ensures { Put out.old at input_line result out.new }
{
    put_word(out, at, b"input\n")
}
