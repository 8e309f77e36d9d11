// Tokens and the lent tables that hold them, and the state that goes from chunk to chunk of a writer.
#![tactic(auto)]

ghost use Rattle.std.specs.Prelude.{◌≡◌, ◌<◌, length};
ghost use Rattle.token.specs.Table.{with_segment, places, bad_table, token_at, put_token};

// As an id, or as where a segment begins: none. Ids are numbers of a lent table, where C says none by this one; so they are tested as
// numbers and are no Option.
pub const NONE: u32 = 4294967295;

// The numbers a token takes in a table.
pub const WIDTH: usize = 7;

// The most tokens that a table may hold as input.
pub const MOST: usize = 4294967294;

// `segment` is where the token's segment begins, a byte of the text that it was decoded from.
#[repr(C)]
#[derive(Clone, Copy)]
pub struct Token {
    pub dst_line: u32,
    pub dst_col: u32,
    pub src_line: u32,
    pub src_col: u32,
    pub source_id: u32,
    pub name_id: u32,
    pub segment: u32,
}

// A part of a table, from `start` up to `end`, and the numbers that its first token is counted from.
#[repr(C)]
#[derive(Clone, Copy, Default)]
pub struct TokenChunk {
    pub start: u32,
    pub end: u32,
    pub prev_dst_line: u32,
    pub prev_dst_col: u32,
    pub prev_src_line: u32,
    pub prev_src_col: u32,
    pub prev_name_id: u32,
    pub prev_source_id: u32,
}

// The token with the place where its segment begins.
pub fn with_segment(t: Token, segment: u32) -> Token
    ensures { result ≡ with_segment t segment }
{
    Token { segment, ..t }
}

// How many tokens a table of so many numbers has room for.
pub fn places_in(numbers: usize) -> usize
    ensures { result ≡ places numbers }
{
    numbers / WIDTH
}

// Whether so many numbers are no table, as input.
pub fn bad_table(numbers: usize) -> bool
    ensures { result ≡ bad_table numbers }
{
    if numbers % WIDTH == 0 {
        return MOST < places_in(numbers);
    }
    true
}

pub fn token_at(table: &[u32], i: usize) -> Token
    requires { i < places (length table.now) }
    ensures { result ≡ token_at table.now i }
{
    let at = WIDTH * i;
    Token {
        dst_line: table[at],
        dst_col: table[at + 1],
        src_line: table[at + 2],
        src_col: table[at + 3],
        source_id: table[at + 4],
        name_id: table[at + 5],
        segment: table[at + 6],
    }
}

// The generated line of a token, with nothing else of it read.
pub fn line_at(table: &[u32], i: usize) -> u32
    requires { i < places (length table.now) }
    ensures { result ≡ (token_at table.now i).dst_line }
{
    table[WIDTH * i]
}

pub fn put_token(table: &mut [u32], i: usize, t: Token)
    requires { i < places (length table.old) }
    ensures { table.new ≡ put_token table.old i t }
{
    let at = WIDTH * i;
    table[at] = t.dst_line;
    table[at + 1] = t.dst_col;
    table[at + 2] = t.src_line;
    table[at + 3] = t.src_col;
    table[at + 4] = t.source_id;
    table[at + 5] = t.name_id;
    table[at + 6] = t.segment;
}
