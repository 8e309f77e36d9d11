// Every public entry, under the name that `peghayrick_c` exports it by. Each answers what the entry behind it answers, a code as its two numbers.
#![tactic(auto)]

ghost use Rattle.std.specs.Prelude.{◌≡◌};
ghost use Rattle.code.specs.Code.{answer_of};
ghost use Rattle.value.specs.declared.Mode.{Mode};
ghost use Rattle.names.specs.Names.{name_list, list_of, place_of};
ghost use Rattle.decode.specs.Mapping.{by_default, Decodes};
ghost use Rattle.table_size.specs.Size.{table_size};
ghost use Rattle.encode.specs.Encode.{Encodes};
ghost use Rattle.premises.specs.Premises.{Decides};
ghost use Rattle.checked_premises.specs.Checked.{DecidesChecked};
ghost use Rattle.translate.specs.Translate.{Translates};
ghost use Rattle.lookup.specs.Lookup.{Looks, found_out};
ghost use Rattle.lookup_many.specs.Many.{LooksMany};
ghost use Rattle.compare_tables.specs.Compare.{Compares};
ghost use Rattle.compose.specs.Compose.{maps_of, Composes, ComposesWith};
ghost use Rattle.records.specs.Records.{TranslatesRecords};
ghost use Rattle.peghayrick.specs.Exports.{Goes, version, flag, decoded_out, encoded_out, compared_out, composed_out, name_out};

use code::{Answer, Code};
use compose::Map;
use decode::Decoded;
use encode::Encoded;
use names::{Joined, NamePlace, Names};
use token::{Token, TokenChunk};

// A decode's code and number, how many tokens it wrote, and the offset.
#[repr(C)]
#[derive(Clone, Copy)]
pub struct DecodedOut {
    pub code: u64,
    pub number: u64,
    pub tokens: usize,
    pub offset: usize,
}

// A writer's code and number, the bytes it wrote, and the state for the next chunk.
#[repr(C)]
#[derive(Clone, Copy)]
pub struct EncodedOut {
    pub code: u64,
    pub number: u64,
    pub bytes: usize,
    pub next: TokenChunk,
}

// A comparison's code and number, and how many entries there are.
#[repr(C)]
#[derive(Clone, Copy)]
pub struct ComparedOut {
    pub code: u64,
    pub number: u64,
    pub entries: usize,
}

// A composition's code and number, and how many outer names were added.
#[repr(C)]
#[derive(Clone, Copy)]
pub struct ComposedOut {
    pub code: u64,
    pub number: u64,
    pub added: usize,
}

// Where a name stands: found 0 and zeros, or found 1 and a part of the inner text (outer 0) or the outer one (outer 1).
#[repr(C)]
#[derive(Clone, Copy)]
pub struct NameOut {
    pub found: u64,
    pub outer: u64,
    pub start: usize,
    pub end: usize,
}

impl From<Decoded> for DecodedOut {
    ghost from_gives = { λ d out. out ≡ decoded_out d };

    fn from(d: Decoded) -> DecodedOut {
        let answer = code::answer_of(d.end);
        DecodedOut {
            code: answer.code,
            number: answer.number,
            tokens: d.tokens,
            offset: d.offset,
        }
    }
}

// A refusal counts no bytes, and gives back the chunk that it was given.
fn encoded_out(chunk: TokenChunk, r: Result<Encoded, Code>) -> EncodedOut
    ensures { result ≡ encoded_out chunk r }
{
    match r {
        Ok(e) => EncodedOut {
            code: 0,
            number: 0,
            bytes: e.bytes,
            next: e.next,
        },
        Err(c) => EncodedOut {
            code: code::code_of(c),
            number: code::number_of(c),
            bytes: 0,
            next: chunk,
        },
    }
}

impl From<Result<usize, Code>> for ComparedOut {
    ghost from_gives = { λ r out. out ≡ compared_out r };

    fn from(r: Result<usize, Code>) -> ComparedOut {
        match r {
            Ok(entries) => ComparedOut {
                code: 0,
                number: 0,
                entries,
            },
            Err(c) => ComparedOut {
                code: code::code_of(c),
                number: code::number_of(c),
                entries: 0,
            },
        }
    }
}

impl From<Result<usize, Code>> for ComposedOut {
    ghost from_gives = { λ r out. out ≡ composed_out r };

    fn from(r: Result<usize, Code>) -> ComposedOut {
        match r {
            Ok(added) => ComposedOut {
                code: 0,
                number: 0,
                added,
            },
            Err(c) => ComposedOut {
                code: code::code_of(c),
                number: code::number_of(c),
                added: 0,
            },
        }
    }
}

impl From<Option<NamePlace>> for NameOut {
    ghost from_gives = { λ p out. out ≡ name_out p };

    fn from(p: Option<NamePlace>) -> NameOut {
        match p {
            Some(p) => NameOut {
                found: 1,
                outer: u64::from(p.outer),
                start: p.start,
                end: p.end,
            },
            None => NameOut {
                found: 0,
                outer: 0,
                start: 0,
                end: 0,
            },
        }
    }
}

// The two slices of a list, as they come in.
fn list<'a>(text: &'a [u8], ends: &'a [usize]) -> Names<'a, 'a>
    ensures { list_of result ≡ name_list text.now ends.now }
{
    Names { text, ends }
}

// What the header's PGK_VERSION must be.
pub fn pgk_version() -> u64
    ensures { result ≡ version }
{
    9000
}

// The numbers that a table needs so that decoding the text never says TableFull.
pub fn pgk_table_size(text: &[u8]) -> usize
    ensures { result ≡ table_size text.now }
{
    table_size::table_size(text)
}

// 1 where what is written of the table surely reads back, else 0.
pub fn pgk_meets_premises(table: &[u32], sources: u32, names: u32) -> u64
    ensures { Goes (Decides table.now sources names) flag result }
{
    u64::from(premises::meets_premises(table, sources, names))
}

// 1 where it surely reads back in checked mode too, else 0.
pub fn pgk_meets_checked_premises(table: &[u32], sources: u32, names: u32) -> u64
    ensures { Goes (DecidesChecked table.now sources names) flag result }
{
    u64::from(checked_premises::meets_checked_premises(table, sources, names))
}

// The decode that names no mode: checked.
pub fn pgk_decode(text: &[u8], sources: u32, names: u32, table: &mut [u32]) -> DecodedOut
    ensures { Goes (λ d. Decodes by_default sources names text.now table.old d table.new) decoded_out result }
{
    DecodedOut::from(decode::decode_mapping(text, sources, names, table))
}

pub fn pgk_decode_lenient(text: &[u8], sources: u32, names: u32, table: &mut [u32]) -> DecodedOut
    ensures { Goes (λ d. Decodes Mode.Lenient sources names text.now table.old d table.new) decoded_out result }
{
    DecodedOut::from(decode::decode_lenient(text, sources, names, table))
}

pub fn pgk_decode_checked(text: &[u8], sources: u32, names: u32, table: &mut [u32]) -> DecodedOut
    ensures { Goes (λ d. Decodes Mode.Checked sources names text.now table.old d table.new) decoded_out result }
{
    DecodedOut::from(decode::decode_checked(text, sources, names, table))
}

pub fn pgk_encode(table: &[u32], chunk: TokenChunk, out: &mut [u8]) -> EncodedOut
    ensures { Goes (λ e. Encodes table.now chunk out.old e out.new) (encoded_out chunk) result }
{
    encoded_out(chunk, encode::serialize_mappings(table, chunk, out))
}

pub fn pgk_translate(
    table: &mut [u32],
    line_offset: u32,
    source_offset: u32,
    name_offset: u32,
) -> Answer
    ensures { Goes (λ c. Translates line_offset source_offset name_offset table.old c table.new) answer_of result }
{
    code::answer_of(translate::translate(table, line_offset, source_offset, name_offset))
}

pub fn pgk_translate_tokens(
    ts: &mut [Token],
    line_offset: u32,
    source_offset: u32,
    name_offset: u32,
) -> Answer
    ensures { Goes (λ r. TranslatesRecords line_offset source_offset name_offset ts.old r ts.new) answer_of result }
{
    code::answer_of(records::translate_tokens(ts, line_offset, source_offset, name_offset))
}

// Code 0 carries the token's index, or 4,294,967,295 where there is none.
pub fn pgk_lookup(table: &[u32], line: u32, col: u32) -> Answer
    ensures { Goes (Looks table.now line col) found_out result }
{
    lookup::found_out(lookup::lookup_token(table, line, col))
}

// For each pair of line and column the token's index, or 4,294,967,295 where there is none.
pub fn pgk_lookup_many(table: &[u32], positions: &[u32], found: &mut [u32]) -> Answer
    ensures { Goes (λ c. LooksMany table.now positions.now found.old c found.new) answer_of result }
{
    code::answer_of(lookup_many::lookup_many(table, positions, found))
}

// The same answers: by halving where the table is sorted, else as before.
pub fn pgk_lookup_many_quick(table: &[u32], positions: &[u32], found: &mut [u32]) -> Answer
    ensures { Goes (λ c. LooksMany table.now positions.now found.old c found.new) answer_of result }
{
    code::answer_of(lookup_quick::lookup_many_quick(table, positions, found))
}

// Every difference between two tables that are sorted by line and column, three numbers each.
pub fn pgk_compare(left: &[u32], right: &[u32], out: &mut [u32]) -> ComparedOut
    ensures { Goes (λ d. Compares left.now right.now out.old d out.new) compared_out result }
{
    ComparedOut::from(compare_tables::compare_tables(left, right, out))
}

pub fn pgk_compose(
    outer: &[u32],
    outer_sources: u32,
    outer_names: &[u8],
    outer_ends: &[usize],
    inner: &[u32],
    inner_names: &[u8],
    inner_ends: &[usize],
    res: &mut [u32],
    added: &mut [u32],
) -> ComposedOut
    ensures { Goes (λ m. Composes (maps_of outer.now outer_sources outer_names.now outer_ends.now inner.now inner_names.now inner_ends.now) res.old added.old m res.new added.new) composed_out result }
{
    let outer = Map {
        table: outer,
        names: list(outer_names, outer_ends),
    };
    let inner = Map {
        table: inner,
        names: list(inner_names, inner_ends),
    };
    ComposedOut::from(compose::compose(outer, outer_sources, inner, res, added))
}

// The same with lent working memory.
pub fn pgk_compose_with(
    outer: &[u32],
    outer_sources: u32,
    outer_names: &[u8],
    outer_ends: &[usize],
    inner: &[u32],
    inner_names: &[u8],
    inner_ends: &[usize],
    res: &mut [u32],
    added: &mut [u32],
    work: &mut [u32],
) -> ComposedOut
    ensures { Goes (λ m. ComposesWith (maps_of outer.now outer_sources outer_names.now outer_ends.now inner.now inner_names.now inner_ends.now) res.old added.old work.old m res.new added.new work.new) composed_out result }
{
    let outer = Map {
        table: outer,
        names: list(outer_names, outer_ends),
    };
    let inner = Map {
        table: inner,
        names: list(inner_names, inner_ends),
    };
    ComposedOut::from(compose::compose_with(outer, outer_sources, inner, res, added, work))
}

pub fn pgk_name_of(
    inner_names: &[u8],
    inner_ends: &[usize],
    outer_names: &[u8],
    outer_ends: &[usize],
    added: &[u32],
    id: u32,
) -> NameOut
    ensures { result ≡ name_out (place_of (name_list inner_names.now inner_ends.now) (name_list outer_names.now outer_ends.now) added.now id) }
{
    let names = Joined {
        inner: list(inner_names, inner_ends),
        outer: list(outer_names, outer_ends),
        added,
    };
    NameOut::from(names.name_place(id))
}
