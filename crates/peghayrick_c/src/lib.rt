// The C interface: every entry of `peghayrick`, exported under its C name with the same contract.
#![tactic(auto)]

ghost use Rattle.std.specs.Prelude.{◌≡◌};
ghost use Rattle.code.specs.Code.{answer_of};
ghost use Rattle.value.specs.declared.Mode.{Mode};
ghost use Rattle.names.specs.Names.{name_list, place_of};
ghost use Rattle.decode.specs.Mapping.{by_default, Decodes};
ghost use Rattle.table_size.specs.Size.{table_size};
ghost use Rattle.encode.specs.Encode.{Encodes};
ghost use Rattle.premises.specs.Premises.{Decides};
ghost use Rattle.checked_premises.specs.Checked.{DecidesChecked};
ghost use Rattle.translate.specs.Translate.{Translates};
ghost use Rattle.lookup.specs.Lookup.{Looks, found_out};
ghost use Rattle.lookup_many.specs.Many.{LooksMany};
ghost use Rattle.compare_tables.specs.Compare.{Compares};
ghost use Rattle.compose.specs.Compose.{maps_of, Composes, ComposesWith};
ghost use Rattle.records.specs.Records.{TranslatesRecords};
ghost use Rattle.peghayrick.specs.Exports.{Goes, version, flag, decoded_out, encoded_out, compared_out, composed_out, name_out};

use code::Answer;
use peghayrick::{ComparedOut, ComposedOut, DecodedOut, EncodedOut, NameOut};
use token::{Token, TokenChunk};

// What the header's PGK_VERSION must be.
#[unsafe(no_mangle)]
pub extern "C" fn pgk_version() -> u64
    ensures { result ≡ version }
{
    peghayrick::pgk_version()
}

// The numbers that a table needs so that decoding the text never says TableFull.
#[unsafe(no_mangle)]
pub extern "C" fn pgk_table_size(text: &[u8]) -> usize
    ensures { result ≡ table_size text.now }
{
    peghayrick::pgk_table_size(text)
}

// 1 where what is written of the table surely reads back, else 0.
#[unsafe(no_mangle)]
pub extern "C" fn pgk_meets_premises(table: &[u32], sources: u32, names: u32) -> u64
    ensures { Goes (Decides table.now sources names) flag result }
{
    peghayrick::pgk_meets_premises(table, sources, names)
}

// 1 where it surely reads back in checked mode too, else 0.
#[unsafe(no_mangle)]
pub extern "C" fn pgk_meets_checked_premises(table: &[u32], sources: u32, names: u32) -> u64
    ensures { Goes (DecidesChecked table.now sources names) flag result }
{
    peghayrick::pgk_meets_checked_premises(table, sources, names)
}

// The decode that names no mode: checked.
#[unsafe(no_mangle)]
pub extern "C" fn pgk_decode(text: &[u8], sources: u32, names: u32, table: &mut [u32]) -> DecodedOut
    ensures { Goes (λ d. Decodes by_default sources names text.now table.old d table.new) decoded_out result }
{
    peghayrick::pgk_decode(text, sources, names, table)
}

#[unsafe(no_mangle)]
pub extern "C" fn pgk_decode_lenient(
    text: &[u8],
    sources: u32,
    names: u32,
    table: &mut [u32],
) -> DecodedOut
    ensures { Goes (λ d. Decodes Mode.Lenient sources names text.now table.old d table.new) decoded_out result }
{
    peghayrick::pgk_decode_lenient(text, sources, names, table)
}

#[unsafe(no_mangle)]
pub extern "C" fn pgk_decode_checked(
    text: &[u8],
    sources: u32,
    names: u32,
    table: &mut [u32],
) -> DecodedOut
    ensures { Goes (λ d. Decodes Mode.Checked sources names text.now table.old d table.new) decoded_out result }
{
    peghayrick::pgk_decode_checked(text, sources, names, table)
}

#[unsafe(no_mangle)]
pub extern "C" fn pgk_encode(table: &[u32], chunk: TokenChunk, out: &mut [u8]) -> EncodedOut
    ensures { Goes (λ e. Encodes table.now chunk out.old e out.new) (encoded_out chunk) result }
{
    peghayrick::pgk_encode(table, chunk, out)
}

#[unsafe(no_mangle)]
pub extern "C" fn pgk_translate(
    table: &mut [u32],
    line_offset: u32,
    source_offset: u32,
    name_offset: u32,
) -> Answer
    ensures { Goes (λ c. Translates line_offset source_offset name_offset table.old c table.new) answer_of result }
{
    peghayrick::pgk_translate(table, line_offset, source_offset, name_offset)
}

#[unsafe(no_mangle)]
pub extern "C" fn pgk_translate_tokens(
    ts: &mut [Token],
    line_offset: u32,
    source_offset: u32,
    name_offset: u32,
) -> Answer
    ensures { Goes (λ r. TranslatesRecords line_offset source_offset name_offset ts.old r ts.new) answer_of result }
{
    peghayrick::pgk_translate_tokens(ts, line_offset, source_offset, name_offset)
}

// Code 0 carries the token's index, or 4,294,967,295 where there is none.
#[unsafe(no_mangle)]
pub extern "C" fn pgk_lookup(table: &[u32], line: u32, col: u32) -> Answer
    ensures { Goes (Looks table.now line col) found_out result }
{
    peghayrick::pgk_lookup(table, line, col)
}

// For each pair of line and column the token's index, or 4,294,967,295 where there is none.
#[unsafe(no_mangle)]
pub extern "C" fn pgk_lookup_many(table: &[u32], positions: &[u32], found: &mut [u32]) -> Answer
    ensures { Goes (λ c. LooksMany table.now positions.now found.old c found.new) answer_of result }
{
    peghayrick::pgk_lookup_many(table, positions, found)
}

// The same answers: by halving where the table is sorted, else as before.
#[unsafe(no_mangle)]
pub extern "C" fn pgk_lookup_many_quick(
    table: &[u32],
    positions: &[u32],
    found: &mut [u32],
) -> Answer
    ensures { Goes (λ c. LooksMany table.now positions.now found.old c found.new) answer_of result }
{
    peghayrick::pgk_lookup_many_quick(table, positions, found)
}

// Every difference between two tables that are sorted by line and column, three numbers each.
#[unsafe(no_mangle)]
pub extern "C" fn pgk_compare(left: &[u32], right: &[u32], out: &mut [u32]) -> ComparedOut
    ensures { Goes (λ d. Compares left.now right.now out.old d out.new) compared_out result }
{
    peghayrick::pgk_compare(left, right, out)
}

#[unsafe(no_mangle)]
pub extern "C" fn pgk_compose(
    outer: &[u32],
    outer_sources: u32,
    outer_names: &[u8],
    outer_ends: &[usize],
    inner: &[u32],
    inner_names: &[u8],
    inner_ends: &[usize],
    res: &mut [u32],
    added: &mut [u32],
) -> ComposedOut
    ensures { Goes (λ m. Composes (maps_of outer.now outer_sources outer_names.now outer_ends.now inner.now inner_names.now inner_ends.now) res.old added.old m res.new added.new) composed_out result }
{
    peghayrick::pgk_compose(
        outer,
        outer_sources,
        outer_names,
        outer_ends,
        inner,
        inner_names,
        inner_ends,
        res,
        added,
    )
}

// The same with lent working memory.
#[unsafe(no_mangle)]
pub extern "C" fn pgk_compose_with(
    outer: &[u32],
    outer_sources: u32,
    outer_names: &[u8],
    outer_ends: &[usize],
    inner: &[u32],
    inner_names: &[u8],
    inner_ends: &[usize],
    res: &mut [u32],
    added: &mut [u32],
    work: &mut [u32],
) -> ComposedOut
    ensures { Goes (λ m. ComposesWith (maps_of outer.now outer_sources outer_names.now outer_ends.now inner.now inner_names.now inner_ends.now) res.old added.old work.old m res.new added.new work.new) composed_out result }
{
    peghayrick::pgk_compose_with(
        outer,
        outer_sources,
        outer_names,
        outer_ends,
        inner,
        inner_names,
        inner_ends,
        res,
        added,
        work,
    )
}

#[unsafe(no_mangle)]
pub extern "C" fn pgk_name_of(
    inner_names: &[u8],
    inner_ends: &[usize],
    outer_names: &[u8],
    outer_ends: &[usize],
    added: &[u32],
    id: u32,
) -> NameOut
    ensures { result ≡ name_out (place_of (name_list inner_names.now inner_ends.now) (name_list outer_names.now outer_ends.now) added.now id) }
{
    peghayrick::pgk_name_of(inner_names, inner_ends, outer_names, outer_ends, added, id)
}
