// The same translation over a lent slice of token records: each replaced by its translation, or all left and refused.
#![tactic(auto)]

ghost use Rattle.std.specs.Prelude.{◌≡◌, None};
ghost use Rattle.translate.specs.Translate.{all_moved, first_too_big};
ghost use Rattle.records.specs.Records.{records_to, TranslatesRecords};

use code::Code;
use token::{MOST, Token};
use translate::Offsets;

// What translating the records answers; they are only looked at.
fn answer_for(ts: &[Token], by: Offsets) -> Result<(), Code>
    ensures { result ≡ records_to by.line by.source by.name ts.now }
{
    if MOST < ts.len() {
        return Err(Code::BadTable);
    }
    translate::look(ts.len(), |i| ts[i], by)
}

// Each record is moved where none is too big. Not one loop with that of a table, which reads and stores seven numbers a token: the C
// interface lends both forms.
fn move_all(ts: &mut [Token], by: Offsets)
    requires { first_too_big by.line by.source by.name 0 ts.old ≡ None }
    ensures { ts.new ≡ all_moved by.line by.source by.name ts.old }
{
    for t in ts {
        *t = translate::moved(*t, by);
    }
}

// Looks first and writes after, so that a refusal leaves every record as it was.
pub fn translate_tokens(
    ts: &mut [Token],
    line_offset: u32,
    source_offset: u32,
    name_offset: u32,
) -> Result<(), Code>
    ensures { TranslatesRecords line_offset source_offset name_offset ts.old result ts.new }
{
    let by = Offsets {
        line: line_offset,
        source: source_offset,
        name: name_offset,
    };
    answer_for(ts, by)?;
    move_all(ts, by);
    Ok(())
}
