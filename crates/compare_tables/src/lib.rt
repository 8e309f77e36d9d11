// What changed between two tables that are sorted by line and column: every difference once, in order of position.
#![tactic(auto)]

ghost use Rattle.std.specs.Prelude.{◌≡◌, ◌≤◌, length};
ghost use Rattle.list.specs.Memory.{onto};
ghost use Rattle.changes.specs.Changes.{changes, listed};
ghost use Rattle.compare_tables.specs.Compare.{compared, Compares};
ghost use Rattle.compare_tables.specs.Walks.{Walks, Counts};

use code::Code;

// How many differences there are. Here and below two cursors move, each by its own steps; so it is no `for`.
fn count(left: &[u32], right: &[u32]) -> usize
    requires { Walks left.now right.now }
    ensures { Counts left.now right.now result }
{
    let all = token::places_in(left.len()) + token::places_in(right.len());
    let mut i: usize = 0;
    let mut j: usize = 0;
    let mut entries: usize = 0;
    while i + j < all {
        let t = changes::next_turn(left, right, i, j);
        entries += usize::from(t.kind.is_some());
        i = t.i;
        j = t.j;
    }
    entries
}

// Each of them, in order. The walk that both share is `next_turn`: a closure for the rest of the loop would be longer than the loop.
fn write(left: &[u32], right: &[u32], out: &mut [u32])
    requires { Walks left.now right.now × (length (listed (changes left.now right.now)) ≤ length out.old) }
    ensures { out.new ≡ onto (listed (changes left.now right.now)) out.old }
{
    let end = token::places_in(left.len()) + token::places_in(right.len());
    let mut i: usize = 0;
    let mut j: usize = 0;
    let mut at: usize = 0;
    while i + j < end {
        let t = changes::next_turn(left, right, i, j);
        if let Some(kind) = t.kind {
            at = changes::put_entry(out, at, kind, i as u32, j as u32);
        }
        i = t.i;
        j = t.j;
    }
}

// How many entries comparing writes, or why it writes none; the tables are only looked at.
fn answer_for(left: &[u32], right: &[u32], room: usize) -> Result<usize, Code>
    ensures { result ≡ compared left.now right.now room }
{
    if token::bad_table(left.len()) || token::bad_table(right.len()) {
        return Err(Code::BadTable);
    }
    if let Some(i) = order::first_fall(left) {
        return Err(Code::Unsorted(i as u32));
    }
    if let Some(j) = order::first_fall(right) {
        return Err(Code::Unsorted(j as u32));
    }
    let entries = count(left, right);
    let numbers = 3 * entries;
    if room < numbers {
        return Err(Code::NoRoom(numbers as u64));
    }
    Ok(entries)
}

// Every difference between two tables, three numbers each: 1 only left, 2 only right or 3 different, then both indices. Answers how
// many there are.
pub fn compare_tables(left: &[u32], right: &[u32], out: &mut [u32]) -> Result<usize, Code>
    ensures { Compares left.now right.now out.old result out.new }
{
    let entries = answer_for(left, right, out.len())?;
    write(left, right, out);
    Ok(entries)
}
