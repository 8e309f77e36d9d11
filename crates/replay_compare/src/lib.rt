// A recorded answer of comparing two tables, held to what the library gives.
#![tactic(auto)]

ghost use Rattle.std.specs.Prelude.{◌≤◌, length};

// What comparing is to answer: a code and its number, and the entries, of which a refusal has none.
#[derive(Clone, Copy)]
struct Due<'a> {
    code: u32,
    number: u32,
    entries: &'a [u32],
}

// Into the first places of some that are sevens.
fn compares(left: &[u32], right: &[u32], out: &mut [u32], room: usize, due: Due) -> bool
    requires { room ≤ length out.old }
{
    let answer = compare_tables::compare_tables(left, right, &mut out[..room]);
    replay::answers(answer.map(|_| ()), due.code, due.number)
        && answer.unwrap_or(0) == due.entries.len() / 3
        && replay::holds(out, due.entries, 7)
}

// With more room than it takes, and with so much.
fn compares_twice(left: &[u32], right: &[u32], due: Due) -> bool {
    let room = due.entries.len();
    if 480 < room {
        return false;
    }
    let mut wide = replay::sevens();
    let mut exact = replay::sevens();
    compares(left, right, &mut wide, 480, due) && compares(left, right, &mut exact, room, due)
}

// One place less than is needed is NoRoom.
fn short_by_one(left: &[u32], right: &[u32], needed: usize) -> bool {
    if needed == 0 {
        return true;
    }
    let room = needed - 1;
    if 480 < room {
        return false;
    }
    let mut out = replay::sevens();
    let due = Due {
        code: 8,
        number: needed as u32,
        entries: &[],
    };
    compares(left, right, &mut out, room, due)
}

// A code and its number, and the entries if it is 0.
fn tables_agree(left: &[u32], right: &[u32], answer: &[u32]) -> bool {
    let [code, number, entries @ ..] = answer else {
        return false;
    };
    let due = Due {
        code: *code,
        number: *number,
        entries,
    };
    compares_twice(left, right, due) && (*code != 0 || short_by_one(left, right, entries.len()))
}

// How many numbers the left table has, and the numbers of both. The answer.
pub fn compare_agrees(numbers: &[u32], text: &[u8]) -> bool {
    let Some((count, tables)) = numbers.split_first() else {
        return false;
    };
    let Some((left, right)) = tables.split_at_checked(*count as usize) else {
        return false;
    };
    let mut list = replay::sevens();
    let n = replay::numbers(text, &mut list);
    tables_agree(left, right, &list[..n])
}
