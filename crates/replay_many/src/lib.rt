// A recorded answer of looking up many positions, held to what the library gives, by either call.
#![tactic(auto)]

ghost use Rattle.std.specs.Prelude.{◌≤◌, length};

use code::Code;

// Either call, into the first places of some that are sevens.
fn finds<L: Fn(&[u32], &[u32], &mut [u32]) -> Result<(), Code>>(
    looked: L,
    table: &[u32],
    positions: &[u32],
    want: &[u32],
    found: &mut [u32],
    room: usize,
) -> bool
    requires callable { L.IsAlwaysCallable looked }
    requires roomy { room ≤ length found.old }
{
    replay::answers(looked(table, positions, &mut found[..room]), 0, 0)
        && replay::holds(found, want, 7)
}

// With more room than it takes, and with just enough.
fn finds_twice<L: Fn(&[u32], &[u32], &mut [u32]) -> Result<(), Code>>(
    looked: L,
    table: &[u32],
    positions: &[u32],
    want: &[u32],
) -> bool
    requires { L.IsAlwaysCallable looked }
{
    let room = want.len();
    if 480 < room {
        return false;
    }
    let mut wide = replay::sevens();
    let mut exact = replay::sevens();
    finds(&looked, table, positions, want, &mut wide, 480)
        && finds(&looked, table, positions, want, &mut exact, room)
}

// By the plain call, and by the quick one.
fn both_find(table: &[u32], positions: &[u32], want: &[u32]) -> bool {
    finds_twice(lookup_many::lookup_many, table, positions, want)
        && finds_twice(lookup_quick::lookup_many_quick, table, positions, want)
}

// A line and a column for each position, and then the index of the token at each.
fn list_agrees(table: &[u32], list: &[u32]) -> bool {
    let (positions, want) = list.split_at(2 * (list.len() / 3));
    both_find(table, positions, want)
}

// Tokens. Positions and what is found.
pub fn many_agrees(table: &[u32], text: &[u8]) -> bool {
    let mut list = replay::sevens();
    let n = replay::numbers(text, &mut list);
    list_agrees(table, &list[..n])
}
