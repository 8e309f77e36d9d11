// Finds the tokens at many generated positions: where the table is sorted by halving, else as lookup_many does.
#![tactic(auto)]

ghost use Rattle.std.specs.Prelude.{◌≡◌, false, ◌-◌, ◌*◌, ◌/◌, ◌<◌, ◌≤◌, length};
ghost use Rattle.token.specs.Table.{places, bad_table};
ghost use Rattle.order.specs.Keys.{key_of, Rising};
ghost use Rattle.lookup.specs.Lookup.{lookup_of};
ghost use Rattle.lookup_many.specs.Many.{pairs, LooksMany};
ghost use Rattle.lookup_many.specs.Blocks.{Held};
ghost use Rattle.lookup_many.specs.Places.{place_of};
ghost use Rattle.halving.specs.Within.{Within};
ghost use Rattle.lookup_quick.specs.Each.{Each};

use code::Code;
use lookup::Position;

// Each position may be anywhere in the table.
fn anywhere(table: &[u32], positions: &[u32], found: &mut [u32])
    requires { (0 < places (length table.now)) × (pairs (length positions.now) ≤ length found.old) }
    ensures { Each table.now positions.now (places (length table.now)) found.old found.new }
{
    found[..positions.len() / 2].fill(0);
}

// Each position goes on to a quarter of the tokens that it may be among. One position after another, each from a place of its own: the
// next need not wait for it. That the table is one stays a clause, here and below: see lookup::look_in.
fn quarter_each(table: &[u32], size: usize, positions: &[u32], found: &mut [u32])
    requires { ((bad_table (length table.now) ≡ false) × (Rising table.now × (4 ≤ size))) × ((pairs (length positions.now) ≤ length found.old) × Each table.now positions.now size found.old found.old) }
    ensures { Each table.now positions.now (size - 3 * (size / 4)) found.old found.new }
{
    lookup_many::each_place(
        positions,
        found,
        |p: Position, base: u32| -> u32
            requires { (bad_table (length table.now) ≡ false) × ((Rising table.now × (4 ≤ size)) × Within table.now (key_of p.line p.col) base size) }
            ensures { Within table.entry.now (key_of p.line p.col) result (size - 3 * (size / 4)) }
        { halving::quartered(table, base as usize, size, order::key_of(p.line, p.col)) as u32 },
    );
}

// What each position finds among the few tokens that are left.
fn find_each(table: &[u32], size: usize, positions: &[u32], found: &mut [u32])
    requires { ((bad_table (length table.now) ≡ false) × (Rising table.now × (size ≤ 3))) × ((pairs (length positions.now) ≤ length found.old) × Each table.now positions.now size found.old found.old) }
    ensures { Held table.now positions.now (places (length table.now)) found.old found.new }
{
    lookup_many::each_place(
        positions,
        found,
        |p: Position, base: u32| -> u32
            requires { ((bad_table (length table.now) ≡ false) × (Rising table.now × (size ≤ 3))) × Within table.now (key_of p.line p.col) base size }
            ensures { result ≡ place_of (lookup_of table.entry.now p.line p.col) }
        { lookup_many::place_of(halving::best_of_few(table, base as usize, size, p)) },
    );
}

// In a sorted table of so many tokens, of which there is one at least.
fn look_sorted(table: &[u32], tokens: usize, positions: &[u32], found: &mut [u32])
    requires { ((bad_table (length table.now) ≡ false) × (Rising table.now × ((tokens ≡ places (length table.now)) × (0 < tokens)))) × (pairs (length positions.now) ≤ length found.old) }
    ensures { Held table.now positions.now (places (length table.now)) found.old found.new }
{
    anywhere(table, positions, found);
    let mut size = tokens;
    while 4 <= size {
        quarter_each(table, size, positions, found);
        size -= 3 * (size / 4);
    }
    find_each(table, size, positions, found);
}

// For each pair of line and column the index of its token, 4,294,967,295 where there is none: what lookup_many says.
pub fn lookup_many_quick(table: &[u32], positions: &[u32], found: &mut [u32]) -> Result<(), Code>
    ensures { LooksMany table.now positions.now found.old result found.new }
{
    lookup_many::code_for(table, positions, found.len())?;
    let tokens = token::places_in(table.len());
    if tokens != 0 && order::is_sorted(table) {
        look_sorted(table, tokens, positions, found);
    } else {
        lookup_many::look_all(table, positions, found);
    }
    Ok(())
}
