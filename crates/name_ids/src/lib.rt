// The id of an outer name in a composed map.
#![tactic(auto)]

ghost use Rattle.std.specs.Prelude.{◌≡◌, true, ℕ, ◌<◌, length, get_or, IfSome};
ghost use Rattle.names.specs.Names.{list_of, sound};
ghost use Rattle.name_ids.specs.NameIds.{first_name, first_added, outer_named};
ghost use Rattle.name_ids.specs.Answers.{named_by, Searchable};

use names::{Joined, Names};

// The id of an outer name in the result: one that it has there, or a new one. What has no name has the id NONE, as in a table.
#[derive(Clone, Copy)]
pub enum NameId {
    Found(u32),
    New(u32),
}

// The first name of a list with these bytes. Each name begins where the one before it ends, and lengths are compared before bytes.
// That the names are sound stays a clause, here and below: see name_at of names.
fn first_name(names: Names<'_, '_>, name: &[u8]) -> Option<usize>
    requires { sound (list_of names) ≡ true }
    ensures { result ≡ first_name (list_of names.entry) name.now 0 (length names.entry.ends.now) }
{
    let mut from = 0;
    for (k, &end) in names.ends.iter().enumerate() {
        if names::same_bytes(&names.text[from..end], name) {
            return Some(k);
        }
        from = end;
    }
    None
}

// The first of the added names with these bytes.
fn first_added(outer: Names<'_, '_>, ids: &[u32], name: &[u8]) -> Option<usize>
    requires { (sound (list_of outer) ≡ true) × ((j : ℕ) → j < length ids.now → get_or ids.now j 0 < length outer.ends.now) }
    ensures { result ≡ first_added (list_of outer.entry) name.now 0 ids.now }
{
    for (j, &k) in ids.iter().enumerate() {
        if names::same_bytes(outer.name_at(k as usize), name) {
            return Some(j);
        }
    }
    None
}

// A place of an outer id among those of the added names, looked for from the last.
fn place_of(ids: &[u32], id: u32) -> Option<usize>
    ensures { IfSome result (λ j. (j < length ids.now) × (get_or ids.now j 0 ≡ id)) }
{
    ids.iter().rposition(|&x| x == id)
}

// The id of an outer name: one that was added by its outer id, else searched among the inner names, then among the added ones, else
// new.
pub fn outer_name_id(names: Joined<'_, '_>, id: u32) -> NameId
    requires { Searchable (list_of names.inner) (list_of names.outer) names.added.now }
    ensures { named_by names.entry.added.now id result ≡ outer_named (list_of names.entry.inner) (list_of names.entry.outer) names.entry.added.now id }
{
    let Joined {
        inner,
        outer,
        added,
    } = names;
    let k = id as usize;
    if outer.ends.len() <= k {
        return NameId::Found(token::NONE);
    }
    let count = inner.ends.len();
    if let Some(place) = place_of(added, id) {
        return NameId::Found((count + place) as u32);
    }
    let name = outer.name_at(k);
    if let Some(j) = first_name(inner, name) {
        return NameId::Found(j as u32);
    }
    match first_added(outer, added, name) {
        Some(j) => NameId::Found((count + j) as u32),
        None => NameId::New((count + added.len()) as u32),
    }
}
