// The id of an outer name in a composed map, by an index that is made in lent memory once a call.
#![tactic(auto)]

ghost use Rattle.std.specs.Prelude.{◌≡◌, true, [], ◌+◌, ◌<◌, ◌≤◌, length, get_or, set};
ghost use Rattle.names.specs.Names.{list_of, sound};
ghost use Rattle.name_ids.specs.NameIds.{outer_named};
ghost use Rattle.name_ids.specs.Answers.{named_by, Searchable};
ghost use Rattle.name_index.specs.Index.{hash_from, slot_of, held, entry_name, latest_same, Indexed};

use name_ids::NameId;
use names::{Joined, Names};

// A number of a name's bytes. A bad one costs time, and never an answer.
fn hash_of(name: &[u8]) -> u64
    ensures { result ≡ hash_from 0 name.now }
{
    let mut h: u64 = 0;
    for &b in name {
        h = (h + b as u64) * 2654435761 % 4294967296;
    }
    h
}

// The slot of a name, of so many.
fn slot_of(name: &[u8], slots: usize) -> usize
    requires { slots ≤ 4294967294 }
    ensures { result ≡ slot_of slots name.now }
{
    (hash_of(name) * (slots as u64) / 4294967296) as usize
}

// What a place of the working memory holds: 0 stands for none there, since a place has 32 bits and is cleared to 0.
fn held(number: u32) -> Option<u32>
    ensures { result ≡ held number }
{
    number.checked_sub(1)
}

// The entry becomes its slot's latest, and leads to the one that was.
fn enter(work: &mut [u32], slots: usize, slot: usize, entry: usize)
    requires { ((slot < slots) × (entry < slots)) × ((slots ≤ 4294967294) × (slots + slots ≤ length work.old)) }
    ensures { work.new ≡ set (set work.old (slots + entry) (get_or work.old slot 0)) slot (entry + 1) }
{
    work[slots + entry] = work[slot];
    work[slot] = (entry + 1) as u32;
}

// The name of an entry: an inner name, from the last to the first, or an added one.
fn entry_name<'a>(names: Joined<'a, '_>, entry: usize) -> &'a [u8]
    requires { Searchable (list_of names.inner) (list_of names.outer) names.added.now × (entry < length names.inner.ends.now + length names.added.now) }
    ensures { result.now ≡ entry_name (list_of names.entry.inner) (list_of names.entry.outer) names.entry.added.now entry }
{
    let count = names.inner.ends.len();
    if entry < count {
        return names.inner.name_at(count - 1 - entry);
    }
    names.outer.name_at(names.added[entry - count] as usize)
}

// The latest entry with these bytes: along the entries of the name's slot.
fn latest_same(names: Joined<'_, '_>, work: &[u32], slot: usize, name: &[u8]) -> Option<usize>
    requires { (Searchable (list_of names.inner) (list_of names.outer) names.added.now × Indexed (list_of names.inner) (list_of names.outer) names.added.now work.now) × ((slot < length names.inner.ends.now + length names.outer.ends.now) × (slot ≡ slot_of (length names.inner.ends.now + length names.outer.ends.now) name.now)) }
    ensures { result ≡ held (latest_same (entry_name (list_of names.entry.inner) (list_of names.entry.outer) names.entry.added.now) name.now (length names.entry.inner.ends.now + length names.entry.added.now)) }
{
    let slots = names.inner.ends.len() + names.outer.ends.len();
    let mut behind = held(work[slot]);
    while let Some(number) = behind {
        let entry = number as usize;
        if entry_name(names, entry) == name {
            return Some(entry);
        }
        behind = held(work[slots + entry]);
    }
    None
}

// How many places the working memory of composing has: two for each inner name, and three for each outer one.
pub fn places_for(inner: usize, outer: usize) -> usize
    requires { (inner ≤ 2147483647) × (outer ≤ 2147483647) }
    ensures { result ≡ inner + outer + (inner + outer) + outer }
{
    2 * (inner + outer) + outer
}

// Makes the index of the inner names; no name is added yet. That both lists are sound stays a clause: see name_at of names.
pub fn index_names(inner: Names<'_, '_>, outer: Names<'_, '_>, work: &mut [u32])
    requires { ((sound (list_of inner) ≡ true) × (sound (list_of outer) ≡ true)) × (length inner.ends.now + length outer.ends.now + (length inner.ends.now + length outer.ends.now) + length outer.ends.now ≤ length work.old) }
    ensures { Indexed (list_of inner.entry) (list_of outer.entry) [] work.new }
{
    let count = inner.ends.len();
    let slots = count + outer.ends.len();
    work[..places_for(count, outer.ends.len())].fill(0);
    for entry in 0..count {
        let name = inner.name_at(count - 1 - entry);
        enter(work, slots, slot_of(name, slots), entry);
    }
}

// The id of an outer name: remembered, or found by the index, else new, and then entered.
pub fn indexed_name_id(names: Joined<'_, '_>, work: &mut [u32], id: u32) -> NameId
    requires { Searchable (list_of names.inner) (list_of names.outer) names.added.now × Indexed (list_of names.inner) (list_of names.outer) names.added.now work.old }
    ensures is { named_by names.entry.added.now id result ≡ outer_named (list_of names.entry.inner) (list_of names.entry.outer) names.entry.added.now id }
    ensures index { Indexed (list_of names.entry.inner) (list_of names.entry.outer) (outer_named (list_of names.entry.inner) (list_of names.entry.outer) names.entry.added.now id).added work.new }
{
    let Joined {
        inner,
        outer,
        added,
    } = names;
    let k = id as usize;
    let count = inner.ends.len();
    let slots = count + outer.ends.len();
    if outer.ends.len() <= k {
        return NameId::Found(token::NONE);
    }
    let memo = slots + slots + k;
    if let Some(known) = held(work[memo]) {
        return NameId::Found(known);
    }
    let name = outer.name_at(k);
    let slot = slot_of(name, slots);
    let Some(entry) = latest_same(names, work, slot, name) else {
        let entry = count + added.len();
        enter(work, slots, slot, entry);
        work[memo] = (entry + 1) as u32;
        return NameId::New(entry as u32);
    };
    let found = if entry < count {
        count - 1 - entry
    } else {
        entry
    };
    work[memo] = (found + 1) as u32;
    NameId::Found(found as u32)
}
