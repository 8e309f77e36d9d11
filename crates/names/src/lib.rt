// Name lists: a lent text and the 64-bit offsets where its names end.
#![tactic(auto)]

ghost use Rattle.std.specs.Prelude.{◌≡◌, true, ◌<◌, ◌≤◌, length};
ghost use Rattle.list.specs.Same.{same};
ghost use Rattle.names.specs.Names.{list_of, begin_of, sound, name_at, exists, place_at, place_of, name_of};

// The most names that a list may have.
pub const MOST: usize = 2147483647;

// Whether two names have the same bytes. Most differ in their length or their first byte: these are looked at before the rest, since `==`
// takes more to begin with than a short name takes as a whole.
pub fn same_bytes(a: &[u8], b: &[u8]) -> bool
    ensures { result ≡ same a.now b.now }
{
    if a.len() != b.len() {
        return false;
    }
    if a.len() != 0 && a[0] != b[0] {
        return false;
    }
    a == b
}

// A text, and where each name ends in it. A name is a part of the text, and outlives the ends.
#[derive(Clone, Copy)]
pub struct Names<'t, 'e> {
    pub text: &'t [u8],
    pub ends: &'e [usize],
}

// The names of a composed map: those of its inner map, and the outer ones that composing added, by their outer ids.
#[derive(Clone, Copy)]
pub struct Joined<'t, 'e> {
    pub inner: Names<'t, 'e>,
    pub outer: Names<'t, 'e>,
    pub added: &'e [u32],
}

// Where a name stands: in the outer text or the inner one, and from where to where.
#[derive(Clone, Copy)]
pub struct NamePlace {
    pub outer: bool,
    pub start: usize,
    pub end: usize,
}

impl<'t, 'e> Names<'t, 'e> {
    // Where the k-th name begins.
    fn begin_of(self, k: usize) -> usize
        requires { k ≤ length self.ends.now }
        ensures { result ≡ begin_of self.entry.ends.now k }
    {
        if k == 0 {
            return 0;
        }
        self.ends[k - 1]
    }

    // Whether a text and its ends are a name list.
    pub fn is_sound(self) -> bool
        ensures { result ≡ sound (list_of self.entry) }
    {
        if MOST < self.ends.len() {
            return false;
        }
        let mut from = 0;
        for &end in self.ends {
            if end < from {
                return false;
            }
            from = end;
        }
        from <= self.text.len()
    }

    // The k-th name, a part of the text. That the list is sound stays a clause and is no invariant of a type, since docs/PROMISES.md
    // names this function and what it asks.
    pub fn name_at(self, k: usize) -> &'t [u8]
        requires { (sound (list_of self) ≡ true) × (k < length self.ends.now) }
        ensures { result.now ≡ name_at (list_of self.entry) k }
    {
        &self.text[self.begin_of(k)..self.ends[k]]
    }

    // Where the k-th name stands, in the outer text or the inner one.
    fn place_at(self, outer: bool, k: usize) -> NamePlace
        requires { k < length self.ends.now }
        ensures { result ≡ place_at outer (list_of self.entry) k }
    {
        NamePlace {
            outer,
            start: self.begin_of(k),
            end: self.ends[k],
        }
    }
}

impl<'t, 'e> Joined<'t, 'e> {
    // Whether a result id has a name: an inner one, or an outer one that was added.
    pub fn name_exists(self, id: u32) -> bool
        ensures { result ≡ exists (list_of self.entry.inner) (list_of self.entry.outer) self.entry.added.now id }
    {
        if !self.inner.is_sound() || !self.outer.is_sound() {
            return false;
        }
        let at = id as usize;
        let count = self.inner.ends.len();
        if at < count {
            return true;
        }
        match self.added.get(at - count) {
            Some(&outer_id) => (outer_id as usize) < self.outer.ends.len(),
            None => false,
        }
    }

    // The name of a result id, a part of one of the two texts; empty where the id has none.
    pub fn name_of(self, id: u32) -> &'t [u8]
        ensures { result.now ≡ name_of (list_of self.entry.inner) (list_of self.entry.outer) self.entry.added.now id }
    {
        if !self.name_exists(id) {
            return &self.inner.text[0..0];
        }
        let k = id as usize;
        let count = self.inner.ends.len();
        if k < count {
            return self.inner.name_at(k);
        }
        self.outer.name_at(self.added[k - count] as usize)
    }

    // Where the name of a result id stands.
    pub fn name_place(self, id: u32) -> Option<NamePlace>
        ensures { result ≡ place_of (list_of self.entry.inner) (list_of self.entry.outer) self.entry.added.now id }
    {
        if !self.name_exists(id) {
            return None;
        }
        let at = id as usize;
        let count = self.inner.ends.len();
        if at < count {
            return Some(self.inner.place_at(false, at));
        }
        Some(self.outer.place_at(true, self.added[at - count] as usize))
    }
}
