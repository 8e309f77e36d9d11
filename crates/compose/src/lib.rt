// Composes an outer map with the map of its input.
#![tactic(auto)]

ghost use Rattle.std.specs.Prelude.{◌≡◌, false, IfSome, [], List, ℕ, ◌<◌, length, take};
ghost use Rattle.token.specs.Table.{bad_table, tokens_of};
ghost use Rattle.seek.specs.Seek.{Halvable};
ghost use Rattle.names.specs.Names.{NameList, list_of};
ghost use Rattle.name_ids.specs.NameIds.{outer_named};
ghost use Rattle.name_ids.specs.Answers.{named_by, Searchable};
ghost use Rattle.name_index.specs.Index.{Indexed};
ghost use Rattle.compose.specs.Compose.{composed_from, composed, Composes, ComposesWith, maps};
ghost use Rattle.compose.specs.Steps.{unmapped_by, mapped_by, made_by, refusal_of, Leads, Askable, Lists, Ready, Written};

use code::Code;
use lookup::Position;
use name_ids::NameId;
use names::{Joined, Names};
use token::Token;

// A map as composing reads it: its table, and its names.
#[derive(Clone, Copy)]
pub struct Map<'a> {
    pub table: &'a [u32],
    pub names: Names<'a, 'a>,
}

// A way to find the ids of outer names. What it holds goes by the names that are added so far.
trait Finder {
    ghost Holds: { Self → NameList → NameList → List ℕ → Type 0 };

    fn outer_name_id(&mut self, names: Joined<'_, '_>, id: u32) -> NameId
        requires searchable { Searchable (list_of names.inner) (list_of names.outer) names.added.now }
        requires holds { Holds self.old (list_of names.inner) (list_of names.outer) names.added.now }
        ensures is { named_by names.entry.added.now id result ≡ outer_named (list_of names.entry.inner) (list_of names.entry.outer) names.entry.added.now id }
        ensures holds { Holds self.new (list_of names.entry.inner) (list_of names.entry.outer) (outer_named (list_of names.entry.inner) (list_of names.entry.outer) names.entry.added.now id).added };
}

// By searching the names.
#[derive(Drop)]
struct Search;

impl Finder for Search {
    ghost Holds = { λ _ _ _ _. Unit };

    fn outer_name_id(&mut self, names: Joined<'_, '_>, id: u32) -> NameId {
        name_ids::outer_name_id(names, id)
    }
}

// By the index in lent working memory.
#[derive(Drop)]
struct Index<'a> {
    work: &'a mut [u32],
}

impl Finder for Index<'_> {
    ghost Holds = { λ f inner outer ids. Indexed inner outer ids f.work.now };

    fn outer_name_id(&mut self, names: Joined<'_, '_>, id: u32) -> NameId {
        name_index::indexed_name_id(names, self.work, id)
    }
}

// How many names were added, and the last outer name id that was asked for, with the id that it was given. Before the first it is
// NONE with the id NONE, which no name has, and not an Option: asking then costs one comparison.
#[derive(Clone, Copy)]
struct Known {
    count: usize,
    last: u32,
    given: u32,
}

impl Known {
    // The id that an outer name is given; a new one is stored behind the others that were added. The last one is remembered.
    fn ask<F: Finder>(
        &mut self,
        inner: Names<'_, '_>,
        outer: Names<'_, '_>,
        added: &mut [u32],
        finder: &mut F,
        id: u32,
    ) -> u32
        requires askable { Askable (list_of inner) (list_of outer) added.old self.old }
        requires holds { F.Holds finder.old (list_of inner) (list_of outer) (take self.old.count added.old) }
        ensures gives { result ≡ (outer_named (list_of inner.entry) (list_of outer.entry) (take self.old.count added.old) id).id }
        ensures lists { Lists (list_of inner.entry) (list_of outer.entry) (outer_named (list_of inner.entry) (list_of outer.entry) (take self.old.count added.old) id).added added.old self.new added.new }
        ensures holds { F.Holds finder.new (list_of inner.entry) (list_of outer.entry) (outer_named (list_of inner.entry) (list_of outer.entry) (take self.old.count added.old) id).added }
    {
        if id == self.last {
            return self.given;
        }
        let count = self.count;
        let names = Joined {
            inner,
            outer,
            added: &added[..count],
        };
        let given = match finder.outer_name_id(names, id) {
            NameId::Found(given) => given,
            NameId::New(given) => {
                added[count] = id;
                self.count = count + 1;
                given
            }
        };
        self.last = id;
        self.given = given;
        given
    }
}

fn unmapped_token(t: Token) -> Token
    ensures { result ≡ unmapped_by t }
{
    Token {
        src_line: 0,
        src_col: 0,
        source_id: token::NONE,
        name_id: token::NONE,
        ..t
    }
}

// At the source position and id of the found token, with its name.
fn mapped_to(t: Token, o: Token) -> Token
    ensures { result ≡ mapped_by t o }
{
    Token {
        dst_line: t.dst_line,
        dst_col: t.dst_col,
        segment: t.segment,
        ..o
    }
}

// The inner token that an outer one leads to, if it has a source. It is sought from `place`, which then is where the
// next one is. An id is none by the number that C's tables hold, and is no Option. That the inner table is one stays a
// clause: see lookup::look_in.
fn origin(inner: &[u32], place: &mut Option<usize>, t: Token) -> Option<Token>
    requires { (bad_table (length inner.now) ≡ false) × IfSome place.old (Halvable inner.now) }
    ensures { Leads inner.now t result place.new }
{
    if t.source_id == token::NONE {
        return None;
    }
    let p = Position {
        line: t.src_line,
        col: t.src_col,
    };
    let s = seek::seek(inner, *place, p);
    *place = s.place;
    let o = token::token_at(inner, s.at? as usize);
    if o.source_id == token::NONE {
        return None;
    }
    Some(o)
}

// What an outer token becomes, over the inner token that it leads to: its own name is asked for where that one has none.
fn made_token<F: Finder>(
    t: Token,
    found: Option<Token>,
    inner: Names<'_, '_>,
    outer: Names<'_, '_>,
    added: &mut [u32],
    known: &mut Known,
    finder: &mut F,
) -> Token
    requires askable { Askable (list_of inner) (list_of outer) added.old known.old }
    requires holds { F.Holds finder.old (list_of inner) (list_of outer) (take known.old.count added.old) }
    ensures makes { result ≡ (made_by (list_of inner.entry) (list_of outer.entry) (take known.old.count added.old) t found).token }
    ensures lists { Lists (list_of inner.entry) (list_of outer.entry) (made_by (list_of inner.entry) (list_of outer.entry) (take known.old.count added.old) t found).added added.old known.new added.new }
    ensures holds { F.Holds finder.new (list_of inner.entry) (list_of outer.entry) (made_by (list_of inner.entry) (list_of outer.entry) (take known.old.count added.old) t found).added }
{
    let Some(o) = found else {
        return unmapped_token(t);
    };
    let made = mapped_to(t, o);
    if o.name_id != token::NONE {
        return made;
    }
    let name_id = known.ask(inner, outer, added, finder, t.name_id);
    Token { name_id, ..made }
}

// The result's tokens and the added names, where nothing is refused; how many names were added.
fn write_tokens<F: Finder>(
    outer: Map<'_>,
    inner: Map<'_>,
    res: &mut [u32],
    added: &mut [u32],
    finder: &mut F,
) -> usize
    requires ready { Ready (list_of inner.names) (list_of outer.names) inner.table.now outer.table.now (length res.old) (length added.old) }
    requires holds { F.Holds finder.old (list_of inner.names) (list_of outer.names) [] }
    ensures { Written (composed_from (list_of inner.entry.names) (list_of outer.entry.names) inner.entry.table.now [] (tokens_of outer.entry.table.now)) res.old added.old result res.new added.new }
{
    let mut known = Known {
        count: 0,
        last: token::NONE,
        given: token::NONE,
    };
    let mut place = seek::first_place(inner.table);
    for i in 0..token::places_in(outer.table.len()) {
        let t = token::token_at(outer.table, i);
        let found = origin(inner.table, &mut place, t);
        let made = made_token(
            t,
            found,
            inner.names,
            outer.names,
            added,
            &mut known,
            finder,
        );
        token::put_token(res, i, made);
    }
    known.count
}

// The tests, in the rules' order.
fn tested(
    outer: Map<'_>,
    outer_sources: u32,
    inner: Map<'_>,
    numbers: usize,
    room: usize,
) -> Result<(), Code>
    ensures { result ≡ refusal_of (composed (maps outer.entry outer_sources inner.entry) numbers room) }
{
    if 1 < outer_sources {
        return Err(Code::MoreThanOneSource);
    }
    if token::bad_table(outer.table.len()) || token::bad_table(inner.table.len()) {
        return Err(Code::BadTable);
    }
    if !outer.names.is_sound() || !inner.names.is_sound() {
        return Err(Code::BadNames);
    }
    if token::places_in(numbers) < token::places_in(outer.table.len()) {
        return Err(Code::TableFull);
    }
    if room < outer.names.ends.len() {
        return Err(Code::NoRoom(outer.names.ends.len() as u64));
    }
    Ok(())
}

// How many outer names were added. Each is found by searching the names.
pub fn compose(
    outer: Map<'_>,
    outer_sources: u32,
    inner: Map<'_>,
    res: &mut [u32],
    added: &mut [u32],
) -> Result<usize, Code>
    ensures { Composes (maps outer.entry outer_sources inner.entry) res.old added.old result res.new added.new }
{
    tested(outer, outer_sources, inner, res.len(), added.len())?;
    Ok(write_tokens(outer, inner, res, added, &mut Search))
}

// The same with lent working memory, in which the names are found by an index.
pub fn compose_with(
    outer: Map<'_>,
    outer_sources: u32,
    inner: Map<'_>,
    res: &mut [u32],
    added: &mut [u32],
    work: &mut [u32],
) -> Result<usize, Code>
    ensures { ComposesWith (maps outer.entry outer_sources inner.entry) res.old added.old work.old result res.new added.new work.new }
{
    tested(outer, outer_sources, inner, res.len(), added.len())?;
    let needed = name_index::places_for(inner.names.ends.len(), outer.names.ends.len());
    if work.len() < needed {
        return Err(Code::NoRoom(needed as u64));
    }
    name_index::index_names(inner.names, outer.names, work);
    Ok(write_tokens(outer, inner, res, added, &mut Index { work }))
}
