// A recorded answer of composing, held to what the library gives, by either call.
//
// The numbers: sources; how many outer numbers, inner numbers, outer names and inner names; the bytes of the outer names. Then the
// outer tokens, the inner tokens, the result's tokens, the outer ends, the inner ends and the added names. The text has the outer
// names and then the inner names.
#![tactic(auto)]

ghost use Rattle.replay.specs.Counts.{IsPrefixLen};

use compose::Map;
use names::Names;

// The numbers of a list as name ends, as far as there is room for them; how many.
fn ends_in(numbers: &[u32], out: &mut [usize]) -> usize
    ensures { IsPrefixLen result out.new }
{
    for (end, &n) in out.iter_mut().zip(numbers) {
        *end = n as usize;
    }
    numbers.len().min(out.len())
}

// What a record asks for, and what it wants.
#[derive(Clone, Copy)]
struct Record<'a> {
    outer: Map<'a>,
    sources: u32,
    inner: Map<'a>,
    want: &'a [u32],
    want_added: &'a [u32],
}

// By the plain call, or by the one with working memory where it is lent; into lists that hold sevens.
fn composes(r: Record<'_>, res: &mut [u32], added: &mut [u32], work: Option<&mut [u32]>) -> bool {
    let answer = match work {
        Some(work) => compose::compose_with(r.outer, r.sources, r.inner, res, added, work),
        None => compose::compose(r.outer, r.sources, r.inner, res, added),
    };
    let Ok(count) = answer else {
        return false;
    };
    count == r.want_added.len()
        && replay::holds(res, r.want, 7)
        && replay::holds(added, r.want_added, 7)
}

// By either call, with more room than it takes, and with just enough: the working memory then holds what the call before left.
fn both_compose(r: Record<'_>) -> bool {
    let places = r.want.len();
    let outer_count = r.outer.names.ends.len();
    let inner_count = r.inner.names.ends.len();
    if 480 < places || 32 < outer_count || 32 < inner_count {
        return false;
    }
    let needed = 2 * inner_count + 3 * outer_count;
    let mut work = replay::sevens();
    composes(r, &mut replay::sevens(), &mut replay::sevens(), None)
        && composes(
            r,
            &mut replay::sevens()[..places],
            &mut replay::sevens()[..outer_count],
            None,
        )
        && composes(
            r,
            &mut replay::sevens(),
            &mut replay::sevens(),
            Some(&mut work),
        )
        && composes(
            r,
            &mut replay::sevens()[..places],
            &mut replay::sevens()[..outer_count],
            Some(&mut work[..needed]),
        )
}

pub fn compose_agrees<'a>(numbers: &'a [u32], text: &'a [u8]) -> bool {
    if numbers.len() < 6 {
        return false;
    }
    let inner = 6 + numbers[1] as usize;
    let result = inner + numbers[2] as usize;
    let outer_ends = result + numbers[1] as usize;
    let inner_ends = outer_ends + numbers[3] as usize;
    let added = inner_ends + numbers[4] as usize;
    let names = numbers[5] as usize;
    if numbers.len() < added || text.len() < names {
        return false;
    }
    let mut outer_list = [0; 32];
    let n = ends_in(&numbers[outer_ends..inner_ends], &mut outer_list);
    let mut inner_list = [0; 32];
    let m = ends_in(&numbers[inner_ends..added], &mut inner_list);
    both_compose(Record {
        outer: Map {
            table: &numbers[6..inner],
            names: Names {
                text: &text[..names],
                ends: &outer_list[..n],
            },
        },
        sources: numbers[0],
        inner: Map {
            table: &numbers[inner..result],
            names: Names {
                text: &text[names..],
                ends: &inner_list[..m],
            },
        },
        want: &numbers[result..outer_ends],
        want_added: &numbers[added..],
    })
}
