// How large a table a text needs: one token for each of its segments.
#![tactic(auto)]

ghost use Rattle.std.specs.Prelude.{◌≡◌, ◌≤◌, ◌+◌, ◌-◌, ◌*◌, ◌^◌, ltb, false};
ghost use Rattle.list.specs.Pick.{pick};
ghost use Rattle.token.specs.Table.{width};
ghost use Rattle.digits.specs.Digits.{is_delim};
ghost use Rattle.table_size.specs.Size.{segments_from, table_size};

// `,` or `;`, by the byte's code: the byte is compared with both. The one comparison of digits multiplies first, and takes longer over a whole
// text.
fn is_delim(b: u8) -> bool
    ensures { result ≡ is_delim b }
{
    digits::code_of(b) == 64
}

// How many segments begin after a byte: one more where the byte begins one.
fn counted(n: usize, inside: bool, delim: bool) -> usize
    requires { n ≤ 2 ^ 63 }
    ensures { result ≡ pick delim n (pick inside n (n + 1)) }
{
    if delim {
        return n;
    }
    if inside {
        return n;
    }
    n + 1
}

// The segments of a text.
fn segments(text: &[u8]) -> usize
    ensures { result ≡ segments_from false text.now }
{
    let mut n: usize = 0;
    let mut inside = false;
    for b in text {
        let delim = is_delim(*b);
        n = counted(n, inside, delim);
        inside = !delim;
    }
    n
}

// So many numbers as a table, or the largest number where they are more.
fn numbers(n: usize) -> usize
    ensures { result ≡ pick (ltb (2 ^ 64 - 1) (width * n)) (2 ^ 64 - 1) (width * n) }
{
    if usize::MAX / token::WIDTH < n {
        return usize::MAX;
    }
    token::WIDTH * n
}

// The numbers that a table needs so that decoding the text never says TableFull.
pub fn table_size(text: &[u8]) -> usize
    ensures { result ≡ table_size text.now }
{
    numbers(segments(text))
}
