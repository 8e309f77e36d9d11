// Numbers in decimal, written into lent bytes.
#![tactic(auto)]

ghost use Rattle.std.specs.Prelude.{◌≡◌, ◌+◌, ◌≤◌, ◌<◌, length};
ghost use Rattle.list.specs.Put.{Put};
ghost use Rattle.decimal.specs.Decimal.{figures_of, figure as Decimal·figure};

// The byte of a figure.
fn figure(d: u64) -> u8
    requires { d < 10 }
    ensures { result ≡ Decimal·figure d }
{
    b'0' + d as u8
}

// Writes the figures of `n` from `at` on, and gives the place after them: those of all but the last, and then the last. A
// number of 64 bits has 20 at the most. std's `write!` stays out: into lent bytes its contract does not say which bytes it wrote.
pub fn put_decimal(out: &mut [u8], at: usize, n: u64) -> usize
    requires { at + length (figures_of n) ≤ length out.old }
    ensures { Put out.old at (figures_of n) result out.new }
{
    if n < 10 {
        out[at] = figure(n);
        return at + 1;
    }
    let i = put_decimal(out, at, n / 10);
    out[i] = figure(n % 10);
    i + 1
}
