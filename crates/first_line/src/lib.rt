// The first line of an input: two counts, one space between, a newline.
#![tactic(auto)]

ghost use Rattle.std.specs.Prelude.{◌≡◌};
ghost use Rattle.first_line.specs.FirstLine.{Reads};
ghost use Rattle.first_line.specs.Reading.{ended_at, number_at};

// The counts of sources and of names, and where the text begins.
#[derive(Clone, Copy)]
pub struct FirstLine {
    pub sources: u32,
    pub names: u32,
    pub text: usize,
}

// The most figures of a count.
const MOST_FIGURES: usize = 10;

// A count, and where what follows its stop byte begins.
#[derive(Clone, Copy)]
struct Number {
    value: u32,
    next: usize,
}

// What so many figures with the value n are, once the stop byte is reached.
#[tactic(auto, unfolding(crate::specs::Reading::ended_at))]
fn ended(figures: usize, n: u64, next: usize) -> Option<Number>
    ensures { result ≡ ended_at figures n next }
{
    if figures == 0 {
        return None;
    }
    if 4294967295 < n {
        return None;
    }
    Some(Number {
        value: n as u32,
        next,
    })
}

// The count that begins at a place and ends at a stop byte.
fn number_at(s: &[u8], at: usize, stop: u8) -> Option<Number>
    ensures { result ≡ number_at s.now at stop }
{
    let mut n: u64 = 0;
    for i in at..s.len() {
        let b = s[i];
        if b == stop {
            return ended(i - at, n, i + 1);
        }
        if !b.is_ascii_digit() {
            return None;
        }
        if i - at == MOST_FIGURES {
            return None;
        }
        n = 10 * n + u64::from(b - b'0');
    }
    None
}

// The first line of an input: two counts, one space between, a newline.
pub fn first_line(input: &[u8]) -> Option<FirstLine>
    ensures { Reads input.now result }
{
    let sources = number_at(input, 0, b' ')?;
    let names = number_at(input, sources.next, b'\n')?;
    Some(FirstLine {
        sources: sources.value,
        names: names.value,
        text: names.next,
    })
}
