// Reading into lent bytes, as far as there is room.
#![tactic(auto)]

ghost use Rattle.std.specs.Prelude.{◌≡◌, ◌<◌, IfOk, take, length};
ghost use Rattle.std.specs.Io.{ReadsAtMost};
ghost use Rattle.std.specs.Io.KnownBytes.{Consumes, IsAtEnd};

use std::io;
use std::io::{ErrorKind, Read};

// One read, and again where a signal interrupts it. Nothing says that signals end, so the tries are counted.
fn read_some<R: Read>(reader: &mut R, out: &mut [u8]) -> io::Result<usize>
    ensures bound { ReadsAtMost result out.new }
    ensures bytes { IfOk result (λ n. Consumes (R.remaining reader.old) (R.remaining reader.new) (take n out.new)) }
    ensures end { IfOk result (λ n. n ≡ 0 → 0 < length out.old → IsAtEnd (R.remaining reader.new)) }
{
    for _ in 0..u64::MAX {
        match reader.read(out) {
            Ok(n) => return Ok(n),
            Err(e) => {
                if e.kind() != ErrorKind::Interrupted {
                    return Err(e);
                }
            }
        }
    }
    reader.read(out)
}

// Reads until the lent bytes are full or the input ends, and gives how many bytes it put at their start. On no bytes it makes no
// call. How far a turn moves on is the read's to say, so it is no `for`. Where a read fails, some of the lent bytes may have been written.
pub fn read_full<R: Read>(reader: &mut R, out: &mut [u8]) -> io::Result<usize>
    ensures bound { ReadsAtMost result out.new }
    ensures bytes { IfOk result (λ n. Consumes (R.remaining reader.old) (R.remaining reader.new) (take n out.new)) }
    ensures end { IfOk result (λ n. n < length out.old → IsAtEnd (R.remaining reader.new)) }
{
    let mut done: usize = 0;
    while done < out.len() {
        let n = read_some(reader, &mut out[done..])?;
        if n == 0 {
            break;
        }
        done += n;
    }
    Ok(done)
}
