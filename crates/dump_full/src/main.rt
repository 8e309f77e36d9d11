// The longest input that dumpmap takes: 16,384 bytes, with a token at the last.
#![tactic(auto)]

use std::io;

fn main(rt: HostRuntime) -> io::Result<()> {
    dump::dump_stdin(&rt)
}
