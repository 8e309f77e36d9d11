// dumpmap: prints the tokens of a text of mappings, from standard input.
#![tactic(auto)]

use std::io;

fn main(rt: HostRuntime) -> io::Result<()> {
    dump::dump_stdin(&rt)
}
