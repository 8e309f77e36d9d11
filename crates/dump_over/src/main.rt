// One byte more than dumpmap takes.
#![tactic(auto)]

use std::io;

fn main(rt: HostRuntime) -> io::Result<()> {
    dump::dump_stdin(&rt)
}
