// Reads a sheet on standard input and prints it in its house form, or `refused N line L`.
#![tactic(auto)]

use std::io;

fn main(rt: HostRuntime) -> io::Result<()> {
    report::house(&mut rt.stdin(), &mut rt.stdout())
}
