// Reads a sheet on standard input and prints the listing of its least good table, or `refused N line L`.
#![tactic(auto)]

use std::io;

fn main(rt: HostRuntime) -> io::Result<()> {
    report::table(&mut rt.stdin(), &mut rt.stdout())
}
