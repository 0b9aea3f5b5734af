// Reads a line `n,H` on standard input and prints the heaviest sheet of n events, the horizon H and no signal, or
// `refused N line L`.
#![tactic(auto)]

use std::io;

fn main(rt: HostRuntime) -> io::Result<()> {
    report::ring(&mut rt.stdin(), &mut rt.stdout())
}
