// Reads a former sheet on standard input and prints it with a `max` and a `min` row in the place of each `fix`, or
// `refused N line L`.
#![tactic(auto)]

use std::io;

fn main(rt: HostRuntime) -> io::Result<()> {
    report::convert(&mut rt.stdin(), &mut rt.stdout())
}
