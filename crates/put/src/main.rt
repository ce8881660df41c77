// Reads a frame from each line of standard input and writes its wire image, as a line of `0` and `1`; or `refused` and the number; or `not a
// frame` for a line that does not read. `old on` and `old off` mark old controllers, or do not, for the lines after.
#![tactic(auto)]

mod answers;
mod lines;
mod notation;

use std::io;

fn main(rt: HostRuntime) -> io::Result<()> {
    lines::answer_all(&mut rt.stdin(), rt.stdout())
}
