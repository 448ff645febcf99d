// Prints what a run says of the theory file on standard input, at most 65,536 bytes of it.
#![tactic(auto)]

use std::io;

fn main(rt: HostRuntime) {
    console::answer(&rt, &mut rt.stdin(), &mut io::writer(&rt));
}
