// The program where the book is torn off short: it is refused.
#![tactic(auto)]

use std::io;

fn main(rt: HostRuntime) -> io::Result<()> {
    service::serve(&rt)
}
