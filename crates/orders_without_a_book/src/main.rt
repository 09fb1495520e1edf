// The program where there is no book: a file that cannot be opened counts as empty, and is refused.
#![tactic(auto)]

use std::io;

fn main(rt: HostRuntime) -> io::Result<()> {
    service::serve(&rt)
}
