// Propagation, universal tables and boxes on whole books: some with known answers, and many random small ones, of which each
// answer is compared with the definitions read directly.
#![tactic(auto)]

mod direct;
mod fixed;
mod library;
mod made;
mod random;

use std::io;

fn main(rt: HostRuntime) -> io::Result<()> {
    let mut rows = vec![in rt.alloc(); [0u8; 4]; 512]?;
    fixed::sample_book(&rt, &mut rows)?;
    fixed::five_options(&rt, &mut rows)?;
    fixed::three_options(&rt, &mut rows)?;
    random::random_books(&rt, &mut rows, 2000)
}
