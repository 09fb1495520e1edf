// The file from which the programs read a book.
#![tactic(auto)]

ghost use Rattle.std.specs.Prelude.{◌≡◌, take, IfOk, IfSome};

use std::alloc::Global;
use std::fs::File;
use std::io;
use std::io::Read;

/// The first bytes that a reader gives. One byte more than a book may have is enough to refuse it.
pub fn first_bytes<R: Read + Drop>(alloc: Global, reader: R) -> io::Result<Vec<u8>>
    ensures { IfOk result (λ bytes. IfSome (R.remaining reader) (λ all. bytes.items ≡ take 32769 all)) }
{
    let mut bytes = Vec::new(alloc);
    reader.take(32769).read_to_end(&mut bytes)?;
    Ok(bytes)
}

/// The first bytes of book.bin; none where it cannot be opened or read. No clause can say what a file holds.
pub fn load(rt: &HostRuntime) -> Vec<u8> {
    let Ok(file) = File::open(rt, "book.bin") else {
        return Vec::new(rt.alloc());
    };
    match first_bytes(rt.alloc(), file) {
        Ok(bytes) => bytes,
        Err(_) => Vec::new(rt.alloc()),
    }
}

#[cfg(test)]
mod tests {
    use super::*;
    use std::test::Fail;

    #[test]
    fn all_bytes_of_a_short_file(rt: HostRuntime) -> Result<(), Fail> {
        let bytes = first_bytes(rt.alloc(), &b"book"[..])?;
        assert!(rt; bytes.as_slice() == b"book".as_slice());
        Ok(())
    }
}
